//! Cases of journal files: six events, their bytes, and where a changed file is refused.

use event_journal::{Event, Journal};
use journal_file::{JournalRefusal, read_journal, write_journal};
use sim_base::NoMemory;
use std::alloc::Global;

/// Three steps of node 0, a message of 0 to 2, one of 2 to 1, and a step of 1.
static EVENTS: [Event; 6] = [
    Event::Step { node: 0 },
    Event::Step { node: 0 },
    Event::Step { node: 0 },
    Event::Deliver { from: 0, node: 2 },
    Event::Deliver { from: 2, node: 1 },
    Event::Step { node: 1 },
];

/// Their file of 28 bytes, and one byte more.
static FILE: [u8; 29] = [
    0x54, 0x49, 0x4c, 0x45, 0x4a, 0x4e, 0x4c, 0x31, 6, 0, 0, 0, 0, 0, 0, 0, 0, 0xff, 0, 0xff, 0,
    0xff, 2, 0, 1, 2, 1, 0xff, 0,
];

/// Whether the file that is written of the events is theirs.
fn is_written(alloc: Global) -> Result<bool, NoMemory> {
    let events = Vec::from_slice(alloc, &EVENTS)?;
    let file = write_journal(alloc, &Journal::of(alloc, events))?;
    Ok(file.as_slice() == &FILE[..28])
}

/// Whether the first `len` bytes of the file, with another byte at a place, are read as the events.
fn reads(alloc: Global, at: usize, byte: u8, len: usize) -> Result<bool, JournalRefusal> {
    let mut file = FILE;
    if let Some(place) = file.get_mut(at) {
        *place = byte;
    }
    let part = file.get(..len).unwrap_or(&[]);
    let journal = read_journal(alloc, part)?;
    let events = events_of(alloc, &journal)?;
    Ok(events.as_slice() == EVENTS.as_slice())
}

/// The events of a journal.
fn events_of(alloc: Global, journal: &Journal) -> Result<Vec<Event>, NoMemory> {
    let mut events = Vec::new(alloc);
    let mut left = journal.events();
    while let Some(event) = left.next() {
        events.push(event)?;
    }
    Ok(events)
}

#[test]
fn six_events_have_their_file(rt: HostRuntime) {
    let is_written = is_written(rt.alloc()).unwrap_or(false);
    assert!(rt; is_written, "the 28 bytes");
}

/// The place at which the file, changed so, is refused. A file that is read as other events has the last place of all.
fn refused_at(alloc: Global, at: usize, byte: u8, len: usize) -> Option<u64> {
    match reads(alloc, at, byte, len) {
        Ok(true) => None,
        Err(JournalRefusal::Byte { at }) => Some(at),
        _ => Some(u64::MAX),
    }
}

/// Files, by the byte that is changed in this one and how long they are, with the place at which they are refused.
static ROWS: [(&str, usize, u8, usize, Option<u64>); 11] = [
    ("the file", 0, 0x54, 28, None),
    ("its first 27 bytes", 0, 0x54, 27, Some(27)),
    ("a byte after the last event", 0, 0x54, 29, Some(28)),
    ("an event after those counted", 8, 5, 28, Some(26)),
    ("fewer events than are counted", 8, 7, 28, Some(28)),
    ("a count that passes 64 bits", 15, 0x80, 28, Some(28)),
    ("nothing", 0, 0x54, 0, Some(0)),
    ("a part of the eight bytes", 0, 0x54, 7, Some(7)),
    ("a part of the count", 0, 0x54, 15, Some(15)),
    ("another version", 7, 0x32, 28, Some(7)),
    ("another third byte", 2, 0, 5, Some(2)),
];

#[test]
fn a_file_is_read_or_refused_at_its_first_wrong_place(rt: HostRuntime) {
    for &(name, at, byte, len, refused) in &ROWS {
        let is_wanted = refused_at(rt.alloc(), at, byte, len) == refused;
        assert!(rt; is_wanted, "{name}");
    }
}
