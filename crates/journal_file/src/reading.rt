//! How a journal is read from a file's bytes, or the first place where the file is wrong.

ghost use Rattle.std.specs.Prelude.{◌≡◌, ◌≤◌, ◌+◌, ◌*◌, length, IfOk, IfNone};
ghost use Rattle.journal_file.specs.Reading.{front_fault, told_count, fault_place, event_of, events_in, reading, Reads};

use crate::refusal::JournalRefusal;
use crate::writing::{MAGIC, STEP};
use event_journal::{Event, Journal};
use sim_base::{NoMemory, NodeId};
use std::alloc::Global;

/// The greatest length of a file that is read, in bytes.
pub const MOST_BYTES: usize = 300_000_000;

/// How many bytes stand before the events.
const HEAD: usize = 16;

/// Reads the journal of a file. One that isn't a journal's is refused with the first place where it isn't: the first of
/// the eight bytes `TILEJNL1` that differs or is missing; the file's length, where it ends before its last event does;
/// the end of the last event, where something follows.
pub fn read_journal(alloc: Global, bytes: &[u8]) -> Result<Journal, JournalRefusal>
    ensures { Reads result (reading bytes.now) }
{
    if bytes.len() > MOST_BYTES {
        return Err(JournalRefusal::TooLong);
    }
    if let Some(at) = fault_place(bytes) {
        return Err(JournalRefusal::Byte { at });
    }
    let events = read_events(alloc, &bytes[HEAD..])?;
    Ok(Journal::of(alloc, events))
}

/// The first place where a file isn't that of a journal.
fn fault_place(bytes: &[u8]) -> Option<u64>
    ensures place { result ≡ fault_place bytes.now }
    ensures room { IfNone result (16 ≤ length bytes.now) }
{
    let front = front_fault(bytes);
    if front < MAGIC.len() {
        return Some(front as u64);
    }
    let len = bytes.len() as u64;
    if bytes.len() < HEAD {
        return Some(len);
    }
    let size = HEAD as u128 + 2 * u128::from(told_count(bytes));
    if u128::from(len) < size {
        Some(len)
    } else if size < u128::from(len) {
        Some(size as u64)
    } else {
        None
    }
}

/// The first of the eight bytes that differs or is missing, or 8.
fn front_fault(bytes: &[u8]) -> usize
    ensures { result ≡ front_fault bytes.now }
{
    for (at, wanted) in MAGIC.iter().enumerate() {
        if bytes.len() <= at || bytes[at] != *wanted {
            return at;
        }
    }
    MAGIC.len()
}

/// The number of events that a file tells.
fn told_count(bytes: &[u8]) -> u64
    requires { 16 ≤ length bytes.now }
    ensures { result ≡ told_count bytes.now }
{
    let mut number = [0; 8];
    number.copy_from_slice(&bytes[8..HEAD]);
    u64::from_le_bytes(number)
}

/// The events of bytes, two bytes an event.
fn read_events(alloc: Global, bytes: &[u8]) -> Result<Vec<Event>, NoMemory>
    ensures { IfOk result (λ events. events.items ≡ events_in bytes.now) }
{
    let mut events = Vec::new(alloc);
    let mut left = bytes;
    while let [node, other, rest @ ..] = left {
        events.push(event_of(*node, *other))?;
        left = rest;
    }
    Ok(events)
}

/// The event of two bytes.
fn event_of(node: NodeId, other: u8) -> Event
    ensures { result ≡ event_of node other }
{
    if other == STEP {
        Event::Step { node }
    } else {
        Event::Deliver { from: other, node }
    }
}
