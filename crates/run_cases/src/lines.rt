//! Who holds a line amid a run.

use crate::words::journal_bytes;
use crate::worlds::world;
use coherence_laws::{Held, holders};
use elf_image::World;
use event_journal::Journal;
use journal_file::read_journal;
use node_machine::Core;
use sim_base::Line;
use std::alloc::Global;
use std::io;

/// Prints who holds a line after the first events of a case's journal, so many: both are in the value `LINE@EVENTS`.
pub fn hold(rt: &impl Print, alloc: Global, case: &str, value: &str) -> io::Result<()> {
    let (line, events) = value.split_once('@').unwrap_or((value, "0"));
    let line = line.parse::<u64>().unwrap_or(0);
    let events = events.parse::<u64>().unwrap_or(0);
    match held_amid(alloc, case, line, events) {
        Some(held) => print(rt, held),
        None => println!(rt; "no such state"),
    }
}

/// Prints who holds a line.
fn print(rt: &impl Print, held: Held) -> io::Result<()> {
    let writer = held.writer;
    let readers = held.readers;
    println!(rt; "writer {writer:?}, readers {readers}")
}

/// Who holds a line after the first events of a case's journal, so many.
fn held_amid(alloc: Global, case: &str, line: Line, events: u64) -> Option<Held> {
    let journal = journal(alloc, case)?;
    let target = world(alloc, case)?;
    held_after(alloc, &target, &journal, events, line)
}

/// The journal of a case.
fn journal(alloc: Global, case: &str) -> Option<Journal> {
    let bytes = journal_bytes(alloc, case).ok()?;
    read_journal(alloc, bytes.as_slice()).ok()
}

/// Who holds a line after the first events of a journal, so many.
fn held_after(
    alloc: Global,
    target: &World,
    journal: &Journal,
    events: u64,
    line: Line,
) -> Option<Held> {
    let mut core = Core::start(alloc, target).ok()?;
    let mut left = journal.events();
    for _event in 0..events {
        core.apply(alloc, target, left.next()?).ok()?;
    }
    if core.tiles() > 256 {
        return None;
    }
    Some(holders(&core, line))
}
