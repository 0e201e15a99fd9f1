//! How a journal is written as a file's bytes.

ghost use Rattle.std.specs.Prelude.{◌≡◌, ◌++◌, IfOk, OnOk};
ghost use Rattle.std.specs.List.{flat_map};
ghost use Rattle.journal_file.specs.File.{journal_bytes, event_bytes};

use event_journal::{Event, Events, Journal};
use sim_base::NoMemory;
use std::alloc::Global;

/// The eight bytes that each file begins with.
pub(crate) const MAGIC: [u8; 8] = *b"TILEJNL1";

/// What stands in a sender's place where a node steps.
pub(crate) const STEP: u8 = 255;

/// The file of a journal. Reading it gives the same journal, if no sender in it is 255 and the file has at most
/// [`crate::MOST_BYTES`] bytes.
pub fn write_journal(alloc: Global, journal: &Journal) -> Result<Vec<u8>, NoMemory>
    ensures { IfOk result (λ file. file.items ≡ journal_bytes journal.now) }
{
    let mut file = Vec::new(alloc);
    file.extend_from_slice(&MAGIC)?;
    file.extend_from_slice(&journal.count().to_le_bytes())?;
    push_events(&mut file, journal.events())?;
    Ok(file)
}

/// Appends two bytes for each event.
fn push_events(file: &mut Vec<u8>, mut events: Events<'_>) -> Result<(), NoMemory>
    ensures { OnOk result (file.new.items ≡ file.old.items ++ flat_map event_bytes events.entry) }
{
    while let Some(event) = events.next() {
        file.extend_from_slice(&event_bytes(&event))?;
    }
    Ok(())
}

/// The two bytes of an event: the acting node, and then the mark of a step, or the sender.
fn event_bytes(event: &Event) -> [u8; 2]
    ensures { result ≡ event_bytes event.now }
{
    match *event {
        Event::Step { node } => [node, STEP],
        Event::Deliver { from, node } => [node, from],
    }
}
