//! Where the threads of a run wait at its end, by the flat machine: it makes the actions that the run's events commit.

use elf_image::World;
use event_journal::Journal;
use flat_machine::{Flat, Status, Thread};
use node_machine::Core;
use sim_base::{NoMemory, NodeId};
use std::alloc::Global;

/// The register that has a call's number, and the one that has its first argument.
const A7: u8 = 17;

const A0: u8 = 10;

/// The number of the call join.
const JOIN: u64 = 2049;

/// A thread that waits.
#[derive(Clone, Copy, Debug)]
pub struct Waits {
    /// Its number.
    pub thread: u32,
    /// The tile that it stands on, if it does.
    pub tile: Option<NodeId>,
    /// Where it waits.
    pub place: Place,
}

/// Where a thread waits.
#[derive(Clone, Copy, Debug)]
pub enum Place {
    /// At the futex word at an address.
    Word { address: u64 },
    /// For the exit of the thread with this number.
    Exit { thread: u64 },
}

/// The threads that are parked after a run's events, in ascending order. There are none where the events' actions aren't
/// all legal, or the events no run.
pub(crate) fn waits_of(
    alloc: Global,
    world: &World,
    journal: &Journal,
) -> Result<Vec<Waits>, NoMemory> {
    let mut core = Core::start(alloc, world)?;
    let mut flat = Flat::start(alloc, world)?;
    let mut left = journal.events();
    for _event in 0..journal.count() {
        let Some(event) = left.next() else {
            return Ok(Vec::new(alloc));
        };
        match core.apply(alloc, world, event) {
            Ok(Some(action)) => {
                if flat.act(alloc, world, &action).is_err() {
                    return Ok(Vec::new(alloc));
                }
            }
            Ok(None) => {}
            Err(_) => return Ok(Vec::new(alloc)),
        }
    }
    parked_in(alloc, flat.threads())
}

/// The parked ones of these threads, which stand by number.
fn parked_in(alloc: Global, threads: &[Thread]) -> Result<Vec<Waits>, NoMemory> {
    let mut all = Vec::new(alloc);
    for (number, thread) in threads.iter().enumerate() {
        if matches!(&thread.status, Status::Parked) {
            all.push(Waits {
                thread: u32::try_from(number).unwrap_or(u32::MAX),
                tile: thread.tile,
                place: place_of(thread),
            })?;
        }
    }
    Ok(all)
}

/// Where a parked thread waits, by the registers of its call.
fn place_of(thread: &Thread) -> Place {
    let first = thread.regs.get(A0);
    if thread.regs.get(A7) == JOIN {
        Place::Exit { thread: first }
    } else {
        Place::Word { address: first }
    }
}

/// Appends a line for each thread.
pub(crate) fn push_waits(
    alloc: Global,
    text: &mut String,
    waits: &[Waits],
) -> Result<(), NoMemory> {
    for one in waits.iter() {
        push_thread(alloc, text, one)?;
    }
    Ok(())
}

/// Appends the line of a thread.
fn push_thread(alloc: Global, text: &mut String, one: &Waits) -> Result<(), NoMemory> {
    let thread = one.thread;
    text.push_str(format!(in alloc; "  thread {thread}")?.as_str())?;
    if let Some(tile) = one.tile {
        text.push_str(format!(in alloc; " on tile {tile}")?.as_str())?;
    }
    let line = match one.place {
        Place::Word { address } => format!(in alloc; " waits at the word at 0x{address:x}\n")?,
        Place::Exit { thread } => format!(in alloc; " joins thread {thread}\n")?,
    };
    text.push_str(line.as_str())?;
    Ok(())
}
