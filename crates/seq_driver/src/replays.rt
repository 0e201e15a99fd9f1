//! The run that a journal tells, or the first event that isn't one of it.

ghost use Rattle.seq_driver.specs.declared.replays.ReplayFault.TheVariants.{NoMemory as OutOfMemory};
ghost use Rattle.seq_driver.specs.Replayed.{Replays};
ghost use Rattle.std.specs.Prelude.{◌≡◌};

use elf_image::World;
use event_journal::Journal;
use node_machine::{ApplyFault, Core, Ran};
use sim_base::NoMemory;
use std::alloc::Global;

/// Why a journal isn't the whole of a run.
#[derive(Clone, Copy, Debug, PartialEq, Eq)]
pub enum ReplayFault {
    /// The event of this index, counted from 0, isn't enabled in the state after those before it.
    NotEnabled { index: u64 },
    /// All its events, of this number, are enabled, and the state after them has no end.
    Unfinished { count: u64 },
    /// Memory ran out.
    NoMemory,
}

impl From<NoMemory> for ReplayFault {
    ghost from_gives = { λ _ e. e ≡ OutOfMemory };

    fn from(_error: NoMemory) -> ReplayFault {
        ReplayFault::NoMemory
    }
}

/// Makes a journal's events, in their order, on the machine that runs a world's image under its settings, from before
/// the program runs. The first event that isn't enabled is refused, and so is a journal that leads to a state without an
/// end. Of the seed only whom a tile asks depends, under the policy `LaxP2p`. This simulator's own.
pub fn replay(alloc: Global, world: &World, journal: Journal) -> Result<Ran, ReplayFault>
    ensures { Replays world.now journal result }
{
    let mut core = Core::start(alloc, world)?;
    let mut left = journal.events();
    let mut index = 0;
    while let Some(event) = left.next() {
        match core.apply(alloc, world, event) {
            Ok(_) => {}
            Err(ApplyFault::NotEnabled) => return Err(ReplayFault::NotEnabled { index }),
            Err(ApplyFault::NoMemory) => return Err(ReplayFault::NoMemory),
        }
        index += 1;
    }
    let count = journal.count();
    match core.end() {
        Some(end) => Ok(Ran { journal, core, end }),
        None => Err(ReplayFault::Unfinished { count }),
    }
}
