//! The run that a seed draws, event by event, up to an end.

ghost use Rattle.std.specs.Prelude.{◌≡◌, ◌+◌, ◌*◌, ◌++◌, None, OnOk, OnErr, Err, length};
ghost use Rattle.sim_base.specs.Numbering.{node_count};
ghost use Rattle.sim_base.specs.Settings.{IsChecked};
ghost use Rattle.seq_driver.specs.declared.driver.DriveFault.TheVariants.{NoMemory as OutOfMemory};
ghost use Rattle.seq_driver.specs.Driven.{Drives};
ghost use Rattle.seq_driver.specs.Inner.{IsUnderWay, IsDrawing, IsLone, GoesOn, after_draws};
ghost use Rattle.node_machine.specs.Core.{acting_in, end_in};
ghost use Rattle.node_machine.specs.Alone.{steps_of};

use crate::picking::{Stream, drawn_event, lone_stepper};
use elf_image::World;
use event_journal::{Event, Journal};
use node_machine::{ApplyFault, Core, Ran};
use sim_base::{Config, NoMemory, NodeId};
use std::alloc::{AllocError, AllocFailed, Global};

/// Why a run came to no end.
#[derive(Clone, Copy, Debug, PartialEq, Eq)]
pub enum DriveFault {
    /// It came to a state without an end in which no event is enabled.
    Stuck,
    /// Memory ran out.
    NoMemory,
}

impl From<NoMemory> for DriveFault {
    ghost from_gives = { λ _ e. e ≡ OutOfMemory };

    fn from(_error: NoMemory) -> DriveFault {
        DriveFault::NoMemory
    }
}

impl From<AllocError> for DriveFault {
    ghost from_gives = { λ _ e. e ≡ OutOfMemory };

    fn from(_error: AllocError) -> DriveFault {
        DriveFault::NoMemory
    }
}

impl<X: Drop> From<AllocFailed<X>> for DriveFault {
    ghost from_gives = { λ _ e. e ≡ OutOfMemory };

    fn from(_error: AllocFailed<X>) -> DriveFault {
        DriveFault::NoMemory
    }
}

/// Runs a world's image under its settings, from before the program runs to the first state that has an end: the control
/// server has ended, or some node has made as many events as the settings allow. Which event comes next is drawn from the
/// settings' seed: of the stream `Lcg64Xsh32::new(seed, 0)` each event takes two words; the first, modulo the number of
/// nodes that can act, picks the node in ascending order, and the second, modulo the number of its choices, picks among
/// its step and its waiting senders in ascending order. This simulator's own.
pub fn run_alone(alloc: Global, world: &World) -> Result<Ran, DriveFault>
    ensures { Drives world.now result }
{
    let config = world.config();
    let mut core = Core::start(alloc, world)?;
    let mut stream = Stream::new(alloc, config.seed, config.nodes() + 1)?;
    let mut journal = Journal::new(alloc);
    for _turn in 0..most_turns(config) {
        if let Some(end) = core.end() {
            return Ok(Ran { journal, core, end });
        }
        go_on(alloc, world, &mut core, &mut stream, &mut journal)?;
    }
    Err(DriveFault::Stuck)
}

/// Makes the next event of a run without an end, or the next ones.
fn go_on(
    alloc: Global,
    world: &World,
    core: &mut Core,
    stream: &mut Stream,
    journal: &mut Journal,
) -> Result<(), DriveFault>
    requires under_way { IsUnderWay world.now core.old journal.old }
    requires drawing { IsDrawing world.now stream.old journal.old }
    requires no_end { end_in core.old ≡ None }
    ensures { GoesOn world.now result core.new stream.new journal.old journal.new }
{
    let count = core.acting().len();
    match lone_stepper(core, count) {
        Some(node) => step_on(alloc, world, core, stream, journal, node),
        None => draw_one(alloc, world, core, stream, journal, count),
    }
}

/// Makes the event that the stream draws, where so many nodes can act.
fn draw_one(
    alloc: Global,
    world: &World,
    core: &mut Core,
    stream: &mut Stream,
    journal: &mut Journal,
    count: usize,
) -> Result<(), DriveFault>
    requires count { count ≡ length (acting_in core.old) }
    requires under_way { IsUnderWay world.now core.old journal.old }
    requires drawing { IsDrawing world.now stream.old journal.old }
    requires no_end { end_in core.old ≡ None }
    ensures { GoesOn world.now result core.new stream.new journal.old journal.new }
{
    let Some(event) = drawn_event(core, stream, count) else {
        return Err(DriveFault::Stuck);
    };
    core.apply_enabled(alloc, world, event)?;
    journal.push(event)?;
    Ok(())
}

/// Makes steps of the only node that can act, which can do nothing else: whatever the stream's words are, they draw these.
fn step_on(
    alloc: Global,
    world: &World,
    core: &mut Core,
    stream: &mut Stream,
    journal: &mut Journal,
    node: NodeId,
) -> Result<(), DriveFault>
    requires under_way { IsUnderWay world.now core.old journal.old }
    requires drawing { IsDrawing world.now stream.old journal.old }
    requires no_end { end_in core.old ≡ None }
    requires lone { IsLone core.old node }
    ensures { GoesOn world.now result core.new stream.new journal.old journal.new }
{
    match core.step_on(alloc, world, node) {
        Ok(count) => note_steps(stream, journal, node, count)?,
        Err(ApplyFault::NotEnabled) => return Err(DriveFault::Stuck),
        Err(ApplyFault::NoMemory) => return Err(DriveFault::NoMemory),
    }
    Ok(())
}

/// So many steps of a node join the journal, and the stream passes the words that drew them.
fn note_steps(
    stream: &mut Stream,
    journal: &mut Journal,
    node: NodeId,
    count: u32,
) -> Result<(), DriveFault>
    ensures journal { OnOk result (journal.new ≡ journal.old ++ steps_of node count) }
    ensures stream { OnOk result (stream.new ≡ after_draws stream.old (steps_of node count)) }
    ensures memory { OnErr result (result ≡ Err OutOfMemory) }
{
    journal.push_times(Event::Step { node }, count)?;
    stream.pass(node, count);
    Ok(())
}

/// How many turns a run takes at most: one for each event that the nodes may make, and one that finds the end.
fn most_turns(config: &Config) -> u64
    requires { IsChecked config.now }
    ensures { result ≡ node_count config.now * config.now.events + 1 }
{
    config.nodes() as u64 * config.events as u64 + 1
}
