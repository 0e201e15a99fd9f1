//! The commands: what each comes to before anything is put or written.
ghost use Rattle.std.specs.Prelude.{◌≡◌, ◌≤◌, Some, IfOk, option_copied};
ghost use Rattle.std.specs.Option.{option_to_list};
ghost use Rattle.journal_file.specs.File.{journal_bytes};
ghost use Rattle.sim_config.specs.Request.{replayed_name};
ghost use Rattle.sim_top.specs.Stage.{reads, and_then};
ghost use Rattle.sim_top.specs.Asked.{machine};
ghost use Rattle.sim_top.specs.Runs.{drawn, outcome_of};
ghost use Rattle.sim_top.specs.Commands.{command_of};
ghost use Rattle.sim_top.specs.Commands.Replay.{replay};
ghost use Rattle.sim_top.specs.Inner.{HasImage, TellsVerdict, Draws, Follows, IsOfRun, IsOfWorkload};

use crate::asked::{machine_of, replayed_in};
use crate::outcomes::{Decision, FileToWrite, Halt, JournalFault, Outcome};
use elf_image::{World, write_image};
use event_journal::Journal;
use journal_file::write_journal;
use node_machine::Ran;
use seq_driver::{DriveFault, ReplayFault, run_alone};
use sim_base::{Bytes, End, Kind, NoMemory, Text};
use sim_config::Request;
use sim_outside::Files;
use stats_report::report;
use std::alloc::Global;
use workload_gen::generate;

/// What a request comes to.
pub(crate) fn carry_out<F: Files>(
    alloc: Global,
    request: &Request,
    files: &mut F,
) -> Result<Decision, Halt>
    ensures stage { TellsVerdict (command_of request.now request.now)
        (reads (F.holds files.old) (F.read_faults files.old) (F.read_faults files.new)) result }
    ensures kept { F.holds files.new ≡ F.holds files.old }
    ensures writes { F.write_faults files.new ≡ F.write_faults files.old }
{
    match request {
        Request::Run { journal, .. } => run(alloc, request, journal.as_ref(), files),
        Request::Replay { journal, .. } => replay(alloc, request, journal, files),
        Request::Gen { kind, seed, out } => Ok(write_workload(alloc, *kind, *seed, out)?),
        Request::Bench { .. } => run(alloc, request, None, files),
    }
}

/// A run of the machine that its seed draws, its journal written to a file, where one is named.
fn run<F: Files>(
    alloc: Global,
    request: &Request,
    journal: Option<&Text>,
    files: &mut F,
) -> Result<Decision, Halt>
    requires { HasImage request.now }
    ensures stage { TellsVerdict (and_then (machine request.now) (drawn (option_to_list (option_copied journal.entry))))
        (reads (F.holds files.old) (F.read_faults files.old) (F.read_faults files.new)) result }
    ensures kept { F.holds files.new ≡ F.holds files.old }
    ensures writes { F.write_faults files.new ≡ F.write_faults files.old }
{
    let world = machine_of(alloc, request, files)?;
    let ran = draw(alloc, &world)?;
    Ok(decide_run(alloc, journal, ran)?)
}

/// The run of a journal's file, made again.
fn replay<F: Files>(
    alloc: Global,
    request: &Request,
    journal: &Text,
    files: &mut F,
) -> Result<Decision, Halt>
    requires image { HasImage request.now }
    requires named { replayed_name request.now ≡ Some journal.now }
    ensures stage { TellsVerdict (replay request.now)
        (reads (F.holds files.old) (F.read_faults files.old) (F.read_faults files.new)) result }
    ensures kept { F.holds files.new ≡ F.holds files.old }
    ensures writes { F.write_faults files.new ≡ F.write_faults files.old }
{
    let world = machine_of(alloc, request, files)?;
    let events = replayed_in(alloc, request, journal, files)?;
    let ran = follow(alloc, &world, events)?;
    Ok(decide_run(alloc, None, ran)?)
}

/// The image of a workload, to be written to a file.
fn write_workload(alloc: Global, kind: Kind, seed: u64, name: &Text) -> Result<Decision, NoMemory>
    ensures { IfOk result (IsOfWorkload kind seed name.now) }
{
    let image = generate(alloc, kind, seed)?;
    let bytes = Bytes::from_vec(write_image(alloc, &image)?);
    Ok(Decision {
        outcome: Outcome::Written,
        journal: Journal::new(alloc),
        text: Bytes::from_vec(Vec::new(alloc)),
        files: vec![in alloc;
            FileToWrite {
                name: Text::new(alloc, name.as_str())?,
                bytes
            },
        ]?,
    })
}

/// The run that the seed draws.
fn draw(alloc: Global, world: &World) -> Result<Ran, Halt>
    ensures { Draws world.now result }
{
    match run_alone(alloc, world) {
        Ok(ran) => Ok(ran),
        Err(DriveFault::Stuck) => Err(Halt::Refused {
            outcome: Outcome::Stuck,
        }),
        Err(DriveFault::NoMemory) => Err(Halt::NoMemory),
    }
}

/// The run that a journal tells.
fn follow(alloc: Global, world: &World, journal: Journal) -> Result<Ran, Halt>
    ensures { Follows world.now journal result }
{
    let fault = match seq_driver::replay(alloc, world, journal) {
        Ok(ran) => return Ok(ran),
        Err(ReplayFault::NotEnabled { index }) => JournalFault::Event { index },
        Err(ReplayFault::Unfinished { count }) => JournalFault::Unfinished { count },
        Err(ReplayFault::NoMemory) => return Err(Halt::NoMemory),
    };
    Err(Halt::Refused {
        outcome: Outcome::BadJournal { fault },
    })
}

/// What a run comes to: its end, its report, and the file of its journal where one is asked for.
fn decide_run(alloc: Global, name: Option<&Text>, ran: Ran) -> Result<Decision, NoMemory>
    requires { ran.core.tiles ≤ 256 }
    ensures { IfOk result (IsOfRun (option_to_list (option_copied name.entry)) ran) }
{
    let text = Bytes::from_vec(report(alloc, &ran.core, &ran.end)?);
    let files = match name {
        Some(name) => vec![in alloc; journal_to_write(alloc, name, &ran.journal)?]?,
        None => Vec::new(alloc),
    };
    Ok(Decision {
        outcome: outcome_of(ran.end),
        journal: ran.journal,
        text,
        files,
    })
}

/// The file of a journal, to be written to a name.
fn journal_to_write(alloc: Global, name: &Text, journal: &Journal) -> Result<FileToWrite, NoMemory>
    ensures { IfOk result (λ file. (file.name ≡ name.now) × (file.bytes ≡ journal_bytes journal.now)) }
{
    Ok(FileToWrite {
        name: Text::new(alloc, name.as_str())?,
        bytes: Bytes::from_vec(write_journal(alloc, journal)?),
    })
}

/// The outcome of a run that ended so.
fn outcome_of(end: End) -> Outcome
    ensures { result ≡ outcome_of end }
{
    match end {
        End::Exit { code } => Outcome::Done { code },
        End::Trap { thread, cause, pc } => Outcome::Trap { thread, cause, pc },
        End::Deadlock => Outcome::Deadlock,
        End::Budget => Outcome::Budget,
    }
}
