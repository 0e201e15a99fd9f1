//! The call itself.
ghost use Rattle.std.specs.Prelude.{◌≡◌, []};
ghost use Rattle.sim_top.specs.Stage.{reads};
ghost use Rattle.sim_top.specs.Answer.{Answers, stream, writes};
ghost use Rattle.sim_top.specs.Causes.{HasCause, IsCoherentRun};
ghost use Rattle.sim_top.specs.Clauses.{IsPrinted};
ghost use Rattle.sim_top.specs.Inner.{Stores, WritesAll};
ghost use Rattle.sim_top.specs.Text.{status_of};

use crate::decision::decide;
use crate::outcomes::{Decision, FileToWrite, Finish, Outcome};
use crate::putting::put_all;
use event_journal::Journal;
use sim_base::Text;
use sim_outside::{Failed, Files, Sink, WriteAnswer};
use std::alloc::Global;

/// The whole simulator, on one thread of the host: `words` are those after the program's name. In order: the words are read;
/// the settings, the image and the journal to replay are read and checked; the program is run, or its journal is replayed;
/// the text is put on `out`; and a run's journal is written to its file, where one is named. `gen` writes the image of a
/// workload and puts nothing, and `bench` runs one. What fails ends the call. It always returns.
pub fn execute_alone<F: Files, S: Sink>(
    alloc: Global,
    words: &[Text],
    files: &mut F,
    out: &mut S,
) -> Finish
    ensures status { result.status ≡ status_of result.outcome }
    ensures answer { Answers words.now
        (reads (F.holds files.old) (F.read_faults files.old) (F.read_faults files.new))
        (stream (S.faults out.old) (S.faults out.new) (S.taken out.old) (S.taken out.new))
        (writes (F.holds files.old) (F.holds files.new) (F.write_faults files.old) (F.write_faults files.new))
        result.outcome result.journal }
    ensures cause { HasCause words.now
        (reads (F.holds files.old) (F.read_faults files.old) (F.read_faults files.new))
        (stream (S.faults out.old) (S.faults out.new) (S.taken out.old) (S.taken out.new))
        (writes (F.holds files.old) (F.holds files.new) (F.write_faults files.old) (F.write_faults files.new))
        result.outcome result.journal }
    ensures printed { IsPrinted words.now
        (reads (F.holds files.old) (F.read_faults files.old) (F.read_faults files.new))
        (stream (S.faults out.old) (S.faults out.new) (S.taken out.old) (S.taken out.new))
        result.outcome result.journal }
    ensures coherent { IsCoherentRun words.now
        (reads (F.holds files.old) (F.read_faults files.old) (F.read_faults files.new))
        result.journal }
{
    answer(alloc, words, files, out)
}

/// The answer of a call.
fn answer<F: Files, S: Sink>(alloc: Global, words: &[Text], files: &mut F, out: &mut S) -> Finish
    ensures status { result.status ≡ status_of result.outcome }
    ensures answer { Answers words.now
        (reads (F.holds files.old) (F.read_faults files.old) (F.read_faults files.new))
        (stream (S.faults out.old) (S.faults out.new) (S.taken out.old) (S.taken out.new))
        (writes (F.holds files.old) (F.holds files.new) (F.write_faults files.old) (F.write_faults files.new))
        result.outcome result.journal }
{
    let Ok(decision) = decide(alloc, words, files) else {
        return finish(Outcome::NoMemory, no_events(alloc));
    };
    match put_all(out, decision.text.as_slice()) {
        Ok(()) => store(alloc, files, decision),
        Err(Failed) => finish(Outcome::WriteFault, decision.journal),
    }
}

/// Writes the files of a decision, and answers.
fn store<F: Files>(alloc: Global, files: &mut F, decision: Decision) -> Finish
    ensures stores { Stores decision result.outcome result.journal
        (writes (F.holds files.old) (F.holds files.new) (F.write_faults files.old) (F.write_faults files.new)) }
    ensures status { result.status ≡ status_of result.outcome }
    ensures reads { F.read_faults files.new ≡ F.read_faults files.old }
{
    match write_files(files, decision.files.as_slice()) {
        Ok(()) => finish(decision.outcome, decision.journal),
        Err(WriteAnswer::Failed) => finish(Outcome::WriteFault, decision.journal),
        Err(WriteAnswer::NoMemory) => finish(Outcome::NoMemory, no_events(alloc)),
    }
}

/// Writes files, in order, up to one that fails.
fn write_files<F: Files>(files: &mut F, list: &[FileToWrite]) -> Result<(), WriteAnswer>
    ensures writes { WritesAll result
        (writes (F.holds files.old) (F.holds files.new) (F.write_faults files.old) (F.write_faults files.new)) list.now }
    ensures reads { F.read_faults files.new ≡ F.read_faults files.old }
{
    for file in list {
        files.write_all(file.name.as_str(), file.bytes.as_slice())?;
    }
    Ok(())
}

/// The journal without events.
fn no_events(alloc: Global) -> Journal
    ensures { result ≡ [] }
{
    Journal::new(alloc)
}

/// The answer with this outcome and this journal.
fn finish(outcome: Outcome, journal: Journal) -> Finish
    ensures outcome { result.outcome ≡ outcome }
    ensures journal { result.journal ≡ journal }
    ensures status { result.status ≡ status_of outcome }
{
    let status = match outcome {
        Outcome::Done { .. } | Outcome::Written => 0,
        Outcome::Trap { .. } => 1,
        Outcome::Deadlock => 2,
        Outcome::Budget => 3,
        Outcome::Usage => 4,
        Outcome::BadConfig { .. } => 5,
        Outcome::BadImage { .. } => 6,
        Outcome::BadJournal { .. } => 7,
        Outcome::ReadFault => 8,
        Outcome::WriteFault => 9,
        Outcome::NoMemory => 10,
        Outcome::Stuck => 11,
    };
    Finish {
        status,
        outcome,
        journal,
    }
}
