//! From the words to what a call comes to before anything is put or written.
ghost use Rattle.std.specs.Prelude.{◌≡◌, IfOk};
ghost use Rattle.sim_top.specs.Stage.{reads};
ghost use Rattle.sim_top.specs.Verdict.{without_run};
ghost use Rattle.sim_top.specs.Commands.{Decides};
ghost use Rattle.sim_top.specs.Inner.{decided};

use crate::commands::carry_out;
use crate::faults::fault_line;
use crate::outcomes::{Decision, Halt, Outcome};
use event_journal::Journal;
use sim_base::{Bytes, NoMemory, Text};
use sim_config::{RequestFault, request_of};
use sim_outside::Files;
use std::alloc::Global;

/// What the words and the files that they name come to.
pub(crate) fn decide<F: Files>(
    alloc: Global,
    words: &[Text],
    files: &mut F,
) -> Result<Decision, NoMemory>
    ensures decision { IfOk result (λ decision. Decides words.now
        (reads (F.holds files.old) (F.read_faults files.old) (F.read_faults files.new)) (decided decision)) }
    ensures kept { F.holds files.new ≡ F.holds files.old }
    ensures writes { F.write_faults files.new ≡ F.write_faults files.old }
{
    let request = match request_of(alloc, words) {
        Ok(request) => request,
        Err(RequestFault::Usage) => return refuse(alloc, Outcome::Usage),
        Err(RequestFault::NoMemory) => return Err(NoMemory),
    };
    match carry_out(alloc, &request, files) {
        Ok(decision) => Ok(decision),
        Err(Halt::Refused { outcome }) => refuse(alloc, outcome),
        Err(Halt::NoMemory) => Err(NoMemory),
    }
}

/// An outcome with its fault line, and no run.
fn refuse(alloc: Global, outcome: Outcome) -> Result<Decision, NoMemory>
    ensures { IfOk result (λ decision. decided decision ≡ without_run outcome) }
{
    let text = Bytes::from_vec(fault_line(alloc, &outcome)?);
    Ok(Decision {
        outcome,
        journal: Journal::new(alloc),
        text,
        files: Vec::new(alloc),
    })
}
