//! The laws of the flat machine: theorems over all its states and runs.

ghost use Rattle.flat_machine.specs.Run.{MadeIsLegal, LegalIsMade, TrapHasCause, MappedStays};
ghost use Rattle.flat_machine.specs.Acts.{RunIsOfActions, EndStays};

/// A law: the action that a run makes is legal; and of a machine of one thread that is at no store-conditional
/// and has begun, it is the only legal one.
pub fn one_legal_action()
    ensures legal { MadeIsLegal }
    ensures only { LegalIsMade }
{}

/// A law: where a run ended by a trap, the thread's instruction has trapped so in an earlier state of the run.
pub fn trap_has_cause()
    ensures { TrapHasCause }
{}

/// A law: no action changes which addresses are mapped.
pub fn mapped_stays()
    ensures { MappedStays }
{}

/// A law: the state after so many turns of the run with one thread is that after a list of legal actions, one for each
/// turn, or fewer where none is legal alone any more.
pub fn run_is_of_actions()
    ensures { RunIsOfActions }
{}

/// A law: an end stays, whatever is done after it.
pub fn end_stays()
    ensures { EndStays }
{}
