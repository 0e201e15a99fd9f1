//! The law that a run's end by a trap has an event in which that instruction trapped.

ghost use Rattle.node_machine.specs.Trapping.{TrapHasCause};

/// A law: a run that ended by a trap of a thread at a pc has an event in which that thread's instruction at that pc trapped
/// so: a step of the tile that runs the thread there, whose plan is that trap, and which commits it.
pub fn trap_has_cause()
    ensures { TrapHasCause }
{}
