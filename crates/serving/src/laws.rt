//! A law of control data: for whom a parked thread waits.

ghost use Rattle.serving.specs.Laws.{WaitsForWhomItJoins};

/// A law: a parked thread waits for another's exit exactly where it is the one that is parked joining it.
pub fn parking_waits_for_joined()
    ensures { WaitsForWhomItJoins }
{}
