//! The law that a seed draws at most one run.

ghost use Rattle.seq_driver.specs.Driven.{OneIsDrawn};

/// A law: a world has one run that its seed draws up to a state with an end, at most.
pub fn one_is_drawn()
    ensures { OneIsDrawn }
{}
