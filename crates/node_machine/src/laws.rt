//! Laws of the machine as the program keeps it: what is read of it, and how many steps are made at once.

ghost use Rattle.node_machine.specs.Alone.{StepsArePinned};
ghost use Rattle.node_machine.specs.Shown.{ShownIsRead, SomeIsShown, StartIsShown};

/// A law: what is read of a core is read of each state that it shows: which events are enabled, which nodes can act, from
/// whom messages wait, how it has ended, and how many events each node made.
pub fn shown_is_read()
    ensures { ShownIsRead }
{}

/// A law: each core shows a state, and the one before the program runs shows the state then.
pub fn states_are_shown()
    ensures some { SomeIsShown }
    ensures start { StartIsShown }
{}

/// A law: how many steps of a node are made one after the other is pinned by the state before them.
pub fn steps_on_are_pinned()
    ensures { StepsArePinned }
{}
