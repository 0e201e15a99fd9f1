//! An event of a machine of numbered nodes, and which node acts in it.

ghost use Rattle.std.specs.Prelude.{◌≡◌};
ghost use Rattle.event_journal.specs.Event.{acting_node};

use sim_base::NodeId;

/// One event of a machine: one node acts, and no other changes.
#[derive(Clone, Copy, Debug, PartialEq, Eq)]
pub enum Event {
    /// A node makes a step of its own.
    Step { node: NodeId },
    /// A node takes the first message that waits for it from another.
    Deliver { from: NodeId, node: NodeId },
}

impl Event {
    /// The node that acts: the one that steps, or the one that takes a message.
    pub fn node(&self) -> NodeId
        ensures { result ≡ acting_node self.now }
    {
        match *self {
            Event::Step { node } | Event::Deliver { node, .. } => node,
        }
    }
}
