//! A machine of numbered nodes, as a trait: their steps, and what a message makes of a node.

ghost use Rattle.std.specs.Prelude.{◌≡◌, ◌++◌, ℕ, true, OnOk};
ghost use Rattle.event_journal.specs.Rules.{Rules};

use sim_base::{NoMemory, NodeId};
use std::alloc::Global;

/// A machine of numbered nodes that send one another messages. Its rules say what a node becomes and sends at each
/// event; its methods do what the rules say.
pub trait Machine {
    /// What a node is.
    type Node;
    /// What nodes send one another.
    type Msg;

    /// What each event makes of a node.
    ghost rules: { Self → Rules Self.Node Self.Msg };

    /// Whether a node, with its number, is one of this machine: its events keep that.
    ghost fits: { Self → ℕ → Self.Node → Type 0 };

    /// The number of events that each node may make.
    fn room(&self) -> u32
        ensures { result ≡ (rules self.now).room };

    /// Whether a node can make a step of its own.
    fn can_step(&self, node: &Self::Node) -> bool
        ensures { result ≡ (rules self.now).can_step node.now };

    /// Makes a node's step, and appends what it sends, with each message's receiver. The node can make one. Where
    /// memory runs out, nothing is known of the node and of `out`.
    fn step(
        &self,
        alloc: Global,
        id: NodeId,
        node: &mut Self::Node,
        out: &mut Vec<(NodeId, Self::Msg)>,
    ) -> Result<(), NoMemory>
        requires fits { fits self.now id node.old }
        requires can { (rules self.now).can_step node.old ≡ true }
        ensures fits { OnOk result (fits self.now id node.new) }
        ensures node { OnOk result (node.new ≡ ((rules self.now).step id node.old).node) }
        ensures sent { OnOk result (out.new.items ≡ out.old.items ++ ((rules self.now).step id node.old).sent) };

    /// Gives a node a message from another, and appends what it sends, with each message's receiver. Where memory runs
    /// out, nothing is known of the node and of `out`.
    fn deliver(
        &self,
        alloc: Global,
        id: NodeId,
        node: &mut Self::Node,
        from: NodeId,
        msg: Self::Msg,
        out: &mut Vec<(NodeId, Self::Msg)>,
    ) -> Result<(), NoMemory>
        requires fits { fits self.now id node.old }
        ensures fits { OnOk result (fits self.now id node.new) }
        ensures node { OnOk result (node.new ≡ ((rules self.now).deliver id node.old from msg).node) }
        ensures sent { OnOk result (out.new.items
            ≡ out.old.items ++ ((rules self.now).deliver id node.old from msg).sent) };
}
