//! What is read of a machine: which events are enabled, how it ended, counts, holds and output.

ghost use Rattle.std.specs.Prelude.{◌≡◌, false, sum, slice_get};
ghost use Rattle.sim_base.specs.Saturated.{saturated};
ghost use Rattle.node_machine.specs.Core.{can_make_in, is_enabled_in, steps_at, counts_at, hold_at, output_at, ended_in, end_in, acting_in, senders_in};

use crate::cores::Core;
use crate::nodes::Node;
use event_journal::Event;
use node_set::NodeSet;
use sim_base::{End, Line, NodeId};
use tile_cache::Hold;
use tile_node::TileCounts;

impl Core {
    /// Whether an event is enabled: its nodes are among the machine's, the one that acts may make one more event, and it
    /// can step, or a message waits for it from the sender.
    pub fn is_enabled(&self, event: Event) -> bool
        ensures lists { result ≡ is_enabled_in self.now event }
    {
        let id = event.node();
        match self.made.get(id as usize) {
            Some(made) if *made < self.room => self.can_make(event),
            _ => false,
        }
    }

    /// Whether the node whose event it is can step, or a message waits for it from the sender.
    fn can_make(&self, event: Event) -> bool
        ensures { result ≡ can_make_in self.now event }
    {
        match event {
            Event::Step { node } => self.can_step(node),
            Event::Deliver { from, node } => self.pending.has(from, node),
        }
    }

    /// Whether a node can make a step of its own.
    #[inline]
    pub fn can_step(&self, node: NodeId) -> bool
        ensures { result ≡ steps_at (slice_get self.now.nodes node) }
    {
        if !self.spent {
            return self.pending.can_step(node);
        }
        self.is_able(node)
    }

    /// Whether a node can make a step of its own, as the node itself says.
    #[inline(never)]
    fn is_able(&self, node: NodeId) -> bool
        ensures { result ≡ steps_at (slice_get self.now.nodes node) }
    {
        match self.nodes.get(node as usize) {
            Some(node) => node.can_step(),
            None => false,
        }
    }

    /// How it has ended: as the control server says; or else by the budget, where some node has made as many events as
    /// each may.
    pub fn end(&self) -> Option<End>
        ensures { result ≡ end_in self.now }
    {
        match self.ended() {
            Some(end) => Some(end),
            None if self.full => Some(End::Budget),
            None => None,
        }
    }

    /// How the program ended, as the control server says.
    fn ended(&self) -> Option<End>
        ensures { result ≡ ended_in (slice_get self.now.nodes self.now.tiles) }
    {
        match self.nodes.get(self.tiles as usize) {
            Some(Node::Control { control }) => control.ended(),
            _ => None,
        }
    }

    /// How many events were made.
    pub fn count(&self) -> u64
        ensures { result ≡ saturated (sum self.now.made) }
    {
        let mut count: u64 = 0;
        for made in &self.made {
            count = count.saturating_add(*made as u64);
        }
        count
    }

    /// How many tiles there are.
    pub fn tiles(&self) -> u32
        ensures { result ≡ self.now.tiles }
    {
        self.tiles
    }

    /// What a tile has counted. A node that is no tile has counted nothing.
    pub fn counts(&self, tile: NodeId) -> TileCounts
        ensures { result ≡ counts_at (slice_get self.now.nodes tile) }
    {
        match self.nodes.get(tile as usize) {
            Some(Node::Tile { tile }) => tile.counts(),
            _ => TileCounts {
                clock: 0,
                instr: 0,
                hits: 0,
                misses: 0,
            },
        }
    }

    /// How a tile's cache holds a line, if it does. A node that is no tile holds none.
    pub fn hold(&self, tile: NodeId, line: Line) -> Option<Hold>
        ensures { result ≡ hold_at (slice_get self.now.nodes tile) line }
    {
        match self.nodes.get(tile as usize) {
            Some(Node::Tile { tile }) => tile.hold(line),
            _ => None,
        }
    }

    /// What the program has output, in bytes.
    pub fn output(&self) -> &[u8]
        ensures { result.now ≡ output_at (slice_get self.now.nodes self.now.tiles) }
    {
        match self.nodes.get(self.tiles as usize) {
            Some(Node::Control { control }) => control.output(),
            _ => &[],
        }
    }

    /// The nodes that can act, since they can step or a message waits for them, in ascending order.
    pub fn acting(&self) -> &NodeSet
        ensures { self.now.spent ≡ false → result.now ≡ acting_in self.now }
    {
        self.pending.acting()
    }

    /// The senders from whom a message waits for a node, in ascending order.
    pub fn senders(&self, node: NodeId) -> &NodeSet
        ensures { result.now ≡ senders_in self.now node }
    {
        self.pending.senders(node)
    }
}
