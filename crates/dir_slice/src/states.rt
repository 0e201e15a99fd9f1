//! What a line's home knows: the requests that wait, who holds the line, and which transaction is under way.
ghost use Rattle.std.specs.Prelude.{◌≡◌, ◌<◌, ◌≤◌, All};
ghost use Rattle.dir_slice.specs.Directory.{farthest};
ghost use Rattle.dir_slice.specs.Line.{awaited, is_busy};
ghost use Rattle.dir_slice.specs.Inner.{state_of, IsSite, StateIsWithin};

use mesh_model::hops;
use node_set::NodeSet;
use sim_base::{Config, NodeId};
use std::marker::Model;
use wire_msg::Want;

/// A request for a line, which waits until its turn comes.
#[derive(Clone, Copy)]
pub(crate) struct Request {
    /// The node that asks.
    pub(crate) from: NodeId,
    /// What it wants the line for.
    pub(crate) want: Want,
}

impl Model for Request {
    ghost use Rattle.dir_slice.specs.Line.{Request};

    ghost Value = { Request };

    ghost view = { λ q. record { from = q.from; want = q.want } };

    ghost inverse = { λ q. record { from = q.from; want = q.want } };
}

/// Who holds a line, as its home knows, and which transaction is under way.
#[derive(Drop)]
pub(crate) enum State {
    /// Nobody holds it.
    Uncached,
    /// These nodes hold it to read.
    Shared {
        sharers: NodeSet,
    },
    /// One node holds it to write.
    Modified {
        owner: NodeId,
    },
    /// A writer waits until these nodes have dropped their copies.
    BusyInv {
        requester: NodeId,
        left: NodeSet,
    },
    /// A reader or a writer waits until the owner has shared the line or given it up.
    BusyFetch {
        want: Want,
        requester: NodeId,
        owner: NodeId,
    },
}

impl State {
    /// Whether a transaction is under way.
    #[inline]
    pub(crate) fn is_busy(&self) -> bool
        ensures { result ≡ is_busy (state_of self.now) }
    {
        match self {
            State::BusyInv { .. } | State::BusyFetch { .. } => true,
            _ => false,
        }
    }

    /// The nodes that the state waits for, which have to share the line or give it up.
    #[inline]
    pub(crate) fn awaited(&self) -> NodeSet
        ensures { result ≡ awaited (state_of self.now) }
    {
        match self {
            State::BusyInv { left, .. } => left.copy(),
            State::BusyFetch { owner, .. } => NodeSet::of(*owner),
            _ => NodeSet::new(),
        }
    }

    /// The greatest number of hops from a home to a node that the state waits for, 0 where it waits for none.
    #[inline]
    pub(crate) fn farthest(&self, config: &Config, tile: NodeId) -> u64
        requires site { IsSite config.now tile }
        requires within { StateIsWithin config.now.tiles (state_of self.now) }
        ensures { result ≡ farthest config.now tile (awaited (state_of self.now)) }
    {
        match self {
            State::BusyInv { left, .. } => farthest(config, tile, left.copy()),
            State::BusyFetch { owner, .. } => hops(config, tile, *owner),
            _ => 0,
        }
    }
}

/// The greatest number of hops from a home to one of these nodes, 0 where there is none.
fn farthest(config: &Config, tile: NodeId, nodes: NodeSet) -> u64
    requires site { IsSite config.now tile }
    requires within { All (λ node. node ≤ config.now.tiles) nodes }
    ensures { result ≡ farthest config.now tile nodes }
{
    let mut left = nodes;
    let mut most = 0;
    while let Some(node) = left.pop_first() {
        most = most.max(hops(config, tile, node));
    }
    most
}
