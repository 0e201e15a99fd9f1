//! A message on its way, and what a node sends in an event.

use crate::messages::Msg;
use sim_base::NodeId;

/// What a node sends in one event: receivers and messages, in the order of sending.
pub type Out = Vec<(NodeId, Msg)>;

/// A message on its way.
#[derive(Drop)]
pub struct Envelope {
    /// The node that sent it.
    pub from: NodeId,
    /// The node that is to take it.
    pub to: NodeId,
    /// The stamp of the event that sent it.
    pub stamp: u64,
    /// What it says.
    pub msg: Msg,
}
