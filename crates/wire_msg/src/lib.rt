//! What the nodes of the simulated machine send one another: the messages, the calls of threads among them,
//! their envelopes, and which node may send what to which. This simulator's own, after Graphite (HPCA 2010).
#![tactic(auto)]

mod calls;
mod envelopes;
pub mod error_numbers;
mod lines;
mod messages;
mod routes;

pub use calls::Call;
pub use envelopes::{Envelope, Out};
pub use lines::{Up, Want};
pub use messages::Msg;
pub use sim_base::{Bytes, Line, LineData, NodeId};
