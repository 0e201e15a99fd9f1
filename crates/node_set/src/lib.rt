//! Sets of nodes, as bits: 40 bytes, and no other memory.
#![tactic(auto)]

mod laws;
mod set;
mod words;

pub use laws::{one_fewer_passes, one_more_passes, with_ascends, with_is_insert, without_ascends};
pub use set::NodeSet;
