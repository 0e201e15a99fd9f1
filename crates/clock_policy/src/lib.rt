//! How the clocks of tiles are kept near one another: epochs, whose barrier all active threads meet at, and probes,
//! by which a tile asks another one's clock. After LaxBarrier and LaxP2P of Graphite (HPCA 2010).
#![tactic(auto)]

mod epochs;
mod members;
mod probes;

pub use epochs::Epochs;
pub use members::Member;
pub use probes::{Probes, may_go_on};
