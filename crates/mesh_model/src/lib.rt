//! Where the nodes of a simulated machine stand, how many hops lie between them, and what steps and
//! messages cost, in cycles. The tiles fill a square mesh row by row, as in Graphite (HPCA 2010).
#![tactic(auto)]

mod costs;
mod distances;

pub use costs::{cost, dearest, delay};
pub use distances::{diameter, hops};
