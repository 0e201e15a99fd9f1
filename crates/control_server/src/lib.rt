//! The control server: it serves what threads ask, one request after the other, and tells tiles and local servers what
//! came of it. After Graphite's master control program (HPCA 2010).
#![tactic(auto)]

mod control;
mod hosts;
mod laws;
mod requests;

pub use control::Control;
pub use laws::{end_stays, limits_go_out_in_order};
