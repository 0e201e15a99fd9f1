//! Runs on one thread: the run that a seed draws, and the run that a journal tells.
#![tactic(auto)]

mod driver;
mod laws;
mod picking;
mod replays;

pub use driver::{DriveFault, run_alone};
pub use laws::one_is_drawn;
pub use replays::{ReplayFault, replay};
