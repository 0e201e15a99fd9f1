//! The flat machine: one memory of bytes, and threads that act one at a time. It is the plain
//! machine that everything else is measured against, and its interpreter.
#![tactic(auto)]

mod laws;
mod machine;
mod moves;
mod regions;
mod requests;
mod reservations;
mod runner;
mod threads;

pub use laws::{end_stays, mapped_stays, one_legal_action, run_is_of_actions, trap_has_cause};
pub use machine::{ActFault, Flat};
pub use regions::Memory;
pub use runner::run;
pub use threads::{Status, Thread};
