//! What a person needs who is told that something is wrong: a few lines for each outcome of a call of the simulator.
#![tactic(auto)]

mod advice;
mod again;
mod commands;
mod events;
mod images;
mod names;
mod rules;
mod settings;
mod traps;
mod waits;

pub use advice::hint;
pub use again::{Known, are_plain_files, look_again};
pub use waits::{Place, Waits};
