//! The private cache of a tile: set-associative and write-back, with the least recently used line of a
//! set as its victim, and how what it holds of each line changes with each call.
#![tactic(auto)]

mod cache;
mod laws;
mod set;
mod ways;

pub use cache::Cache;
pub use laws::{answers_tell, changes_keep, changes_show, victims_are_held};
pub use ways::{Hold, Way};
