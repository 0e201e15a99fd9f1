//! The text of a run: what the program put out, and the report on it.
#![tactic(auto)]

mod core_report;
mod laws;
mod lines;

pub use core_report::report;
pub use laws::text_is_of_state;
