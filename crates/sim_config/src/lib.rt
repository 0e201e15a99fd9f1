//! What a user gives: the words of the command line, and a settings file. Each is told exactly, or refused.
#![tactic(auto)]

mod faults;
mod file;
mod forms;
mod keys;
mod lookups;
mod matched;
mod matching;
mod numbers;
mod request;
mod rules;
mod values;
mod words;

pub use faults::{ConfigFault, RequestFault};
pub use file::{MOST_BYTES, config_of};
pub use keys::key_of;
pub use request::{Command, Request};
pub use words::request_of;
