//! The file of a journal, version 1: written from a journal, and read as one or refused with the first place where it
//! is none.
#![tactic(auto)]

mod laws;
mod reading;
mod refusal;
mod writing;

pub use laws::{has_one_reading, read_is_written, written_is_read};
pub use reading::{MOST_BYTES, read_journal};
pub use refusal::JournalRefusal;
pub use writing::write_journal;
