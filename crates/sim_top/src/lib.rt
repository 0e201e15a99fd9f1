//! The top call: from the words of the command line to the text that is printed, the files that are written, and the status
//! of the process.
#![tactic(auto)]

mod asked;
mod commands;
mod decision;
mod faults;
mod files;
mod laws;
mod outcomes;
mod putting;
mod top;

pub use faults::fault_line;
pub use laws::{
    absent_is_read_fault, accepted_is_completed, bad_config_is_exact, bad_image_is_exact,
    bad_journal_is_exact, end_is_exact, read_fault_has_cause, stuck_is_exact,
    told_files_leave_one_verdict, usage_is_exact, write_fault_has_cause, written_is_exact,
};
pub use outcomes::{Finish, JournalFault, Outcome};
pub use top::execute_alone;
