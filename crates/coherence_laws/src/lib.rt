//! Laws of the whole machine: every line of memory stays coherent in every run.
#![tactic(auto)]

mod laws;
mod reading;

pub use laws::{
    lines_stay_coherent, one_writer_or_readers, still_lines_are_served, values_change_by_accesses,
};
pub use reading::{Held, holders};
