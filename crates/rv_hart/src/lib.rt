//! What a hart does next, up to the memory that it works on: RV64IMA with this simulator's rights and calls. The flat
//! machine and the tiles both take their steps from here.
#![tactic(auto)]

mod calls;
pub mod registers;
mod reservations;
mod start;
mod steps;

pub use reservations::{Span, matches, reserved, span_of};
pub use start::start_registers;
pub use steps::{Step, is_allowed, next_step};
