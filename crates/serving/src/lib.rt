//! Serving: what a thread's call, exit or trap makes of a program's control data, and whom it answers. The flat machine
//! and the control server both serve by this crate's one definition.
#![tactic(auto)]

mod answers;
mod control_data;
mod joins;
mod laws;

pub use answers::{MOST_THREADS, break_after, write_output};
pub use control_data::{Fate, Join, Request, Waiter};
pub use joins::{join_by, joiner_by};
pub use laws::parking_waits_for_joined;
