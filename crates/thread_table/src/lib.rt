//! The threads of a program: their numbers, who is live, who exited with which code, and who is parked joining whom.
//! This simulator's own, after POSIX's threads: each thread is joined once.
#![tactic(auto)]

mod threads;

pub use serving::{Fate, Join};
pub use threads::Threads;
