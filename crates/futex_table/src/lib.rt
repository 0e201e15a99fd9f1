//! The threads that are parked at words of memory until others wake them: a futex table, after Linux's. The longest
//! parked are woken first.
#![tactic(auto)]

mod futexes;

pub use futexes::Futexes;
pub use serving::Waiter;
