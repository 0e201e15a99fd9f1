//! Division by a number that is known beforehand: a multiplication with its reciprocal, which takes a processor a third of
//! the time.
#![tactic(auto)]

mod divisor;
mod table;

pub use divisor::Divisor;
pub use table::Divisors;
