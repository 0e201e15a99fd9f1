//! The whole simulated machine: its tiles, its control server and its local servers, with the messages between them; and
//! what one event makes of it.
#![tactic(auto)]

mod alone;
mod causes;
mod cores;
mod laws;
mod machine;
mod making;
mod nodes;
mod pending;
mod reading;

pub use causes::trap_has_cause;
pub use cores::{ApplyFault, Core, Ran};
pub use laws::{shown_is_read, states_are_shown, steps_on_are_pinned};
pub use machine::TileMachine;
pub use nodes::Node;
