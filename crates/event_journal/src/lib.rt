//! What a machine of numbered nodes is, what its events are, and which lists of events are runs of it: over any type of
//! node and of message. A journal is such a list.
#![tactic(auto)]

mod blocks;
mod events;
mod journals;
mod laws;
mod machine;
mod reading;

pub use events::Event;
pub use journals::Journal;
pub use laws::{
    counts_events, runs_have_prefixes, runs_join, runs_split, runs_stay_within, states_join,
};
pub use machine::Machine;
pub use reading::Events;
