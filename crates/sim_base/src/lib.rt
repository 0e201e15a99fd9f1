//! The small types that every part of the simulator speaks of: text and bytes as lists, lines of memory,
//! the settings with the numbering of nodes, the causes of traps, the actions of the flat machine, the ends
//! of a run, and want of memory.
#![tactic(auto)]

mod actions;
mod buffer;
mod byte_string;
mod ends;
mod kinds;
mod lines;
mod memory;
mod numbering;
mod settings;
mod words;

pub use actions::{Action, NodeId};
pub use buffer::Buffer;
pub use byte_string::Bytes;
pub use ends::{Cause, End};
pub use kinds::{CostClass, Kind, Policy};
pub use lines::{Line, LineData};
pub use memory::NoMemory;
pub use settings::{Config, Field};
pub use words::Text;
