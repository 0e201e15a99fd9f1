//! A tile's core: the thread that it runs, with registers, clock, limit, reservation and a write under way, and what the
//! thread's next instruction asks of the tile. After Graphite (HPCA 2010).
#![tactic(auto)]

mod cores;
mod plans;

pub use cores::{MOST_WRITTEN, Status, TileCore, Write};
pub use plans::Plan;
