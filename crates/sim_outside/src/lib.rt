//! The outside of the simulator: files to read and write and a stream to print on, as traits whose
//! contracts say when a fault may be reported and which bytes came or went, with a form over memory
//! and a form over the system for each.
#![tactic(auto)]

mod memory_files;
mod memory_sink;
mod printing;
mod reading;
mod system;
mod whole_files;
mod writing;

pub use memory_files::MemFiles;
pub use memory_sink::MemSink;
pub use printing::{Failed, Sink};
pub use reading::FileAnswer;
pub use system::{OsFiles, OsSink};
pub use whole_files::Files;
pub use writing::WriteAnswer;
