//! Which ELF64 files are programs, and where a program lies in memory: its segments, heap and stacks,
//! the rights of each byte, and the words that can be fetched.
#![tactic(auto)]

mod address_map;
mod decoded;
mod faults;
mod headers;
mod laws;
mod listed;
mod program;
mod reading;
mod refusal;
mod writing;

pub use address_map::{Layout, Right, World};
pub use faults::{FILE_LIMIT, program_fault};
pub use laws::{heap_starts_past_segments, overlap_is_common_address, program_is_without_fault};
pub use listed::Listed;
pub use program::{Image, Segment};
pub use reading::read_image;
pub use refusal::{ImageFault, ImageRefusal};
pub use writing::{file_size, write_image};
