//! The generated workloads: programs of RV64IMA whose thread 0 spawns workers, each of a kind and a seed. A listing in the
//! assembler's words says what a workload is; its code is proved to be the listing's.
#![tactic(auto)]

mod assembly;
mod generator;
mod instructions;
mod listing;

pub use generator::{generate, workload_is_one};
