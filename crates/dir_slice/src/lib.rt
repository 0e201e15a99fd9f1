//! A slice of the directory: who holds the lines whose home is one tile, what the home sends for each
//! message, and the delay that each answer carries. An MSI protocol with busy states, after the full-map
//! directories of Graphite (HPCA 2010).
#![tactic(auto)]

mod directory;
mod home;
mod homes;
mod laws;
mod rows;
mod states;

pub use directory::Dir;
pub use laws::{
    fresh_is_orderly, keeps_orderly, one_line_changes, starts_as_the_image, stays_orderly,
};
