//! A tile: a core, a private cache, a slice of the directory, and counts; its own step, and what it makes of each message.
//! After Graphite (HPCA 2010); the rules are this simulator's own.
#![tactic(auto)]

mod accesses;
mod at_once;
mod deliveries;
mod homes;
mod laws;
mod rooms;
mod steps;
mod tile;

pub use laws::{
    deliveries_show_at_lines, happenings_are_right, homes_stand_apart, lines_are_told_to_homes,
    steps_show_at_lines, tiles_stay_tiles, words_of_homes_happen,
};
pub use tile::{TileCounts, TileNode};
