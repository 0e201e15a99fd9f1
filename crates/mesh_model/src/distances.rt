//! The square mesh: where nodes stand, and how many hops lie between two of them.

ghost use Rattle.std.specs.Prelude.{◌≡◌, ◌-◌, ◌*◌, ◌/◌, ◌%◌, ◌<◌, ◌≤◌};
ghost use Rattle.sim_base.specs.Numbering.{node_count};
ghost use Rattle.sim_base.specs.Settings.{IsChecked};
ghost use Rattle.mesh_model.specs.Mesh.{side, hops_between, diameter};

use sim_base::{Config, NodeId};

/// The hops between two nodes' places: along the row, and along the column. The settings pass
/// `Config::check`. The rule is Graphite's (HPCA 2010).
pub fn hops(config: &Config, a: NodeId, b: NodeId) -> u64
    requires checked { IsChecked config.now }
    requires a_in_range { a < node_count config.now }
    requires b_in_range { b < node_count config.now }
    ensures value { result ≡ hops_between config.now a b }
    ensures near { result ≤ diameter config.now }
{
    let side = side(config);
    let from = config.place_of(a) as u64;
    let to = config.place_of(b) as u64;
    let (row, column) = row_and_column(from, side);
    let (other_row, other_column) = row_and_column(to, side);
    column.abs_diff(other_column) + row.abs_diff(other_row)
}

/// The row and the column of a place in a mesh of this side.
#[inline]
#[tactic(auto, using(crate::proofs::Bounds::row_below))]
fn row_and_column(place: u64, side: u64) -> (u64, u64)
    requires some { 1 ≤ side }
    requires inside { place < side * side }
    ensures row { result.0 ≡ place / side }
    ensures column { result.1 ≡ place % side }
    ensures low_row { result.0 < side }
    ensures low_column { result.1 < side }
{
    match side {
        1 => (place, 0),
        2 => (place / 2, place % 2),
        4 => (place / 4, place % 4),
        8 => (place / 8, place % 8),
        _ => (place / side, place % side),
    }
}

/// The hops from corner to corner, than which no two nodes are farther apart: at most 14. The settings pass
/// `Config::check`.
pub fn diameter(config: &Config) -> u64
    requires { IsChecked config.now }
    ensures value { result ≡ diameter config.now }
    ensures few { result ≤ 14 }
{
    2 * (side(config) - 1)
}

/// The side of the mesh: the least whose square has room for all tiles. Up to 64 tiles it takes no search.
#[inline]
#[tactic(auto, using(crate::proofs::Bounds::side_is, crate::proofs::Bounds::side_bounds))]
fn side(config: &Config) -> u64
    requires { IsChecked config.now }
    ensures value { result ≡ side config.now }
    ensures room { config.now.tiles ≤ result * result }
    ensures some { 1 ≤ result }
    ensures few { result ≤ 8 }
{
    let tiles = config.tiles as u64;
    if tiles <= 64 {
        side_of_few(tiles)
    } else {
        side_of_any(config)
    }
}

/// The side of a mesh of at most 64 tiles: the least whose square has room for them.
#[inline]
fn side_of_few(tiles: u64) -> u64
    requires some { 1 ≤ tiles }
    requires few { tiles ≤ 64 }
    ensures room { tiles ≤ result * result }
    ensures least { (result - 1) * (result - 1) < tiles }
{
    match tiles {
        0..=1 => 1,
        2..=4 => 2,
        5..=9 => 3,
        10..=16 => 4,
        17..=25 => 5,
        26..=36 => 6,
        37..=49 => 7,
        _ => 8,
    }
}

/// The side of a mesh of any number of tiles, found by trying one side after the other.
#[inline(never)]
#[tactic(auto, unfolding(crate::specs::Mesh::side))]
fn side_of_any(config: &Config) -> u64
    ensures { result ≡ side config.now }
{
    let tiles = config.tiles as u64;
    (0..tiles + 1).find(|w| tiles <= w * w).unwrap_or(0)
}
