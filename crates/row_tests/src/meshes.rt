//! Cases of the mesh: sides, hops, delays, and the dearest step.

use mesh_model::{cost, dearest, delay, diameter, hops};
use sim_base::{Config, CostClass, NodeId};

/// The default settings with other numbers of tiles and hosts.
fn machine(tiles: u32, hosts: u32) -> Config {
    Config {
        tiles,
        hosts,
        ..Config::defaults()
    }
}

/// The default settings with other numbers of tiles and hosts, and other costs of a call, a thread's start and a hop.
fn costly(tiles: u32, hosts: u32, call_cost: u64, spawn_cost: u64, hop_cost: u64) -> Config {
    Config {
        tiles,
        hosts,
        call_cost,
        spawn_cost,
        hop_cost,
        ..Config::defaults()
    }
}

/// The hops from corner to corner, and from the first tile to the last.
fn ways(tiles: u32) -> Option<(u64, u64)> {
    let config = machine(tiles, 1);
    config.check().ok()?;
    let last = config.control() - 1;
    Some((diameter(&config), hops(&config, 0, last)))
}

/// The hops from corner to corner are twice the side, less 2.
#[test]
fn the_mesh_is_the_smallest_square(rt: HostRuntime) {
    let rows = [
        (1, (0, 0)),
        (2, (2, 1)),
        (4, (2, 2)),
        (5, (4, 2)),
        (9, (4, 4)),
        (10, (6, 3)),
        (64, (14, 14)),
    ];
    for (tiles, far) in rows {
        let is_so_far = ways(tiles) == Some(far);
        assert!(rt; is_so_far, "{tiles} tiles");
    }
}

/// The hops between two of four tiles and three servers. Tiles 0 and 1 are the first row and 2 and 3 the second, node 4
/// is the control server, 5 and 6 are the local servers of hosts 0 and 1.
fn way(a: NodeId, b: NodeId) -> Option<u64> {
    let config = machine(4, 2);
    config.check().ok()?;
    if u32::from(a) < config.nodes() && u32::from(b) < config.nodes() {
        Some(hops(&config, a, b))
    } else {
        None
    }
}

#[test]
fn servers_stand_at_tiles(rt: HostRuntime) {
    let rows = [
        (4, 0, 0),
        (4, 3, 2),
        (5, 3, 2),
        (6, 3, 1),
        (6, 2, 2),
        (2, 6, 2),
    ];
    for (a, b, far) in rows {
        let is_so_far = way(a, b) == Some(far);
        assert!(rt; is_so_far, "{a} to {b}");
    }
}

/// With a hop of 2 cycles, 6 for the directory and 60 for memory: tile 0 is 2 hops from tile 3.
#[test]
fn delays_from_tile_0_to_tile_3(rt: HostRuntime) {
    let config = Config::defaults();
    let rows = [(0, 74), (1, 78), (u64::MAX, u64::MAX), (1 << 62, u64::MAX)];
    for (remote, cycles) in rows {
        let is_delay = delay(&config, 0, 3, remote) == cycles;
        assert!(rt; is_delay, "{remote} hops away");
    }
}

/// The dearest step of a machine whose settings are in range.
fn dearest_of(config: &Config) -> Option<u64> {
    config.check().ok()?;
    Some(dearest(config))
}

/// Machines, by their tiles and hosts and their costs of a call, a thread's start and a hop, with the dearest step.
static DEAREST: [(u32, u32, u64, u64, u64, u64); 5] = [
    (4, 1, 20, 100, 2, 102), // 20 + 4 * 2 * 2 + 6 + 60
    (64, 8, 20, 100, 2, 198), // 20 + 4 * 14 * 2 + 6 + 60
    (1, 1, 20, 100, 2, 100), // a thread's start
    (4, 1, 1000, 100, 2, 1000), // a call
    (4, 1, 20, 100, 1_000_000, 8_000_086), // 20 + 4 * 2 * 1,000,000 + 6 + 60
];

#[test]
fn the_dearest_step(rt: HostRuntime) {
    for &(tiles, hosts, call_cost, spawn_cost, hop_cost, cycles) in &DEAREST {
        let config = costly(tiles, hosts, call_cost, spawn_cost, hop_cost);
        let is_dearest = dearest_of(&config) == Some(cycles);
        assert!(rt; is_dearest, "{cycles}");
    }
}

#[test]
fn a_division_costs_20(rt: HostRuntime) {
    let cycles = cost(&Config::defaults(), CostClass::Div);
    assert!(rt; cycles == 20);
}
