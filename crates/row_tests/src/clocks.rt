//! Cases of epochs and probes: when a limit rises, and whom a tile asks.

use clock_policy::{Epochs, Probes, may_go_on};
use sim_base::{Config, NoMemory, NodeId};
use std::alloc::Global;
use wire_msg::{Msg, Out};

/// Receivers with the limits that they are told.
fn limits(alloc: Global, out: &Out) -> Result<Vec<(NodeId, u64)>, NoMemory> {
    let mut told = Vec::new(alloc);
    for (tile, msg) in out {
        if let Msg::Limit { limit } = msg {
            told.push((*tile, *limit))?;
        }
    }
    Ok(told)
}

/// Reports of threads 0 to 2, each from a tile, with whom the limit is sent to then. The quantum is 1000 cycles.
static REPORTS: [(u32, NodeId, &[(NodeId, u64)]); 4] = [
    (2, 9, &[]),
    (0, 3, &[]),
    (2, 6, &[]), // once more, from another tile
    (1, 4, &[(3, 2000), (4, 2000), (6, 2000)]),
];

/// The limits that are sent when a thread reports.
fn told(
    alloc: Global,
    epochs: &mut Epochs,
    thread: u32,
    tile: NodeId,
) -> Result<Vec<(NodeId, u64)>, NoMemory> {
    let mut out = Vec::new(alloc);
    epochs.reached(thread, tile);
    epochs.advance(&mut out)?;
    limits(alloc, &out)
}

/// Whether the limits go to those to whom the rows say.
fn are_told(alloc: Global, epochs: &mut Epochs) -> Result<bool, NoMemory> {
    let mut is_right = true;
    for &(thread, tile, wanted) in &REPORTS {
        is_right = is_right && told(alloc, epochs, thread, tile)?.as_slice() == wanted;
    }
    Ok(is_right)
}

/// Whether the limit is one quantum until all three have reached it, and then two.
fn epoch_rises(alloc: Global) -> Result<bool, NoMemory> {
    let mut epochs = Epochs::new(alloc, &Config::defaults())?;
    epochs.join(2)?;
    epochs.join(1)?;
    epochs.join(2)?;
    let first = epochs.limit();
    let are_told = are_told(alloc, &mut epochs)?;
    Ok(first == 1000 && are_told && epochs.limit() == 2000)
}

#[test]
fn the_epoch_rises_when_all_have_reached(rt: HostRuntime) {
    let is_wanted = epoch_rises(rt.alloc()).unwrap_or(false);
    assert!(rt; is_wanted);
}

/// Whether the epoch rises once the thread that hasn't reached leaves, and not when the last one has left.
fn rises_once(alloc: Global) -> Result<bool, NoMemory> {
    let mut epochs = Epochs::new(alloc, &Config::defaults())?;
    epochs.join(1)?;
    epochs.reached(1, 5);
    epochs.leave(0);
    let mut out = Vec::new(alloc);
    let raised = epochs.advance(&mut out)?;
    epochs.leave(1);
    let again = epochs.advance(&mut out)?;
    Ok(raised && !again && out.len() == 1)
}

/// A thread that left isn't waited for, and nobody waits where nobody is active.
#[test]
fn who_left_is_not_waited_for(rt: HostRuntime) {
    let is_wanted = rises_once(rt.alloc()).unwrap_or(false);
    assert!(rt; is_wanted);
}

#[test]
fn a_tile_may_go_on(rt: HostRuntime) {
    let rows = [
        ("ten ahead", 50, 40, true, 1, true),
        ("eleven ahead", 51, 40, true, 1, false),
        (
            "far ahead of a tile that isn't running",
            50,
            0,
            false,
            1,
            true,
        ),
        ("far ahead, at the seventh reply", 50, 0, true, 7, false),
        ("far ahead, at the eighth reply", 50, 0, true, 8, true),
        ("far behind", 50, u64::MAX, true, 1, true),
    ];
    for (name, own, partner, running, replies, wanted) in rows {
        let is_wanted = may_go_on(own, partner, running, 10, replies) == wanted;
        assert!(rt; is_wanted, "{name}");
    }
}

/// 64 tiles with seed 42.
fn seeded() -> Config {
    Config {
        tiles: 64,
        seed: 42,
        ..Config::defaults()
    }
}

/// The first four draws of tile 53.
fn drawn(config: &Config) -> Option<[NodeId; 4]> {
    if config.tiles < 2 {
        return None;
    }
    config.check().ok()?;
    let mut probes = Probes::new(config, 53);
    let first = probes.draw();
    let second = probes.draw();
    let third = probes.draw();
    Some([first, second, third, probes.draw()])
}

/// Stream 54 of seed 42 is the one of the demonstration of PCG's C library: 0xa15c02b7, 0x7b47f409, 0xba1d3330,
/// 0x83d2f293 and so on. Tile 53 of 64 has it, and asks by its words modulo 63.
#[test]
fn probes_follow_the_reference_stream(rt: HostRuntime) {
    let is_wanted = drawn(&seeded()) == Some([61, 39, 20, 7]);
    assert!(rt; is_wanted);
}
