//! Machines as words.

ghost use Rattle.std.specs.Prelude.{IfSome};
ghost use Rattle.sim_base.specs.Settings.{IsChecked};

use crate::numbers::{narrow, node, number};
use sim_base::{Config, NodeId, Policy};

/// The tile, and the settings of a machine with so many tiles and a policy, if they are in range.
pub fn machine_of(part: &str) -> (NodeId, Option<Config>)
    ensures { IfSome result.1 IsChecked }
{
    let mut words = part.split_whitespace();
    let tile = node(words.next().unwrap_or(""));
    let tiles = narrow(number(&mut words));
    let policy = policy_of(words.next().unwrap_or(""));
    (tile, checked(settings(tiles, policy)))
}

/// The policy of this name.
fn policy_of(name: &str) -> Policy {
    match name {
        "barrier" => Policy::LaxBarrier,
        "p2p" => Policy::LaxP2p,
        _ => Policy::Lax,
    }
}

/// The settings, if they are in range.
fn checked(config: Config) -> Option<Config>
    ensures { IfSome result IsChecked }
{
    match config.check() {
        Ok(()) => Some(config),
        Err(_) => None,
    }
}

/// The settings of a machine.
fn settings(tiles: u32, policy: Policy) -> Config {
    Config {
        tiles,
        hosts: tiles.min(2),
        sets: 1,
        ways: 1,
        heap_bytes: 0,
        policy,
        quantum: 100,
        slack: 10,
        interval: 50,
        ..Config::defaults()
    }
}
