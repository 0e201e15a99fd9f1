//! How many tiles of each host are free, and which host a new thread goes to.

ghost use Rattle.std.specs.Prelude.{◌≡◌, ◌==◌, ◌<◌, length, map, position, IfOk};
ghost use Rattle.std.specs.List.{range_with_len};
ghost use Rattle.sim_base.specs.Settings.{IsChecked};
ghost use Rattle.control_server.specs.Control.{tiles_of, free_at_start};
ghost use Rattle.control_server.specs.Serve.{most_free, freest_host};

use sim_base::{Config, NoMemory};
use std::alloc::Global;

/// How many tiles of each host are free before the program runs: all but tile 0.
pub(crate) fn free_tiles(alloc: Global, config: &Config) -> Result<Vec<u64>, NoMemory>
    requires { IsChecked config.now }
    ensures { IfOk result (λ free. free.items ≡ map (free_at_start config.now) (range_with_len 0 config.now.hosts)) }
{
    let mut free = Vec::new(alloc);
    for host in 0..config.hosts {
        free.push(free_at_start(config, host))?;
    }
    Ok(free)
}

/// How many tiles of a host are free before the program runs.
fn free_at_start(config: &Config, host: u32) -> u64
    requires { IsChecked config.now }
    ensures { result ≡ free_at_start config.now host }
{
    let tiles = tiles_of(config, host);
    if host == 0 {
        tiles.saturating_sub(1)
    } else {
        tiles
    }
}

/// How many tiles a host has.
fn tiles_of(config: &Config, host: u32) -> u64
    requires { IsChecked config.now }
    ensures { result ≡ tiles_of config.now host }
{
    let mut tiles = 0;
    for tile in 0..config.control() {
        if config.host_of(tile) == host {
            tiles += 1;
        }
    }
    tiles
}

/// The host with the most free tiles, and the least such host in a tie.
#[tactic(auto, using(crate::proofs::Freest::freest_in_range))]
pub(crate) fn freest_host(free: &[u64]) -> usize
    requires { 0 < length free.now }
    ensures host { result ≡ freest_host free.now }
    ensures in_range { result < length free.now }
{
    let host = first_with(free, most_free(free));
    host.unwrap_or(0)
}

/// The first host with so many free tiles.
fn first_with(free: &[u64], most: u64) -> Option<usize>
    ensures { result ≡ position (λ n. n == most) free.now }
{
    free.iter().position(|n| *n == most)
}

/// The most free tiles that a host has.
fn most_free(free: &[u64]) -> u64
    ensures { result ≡ most_free free.now }
{
    let mut most = 0;
    for n in free {
        most = most.max(*n);
    }
    most
}
