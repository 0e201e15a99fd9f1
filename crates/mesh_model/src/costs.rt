//! What an instruction, a miss and the dearest step cost, in cycles.

ghost use Rattle.std.specs.Prelude.{◌≡◌, ◌+◌, ◌*◌, ◌<◌, ◌≤◌};
ghost use Rattle.sim_base.specs.Numbering.{node_count};
ghost use Rattle.sim_base.specs.Settings.{IsChecked};
ghost use Rattle.mesh_model.specs.Cost.{cost_of, delay_of, dearest_instruction, dearest_step, CoversAccesses};

use crate::distances::{diameter, hops};
use sim_base::{Config, CostClass, NodeId};

/// How many cycles the home of a line takes to answer a request: the way there and back, the directory and
/// the memory, and the way there and back to the farthest node that has to give the line up. `remote` is the
/// greatest number of hops from the home to such a node, and 0 where there is none. The settings pass
/// `Config::check`. It stops at the greatest of 64 bits. The rule is this simulator's own.
#[tactic(auto, using(crate::proofs::Bounds::bounds))]
pub fn delay(config: &Config, from: NodeId, home: NodeId, remote: u64) -> u64
    requires checked { IsChecked config.now }
    requires from_in_range { from < node_count config.now }
    requires home_in_range { home < node_count config.now }
    ensures { result ≡ delay_of config.now from home remote }
{
    let request = travel(config, 2 * hops(config, from, home)) + service(config);
    let recall = remote.saturating_mul(2).saturating_mul(config.hop_cost);
    request.saturating_add(recall)
}

/// How many cycles an instruction of a class takes, beside the delay of a miss. The settings pass
/// `Config::check`.
pub fn cost(config: &Config, class: CostClass) -> u64
    requires { IsChecked config.now }
    ensures { result ≡ cost_of config.now class }
{
    match class {
        CostClass::Alu => config.alu_cost,
        CostClass::Mul => config.mul_cost,
        CostClass::Div => config.div_cost,
        CostClass::Mem => config.mem_cost,
        CostClass::Amo => config.amo_cost,
        CostClass::Call => config.call_cost,
    }
}

/// The most cycles that one step adds to a clock: an instruction whose line comes from corner to corner,
/// twice, or a call, or a thread's start. The settings pass `Config::check`. This simulator's own.
pub fn dearest(config: &Config) -> u64
    requires { IsChecked config.now }
    ensures value { result ≡ dearest_step config.now }
    ensures covers { CoversAccesses config.now result }
{
    let miss = travel(config, 4 * diameter(config)) + service(config);
    let access = dearest_instruction(config) + miss;
    access.max(config.call_cost.max(config.spawn_cost))
}

/// The cost of the dearest instruction, calls aside.
#[tactic(auto, using(crate::proofs::Bounds::bounds))]
fn dearest_instruction(config: &Config) -> u64
    requires { IsChecked config.now }
    ensures value { result ≡ dearest_instruction config.now }
    ensures bound { result ≤ 1000000 }
{
    let with_memory = config.mem_cost.max(config.amo_cost);
    let with_division = config.div_cost.max(with_memory);
    config.alu_cost.max(config.mul_cost.max(with_division))
}

/// How many cycles messages take for `hops` hops in all.
#[tactic(auto, using(crate::proofs::Bounds::bounds))]
fn travel(config: &Config, hops: u64) -> u64
    requires checked { IsChecked config.now }
    requires few { hops ≤ 56 }
    ensures value { result ≡ hops * config.now.hop_cost }
    ensures bound { result ≤ 56000000 }
{
    hops * config.hop_cost
}

/// How many cycles the home takes itself: the directory, and the memory behind it.
#[tactic(auto, using(crate::proofs::Bounds::bounds))]
fn service(config: &Config) -> u64
    requires { IsChecked config.now }
    ensures value { result ≡ config.now.directory_cost + config.now.memory_cost }
    ensures bound { result ≤ 2000000 }
{
    config.directory_cost + config.memory_cost
}
