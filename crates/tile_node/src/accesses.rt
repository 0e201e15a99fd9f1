//! An access on a line that the cache has: which hold it needs, its cost, and its effect.

ghost use Rattle.std.specs.Prelude.{◌≡◌, ◌+◌, ◌*◌, ◌^◌, ◌<◌, ◌≤◌, ℕ, Some, IsSome};
ghost use Rattle.std.specs.Bool.{OnTrue};
ghost use Rattle.rv_exec.specs.Access.{finish_of};
ghost use Rattle.rv_hart.specs.Reservation.{reserved};
ghost use Rattle.sim_base.specs.Saturated.{saturated};
ghost use Rattle.tile_cache.specs.Cache.{hold_of};
ghost use Rattle.tile_core.specs.Core.{line_at};
ghost use Rattle.tile_node.specs.Tile.{suits, access_want, access_class, place_in_line, one_more};
ghost use Rattle.tile_node.specs.Inner.{with_done, past};
ghost use Rattle.mesh_model.specs.Cost.{cost_of};

use crate::tile::TileNode;
use elf_image::World;
use rv_exec::{Access, AccessOp, Done, finish};
use rv_hart::reserved;
use sim_base::{Action, CostClass, Line};
use tile_cache::Hold;
use wire_msg::Want;

/// The line of an address.
pub(crate) fn line_at(addr: u64) -> Line
    ensures { result ≡ line_at addr }
{
    addr / 64
}

/// Where a byte stands in its line.
pub(crate) fn place_in_line(addr: u64) -> usize
    ensures place { result ≡ place_in_line addr }
    ensures within { result < 64 }
{
    (addr % 64) as usize
}

/// Where an access's bytes begin in their line, which has all of them.
#[tactic(auto, using(crate::proofs::Facts::access_bounds))]
pub(crate) fn place_of(access: &Access) -> u8
    ensures place { result ≡ place_in_line access.now.addr }
    ensures within { result + access.now.size ≤ 64 }
    ensures sized { access.now.size ≤ 8 }
{
    (access.addr() % 64) as u8
}

/// Whether a hold is enough for an access: any for a load, M for all others.
pub(crate) fn suits(op: AccessOp, hold: Hold) -> bool
    ensures test { result ≡ suits op hold }
    ensures enough { OnTrue result (access_want op ≡ Want.Write → hold ≡ Hold.M) }
{
    match op {
        AccessOp::Load => true,
        AccessOp::Store | AccessOp::Lr | AccessOp::Sc | AccessOp::Amo { .. } => {
            matches!(hold, Hold::M)
        }
    }
}

/// What an access wants its line for: a load to read it, all others to write it.
pub(crate) fn access_want(op: AccessOp) -> Want
    ensures { result ≡ access_want op }
{
    match op {
        AccessOp::Load => Want::Read,
        AccessOp::Store | AccessOp::Lr | AccessOp::Sc | AccessOp::Amo { .. } => Want::Write,
    }
}

/// How many cycles an access takes where its line is there.
#[inline(always)]
pub(crate) fn access_cost(world: &World, op: AccessOp) -> u64
    ensures { result ≡ cost_of world.now.config (access_class op) }
{
    let class = match op {
        AccessOp::Load | AccessOp::Store => CostClass::Mem,
        AccessOp::Lr | AccessOp::Sc | AccessOp::Amo { .. } => CostClass::Amo,
    };
    world.cost(class)
}

/// The clock after a cost and a delay, all in cycles. It stops at 2^64 - 1.
pub(crate) fn delayed(clock: u64, cost: u64, delay: u64) -> u64
    ensures { result ≡ saturated (clock + (cost + delay)) }
{
    clock.saturating_add(cost).saturating_add(delay)
}

impl TileNode {
    /// Does an access of its thread, whose bytes hold the number `old`, on a line of the cache. The clock stands.
    #[tactic(auto, using(crate::proofs::Facts::writes_only))]
    pub(crate) fn do_access(&mut self, access: &Access, old: u64)
        requires number { old < 2 ^ (8 * access.now.size) }
        requires held { access_want access.now.op ≡ Want.Write → hold_of self.old.cache (line_at access.now.addr) ≡ Some Hold.M }
        ensures { self.new ≡ with_done self.old access.now (finish_of access.now old) }
    {
        let done = finish(access, old);
        self.go_past(access, &done);
        if let Some(value) = done.write {
            let line = line_at(access.addr());
            self.cache
                .write(line, place_of(access), access.size(), value);
        }
    }

    /// Its thread goes past an access, which is done: the register gets what it gives, and the instruction is counted. The
    /// clock and the cache stand.
    #[inline(always)]
    pub(crate) fn go_past(&mut self, access: &Access, done: &Done)
        ensures { self.new ≡ past self.old access.now done.now }
    {
        self.core.regs.set(access.rd(), done.value);
        self.core.pc = self.core.pc.wrapping_add(4);
        self.reserve(access);
        self.instr = self.instr.saturating_add(1);
    }

    /// The reservation after an access. A load, a store or an atomic memory operation lets it stand.
    #[inline(always)]
    fn reserve(&mut self, access: &Access)
        ensures { self.new ≡ record self.old { core = record self.old.core { reservation = reserved access.now self.old.core.reservation } } }
    {
        match access.op() {
            AccessOp::Load | AccessOp::Store | AccessOp::Amo { .. } => {}
            AccessOp::Lr | AccessOp::Sc => {
                self.core.reservation = reserved(access, self.core.reservation);
            }
        }
    }

    /// An instruction of its thread commits.
    #[inline(always)]
    pub(crate) fn commit(&mut self) -> Action
        ensures tile { self.new ≡ record self.old { instr = one_more self.old.instr } }
        ensures action { result ≡ Action.Exec self.old.core.thread }
    {
        self.instr = self.instr.saturating_add(1);
        Action::Exec {
            thread: self.core.thread,
        }
    }
}
