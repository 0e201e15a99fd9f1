//! The steps that most events are: instructions that need nothing but the tile. They are made without a look at the plan.
ghost use Rattle.std.specs.Bool.{OnTrue};
ghost use Rattle.std.specs.Prelude.{◌≡◌, true, is_some};
ghost use Rattle.elf_image.specs.Layout.{instruction};
ghost use Rattle.rv_exec.specs.declared.access.AccessOp.TheVariants.{Load, Store};
ghost use Rattle.tile_cache.specs.Cache.{hold_of, is_m};
ghost use Rattle.tile_core.specs.Core.{line_at};
ghost use Rattle.tile_node.specs.Step.{accesses, can_step, tile_step, waits_for_limit, looks_around};
ghost use Rattle.tile_node.specs.Answers.{IsOf};
ghost use Rattle.tile_node.specs.AtOnce.{StepsQuietly, executes_at_once, hits_plainly, runs_freely, steps_at_once};
ghost use Rattle.tile_node.specs.Inner.{Attempts, is_done};

use crate::accesses::{line_at, place_of};
use crate::steps::{looks_around, waits_for_limit};
use crate::tile::TileNode;
use elf_image::World;
use rv_exec::{Access, AccessOp, Meaning, effect, finish};
use rv_hart::is_allowed;
use sim_base::Config;
use tile_core::Status;

/// What came of the attempt to do an instruction at once.
#[derive(Drop)]
pub(crate) enum Attempt {
    /// It is done.
    Done,
    /// It is an access, made as it is asked for, that needs more than the tile, or is an atomic. Nothing changed.
    Asks { access: Access },
    /// It is something else. Nothing changed.
    Other,
}

impl Attempt {
    /// Whether the instruction is done.
    #[inline(always)]
    fn is_done(&self) -> bool
        ensures { result ≡ is_done self.now }
    {
        matches!(self, Attempt::Done)
    }
}

impl TileNode {
    /// Makes its step where that is an instruction that needs nothing but the tile, and gives true: the instruction commits,
    /// nothing is sent, and the tile can step again. Such an instruction gives a register a number, loads from a line that the
    /// cache has, or stores to a line that it has in M; its thread runs, and no policy holds it up. Else nothing changes, and
    /// [`TileNode::step`] makes the step.
    #[inline(always)]
    pub fn step_at_once(&mut self, world: &World) -> bool
        requires { IsOf world.now self.old }
        ensures when { result ≡ steps_at_once world.now self.old }
        ensures step { StepsQuietly result self.old self.new (tile_step world.now self.old) }
        ensures again { OnTrue result (can_step self.new ≡ true) }
        ensures fits { IsOf world.now self.new }
        ensures number { self.new.number ≡ self.old.number }
    {
        if self.spent {
            return false;
        }
        if !self.runs_freely(world.config()) {
            return false;
        }
        self.execute_at_once(world).is_done()
    }

    /// Whether its thread executes an instruction in the step: it runs, and no policy holds it up.
    #[inline(always)]
    pub(crate) fn runs_freely(&self, config: &Config) -> bool
        ensures { result ≡ runs_freely config.now self.now.core }
    {
        let core = &self.core;
        matches!(core.status, Status::Run)
            && !waits_for_limit(config.policy, core.clock, core.limit)
            && !looks_around(config.policy, config.tiles, core.clock, core.next_check)
    }

    /// Does the next instruction where it needs nothing but the tile.
    #[inline(always)]
    pub(crate) fn execute_at_once(&mut self, world: &World) -> Attempt
        ensures when { is_done result ≡ executes_at_once world.now self.old (instruction world.now self.old.core.pc) }
        ensures attempts { Attempts world.now result self.old self.new }
    {
        let Some(listed) = world.listed(self.core.pc) else {
            return Attempt::Other;
        };
        let cost = world.cost(listed.class());
        let meaning = effect(listed.instr(), &self.core.regs, self.core.pc);
        match &meaning {
            Meaning::Next { rd, value, pc } => {
                self.do_locally(*rd, *value, *pc, cost);
                Attempt::Done
            }
            Meaning::Access { access } => {
                if !is_allowed(world, self.core.reservation, access) {
                    Attempt::Other
                } else if self.access_at_once(world, access) {
                    Attempt::Done
                } else {
                    Attempt::Asks { access: *access }
                }
            }
            Meaning::Call | Meaning::Trap { .. } => Attempt::Other,
        }
    }

    /// Does a load whose line the cache has, or a store whose line it has in M.
    #[inline(always)]
    fn access_at_once(&mut self, world: &World, access: &Access) -> bool
        ensures when { result ≡ hits_plainly self.old access.now }
        ensures does { StepsQuietly result self.old self.new (accesses world.now self.old access.now) }
    {
        match access.op() {
            AccessOp::Load => self.load_at_once(world, access),
            AccessOp::Store => self.store_at_once(world, access),
            AccessOp::Lr | AccessOp::Sc | AccessOp::Amo { .. } => false,
        }
    }

    /// Does a load whose line the cache has.
    #[inline(always)]
    fn load_at_once(&mut self, world: &World, access: &Access) -> bool
        requires { access.now.op ≡ Load }
        ensures when { result ≡ is_some (hold_of self.old.cache (line_at access.now.addr)) }
        ensures does { StepsQuietly result self.old self.new (accesses world.now self.old access.now) }
    {
        let line = line_at(access.addr());
        let Some(old) = self.cache.read(line, place_of(access), access.size()) else {
            return false;
        };
        let done = finish(access, old);
        self.go_past(access, &done);
        self.hit(world, access.op());
        true
    }

    /// Does a store whose line the cache has in M. It does the same whatever its bytes hold.
    #[inline(always)]
    fn store_at_once(&mut self, world: &World, access: &Access) -> bool
        requires { access.now.op ≡ Store }
        ensures when { result ≡ is_m (hold_of self.old.cache (line_at access.now.addr)) }
        ensures does { StepsQuietly result self.old self.new (accesses world.now self.old access.now) }
    {
        let line = line_at(access.addr());
        let done = finish(access, 0);
        let Some(value) = done.write else {
            unreachable!()
        };
        if !self
            .cache
            .overwrite(line, place_of(access), access.size(), value)
        {
            return false;
        }
        self.go_past(access, &done);
        self.hit(world, access.op());
        true
    }
}
