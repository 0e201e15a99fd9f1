//! A tile: its core, cache, directory and counts, with its step and its deliveries.

ghost use Rattle.std.specs.Prelude.{◌≡◌, ◌<◌, true, false, IfOk};
ghost use Rattle.sim_base.specs.Settings.{IsChecked};
ghost use Rattle.tile_cache.specs.Cache.{empty_cache};
ghost use Rattle.tile_node.specs.Tile.{first_core};

use crate::at_once::Attempt;
use clock_policy::Probes;
use dir_slice::Dir;
use elf_image::World;
use rv_exec::Access;
use sim_base::{Action, Config, Line, NoMemory, NodeId};
use std::alloc::Global;
use std::marker::Model;
use tile_cache::{Cache, Hold};
use tile_core::{Status, TileCore};
use wire_msg::{Msg, Out};

/// A tile of the simulated machine. Where memory runs out in a step or a delivery the tile is spent: that call and all
/// later ones answer `NoMemory`. Its `World` is always that which it was made with. After Graphite (HPCA 2010).
#[derive(Drop)]
pub struct TileNode {
    pub(crate) number: NodeId,
    pub(crate) core: TileCore,
    pub(crate) cache: Cache,
    pub(crate) slice: Dir,
    pub(crate) probes: Probes,
    pub(crate) instr: u64,
    pub(crate) hits: u64,
    pub(crate) misses: u64,
    pub(crate) spent: bool,
}

impl Model for TileNode {
    ghost use Rattle.std.specs.Coded.{codes};
    ghost use Rattle.dir_slice.specs.Inner.{slice_code};
    ghost use Rattle.tile_node.specs.Tile.{Tile};

    ghost Value = { Tile };

    ghost coded = { Prim.hlevel (codes, slice_code) };

    ghost view = { λ t. record {
      number = t.number;
      core = t.core;
      cache = t.cache;
      slice = t.slice;
      probes = t.probes;
      instr = t.instr;
      hits = t.hits;
      misses = t.misses;
      spent = t.spent;
    } };
}

/// What a tile has counted.
#[derive(Clone, Copy, Debug, PartialEq, Eq)]
pub struct TileCounts {
    /// Its clock, in cycles.
    pub clock: u64,
    /// Instructions that committed.
    pub instr: u64,
    /// Accesses that were done at their step, and bytes of writes that were read so.
    pub hits: u64,
    /// Requests for lines.
    pub misses: u64,
}

impl TileNode {
    ghost use Rattle.tile_cache.specs.Cache.{hold_of};
    ghost use Rattle.tile_node.specs.Tile.{start_tile, counts_of};
    ghost use Rattle.tile_node.specs.Step.{accesses, can_step, tile_step};
    ghost use Rattle.tile_node.specs.Deliver.{tile_delivered};
    ghost use Rattle.tile_node.specs.Answers.{IsOf, Answers};

    /// A tile before the program runs: on tile 0 thread 0 begins at the image's entry, the others are idle.
    #[tactic(auto, using(crate::proofs::Fits::start_fits))]
    pub fn new(alloc: Global, world: &World, tile: NodeId) -> Result<TileNode, NoMemory>
        requires { tile < world.now.config.tiles }
        ensures start { IfOk result (λ node. node ≡ start_tile world.now tile) }
        ensures fits { IfOk result (IsOf world.now) }
    {
        let config = world.config();
        Ok(TileNode {
            number: tile,
            core: first_core(alloc, world, tile)?,
            cache: empty_cache(alloc, config)?,
            slice: Dir::new(alloc, world, tile)?,
            probes: Probes::new(config, tile),
            instr: 0,
            hits: 0,
            misses: 0,
            spent: false,
        })
    }

    /// Whether it can step: its thread runs, or reads the bytes of a write.
    #[inline(always)]
    pub fn can_step(&self) -> bool
        ensures { result ≡ can_step self.now }
    {
        matches!(self.core.status, Status::Run | Status::Writing)
    }

    /// Its step: the first rule that applies of the barrier, the probe, the write under way and the next instruction. It
    /// appends what the tile sends, and gives the action of the flat machine that commits, if one does. The tile can
    /// step.
    #[tactic(auto, using(crate::proofs::Fits::step_fits, crate::proofs::Fits::kept_fits, crate::proofs::OneLinePlain::step_keeps_number))]
    #[inline(always)]
    pub fn step(
        &mut self,
        alloc: Global,
        world: &World,
        out: &mut Out,
    ) -> Result<Option<Action>, NoMemory>
        requires fits { IsOf world.now self.old }
        requires can { can_step self.old ≡ true }
        ensures answers { Answers result self.old self.new out.old.items out.new.items (tile_step world.now self.old) }
        ensures fits { IsOf world.now self.new }
        ensures number { self.new.number ≡ self.old.number }
    {
        if self.spent {
            return Err(NoMemory);
        }
        if !self.runs_freely(world.config()) {
            return self.step_by_rules(alloc, world, out);
        }
        let thread = self.core.thread;
        match self.execute_at_once(world) {
            Attempt::Done => Ok(Some(Action::Exec { thread })),
            Attempt::Asks { access } => self.step_by_access(world, access, out),
            Attempt::Other => self.step_by_rules(alloc, world, out),
        }
    }

    /// Its step, which is an access.
    #[tactic(auto, using(crate::proofs::Fits::step_fits, crate::proofs::Fits::kept_fits, crate::proofs::OneLinePlain::step_keeps_number))]
    fn step_by_access(
        &mut self,
        world: &World,
        access: Access,
        out: &mut Out,
    ) -> Result<Option<Action>, NoMemory>
        requires able { self.old.spent ≡ false }
        requires fits { IsOf world.now self.old }
        requires step { tile_step world.now self.old ≡ accesses world.now self.old access }
        ensures answers { Answers result self.old self.new out.old.items out.new.items (tile_step world.now self.old) }
        ensures fits { IsOf world.now self.new }
        ensures number { self.new.number ≡ self.old.number }
    {
        match self.access(world, access, out) {
            Ok(action) => Ok(action),
            Err(error) => {
                self.spent = true;
                Err(error)
            }
        }
    }

    /// Its step, by the rules.
    #[tactic(auto, using(crate::proofs::Fits::step_fits, crate::proofs::Fits::kept_fits, crate::proofs::OneLinePlain::step_keeps_number))]
    fn step_by_rules(
        &mut self,
        alloc: Global,
        world: &World,
        out: &mut Out,
    ) -> Result<Option<Action>, NoMemory>
        requires able { self.old.spent ≡ false }
        requires fits { IsOf world.now self.old }
        requires can { can_step self.old ≡ true }
        ensures answers { Answers result self.old self.new out.old.items out.new.items (tile_step world.now self.old) }
        ensures fits { IsOf world.now self.new }
        ensures number { self.new.number ≡ self.old.number }
    {
        match self.take_step(alloc, world, out) {
            Ok(action) => Ok(action),
            Err(error) => {
                self.spent = true;
                Err(error)
            }
        }
    }

    /// It takes a message from a node: one row of its table. A message from a node that may not send it changes nothing,
    /// nor does one that no row names. It appends what the tile sends, and gives the action of the flat machine that
    /// commits, if one does.
    pub fn deliver(
        &mut self,
        alloc: Global,
        world: &World,
        from: NodeId,
        msg: Msg,
        out: &mut Out,
    ) -> Result<Option<Action>, NoMemory>
        requires { IsOf world.now self.old }
        ensures answers { Answers result self.old self.new out.old.items out.new.items (tile_delivered world.now self.old from msg) }
        ensures fits { IsOf world.now self.new }
        ensures number { self.new.number ≡ self.old.number }
    {
        self.deliver_lent(alloc, world, from, &msg, out)
    }

    /// It takes a message, which is lent, from a node, as [`TileNode::deliver`] does.
    #[tactic(auto, using(crate::proofs::Fits::taken_fits, crate::proofs::Fits::kept_fits, crate::proofs::OneLineHomes::taken_keeps_number))]
    pub fn deliver_lent(
        &mut self,
        alloc: Global,
        world: &World,
        from: NodeId,
        msg: &Msg,
        out: &mut Out,
    ) -> Result<Option<Action>, NoMemory>
        requires { IsOf world.now self.old }
        ensures answers { Answers result self.old self.new out.old.items out.new.items (tile_delivered world.now self.old from msg.now) }
        ensures fits { IsOf world.now self.new }
        ensures number { self.new.number ≡ self.old.number }
    {
        if self.spent {
            return Err(NoMemory);
        }
        if !msg.may_go(world.config(), from, self.number) {
            return Ok(None);
        }
        match self.take(alloc, world, from, msg, out) {
            Ok(action) => Ok(action),
            Err(error) => {
                self.spent = true;
                Err(error)
            }
        }
    }

    /// What it has counted.
    pub fn counts(&self) -> TileCounts
        ensures { result ≡ counts_of self.now }
    {
        TileCounts {
            clock: self.core.clock,
            instr: self.instr,
            hits: self.hits,
            misses: self.misses,
        }
    }

    /// How its cache holds a line, if it does.
    pub fn hold(&self, line: Line) -> Option<Hold>
        ensures { result ≡ hold_of self.now.cache line }
    {
        self.cache.find(line)
    }
}

/// A tile's core before the program runs.
fn first_core(alloc: Global, world: &World, tile: NodeId) -> Result<TileCore, NoMemory>
    requires { tile < world.now.config.tiles }
    ensures { IfOk result (λ core. core ≡ first_core world.now tile) }
{
    let mut core = TileCore::new(alloc)?;
    if tile == 0 {
        let quantum = world.config().quantum;
        core.begin(world, 0, 0, world.entry(), 0, 0, quantum);
    }
    Ok(core)
}

/// A cache of these settings, without lines.
#[tactic(auto, using(crate::proofs::Facts::cache_ranges))]
fn empty_cache(alloc: Global, config: &Config) -> Result<Cache, NoMemory>
    requires { IsChecked config.now }
    ensures { IfOk result (λ cache. cache ≡ empty_cache config.now.sets config.now.ways) }
{
    Cache::new(alloc, config.sets, config.ways)
}
