//! A tile's step by its rules: barrier, probe, write under way, instruction.

ghost use Rattle.std.specs.Prelude.{◌≡◌, ◌++◌, ◌*◌, ◌^◌, ◌∷◌, [], ◌<◌, ◌≤◌, true, false, Some, IsSome, OnOk, OnErr};
ghost use Rattle.sim_base.specs.Numbering.{control_node};
ghost use Rattle.rv_exec.specs.Access.{finish_of};
ghost use Rattle.tile_cache.specs.Cache.{hold_of, touched};
ghost use Rattle.tile_core.specs.Core.{line_at, next_byte};
ghost use Rattle.tile_core.specs.Gathering.{is_gathered};
ghost use Rattle.tile_core.specs.Plan.{plan_of};
ghost use Rattle.wire_msg.specs.declared.lines.Up.TheVariants.{Asks};
ghost use Rattle.tile_node.specs.Tile.{up_message, with_status, later, access_cost};
ghost use Rattle.tile_node.specs.Step.{is_writing, can_step, waits_for_limit, looks_around, reaches, probes, misses, sends_write, reads_byte, writes, accesses, does_locally, fails_conditional, exits, begins_write, traps, follows, works, tile_step};
ghost use Rattle.tile_node.specs.Answers.{IsOf};
ghost use Rattle.tile_node.specs.Inner.{IsKept, Makes, MakesAlone, after_hit};

use crate::accesses::{access_cost, access_want, line_at, place_in_line, place_of, suits};
use crate::tile::TileNode;
use elf_image::World;
use rv_exec::{Access, AccessOp};
use sim_base::{Action, Cause, Config, Line, NoMemory, Policy};
use std::alloc::Global;
use tile_cache::Hold;
use tile_core::{Plan, Status};
use wire_msg::{Call, Msg, Out, Want};

/// Whether a core reads the bytes of a write.
fn is_writing(status: &Status) -> bool
    ensures { result ≡ is_writing status.now }
{
    matches!(status, Status::Writing)
}

/// Whether a tile has to wait for the next limit, at this clock and limit.
#[inline(always)]
pub(crate) fn waits_for_limit(policy: Policy, clock: u64, limit: u64) -> bool
    ensures { result ≡ waits_for_limit policy clock limit }
{
    matches!(policy, Policy::LaxBarrier) && limit <= clock
}

/// Whether a tile, one of so many, looks at another one's clock, at this clock and next check.
#[inline(always)]
pub(crate) fn looks_around(policy: Policy, tiles: u32, clock: u64, next_check: u64) -> bool
    ensures { result ≡ looks_around policy tiles clock next_check }
{
    matches!(policy, Policy::LaxP2p) && 1 < tiles && next_check <= clock
}

/// The request for a line.
fn request(line: Line, want: Want) -> Msg
    ensures { result ≡ up_message line (Asks want) }
{
    match want {
        Want::Read => Msg::GetS { line },
        Want::Write => Msg::GetM { line },
    }
}

impl TileNode {
    /// The step: the first rule that applies.
    pub(crate) fn take_step(
        &mut self,
        alloc: Global,
        world: &World,
        out: &mut Out,
    ) -> Result<Option<Action>, NoMemory>
        requires fits { IsOf world.now self.old }
        ensures { Makes result self.old self.new out.old.items out.new.items (tile_step world.now self.old) }
    {
        let config = world.config();
        let clock = self.core.clock;
        if waits_for_limit(config.policy, clock, self.core.limit) {
            self.reach(world, out)
        } else if looks_around(config.policy, config.tiles, clock, self.core.next_check) {
            self.probe(out)
        } else {
            self.work(alloc, world, out)
        }
    }

    /// What a step does besides the policies.
    fn work(
        &mut self,
        alloc: Global,
        world: &World,
        out: &mut Out,
    ) -> Result<Option<Action>, NoMemory>
        requires { IsOf world.now self.old }
        ensures { Makes result self.old self.new out.old.items out.new.items (works world.now self.old) }
    {
        if is_writing(&self.core.status) {
            self.write_on(alloc, world, out)
        } else {
            self.execute(world, out)
        }
    }

    /// The limit is reached, which the control server is told.
    fn reach(&mut self, world: &World, out: &mut Out) -> Result<Option<Action>, NoMemory>
        ensures { Makes result self.old self.new out.old.items out.new.items (reaches world.now self.old) }
    {
        let thread = self.core.thread;
        out.push((world.config().control(), Msg::Reached { thread }))?;
        let writing = is_writing(&self.core.status);
        self.core.status = Status::AtBarrier { writing };
        Ok(None)
    }

    /// A partner is drawn, and asked its clock.
    fn probe(&mut self, out: &mut Out) -> Result<Option<Action>, NoMemory>
        requires { 1 < self.old.probes.tiles }
        ensures { Makes result self.old self.new out.old.items out.new.items (probes self.old) }
    {
        let partner = self.probes.draw();
        out.push((partner, Msg::Probe))?;
        let writing = is_writing(&self.core.status);
        self.core.status = Status::Probing {
            writing,
            partner,
            replies: 0,
        };
        Ok(None)
    }

    /// A line that isn't there, or not as it has to be, is asked for.
    fn miss(
        &mut self,
        world: &World,
        line: Line,
        want: Want,
        access: Option<Access>,
        out: &mut Out,
    ) -> Result<Option<Action>, NoMemory>
        ensures { Makes result self.old self.new out.old.items out.new.items (misses world.now self.old line want access) }
    {
        let home = world.config().home(line);
        out.push((home, request(line, want)))?;
        self.core.status = Status::Miss { access };
        self.misses = self.misses.saturating_add(1);
        Ok(None)
    }

    /// The write under way goes on: its next byte, or where all are read it is sent.
    fn write_on(
        &mut self,
        alloc: Global,
        world: &World,
        out: &mut Out,
    ) -> Result<Option<Action>, NoMemory>
        ensures { Makes result self.old self.new out.old.items out.new.items (writes world.now self.old) }
    {
        if self.core.write.is_gathered() {
            self.send_write(alloc, world, out)
        } else {
            self.read_byte(world, out)
        }
    }

    /// All bytes of the write are read, and it is sent.
    fn send_write(
        &mut self,
        alloc: Global,
        world: &World,
        out: &mut Out,
    ) -> Result<Option<Action>, NoMemory>
        ensures { Makes result self.old self.new out.old.items out.new.items (sends_write world.now self.old) }
    {
        let bytes = self.core.write.got.copy(alloc)?;
        self.call(world, Call::Write { bytes }, out)?;
        Ok(None)
    }

    /// A call is sent to the control server, with the clock.
    fn call(&mut self, world: &World, call: Call, out: &mut Out) -> Result<(), NoMemory>
        ensures tile { OnOk result (self.new ≡ with_status self.old Status.Called) }
        ensures sent { OnOk result (out.new.items ≡ out.old.items ++ (control_node world.now.config, Msg.Call self.old.core.thread self.old.core.clock call) ∷ []) }
        ensures err { OnErr result (IsKept self.old self.new) }
    {
        let thread = self.core.thread;
        let time = self.core.clock;
        let msg = Msg::Call { thread, time, call };
        out.push((world.config().control(), msg))?;
        self.core.status = Status::Called;
        Ok(())
    }

    /// The write's next byte, from its line where the cache has it.
    fn read_byte(&mut self, world: &World, out: &mut Out) -> Result<Option<Action>, NoMemory>
        requires { is_gathered self.old.core.write ≡ false }
        ensures { Makes result self.old self.new out.old.items out.new.items (reads_byte world.now self.old (next_byte self.old.core.write)) }
    {
        let addr = self.core.write.next_byte();
        let line = line_at(addr);
        let Some(way) = self.cache.get(line) else {
            return self.miss(world, line, Want::Read, None, out);
        };
        let byte = way.content.bytes[place_in_line(addr)];
        self.cache.touch(line);
        self.core.write.push(byte);
        self.core.clock = self.core.clock.saturating_add(world.config().mem_cost);
        self.hits = self.hits.saturating_add(1);
        Ok(Some(Action::Load {
            thread: self.core.thread,
        }))
    }

    /// The next instruction, by its plan.
    fn execute(&mut self, world: &World, out: &mut Out) -> Result<Option<Action>, NoMemory>
        requires { IsOf world.now self.old }
        ensures { Makes result self.old self.new out.old.items out.new.items (follows world.now self.old (plan_of world.now self.old.core)) }
    {
        match self.core.next(world) {
            Plan::Local {
                rd,
                value,
                pc,
                cost,
                ..
            } => Ok(Some(self.do_locally(rd, value, pc, cost))),
            Plan::Access { access } => self.access(world, access, out),
            Plan::ScFails { rd } => Ok(Some(self.fail_conditional(world.config(), rd))),
            Plan::Send { call } => {
                self.call(world, call, out)?;
                Ok(Some(self.commit()))
            }
            Plan::Exit { code } => self.exit(world, code, out),
            Plan::Write { addr, len } => Ok(Some(self.begin_write(addr, len))),
            Plan::Trap { cause } => self.trap(world, cause, out),
        }
    }

    /// An instruction that needs nothing but the core.
    #[inline(always)]
    pub(crate) fn do_locally(&mut self, rd: u8, value: u64, pc: u64, cost: u64) -> Action
        requires { rd < 32 }
        ensures tile { self.new ≡ (does_locally self.old rd value pc cost).tile }
        ensures action { result ≡ Action.Exec self.old.core.thread }
    {
        self.core.regs.set(rd, value);
        self.core.pc = pc;
        self.core.clock = self.core.clock.saturating_add(cost);
        self.commit()
    }

    /// A store-conditional that lacks its reservation fails.
    fn fail_conditional(&mut self, config: &Config, rd: u8) -> Action
        requires { rd < 32 }
        ensures tile { self.new ≡ (fails_conditional config.now self.old rd).tile }
        ensures action { result ≡ Action.FailSc self.old.core.thread }
    {
        self.core.regs.set(rd, 1);
        self.core.pc = self.core.pc.wrapping_add(4);
        self.core.reservation = None;
        self.core.clock = self.core.clock.saturating_add(config.amo_cost);
        self.instr = self.instr.saturating_add(1);
        Action::FailSc {
            thread: self.core.thread,
        }
    }

    /// The thread exits, which the local server of the tile's host is told.
    fn exit(&mut self, world: &World, code: u8, out: &mut Out) -> Result<Option<Action>, NoMemory>
        requires { self.old.number < world.now.config.tiles }
        ensures { Makes result self.old self.new out.old.items out.new.items (exits world.now self.old code) }
    {
        let config = world.config();
        let local = config.local(config.host_of(self.number));
        let thread = self.core.thread;
        let time = self.core.clock;
        out.push((local, Msg::Exit { thread, code, time }))?;
        self.core.status = Status::Idle;
        Ok(Some(self.commit()))
    }

    /// A write call begins.
    fn begin_write(&mut self, addr: u64, len: u64) -> Action
        requires { len ≤ 4096 }
        ensures tile { self.new ≡ (begins_write self.old addr len).tile }
        ensures action { result ≡ Action.Exec self.old.core.thread }
    {
        self.core.status = Status::Writing;
        self.core.write.begin(addr, len);
        self.commit()
    }

    /// The instruction traps, which the control server is told. It isn't counted.
    fn trap(
        &mut self,
        world: &World,
        cause: Cause,
        out: &mut Out,
    ) -> Result<Option<Action>, NoMemory>
        ensures { Makes result self.old self.new out.old.items out.new.items (traps world.now self.old cause) }
    {
        let thread = self.core.thread;
        let pc = self.core.pc;
        let msg = Msg::Trapped { thread, cause, pc };
        out.push((world.config().control(), msg))?;
        self.core.status = Status::Trapped;
        Ok(Some(Action::Exec { thread }))
    }

    /// A data access: done at once where the cache has its line as the access needs it.
    #[inline(always)]
    pub(crate) fn access(
        &mut self,
        world: &World,
        access: Access,
        out: &mut Out,
    ) -> Result<Option<Action>, NoMemory>
        ensures { Makes result self.old self.new out.old.items out.new.items (accesses world.now self.old access) }
    {
        let line = line_at(access.addr());
        let op = access.op();
        let Some(way) = self.cache.get(line) else {
            return self.miss(world, line, access_want(op), Some(access), out);
        };
        if !suits(op, way.hold) {
            return self.miss(world, line, access_want(op), Some(access), out);
        }
        let old = way.content.load(place_of(&access), access.size());
        self.cache.touch(line);
        self.do_access(&access, old);
        self.hit(world, op);
        Ok(Some(Action::Exec {
            thread: self.core.thread,
        }))
    }

    /// An access of this kind was done at its step, and takes what such an access costs.
    #[inline(always)]
    pub(crate) fn hit(&mut self, world: &World, op: AccessOp)
        ensures { self.new ≡ after_hit world.now.config self.old op }
    {
        let cost = access_cost(world, op);
        self.core.clock = self.core.clock.saturating_add(cost);
        self.hits = self.hits.saturating_add(1);
    }
}
