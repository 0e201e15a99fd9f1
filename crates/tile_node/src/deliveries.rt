//! What a tile makes of each message that comes to it.

ghost use Rattle.std.specs.Prelude.{◌≡◌, ◌<◌, true, length, Some};
ghost use Rattle.std.specs.Option.{option_copied};
ghost use Rattle.wire_msg.specs.Message.{may_send};
ghost use Rattle.tile_cache.specs.Cache.{hold_of};
ghost use Rattle.tile_core.specs.Core.{line_at, line_missed};
ghost use Rattle.tile_node.specs.Tile.{access_want};
ghost use Rattle.tile_node.specs.Deliver.{taken, data_taken, waiting_done, hold_suits, inv_taken, fetch_taken, return_taken, start_taken, limit_taken, onward, is_running, probe_taken, reply_taken};
ghost use Rattle.tile_node.specs.Answers.{IsOf};
ghost use Rattle.tile_node.specs.Inner.{Makes, MakesAlone};

use crate::accesses::{access_cost, delayed, line_at, place_in_line, place_of, suits};
use crate::tile::TileNode;
use clock_policy::may_go_on;
use elf_image::World;
use rv_exec::Access;
use rv_hart::registers::A0;
use sim_base::{Action, Line, LineData, NoMemory, NodeId};
use std::alloc::Global;
use tile_cache::Hold;
use tile_core::{Status, Write};
use wire_msg::{Msg, Out, Want};

/// The line that a miss waits for: that of its access, or of a write's next byte.
fn line_missed(write: &Write, access: Option<&Access>) -> Line
    ensures { result ≡ line_missed write.now (option_copied access.entry) }
{
    match access {
        Some(access) => line_at(access.addr()),
        None => line_at(write.next_byte()),
    }
}

/// Whether a hold is enough for what waits: an access, or a write's next byte.
fn hold_suits(access: Option<&Access>, hold: Hold) -> bool
    ensures { result ≡ hold_suits (option_copied access.entry) hold }
{
    match access {
        Some(access) => suits(access.op(), hold),
        None => true,
    }
}

/// What a thread goes on to after a wait.
fn onward(writing: bool) -> Status
    ensures { result ≡ onward writing }
{
    if writing {
        Status::Writing
    } else {
        Status::Run
    }
}

/// Whether a tile's thread runs, for another tile that asks.
fn is_running(status: &Status) -> bool
    ensures { result ≡ is_running status.now }
{
    matches!(
        status,
        Status::Run | Status::Writing | Status::Miss { .. } | Status::Probing { .. }
    )
}

impl TileNode {
    /// It takes a message from a node that may send it.
    pub(crate) fn take(
        &mut self,
        alloc: Global,
        world: &World,
        from: NodeId,
        msg: &Msg,
        out: &mut Out,
    ) -> Result<Option<Action>, NoMemory>
        requires fits { IsOf world.now self.old }
        requires sent { may_send world.now.config from self.old.number msg.now ≡ true }
        ensures { Makes result self.old self.new out.old.items out.new.items (taken world.now self.old from msg.now) }
    {
        match msg {
            Msg::GetS { .. }
            | Msg::GetM { .. }
            | Msg::PutM { .. }
            | Msg::InvAck { .. }
            | Msg::FetchAck { .. } => self.hear(alloc, world, from, msg, out),
            Msg::DataS {
                line,
                content,
                delay,
            } => self.take_data(world, *line, Hold::S, content, *delay, out),
            Msg::DataM {
                line,
                content,
                delay,
            } => self.take_data(world, *line, Hold::M, content, *delay, out),
            Msg::Inv { line } => self.take_inv(from, *line, out),
            Msg::Fetch { line } => self.take_fetch(from, *line, Want::Read, out),
            Msg::FetchInv { line } => self.take_fetch(from, *line, Want::Write, out),
            Msg::Return { value, time, limit } => {
                Ok(self.take_return(world, *value, *time, *limit))
            }
            Msg::Start {
                thread,
                entry,
                arg,
                time,
                limit,
            } => Ok(self.take_start(world, *thread, *entry, *arg, *time, *limit)),
            Msg::Limit { limit } => Ok(self.take_limit(*limit)),
            Msg::Probe => self.take_probe(from, out),
            Msg::ProbeReply { running, clock } => self.take_reply(world, *running, *clock, out),
            Msg::Call { .. } | Msg::Exit { .. } | Msg::Trapped { .. } | Msg::Reached { .. } => {
                Ok(None)
            }
        }
    }

    /// A line comes. Where it is missed, and its hold is enough for what waits, the least recent line of its set makes
    /// room, it is placed, and what waited is done on it.
    fn take_data(
        &mut self,
        world: &World,
        line: Line,
        hold: Hold,
        content: &LineData,
        delay: u64,
        out: &mut Out,
    ) -> Result<Option<Action>, NoMemory>
        requires fits { IsOf world.now self.old }
        ensures { Makes result self.old self.new out.old.items out.new.items (data_taken world.now self.old line hold content.now delay self.old.core.status) }
    {
        let Status::Miss { access } = self.core.status else {
            return Ok(None);
        };
        if line_missed(&self.core.write, access.as_ref()) != line
            || !hold_suits(access.as_ref(), hold)
        {
            return Ok(None);
        }
        self.make_room(world, line, out)?;
        self.cache.place(line, hold, *content);
        match access {
            Some(access) => Ok(Some(self.end_access(world, &access, content, delay))),
            None => Ok(Some(self.end_byte(world, content, delay))),
        }
    }

    /// The access that missed is done on its line, which has come. It takes its cost and the line's delay, in cycles.
    fn end_access(
        &mut self,
        world: &World,
        access: &Access,
        content: &LineData,
        delay: u64,
    ) -> Action
        requires { access_want access.now.op ≡ Want.Write → hold_of self.old.cache (line_at access.now.addr) ≡ Some Hold.M }
        ensures tile { self.new ≡ waiting_done world.now self.old self.old.cache (Some access.now) content.now delay }
        ensures action { result ≡ Action.Exec self.old.core.thread }
    {
        let old = content.load(place_of(access), access.size());
        self.do_access(access, old);
        let cost = access_cost(world, access.op());
        self.core.clock = delayed(self.core.clock, cost, delay);
        self.core.status = Status::Run;
        Action::Exec {
            thread: self.core.thread,
        }
    }

    /// The byte that missed is read from its line, which has come. It takes its cost and the line's delay, in cycles.
    fn end_byte(&mut self, world: &World, content: &LineData, delay: u64) -> Action
        requires { length self.old.core.write.got < self.old.core.write.len }
        ensures tile { self.new ≡ waiting_done world.now self.old self.old.cache None content.now delay }
        ensures action { result ≡ Action.Load self.old.core.thread }
    {
        let place = place_in_line(self.core.write.next_byte());
        self.core.write.push(content.bytes[place]);
        let cost = world.config().mem_cost;
        self.core.clock = delayed(self.core.clock, cost, delay);
        self.core.status = Status::Writing;
        Action::Load {
            thread: self.core.thread,
        }
    }

    /// A copy in S is dropped, and whether there was one or not, that is acknowledged.
    fn take_inv(
        &mut self,
        from: NodeId,
        line: Line,
        out: &mut Out,
    ) -> Result<Option<Action>, NoMemory>
        ensures { Makes result self.old self.new out.old.items out.new.items (inv_taken self.old from line) }
    {
        out.push((from, Msg::InvAck { line }))?;
        self.drop_shared(line);
        Ok(None)
    }

    /// A line in M is handed over. For a reader it stays in S, for a writer it goes.
    fn take_fetch(
        &mut self,
        from: NodeId,
        line: Line,
        want: Want,
        out: &mut Out,
    ) -> Result<Option<Action>, NoMemory>
        ensures { Makes result self.old self.new out.old.items out.new.items (fetch_taken self.old from line want) }
    {
        let Some(way) = self.cache.get(line) else {
            return Ok(None);
        };
        if way.hold == Hold::S {
            return Ok(None);
        }
        let content = way.content;
        out.push((from, Msg::FetchAck { line, content }))?;
        self.leave_m(line, want);
        Ok(None)
    }

    /// An answer comes to a call, at a time in cycles.
    fn take_return(&mut self, world: &World, value: u64, time: u64, limit: u64) -> Option<Action>
        ensures { MakesAlone result self.new (return_taken world.now self.old value time limit self.old.core.status) }
    {
        if !matches!(self.core.status, Status::Called) {
            return None;
        }
        self.core.regs.set(A0, value);
        self.core.pc = self.core.pc.wrapping_add(4);
        let met = self.core.clock.max(time);
        self.core.clock = met.saturating_add(world.config().call_cost);
        self.core.limit = limit;
        self.core.status = Status::Run;
        Some(Action::Return {
            thread: self.core.thread,
        })
    }

    /// A thread begins on an idle tile, at a time in cycles.
    fn take_start(
        &mut self,
        world: &World,
        thread: u32,
        entry: u64,
        arg: u64,
        time: u64,
        limit: u64,
    ) -> Option<Action>
        requires { self.old.number < world.now.config.tiles }
        ensures { MakesAlone result self.new (start_taken world.now self.old thread entry arg time limit self.old.core.status) }
    {
        if !matches!(self.core.status, Status::Idle) {
            return None;
        }
        let tile = self.number;
        let met = self.core.clock.max(time);
        let clock = met.saturating_add(world.config().spawn_cost);
        self.core
            .begin(world, tile, thread, entry, arg, clock, limit);
        Some(Action::Begin { thread, tile })
    }

    /// The next limit ends a wait at the barrier.
    fn take_limit(&mut self, limit: u64) -> Option<Action>
        ensures { MakesAlone result self.new (limit_taken self.old limit self.old.core.status) }
    {
        if let Status::AtBarrier { writing } = self.core.status {
            self.core.limit = limit;
            self.core.status = onward(writing);
        }
        None
    }

    /// Another tile asks the clock.
    fn take_probe(&mut self, from: NodeId, out: &mut Out) -> Result<Option<Action>, NoMemory>
        ensures { Makes result self.old self.new out.old.items out.new.items (probe_taken self.old from) }
    {
        let running = is_running(&self.core.status);
        let clock = self.core.clock;
        out.push((from, Msg::ProbeReply { running, clock }))?;
        Ok(None)
    }

    /// The partner of a probe tells its clock: the thread goes on, or the partner is asked again.
    fn take_reply(
        &mut self,
        world: &World,
        running: bool,
        clock: u64,
        out: &mut Out,
    ) -> Result<Option<Action>, NoMemory>
        requires { IsOf world.now self.old }
        ensures { Makes result self.old self.new out.old.items out.new.items (reply_taken world.now self.old running clock self.old.core.status) }
    {
        let Status::Probing {
            writing,
            partner,
            replies,
        } = self.core.status
        else {
            return Ok(None);
        };
        let config = world.config();
        let own = self.core.clock;
        let replies = replies + 1;
        if may_go_on(own, clock, running, config.slack, replies) {
            self.core.status = onward(writing);
            self.core.next_check = own.saturating_add(config.interval);
            return Ok(None);
        }
        out.push((partner, Msg::Probe))?;
        self.core.status = Status::Probing {
            writing,
            partner,
            replies,
        };
        Ok(None)
    }
}
