//! What the control server makes of each message, before and after the program's end.

ghost use Rattle.std.specs.Prelude.{◌≡◌, ◌++◌, ◌∷◌, [], ◌%◌, length, IfOk, OnOk};
ghost use Rattle.std.specs.List.{list_any};
ghost use Rattle.control_server.specs.Control.{Control as Server, has_request, waits, is_placed, IsOrderly};
ghost use Rattle.control_server.specs.Serve.{serves};
ghost use Rattle.control_server.specs.Deliver.{admits, request_taken, call_taken, reached_taken, data_taken, request_of, word_in, taken, taken_late, control_delivered};
ghost use Rattle.control_server.specs.Inner.{asked, CanBeServed, IsMade, IsDone};

use crate::control::Control;
use crate::requests::{Asker, Check, Waiting};
use elf_image::World;
use serving::Request;
use sim_base::{Action, Line, LineData, NoMemory, NodeId};
use std::alloc::Global;
use wire_msg::{Call, Msg, Out};

/// What becomes of each message.
impl Control {
    /// Takes a message from a node. The answer is the action that this commits, if it does.
    pub(crate) fn take(
        &mut self,
        alloc: Global,
        world: &World,
        from: NodeId,
        msg: Msg,
        out: &mut Out,
    ) -> Result<Option<Action>, NoMemory>
        requires { IsOrderly world.now self.old }
        ensures { IfOk result (λ action. IsDone (control_delivered world.now self.old from msg) self.new out.old.items out.new.items action) }
    {
        let config = world.config();
        if !msg.may_go(config, from, config.control()) {
            return Ok(None);
        }
        if self.ended.is_some() {
            take_late(from, &msg, out)?;
            return Ok(None);
        }
        self.take_early(alloc, world, from, msg, out)
    }

    /// Takes a message before the program has ended.
    fn take_early(
        &mut self,
        alloc: Global,
        world: &World,
        from: NodeId,
        msg: Msg,
        out: &mut Out,
    ) -> Result<Option<Action>, NoMemory>
        requires { IsOrderly world.now self.old }
        ensures { IfOk result (λ action. IsDone (taken world.now self.old from msg) self.new out.old.items out.new.items action) }
    {
        match msg {
            Msg::Call { thread, time, call } => {
                self.take_call(Asker { thread, from, time }, call)?;
            }
            Msg::Exit { thread, code, time } => {
                self.take_request(Asker { thread, from, time }, Request::Exit { code })?;
            }
            Msg::Trapped { thread, cause, pc } => {
                let time = 0;
                self.take_request(Asker { thread, from, time }, Request::Trap { cause, pc })?;
            }
            Msg::Reached { thread } => self.take_reached(from, thread, out)?,
            Msg::DataS { line, content, .. } => {
                return self.take_data(alloc, world, line, &content, out);
            }
            Msg::Inv { line } => acknowledge(from, line, out)?,
            _ => {}
        }
        Ok(None)
    }

    /// A call joins the backlog, and its tile is noted as the thread's, unless it has no place there.
    fn take_call(&mut self, asker: Asker, call: Call) -> Result<(), NoMemory>
        requires { length self.old.callers ≡ length self.old.control.fates }
        ensures { OnOk result (self.new ≡ (call_taken self.old asker.from asker.thread asker.time call).control) }
    {
        if is_placed(&call) && self.admits(asker.thread) {
            self.callers[asker.thread as usize] = asker.from;
            let request = Request::Call { call };
            self.backlog.push_back(Waiting { asker, request })?;
        }
        Ok(())
    }

    /// Another request joins the backlog, unless it has no place there.
    fn take_request(&mut self, asker: Asker, request: Request) -> Result<(), NoMemory>
        ensures { OnOk result (self.new ≡ (request_taken self.old (asked asker request)).control) }
    {
        if self.admits(asker.thread) {
            self.backlog.push_back(Waiting { asker, request })?;
        }
        Ok(())
    }

    /// Whether a thread's request has a place in the backlog: the thread is active, and has no other one.
    fn admits(&self, thread: u32) -> bool
        ensures { result ≡ admits self.now thread }
    {
        self.is_active(thread) && !self.has_request(thread)
    }

    /// Whether a thread has a request that waits or is being checked.
    fn has_request(&self, thread: u32) -> bool
        ensures { result ≡ has_request self.now thread }
    {
        let is_checked = matches!(self.checking, Some(check) if check.thread == thread);
        self.is_waiting(thread) || is_checked
    }

    /// Whether a thread has a request that waits.
    fn is_waiting(&self, thread: u32) -> bool
        ensures { result ≡ list_any (waits thread) self.now.backlog }
    {
        self.backlog
            .iter()
            .any(|waiting| waiting.asker.thread == thread)
    }

    /// A thread has reached the limit of its epoch.
    fn take_reached(&mut self, from: NodeId, thread: u32, out: &mut Out) -> Result<(), NoMemory>
        ensures { IfOk result (λ _. IsMade (reached_taken self.old from thread) self.new out.old.items out.new.items) }
    {
        self.epochs.reached(thread, from);
        self.epochs.advance(out)?;
        Ok(())
    }

    /// A line comes. Where it has the word that is being checked, the check ends.
    fn take_data(
        &mut self,
        alloc: Global,
        world: &World,
        line: Line,
        content: &LineData,
        out: &mut Out,
    ) -> Result<Option<Action>, NoMemory>
        requires { IsOrderly world.now self.old }
        ensures { IfOk result (λ action. IsDone (data_taken world.now self.old line content.now self.old.checking) self.new out.old.items out.new.items action) }
    {
        match self.checking {
            Some(check) if check.addr / 64 == line => {
                self.end_check(alloc, world, check, content, out)
            }
            _ => Ok(None),
        }
    }

    /// The futex wait that was being checked is served by what its word holds.
    fn end_check(
        &mut self,
        alloc: Global,
        world: &World,
        check: Check,
        content: &LineData,
        out: &mut Out,
    ) -> Result<Option<Action>, NoMemory>
        requires can { CanBeServed world.now self.old check.thread check.from }
        requires placed { check.addr % 4 ≡ 0 }
        ensures { IfOk result (λ action. IsDone (serves world.now (record self.old { checking = None }) (request_of check) (word_in content.now check.addr)) self.new out.old.items out.new.items action) }
    {
        let Check {
            thread,
            from,
            addr,
            value,
        } = check;
        self.checking = None;
        let word = content.load((addr % 64) as u8, 4);
        let time = 0;
        let call = Call::FutexWait { addr, value };
        let asker = Asker { thread, from, time };
        self.serve(alloc, world, asker, Request::Call { call }, word, out)?;
        Ok(Some(Action::Serve { thread }))
    }
}

/// Takes a message after the end: an `Inv` is still acknowledged, and all else changes nothing.
fn take_late(from: NodeId, msg: &Msg, out: &mut Out) -> Result<(), NoMemory>
    ensures { OnOk result ((c : Server) → out.new.items ≡ out.old.items ++ (taken_late c from msg.now).mail) }
{
    if let Msg::Inv { line } = msg {
        acknowledge(from, *line, out)?;
    }
    Ok(())
}

/// The control server keeps no copy of a line.
fn acknowledge(home: NodeId, line: Line, out: &mut Out) -> Result<(), NoMemory>
    ensures { OnOk result (out.new.items ≡ out.old.items ++ (home, Msg.InvAck line) ∷ []) }
{
    out.push((home, Msg::InvAck { line }))?;
    Ok(())
}

/// Whether a futex wait's word has an address that is a multiple of 4, as that of each tile's call has.
fn is_placed(call: &Call) -> bool
    ensures { result ≡ is_placed call.now }
{
    match call {
        Call::FutexWait { addr, .. } => addr % 4 == 0,
        _ => true,
    }
}
