//! The control server: what it keeps of a program, its step and what a message makes of it.

ghost use Rattle.std.specs.Prelude.{◌≡◌, ◌&&◌, not, ◌++◌, ◌∷◌, [], map, IfOk, OnOk, is_some, true, false};
ghost use Rattle.serving.specs.ControlData.{is_parked};
ghost use Rattle.serving.specs.Serving.{answer, woken_with, are_all_parked, is_deadlocked, end_of_exit};
ghost use Rattle.clock_policy.specs.Epoch.{limit_of};
ghost use Rattle.control_server.specs.Control.{start_control, is_active, has_request, IsOrderly, IsInOrder};
ghost use Rattle.control_server.specs.Serve.{return_to, caller_of, own_mail, woken_mail, joined_by, join_all, none_waits, epochs_closed, limits_closed, control_step, can_step};
ghost use Rattle.control_server.specs.Deliver.{admits, control_delivered, Answers};
ghost use Rattle.control_server.specs.Inner.{closed, leaves, IsMade, IsDone};

mod served;
mod taken;

use crate::hosts::free_tiles;
use crate::requests::{Check, Waiting};
use clock_policy::Epochs;
use elf_image::World;
use futex_table::Futexes;
use sim_base::{Action, Bytes, End, NoMemory, NodeId};
use std::alloc::Global;
use std::collections::VecDeque;
use std::marker::Model;
use thread_table::Threads;
use wire_msg::{Msg, Out};

/// The control server of a machine. It keeps a program's threads, who is parked where, the break, the output and the
/// end; the requests that wait to be served, in order, and the futex wait whose word is being read; each thread's tile
/// by its last call; how many tiles of each host are free; and the epochs of the barrier. Each call appends what the
/// server sends, receivers and messages in order. Where memory runs out the server is spent: that call and all later
/// ones that can answer `NoMemory` answer it. The world is always the one that the server was made with. The rules are
/// this simulator's own, after Graphite (HPCA 2010).
#[derive(Drop)]
pub struct Control {
    threads: Threads,
    futexes: Futexes,
    heap_break: u64,
    output: Bytes,
    ended: Option<End>,
    backlog: VecDeque<Waiting>,
    checking: Option<Check>,
    callers: Vec<NodeId>,
    free: Vec<u64>,
    epochs: Epochs,
    spent: bool,
}

impl Model for Control {
    ghost use Rattle.control_server.specs.Control.{Control};

    ghost Value = { Control };

    ghost view = { λ c. record {
      control = record { fates = c.threads; waiters = c.futexes; heap_break = c.heap_break; output = c.output; ended = c.ended };
      backlog = c.backlog.items;
      checking = c.checking;
      callers = c.callers.items;
      free = c.free.items;
      epochs = c.epochs;
      spent = c.spent;
    } };
}

impl Control {
    /// The control server before the program runs: thread 0 is live, and all tiles but tile 0 are free.
    #[tactic(auto, using(crate::proofs::Orderly::started_in_order))]
    pub fn new(alloc: Global, world: &World) -> Result<Control, NoMemory>
        ensures start { IfOk result (λ control. control ≡ start_control world.now) }
        ensures in_order { IfOk result (IsInOrder world.now) }
    {
        let config = world.config();
        let mut callers = Vec::new(alloc);
        callers.push(0)?;
        Ok(Control {
            threads: Threads::new(alloc)?,
            futexes: Futexes::new(alloc)?,
            heap_break: world.layout().heap_start,
            output: Bytes::new(alloc, 0)?,
            ended: None,
            backlog: VecDeque::new(alloc),
            checking: None,
            callers,
            free: free_tiles(alloc, config)?,
            epochs: Epochs::new(alloc, config)?,
            spent: false,
        })
    }

    /// Whether a step is possible: a request waits, none is being checked, and the program hasn't ended.
    pub fn can_step(&self) -> bool
        ensures { result ≡ can_step self.now }
    {
        !self.is_idle() && self.checking.is_none() && self.ended.is_none()
    }

    /// Takes up the first request that waits, and appends what it sends. The answer is the action that this commits, if
    /// it does: a futex wait's word is read first.
    pub fn step(
        &mut self,
        alloc: Global,
        world: &World,
        out: &mut Out,
    ) -> Result<Option<Action>, NoMemory>
        requires can { can_step self.old ≡ true }
        requires in_order { IsInOrder world.now self.old }
        ensures answers { Answers result self.old self.new out.old.items out.new.items (control_step world.now self.old) }
        ensures in_order { IsInOrder world.now self.new }
    {
        if self.spent {
            return Err(NoMemory);
        }
        let result = self.take_first(alloc, world, out);
        self.spent = result.is_err();
        result
    }

    /// Takes a message from a node, and appends what it sends. The answer is the action that this commits, if it does.
    /// A message that has no place here, or comes from a node that may not send it, changes nothing.
    pub fn deliver(
        &mut self,
        alloc: Global,
        world: &World,
        from: NodeId,
        msg: Msg,
        out: &mut Out,
    ) -> Result<Option<Action>, NoMemory>
        requires { IsInOrder world.now self.old }
        ensures answers { Answers result self.old self.new out.old.items out.new.items (control_delivered world.now self.old from msg) }
        ensures in_order { IsInOrder world.now self.new }
    {
        if self.spent {
            return Err(NoMemory);
        }
        let result = self.take(alloc, world, from, msg, out);
        self.spent = result.is_err();
        result
    }

    /// Takes up the first request that waits.
    fn take_first(
        &mut self,
        alloc: Global,
        world: &World,
        out: &mut Out,
    ) -> Result<Option<Action>, NoMemory>
        requires { IsOrderly world.now self.old }
        ensures { IfOk result (λ action. IsDone (control_step world.now self.old) self.new out.old.items out.new.items action) }
    {
        let Some(waiting) = self.backlog.pop_front() else {
            return Ok(None);
        };
        self.take_up(alloc, world, waiting, out)
    }

    /// How the program ended, if it has.
    pub fn ended(&self) -> Option<End>
        ensures { result ≡ self.now.control.ended }
    {
        self.ended
    }

    /// What the program has output, in bytes.
    pub fn output(&self) -> &[u8]
        ensures { result.now ≡ self.now.control.output }
    {
        self.output.as_slice()
    }

    /// Whether no request waits.
    fn is_idle(&self) -> bool
        ensures { result ≡ none_waits self.now.backlog }
    {
        self.backlog.is_empty()
    }

    /// Whether a thread is live and not parked.
    fn is_active(&self, thread: u32) -> bool
        ensures { result ≡ is_active self.now.control thread }
    {
        self.threads.is_live(thread) && !self.is_parked(thread)
    }

    /// Whether a thread is parked, at a word or joining another.
    fn is_parked(&self, thread: u32) -> bool
        ensures { result ≡ is_parked self.now.control thread }
    {
        self.futexes.is_parked(thread) || self.threads.is_joining(thread)
    }

    /// The tile from which a thread's last call came; 0, where none has.
    fn caller(&self, thread: u32) -> NodeId
        ensures { result ≡ caller_of self.now thread }
    {
        self.callers.get(thread as usize).copied().unwrap_or(0)
    }

    /// Answers a tile's call, with time 0: the tile's own clock stands.
    fn answer(&self, tile: NodeId, value: u64, out: &mut Out) -> Result<(), NoMemory>
        ensures { OnOk result (out.new.items ≡ out.old.items ++ own_mail self.now tile (answer value)) }
    {
        let limit = self.epochs.limit();
        let time = 0;
        out.push((tile, Msg::Return { value, time, limit }))?;
        Ok(())
    }

    /// A parked thread goes on with an answer at a time, in cycles, and is active from now on.
    fn wake(&mut self, thread: u32, value: u64, time: u64, out: &mut Out) -> Result<(), NoMemory>
        ensures control { OnOk result (self.new ≡ record self.old { epochs = joined_by thread self.old.epochs }) }
        ensures mail { OnOk result (out.new.items ≡ out.old.items ++ return_to (caller_of self.old thread) value time (limit_of self.old.epochs) ∷ []) }
    {
        let tile = self.caller(thread);
        let limit = self.epochs.limit();
        out.push((tile, Msg::Return { value, time, limit }))?;
        self.epochs.join(thread)?;
        Ok(())
    }

    /// Parked threads go on one after the other, each with the answer 0.
    fn wake_all(&mut self, threads: &[u32], time: u64, out: &mut Out) -> Result<(), NoMemory>
        ensures control { OnOk result (self.new ≡ record self.old { epochs = join_all (map (woken_with 0) threads.now) self.old.epochs }) }
        ensures mail { OnOk result (out.new.items ≡ out.old.items ++ woken_mail self.old time (map (woken_with 0) threads.now)) }
    {
        for thread in threads {
            self.wake(*thread, 0, time, out)?;
        }
        Ok(())
    }

    /// Ends the program where nobody can go on any more: threads are live, all of them are parked, and no request
    /// waits.
    fn close(&mut self)
        ensures { self.new ≡ record self.old { control = closed (none_waits self.old.backlog) self.old.control } }
    {
        if self.is_deadlocked() {
            self.ended = Some(End::Deadlock);
        }
    }

    /// Whether nobody can go on any more.
    fn is_deadlocked(&self) -> bool
        ensures { result ≡ is_deadlocked (none_waits self.now.backlog) self.now.control }
    {
        self.ended.is_none() && self.is_idle() && self.threads.live() != 0 && self.are_all_parked()
    }

    /// Whether all live threads are parked.
    fn are_all_parked(&self) -> bool
        ensures { result ≡ are_all_parked self.now.control }
    {
        for thread in 0..self.threads.next() {
            if self.is_active(thread) {
                return false;
            }
        }
        true
    }

    /// A thread isn't active any more, since it was parked or has exited. Then the program ends, where nobody can go on,
    /// or else the next epoch begins, where all active threads have reached.
    fn leave(&mut self, thread: u32, out: &mut Out) -> Result<(), NoMemory>
        ensures { IfOk result (λ _. IsMade (leaves self.old thread) self.new out.old.items out.new.items) }
    {
        self.epochs.leave(thread);
        self.close();
        self.advance(out)?;
        Ok(())
    }

    /// How the program ends with an exit, if no thread is live any more.
    fn end_of_exit(&self, code: u8) -> Option<End>
        ensures { result ≡ end_of_exit self.now.control.fates code }
    {
        if self.threads.live() == 0 {
            Some(End::Exit { code })
        } else {
            None
        }
    }

    /// The next epoch begins where all active threads have reached, unless the program has ended.
    fn advance(&mut self, out: &mut Out) -> Result<(), NoMemory>
        ensures control { OnOk result (self.new ≡ record self.old { epochs = epochs_closed (not (is_some self.old.control.ended)) self.old.epochs }) }
        ensures mail { OnOk result (out.new.items ≡ out.old.items ++ limits_closed (not (is_some self.old.control.ended)) self.old.epochs) }
    {
        if self.ended.is_none() {
            self.epochs.advance(out)?;
        }
        Ok(())
    }
}
