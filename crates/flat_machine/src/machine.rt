//! The state of the flat machine, and the actions that change it or are refused.

ghost use Rattle.std.specs.Prelude.{◌≡◌, ◌<◌, IfOk, OnOk, OnErr, Some, false, true, length};
ghost use Rattle.flat_machine.specs.Inner.{thread_of, action_by};

use crate::moves;
use crate::regions::Memory;
use crate::requests::{
    end_of_exit, is_full, is_stuck, join_of, joiner_of, request_of, set_joiner, set_status, wake,
};
use crate::reservations::end_others;
use crate::threads::{Status, Thread};
use elf_image::World;
use serving::{Join, Request, Waiter, break_after, write_output};
use sim_base::{Action, Bytes, End, NoMemory, NodeId};
use std::alloc::Global;
use std::marker::Model;
use wire_msg::Call;
use wire_msg::error_numbers::{INVALID, NO_SUCH_THREAD, TRY_AGAIN};

/// Why an action wasn't made. Either way nothing changed.
#[derive(Clone, Copy, Debug, PartialEq, Eq)]
pub enum ActFault {
    /// The action isn't legal in this state.
    NotLegal,
    /// Memory ran out.
    NoMemory,
}

impl From<NoMemory> for ActFault {
    ghost use Rattle.std.specs.Prelude.{◌≡◌};
    ghost use Rattle.flat_machine.specs.declared.machine.ActFault.TheVariants.{NoMemory as OutOfMemory};

    ghost from_gives = { λ _ fault. fault ≡ OutOfMemory };

    fn from(_error: NoMemory) -> ActFault {
        ActFault::NoMemory
    }
}

/// A state of the flat machine.
#[derive(Drop)]
pub struct Flat {
    memory: Memory,
    threads: Vec<Thread>,
    waiters: Vec<Waiter>,
    heap_break: u64,
    output: Bytes,
    ended: Option<End>,
}

impl Model for Flat {
    ghost use Rattle.std.specs.Coded.{codes};
    ghost use Rattle.flat_machine.specs.State.{State};
    ghost use Rattle.flat_machine.specs.Memory.{memory_code};

    ghost Value = { State };

    ghost coded = { Prim.hlevel (codes, memory_code) };

    ghost view = { λ f. record { memory = f.memory; threads = f.threads.items; waiters = f.waiters.items; heap_break = f.heap_break; output = f.output; ended = f.ended } };
}

impl Flat {
    ghost use Rattle.elf_image.specs.Layout.{Setup};
    ghost use Rattle.wire_msg.specs.declared.calls.Call.TheVariants.{Write, FutexWait};
    ghost use Rattle.serving.specs.declared.control_data.Request.TheVariants.{Call as CallRequest};
    ghost use Rattle.serving.specs.Serving.{Served, request_served, call_served, spawn_served, join_served, write_served, wait_served, wake_served, brk_served, exit_served, ended};
    ghost use Rattle.flat_machine.specs.declared.threads.Status.TheVariants.{Answered, Parked};
    ghost use Rattle.flat_machine.specs.State.{start, with_status};
    ghost use Rattle.flat_machine.specs.Memory.{byte_at};
    ghost use Rattle.flat_machine.specs.Serving.{control_of, word_of, served};
    ghost use Rattle.flat_machine.specs.Action.{act, with_move, with_instruction, failed, loaded, returned, begun, is_vacant};
    ghost use Rattle.flat_machine.specs.Gives.{Acts};
    ghost use Rattle.flat_machine.specs.Run.{legal_action, onward};
    ghost use Rattle.flat_machine.specs.Inner.{concluded, with_closing, IsAloneReady};

    /// The state before the program runs: thread 0 is ready on tile 0 at the image's entry, with argument 0.
    pub fn start(alloc: Global, world: &World) -> Result<Flat, NoMemory>
        ensures { IfOk result (λ flat. flat ≡ start world.now) }
    {
        let memory = Memory::start(alloc, world)?;
        let entry = world.entry();
        let mut first = moves::new_thread(entry, 0);
        moves::start(world, 0, entry, 0, &mut first);
        let mut threads = Vec::new(alloc);
        threads.push(first)?;
        Ok(Flat {
            memory,
            threads,
            waiters: Vec::new(alloc),
            heap_break: world.layout().heap_start,
            output: Bytes::new(alloc, 0)?,
            ended: None,
        })
    }

    /// Makes an action. `NotLegal` comes exactly where the action isn't legal. An error changes nothing.
    pub fn act(&mut self, alloc: Global, world: &World, action: &Action) -> Result<(), ActFault>
        ensures { Acts result self.old self.new (act world.now self.old action.now) }
    {
        if thread_of(action) as usize >= self.threads.len() {
            return Err(ActFault::NotLegal);
        }
        match *action {
            Action::Exec { thread } => self.exec(alloc, world, thread),
            Action::FailSc { thread } => self.fail_conditional(world, thread),
            Action::Load { thread } => self.load(thread),
            Action::Serve { thread } => self.serve(alloc, world, thread),
            Action::Return { thread } => self.take_answer(thread),
            Action::Begin { thread, tile } => self.begin(world, thread, tile),
        }
    }

    /// A thread executes its next instruction.
    fn exec(&mut self, alloc: Global, world: &World, number: u32) -> Result<(), ActFault>
        requires { number < length self.old.threads }
        ensures { Acts result self.old self.new (with_instruction world.now self.old number) }
    {
        let index = number as usize;
        match moves::execute(
            alloc,
            world,
            number,
            &mut self.memory,
            &mut self.threads[index],
        ) {
            Ok(written) => {
                end_others(&mut self.threads, index, written);
                Ok(())
            }
            Err(fault) => Err(fault),
        }
    }

    /// A thread's store-conditional fails.
    fn fail_conditional(&mut self, world: &World, number: u32) -> Result<(), ActFault>
        requires { number < length self.old.threads }
        ensures { Acts result self.old self.new (with_move self.old number (failed world.now number)) }
    {
        moves::fail(world, number, &mut self.threads[number as usize])
    }

    /// A thread reads the next byte of its write call.
    fn load(&mut self, number: u32) -> Result<(), ActFault>
        requires { number < length self.old.threads }
        ensures { Acts result self.old self.new (with_move self.old number (loaded self.old.memory)) }
    {
        moves::load(&self.memory, &mut self.threads[number as usize])
    }

    /// A thread takes the answer of its call.
    fn take_answer(&mut self, number: u32) -> Result<(), ActFault>
        requires { number < length self.old.threads }
        ensures { Acts result self.old self.new (with_move self.old number returned) }
    {
        moves::take_answer(&mut self.threads[number as usize])
    }

    /// A new thread begins on a tile.
    fn begin(&mut self, world: &World, number: u32, tile: NodeId) -> Result<(), ActFault>
        requires { number < length self.old.threads }
        ensures { Acts result self.old self.new (with_move self.old number (begun world.now self.old tile)) }
    {
        if !self.is_vacant(world, tile) {
            return Err(ActFault::NotLegal);
        }
        moves::begin(world, tile, &mut self.threads[number as usize])
    }

    /// Whether a tile is one of the machine's, and no thread stands on it.
    fn is_vacant(&self, world: &World, tile: NodeId) -> bool
        ensures { result ≡ is_vacant world.now self.now tile }
    {
        (tile as u32) < world.config().tiles && !moves::is_taken(self.threads.as_slice(), tile)
    }

    /// A thread's write, call, exit or trap is served.
    fn serve(&mut self, alloc: Global, world: &World, number: u32) -> Result<(), ActFault>
        requires { number < length self.old.threads }
        ensures { Acts result self.old self.new (served world.now self.old number) }
    {
        if self.ended.is_some() {
            return Err(ActFault::NotLegal);
        }
        match request_of(alloc, &self.threads[number as usize].status)? {
            Some(request) => {
                self.serve_request(world, number, &request)?;
                Ok(())
            }
            None => Err(ActFault::NotLegal),
        }
    }

    /// A thread's request is served.
    fn serve_request(
        &mut self,
        world: &World,
        number: u32,
        request: &Request,
    ) -> Result<(), NoMemory>
        ensures ok { OnOk result (self.new ≡ concluded self.old number
            (request_served world.now (control_of self.old) number request.now (word_of self.old.memory request.now))) }
        ensures err { OnErr result (self.new ≡ self.old) }
    {
        match request {
            Request::Call { call } => self.serve_call(world, number, call)?,
            Request::Exit { code } => self.serve_exit(number, *code),
            Request::Trap { cause, pc } => {
                self.ended = Some(End::Trap {
                    thread: number,
                    cause: *cause,
                    pc: *pc,
                });
            }
        }
        Ok(())
    }

    /// A thread's call is served.
    fn serve_call(&mut self, world: &World, number: u32, call: &Call) -> Result<(), NoMemory>
        ensures ok { OnOk result (self.new ≡ concluded self.old number
            (call_served world.now (control_of self.old) number call.now (word_of self.old.memory (CallRequest call.now)))) }
        ensures err { OnErr result (self.new ≡ self.old) }
    {
        match *call {
            Call::Spawn { entry, arg } => self.serve_spawn(world, number, entry, arg)?,
            Call::Join { thread } => self.serve_join(number, thread),
            Call::Write { ref bytes } => self.serve_write(number, bytes)?,
            Call::FutexWait { addr, value } => self.serve_wait(number, addr, value)?,
            Call::FutexWake { addr, count } => self.serve_wake(number, addr, count),
            Call::Brk { addr } => self.serve_brk(world, number, addr),
            Call::ExitGroup { code } => self.ended = Some(End::Exit { code }),
        }
        Ok(())
    }

    /// A thread is spawned, to begin at an entry with an argument.
    fn serve_spawn(
        &mut self,
        world: &World,
        number: u32,
        entry: u64,
        arg: u64,
    ) -> Result<(), NoMemory>
        ensures ok { OnOk result (self.new ≡ concluded self.old number (spawn_served world.now (control_of self.old) entry arg)) }
        ensures err { OnErr result (self.new ≡ self.old) }
    {
        if entry % 4 != 0 {
            self.answer(number, INVALID);
        } else if is_full(world, self.threads.as_slice()) {
            self.answer(number, TRY_AGAIN);
        } else {
            let born = self.threads.len() as u64;
            self.threads.push(moves::new_thread(entry, arg))?;
            self.answer(number, born);
        }
        Ok(())
    }

    /// A thread joins another one.
    fn serve_join(&mut self, number: u32, target: u64)
        ensures { self.new ≡ concluded self.old number (join_served (control_of self.old) number target) }
    {
        match join_of(self.threads.as_slice(), number, target) {
            Join::Code { code } => {
                let gone = Status::Gone { code, joined: true };
                set_status(&mut self.threads, target as usize, gone);
                self.answer(number, u64::from(code));
            }
            Join::Parked => {
                set_joiner(&mut self.threads, target as usize, Some(number));
                self.park(number);
            }
            Join::NoThread => self.answer(number, NO_SUCH_THREAD),
            Join::Invalid => self.answer(number, INVALID),
        }
    }

    /// A thread's bytes are output.
    fn serve_write(&mut self, number: u32, bytes: &Bytes) -> Result<(), NoMemory>
        ensures ok { OnOk result (self.new ≡ concluded self.old number (write_served (control_of self.old) bytes.now)) }
        ensures err { OnErr result (self.new ≡ self.old) }
    {
        let value = write_output(&mut self.output, bytes)?;
        self.answer(number, value);
        Ok(())
    }

    /// A thread is parked at a word, where the word has a value.
    fn serve_wait(&mut self, number: u32, addr: u64, value: u32) -> Result<(), NoMemory>
        ensures ok { OnOk result (self.new ≡ concluded self.old number
            (wait_served (control_of self.old) number addr value (word_of self.old.memory (CallRequest (FutexWait addr value))))) }
        ensures err { OnErr result (self.new ≡ self.old) }
    {
        if self.memory.word(addr) == value {
            self.waiters.push(Waiter {
                thread: number,
                addr,
            })?;
            self.park(number);
        } else {
            self.answer(number, TRY_AGAIN);
        }
        Ok(())
    }

    /// A thread wakes at most `count` of those that are parked at an address.
    fn serve_wake(&mut self, number: u32, addr: u64, count: u32)
        ensures { self.new ≡ concluded self.old number (wake_served (control_of self.old) addr count) }
    {
        let woken = wake(&mut self.threads, &mut self.waiters, addr, count);
        self.answer(number, u64::from(woken));
    }

    /// A thread sets the break, or asks where it is.
    fn serve_brk(&mut self, world: &World, number: u32, addr: u64)
        ensures { self.new ≡ concluded self.old number (brk_served world.now (control_of self.old) addr) }
    {
        self.heap_break = break_after(world, self.heap_break, addr);
        self.answer(number, self.heap_break);
    }

    /// A thread exits with a code, and who is parked joining it is woken with the code.
    fn serve_exit(&mut self, number: u32, code: u8)
        ensures { self.new ≡ concluded self.old number (exit_served (control_of self.old) number code) }
    {
        let joiner = joiner_of(self.threads.as_slice(), number);
        let gone = Status::Gone {
            code,
            joined: joiner.is_some(),
        };
        set_status(&mut self.threads, number as usize, gone);
        self.ended = end_of_exit(self.threads.as_slice(), code);
        self.close();
        if let Some(joiner) = joiner {
            self.answer(joiner, u64::from(code));
        }
    }

    /// A thread's call, or its waiting, has this answer.
    fn answer(&mut self, number: u32, value: u64)
        ensures { self.new ≡ record self.old { threads = with_status self.old.threads number (Answered value) } }
    {
        set_status(
            &mut self.threads,
            number as usize,
            Status::Answered { value },
        );
    }

    /// A thread is parked, after which the closing follows.
    fn park(&mut self, number: u32)
        ensures { self.new ≡ record (with_closing self.old) { threads = with_status self.old.threads number Parked } }
    {
        self.close();
        set_status(&mut self.threads, number as usize, Status::Parked);
    }

    /// The closing: where threads are live and all of them are parked, the program ends by a deadlock, unless it has
    /// ended already.
    fn close(&mut self)
        ensures { self.new ≡ with_closing self.old }
    {
        if self.ended.is_none() && is_stuck(self.threads.as_slice(), self.waiters.as_slice()) {
            self.ended = Some(End::Deadlock);
        }
    }

    /// The only legal action of a machine of one thread. None where there is none, where a store-conditional may fail
    /// beside it, and where there is a second thread.
    pub fn legal_action(&self, world: &World) -> Option<Action>
        ensures { result ≡ legal_action world.now self.now }
    {
        match self.threads.as_slice() {
            [thread] => legal_action_of(world, thread, self.ended),
            _ => None,
        }
    }

    /// Makes the only legal action of a machine of one thread, and answers whether it had one.
    pub(crate) fn go_on(&mut self, alloc: Global, world: &World) -> Result<bool, NoMemory>
        ensures onward { IfOk result (λ went. self.new ≡ onward world.now self.old) }
        ensures still { IfOk result (λ went. went ≡ false → legal_action world.now self.old ≡ None) }
    {
        match self.threads.as_slice() {
            [
                Thread {
                    status: Status::Ready,
                    ..
                },
            ] => self.go_on_ready(alloc, world),
            _ => self.go_on_otherwise(alloc, world),
        }
    }

    /// The same where thread 0 is alone and ready: its next instruction is made, unless it is a store-conditional that
    /// may fail.
    fn go_on_ready(&mut self, alloc: Global, world: &World) -> Result<bool, NoMemory>
        requires { IsAloneReady self.old }
        ensures onward { IfOk result (λ went. self.new ≡ onward world.now self.old) }
        ensures still { IfOk result (λ went. went ≡ false → legal_action world.now self.old ≡ None) }
    {
        let step = moves::step_of(world, 0, &self.threads[0]);
        if moves::conditional_rd(&step).is_some() {
            return Ok(false);
        }
        match moves::make(alloc, &mut self.memory, &mut self.threads[0], step) {
            Ok(_) => Ok(true),
            Err(ActFault::NoMemory) => Err(NoMemory),
            Err(ActFault::NotLegal) => unreachable!(),
        }
    }

    /// The same for any state.
    fn go_on_otherwise(&mut self, alloc: Global, world: &World) -> Result<bool, NoMemory>
        ensures onward { IfOk result (λ went. self.new ≡ onward world.now self.old) }
        ensures still { IfOk result (λ went. went ≡ false → legal_action world.now self.old ≡ None) }
    {
        let Some(action) = self.legal_action(world) else {
            return Ok(false);
        };
        match self.act(alloc, world, &action) {
            Ok(()) => Ok(true),
            Err(ActFault::NoMemory) => Err(NoMemory),
            Err(ActFault::NotLegal) => unreachable!(),
        }
    }

    /// The bytes that the program has output so far.
    pub fn output(&self) -> &[u8]
        ensures { result.now ≡ self.now.output }
    {
        self.output.as_slice()
    }

    /// The threads, by their numbers.
    pub fn threads(&self) -> &[Thread]
        ensures { result.now ≡ self.now.threads }
    {
        self.threads.as_slice()
    }

    /// The byte at an address, 0 where nothing is mapped.
    pub fn byte(&self, address: u64) -> u8
        ensures { result ≡ byte_at self.now.memory address }
    {
        self.memory.byte(address)
    }

    /// How the program ended, if it has.
    pub fn ended(&self) -> Option<End>
        ensures { result ≡ self.now.ended }
    {
        self.ended
    }
}

/// The thread that an action is about.
fn thread_of(action: &Action) -> u32
    ensures { result ≡ thread_of action.now }
{
    match *action {
        Action::Exec { thread }
        | Action::FailSc { thread }
        | Action::Load { thread }
        | Action::Serve { thread }
        | Action::Return { thread }
        | Action::Begin { thread, .. } => thread,
    }
}

/// The only legal action of a thread 0 that is alone, where the program has this end or none.
fn legal_action_of(world: &World, thread: &Thread, ended: Option<End>) -> Option<Action>
    ensures { result ≡ action_by world.now thread.now ended thread.now.status }
{
    match &thread.status {
        Status::Ready => {
            let step = moves::step_of(world, 0, thread);
            if moves::conditional_rd(&step).is_some() {
                None
            } else {
                Some(Action::Exec { thread: 0 })
            }
        }
        Status::Writing { len, bytes, .. } if (bytes.len() as u64) < *len => {
            Some(Action::Load { thread: 0 })
        }
        Status::Answered { .. } => Some(Action::Return { thread: 0 }),
        Status::Writing { .. }
        | Status::Asked { .. }
        | Status::Left { .. }
        | Status::Trapped { .. } => {
            if ended.is_some() {
                None
            } else {
                Some(Action::Serve { thread: 0 })
            }
        }
        Status::New { .. } | Status::Parked | Status::Gone { .. } => None,
    }
}
