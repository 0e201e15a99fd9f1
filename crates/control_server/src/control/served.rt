//! How the control server takes up a request and serves it: whom it answers, and who else goes on.

ghost use Rattle.std.specs.Prelude.{◌≡◌, ◌<◌, ◌++◌, true, length, IfOk, OnOk, ◌+◌, ◌-◌, ◌^◌};
ghost use Rattle.std.specs.Bool.{OnFalse};
ghost use Rattle.sim_base.specs.Saturated.{saturated};
ghost use Rattle.elf_image.specs.Layout.{Setup};
ghost use Rattle.serving.specs.declared.control_data.Request.{Request as Asked};
ghost use Rattle.serving.specs.ControlData.{next_number};
ghost use Rattle.serving.specs.Serving.{is_full, joiner_woken};
ghost use Rattle.control_server.specs.Control.{is_active};
ghost use Rattle.control_server.specs.Serve.{serves, checks, begins, join_all, woken_mail, freest_host, with_free};
ghost use Rattle.control_server.specs.Inner.{asked, CanBeServed, IsBorn, IsMade, IsDone};

use crate::control::Control;
use crate::hosts::freest_host;
use crate::requests::{Asker, Check, Waiting, word_of};
use elf_image::World;
use serving::{Join, MOST_THREADS, Request, break_after, write_output};
use sim_base::{Action, Bytes, End, NoMemory};
use std::alloc::Global;
use wire_msg::error_numbers::{INVALID, NO_SUCH_THREAD, TRY_AGAIN};
use wire_msg::{Call, Msg, Out};

/// How requests are taken up and served. What a thread is answered, and who else goes on, is the definition of serving.
impl Control {
    /// Takes up a request that waited: a futex wait's word is read first, and every other one is served at once. The
    /// answer is the action that this commits, if it does.
    pub(crate) fn take_up(
        &mut self,
        alloc: Global,
        world: &World,
        waiting: Waiting,
        out: &mut Out,
    ) -> Result<Option<Action>, NoMemory>
        requires { CanBeServed world.now self.old waiting.thread waiting.from }
        ensures { IfOk result (λ action. IsDone (begins world.now self.old waiting waiting.request) self.new out.old.items out.new.items action) }
    {
        let Waiting { asker, request } = waiting;
        if let Some((addr, value)) = word_of(&request) {
            self.check(world, asker, addr, value, out)?;
            return Ok(None);
        }
        self.serve(alloc, world, asker, request, 0, out)?;
        Ok(Some(Action::Serve {
            thread: asker.thread,
        }))
    }

    /// Reads a futex wait's word through memory, from its line's home.
    fn check(
        &mut self,
        world: &World,
        asker: Asker,
        addr: u64,
        value: u32,
        out: &mut Out,
    ) -> Result<(), NoMemory>
        ensures { IfOk result (λ _. (request : Asked) → IsMade (checks world.now self.old (asked asker request) addr value) self.new out.old.items out.new.items) }
    {
        let line = addr / 64;
        let home = world.config().home(line);
        out.push((home, Msg::GetS { line }))?;
        self.checking = Some(Check {
            thread: asker.thread,
            from: asker.from,
            addr,
            value,
        });
        Ok(())
    }

    /// Serves what a thread asks. `word` is the number in the four bytes that a futex wait looks at.
    pub(crate) fn serve(
        &mut self,
        alloc: Global,
        world: &World,
        asker: Asker,
        request: Request,
        word: u64,
        out: &mut Out,
    ) -> Result<(), NoMemory>
        requires { CanBeServed world.now self.old asker.thread asker.from }
        ensures { IfOk result (λ _. IsMade (serves world.now self.old (asked asker request) word) self.new out.old.items out.new.items) }
    {
        match request {
            Request::Call { call } => self.call(alloc, world, asker, call, word, out),
            Request::Exit { code } => self.exit(world, asker, code, out),
            Request::Trap { cause, pc } => {
                let thread = asker.thread;
                self.ended = Some(End::Trap { thread, cause, pc });
                Ok(())
            }
        }
    }

    /// Serves a call.
    fn call(
        &mut self,
        alloc: Global,
        world: &World,
        asker: Asker,
        call: Call,
        word: u64,
        out: &mut Out,
    ) -> Result<(), NoMemory>
        requires { CanBeServed world.now self.old asker.thread asker.from }
        ensures { IfOk result (λ _. IsMade (serves world.now self.old (asked asker (Request.Call call)) word) self.new out.old.items out.new.items) }
    {
        match call {
            Call::Spawn { entry, arg } => self.spawn(world, asker, entry, arg, out),
            Call::Join { thread } => self.join(asker, thread, out),
            Call::Write { bytes } => self.write(asker, &bytes, out),
            Call::FutexWait { addr, value } => self.wait(asker, addr, value, word, out),
            Call::FutexWake { addr, count } => self.wake_longest(alloc, asker, addr, count, out),
            Call::Brk { addr } => self.set_break(world, asker, addr, out),
            Call::ExitGroup { code } => {
                self.ended = Some(End::Exit { code });
                Ok(())
            }
        }
    }

    /// A thread begins on the host with the most free tiles, unless the entry isn't a multiple of 4, as many threads as
    /// there are tiles are live, or no number is left.
    fn spawn(
        &mut self,
        world: &World,
        asker: Asker,
        entry: u64,
        arg: u64,
        out: &mut Out,
    ) -> Result<(), NoMemory>
        requires { CanBeServed world.now self.old asker.thread asker.from }
        ensures { IfOk result (λ _. IsMade (serves world.now self.old (asked asker (Request.Call (Call.Spawn entry arg))) 0) self.new out.old.items out.new.items) }
    {
        if entry % 4 != 0 {
            return self.answer(asker.from, INVALID, out);
        }
        if self.is_full(world) {
            return self.answer(asker.from, TRY_AGAIN, out);
        }
        self.begin(world, asker, entry, arg, out)
    }

    /// Whether no thread can begin: as many as there are tiles are live, or no number is left.
    fn is_full(&self, world: &World) -> bool
        ensures full { result ≡ is_full world.now self.now.control.fates }
        ensures number { OnFalse result (next_number self.now.control.fates < 2 ^ 32 - 1) }
    {
        world.config().tiles <= self.threads.live() || MOST_THREADS <= self.threads.next()
    }

    /// A thread begins, and the caller is answered its number.
    fn begin(
        &mut self,
        world: &World,
        asker: Asker,
        entry: u64,
        arg: u64,
        out: &mut Out,
    ) -> Result<(), NoMemory>
        requires can { CanBeServed world.now self.old asker.thread asker.from }
        requires number { next_number self.old.control.fates < 2 ^ 32 - 1 }
        ensures { IfOk result (λ _. IsBorn world.now self.old asker entry arg self.new out.old.items out.new.items) }
    {
        let config = world.config();
        let host = self.take_tile();
        let thread = self.threads.add()?;
        self.callers.push(0)?;
        self.epochs.join(thread)?;
        let to = config.local(host as u32);
        let time = asker.time;
        let limit = self.epochs.limit();
        let start = Msg::Start {
            thread,
            entry,
            arg,
            time,
            limit,
        };
        out.push((to, start))?;
        self.answer(asker.from, thread as u64, out)?;
        Ok(())
    }

    /// Takes a free tile of the host with the most free ones, and answers the host.
    fn take_tile(&mut self) -> usize
        requires { 0 < length self.old.free }
        ensures host { result ≡ freest_host self.old.free }
        ensures in_range { result < length self.old.free }
        ensures free { self.new ≡ record self.old { free = with_free self.old.free (freest_host self.old.free) (λ n. n - 1) } }
    {
        let host = freest_host(self.free.as_slice());
        self.free[host] = self.free[host].saturating_sub(1);
        host
    }

    /// A host has one more free tile.
    fn free_tile(&mut self, host: usize)
        requires { host < length self.old.free }
        ensures { self.new ≡ record self.old { free = with_free self.old.free host (λ n. saturated (n + 1)) } }
    {
        self.free[host] = self.free[host].saturating_add(1);
    }

    /// A thread waits for another one's exit.
    fn join(&mut self, asker: Asker, target: u64, out: &mut Out) -> Result<(), NoMemory>
        requires { is_active self.old.control asker.thread ≡ true }
        ensures { IfOk result (λ _. (w : Setup) → IsMade (serves w self.old (asked asker (Request.Call (Call.Join target))) 0) self.new out.old.items out.new.items) }
    {
        match self.threads.join(asker.thread, target) {
            Join::Code { code } => self.answer(asker.from, code as u64, out),
            Join::NoThread => self.answer(asker.from, NO_SUCH_THREAD, out),
            Join::Invalid => self.answer(asker.from, INVALID, out),
            Join::Parked => self.leave(asker.thread, out),
        }
    }

    /// Bytes are output, unless there would be too many.
    fn write(&mut self, asker: Asker, bytes: &Bytes, out: &mut Out) -> Result<(), NoMemory>
        requires { is_active self.old.control asker.thread ≡ true }
        ensures { IfOk result (λ _. (w : Setup) → IsMade (serves w self.old (asked asker (Request.Call (Call.Write bytes.now))) 0) self.new out.old.items out.new.items) }
    {
        let value = write_output(&mut self.output, bytes)?;
        self.answer(asker.from, value, out)
    }

    /// A thread is parked at a word, where the word is the value that it waits at.
    fn wait(
        &mut self,
        asker: Asker,
        addr: u64,
        value: u32,
        word: u64,
        out: &mut Out,
    ) -> Result<(), NoMemory>
        requires active { is_active self.old.control asker.thread ≡ true }
        requires number { asker.thread < 2 ^ 32 - 1 }
        ensures { IfOk result (λ _. (w : Setup) → IsMade (serves w self.old (asked asker (Request.Call (Call.FutexWait addr value))) word) self.new out.old.items out.new.items) }
    {
        if word != value as u64 {
            return self.answer(asker.from, TRY_AGAIN, out);
        }
        self.futexes.park(addr, asker.thread)?;
        self.leave(asker.thread, out)
    }

    /// The threads that are parked longest at a word go on, so many at most.
    fn wake_longest(
        &mut self,
        alloc: Global,
        asker: Asker,
        addr: u64,
        count: u32,
        out: &mut Out,
    ) -> Result<(), NoMemory>
        requires { is_active self.old.control asker.thread ≡ true }
        ensures { IfOk result (λ _. (w : Setup) → IsMade (serves w self.old (asked asker (Request.Call (Call.FutexWake addr count))) 0) self.new out.old.items out.new.items) }
    {
        let threads = self.futexes.wake(alloc, addr, count)?;
        self.wake_all(threads.as_slice(), asker.time, out)?;
        self.answer(asker.from, threads.len() as u64, out)?;
        Ok(())
    }

    /// The break is an address of the heap window, if the call names one.
    fn set_break(
        &mut self,
        world: &World,
        asker: Asker,
        addr: u64,
        out: &mut Out,
    ) -> Result<(), NoMemory>
        requires { is_active self.old.control asker.thread ≡ true }
        ensures { IfOk result (λ _. IsMade (serves world.now self.old (asked asker (Request.Call (Call.Brk addr))) 0) self.new out.old.items out.new.items) }
    {
        self.heap_break = break_after(world, self.heap_break, addr);
        self.answer(asker.from, self.heap_break, out)
    }

    /// A thread exits: its host has one more free tile, and a thread that is parked joining it goes on. The program
    /// ends with the last one's exit.
    fn exit(&mut self, world: &World, asker: Asker, code: u8, out: &mut Out) -> Result<(), NoMemory>
        requires { CanBeServed world.now self.old asker.thread asker.from }
        ensures { IfOk result (λ _. IsMade (serves world.now self.old (asked asker (Request.Exit code)) 0) self.new out.old.items out.new.items) }
    {
        self.free_tile(world.config().host_of(asker.from) as usize);
        let joiner = self.threads.exit(asker.thread, code);
        self.wake_joiner(joiner, code, asker.time, out)?;
        self.ended = self.end_of_exit(code);
        self.leave(asker.thread, out)?;
        Ok(())
    }

    /// The thread that was parked joining one that exits goes on, if there is one.
    fn wake_joiner(
        &mut self,
        joiner: Option<u32>,
        code: u8,
        time: u64,
        out: &mut Out,
    ) -> Result<(), NoMemory>
        ensures control { OnOk result (self.new ≡ record self.old { epochs = join_all (joiner_woken joiner code) self.old.epochs }) }
        ensures mail { OnOk result (out.new.items ≡ out.old.items ++ woken_mail self.old time (joiner_woken joiner code)) }
    {
        if let Some(thread) = joiner {
            self.wake(thread, code as u64, time, out)?;
        }
        Ok(())
    }
}
