//! A tile's core: its thread, clock, limit and reservation, and a write call under way.

ghost use Rattle.std.specs.Prelude.{◌≡◌, ◌<◌, ◌≤◌, length, IfOk};

use crate::plans::{Plan, plan_for};
use elf_image::World;
use rv_exec::{Access, Regs};
use rv_hart::{Span, next_step, start_registers};
use sim_base::{Buffer, NoMemory, NodeId};
use std::alloc::Global;
use std::marker::Model;

/// The most bytes that one write call moves.
pub const MOST_WRITTEN: usize = 4096;

/// A write call whose bytes are read one by one.
#[derive(Drop)]
pub struct Write {
    /// The address of its first byte.
    pub addr: u64,
    /// How many bytes it has, at most 4096.
    pub len: u64,
    /// The bytes read so far.
    pub got: Buffer<MOST_WRITTEN>,
}

impl Model for Write {
    ghost use Rattle.std.specs.Prelude.{◌≤◌};
    ghost use Rattle.tile_core.specs.Gathering.{Gathering};

    ghost Value = { Gathering };

    ghost view = { λ w. record { addr = w.addr; len = w.len; got = w.got } };

    ghost invariant = { λ w. w.len ≤ 4096 };
}

impl Write {
    ghost use Rattle.tile_core.specs.Gathering.{write_of, no_write, is_gathered, with_byte};
    ghost use Rattle.tile_core.specs.Core.{next_byte};

    /// No write.
    fn none(alloc: Global) -> Result<Write, NoMemory>
        ensures { IfOk result (λ write. write ≡ no_write) }
    {
        Ok(Write {
            addr: 0,
            len: 0,
            got: Buffer::new(alloc)?,
        })
    }

    /// A write of at most 4096 bytes begins, or no write.
    pub fn begin(&mut self, addr: u64, len: u64)
        requires { len ≤ 4096 }
        ensures { self.new ≡ write_of addr len }
    {
        self.addr = addr;
        self.len = len;
        self.got.clear();
    }

    /// Whether all its bytes were read.
    pub fn is_gathered(&self) -> bool
        ensures { result ≡ is_gathered self.now }
    {
        self.len <= self.got.len() as u64
    }

    /// The address of its next byte.
    pub fn next_byte(&self) -> u64
        ensures { result ≡ next_byte self.now }
    {
        self.addr.wrapping_add(self.got.len() as u64)
    }

    /// Takes its next byte. It takes no memory.
    pub fn push(&mut self, byte: u8)
        requires { length self.old.got < self.old.len }
        ensures { self.new ≡ with_byte self.old byte }
    {
        self.got.push(byte);
    }
}

/// What a core is doing.
#[derive(Clone, Copy, Debug, PartialEq, Eq)]
pub enum Status {
    /// No thread is on it.
    Idle,
    /// Its thread executes its next instruction.
    Run,
    /// It waits for a line: for an access, or where there is none for the next byte of a write.
    Miss {
        access: Option<Access>,
    },
    /// Its thread's call was sent, and isn't answered yet.
    Called,
    /// Its thread reads the bytes of a write call.
    Writing,
    /// It has reached its limit and waits for the next, and then goes on to run or, in a write, to read bytes.
    AtBarrier {
        writing: bool,
    },
    /// It has asked a partner's clock, and had so many replies, and then goes on to run or, in a write, to read bytes.
    Probing {
        writing: bool,
        partner: NodeId,
        replies: u8,
    },
    /// Its thread's instruction trapped.
    Trapped,
}

/// A tile's core. Clocks, limits and checks are in cycles.
#[derive(Drop)]
pub struct TileCore {
    /// The registers.
    pub regs: Regs,
    /// The address of the next instruction, or of the call that is being made.
    pub pc: u64,
    /// The number of its thread.
    pub thread: u32,
    /// What it is doing.
    pub status: Status,
    /// Its clock.
    pub clock: u64,
    /// The clock at which it waits for the others under a barrier.
    pub limit: u64,
    /// The clock at which it next looks at another tile's.
    pub next_check: u64,
    /// What its last load-reserved has reserved, while that stands.
    pub reservation: Option<Span>,
    /// The write under way, or the last one.
    pub write: Write,
}

impl TileCore {
    ghost use Rattle.tile_core.specs.Core.{idle_core, begun};
    ghost use Rattle.tile_core.specs.Plan.{plan_of};
    ghost use Rattle.tile_core.specs.Inner.{IsPlan};

    /// A core on which no thread was yet. The memory for the bytes of writes is reserved here.
    pub fn new(alloc: Global) -> Result<TileCore, NoMemory>
        ensures { IfOk result (λ core. core ≡ idle_core) }
    {
        Ok(TileCore {
            regs: Regs::new(),
            pc: 0,
            thread: 0,
            status: Status::Idle,
            clock: 0,
            limit: 0,
            next_check: 0,
            reservation: None,
            write: Write::none(alloc)?,
        })
    }

    /// A thread begins: registers as a tile's thread has them at its start, with the argument in `a0`; the given clock
    /// and limit; no reservation; and the next look at another tile's clock after `interval` cycles.
    pub fn begin(
        &mut self,
        world: &World,
        tile: NodeId,
        thread: u32,
        entry: u64,
        arg: u64,
        clock: u64,
        limit: u64,
    )
        requires { tile < world.now.config.tiles }
        ensures { self.new ≡ begun world.now tile thread entry arg clock limit }
    {
        self.regs = start_registers(world, tile, arg);
        self.pc = entry;
        self.thread = thread;
        self.status = Status::Run;
        self.clock = clock;
        self.limit = limit;
        self.next_check = clock.saturating_add(world.config().interval);
        self.reservation = None;
        self.write.begin(0, 0);
    }

    /// What the next instruction of the thread asks of the tile. It changes nothing. It means something only while the
    /// thread runs.
    #[inline(always)]
    pub fn next(&self, world: &World) -> Plan
        ensures plan { result ≡ plan_of world.now self.now }
        ensures known { IsPlan world.now result }
    {
        let step = next_step(world, &self.regs, self.pc, self.reservation, self.thread);
        plan_for(world, self.pc, step)
    }
}
