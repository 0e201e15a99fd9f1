//! A thread of the flat machine, and what it is doing.

use rv_exec::Regs;
use rv_hart::Span;
use sim_base::{Bytes, Cause, NodeId};
use wire_msg::Call;

/// What a thread is doing.
#[derive(Drop)]
pub enum Status {
    /// It was spawned, to begin at `entry` with `arg`, and stands on no tile yet.
    New { entry: u64, arg: u64 },
    /// It executes its next instruction.
    Ready,
    /// It reads the bytes of a write call: `len` of them from `addr` on, `bytes` so far.
    Writing { addr: u64, len: u64, bytes: Bytes },
    /// Its call waits to be served.
    Asked { call: Call },
    /// Its call was served, and it waits until another thread wakes it.
    Parked,
    /// Its call was served with this answer.
    Answered { value: u64 },
    /// It exited with a code, which isn't served yet. It stands on no tile any more.
    Left { code: u8 },
    /// Its instruction at `pc` trapped, which isn't served yet.
    Trapped { cause: Cause, pc: u64 },
    /// Its exit was served; whether a thread has joined it.
    Gone { code: u8, joined: bool },
}

/// A thread of the program.
#[derive(Drop)]
pub struct Thread {
    /// Its registers.
    pub regs: Regs,
    /// The address of its next instruction.
    pub pc: u64,
    /// The tile that it stands on.
    pub tile: Option<NodeId>,
    /// What its last load-reserved has reserved, while that stands.
    pub reservation: Option<Span>,
    /// The thread that is parked joining it, if one is. It doesn't count once this one has exited.
    pub joiner: Option<u32>,
    /// What it is doing.
    pub status: Status,
}
