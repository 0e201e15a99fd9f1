//! What a thread asks of the control server.

ghost use Rattle.std.specs.Prelude.{◌≡◌, IfOk};

use sim_base::{Bytes, NoMemory};
use std::alloc::Global;

/// What a thread asks of the control server, which serves it for the whole machine. The names follow Linux's
/// calls and this simulator's own; addresses are those of the program.
#[derive(Drop)]
pub enum Call {
    /// Starts a thread at an entry, with an argument.
    Spawn { entry: u64, arg: u64 },
    /// Waits for a thread's exit.
    Join { thread: u64 },
    /// Outputs bytes.
    Write { bytes: Bytes },
    /// Sleeps while the word at an address has a value.
    FutexWait { addr: u64, value: u32 },
    /// Wakes at most `count` of those that sleep at an address.
    FutexWake { addr: u64, count: u32 },
    /// Sets the break, the end of the heap.
    Brk { addr: u64 },
    /// Ends the program with a code.
    ExitGroup { code: u8 },
}

impl Call {
    /// An equal call. It takes memory for the bytes of a `Write` alone.
    pub fn copy(&self, alloc: Global) -> Result<Call, NoMemory>
        ensures { IfOk result (λ copy. copy ≡ self.now) }
    {
        Ok(match *self {
            Call::Spawn { entry, arg } => Call::Spawn { entry, arg },
            Call::Join { thread } => Call::Join { thread },
            Call::Write { ref bytes } => Call::Write {
                bytes: bytes.copy(alloc)?,
            },
            Call::FutexWait { addr, value } => Call::FutexWait { addr, value },
            Call::FutexWake { addr, count } => Call::FutexWake { addr, count },
            Call::Brk { addr } => Call::Brk { addr },
            Call::ExitGroup { code } => Call::ExitGroup { code },
        })
    }
}
