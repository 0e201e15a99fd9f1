//! What an instruction does, as an answer with its cases.

use crate::access::Access;
use sim_base::Cause;

/// What an instruction does.
#[derive(Clone, Copy, Debug, PartialEq, Eq)]
pub enum Meaning {
    /// It writes `value` to register `rd`, which changes nothing where `rd` is 0, and goes on at
    /// the address `pc`.
    Next { rd: u8, value: u64, pc: u64 },
    /// It asks for an access to memory. What that gives goes to the access's `rd`, and the next
    /// instruction follows.
    Access { access: Access },
    /// It asks for a call; the registers and the pc say which.
    Call,
    /// It traps, and changes nothing.
    Trap { cause: Cause },
}
