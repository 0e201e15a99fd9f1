//! The registers that threads and calls name, by the RISC-V calling convention.

/// The stack pointer.
pub const SP: u8 = 2;

/// A thread's argument; a call's first argument, and its answer.
pub const A0: u8 = 10;

/// A call's second argument.
pub const A1: u8 = 11;

/// A call's third argument.
pub const A2: u8 = 12;

/// A call's fourth argument.
pub const A3: u8 = 13;

/// The number of a call.
pub const A7: u8 = 17;
