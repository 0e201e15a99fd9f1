//! How a run ends, and why an instruction traps.

use std::fmt;

/// Why an instruction trapped. The names follow the exceptions of the RISC-V privileged
/// architecture; the order in which they are tested is said where instructions are executed.
#[derive(Clone, Copy, Debug, PartialEq, Eq)]
pub enum Cause {
    /// A jump or a taken branch to an address that isn't a multiple of 4.
    InstrMisaligned,
    /// The four bytes at the pc don't lie in an executable segment.
    InstrAccess,
    /// The word is no instruction of this machine.
    Illegal,
    /// EBREAK.
    Breakpoint,
    /// A load at an address that isn't a multiple of its size.
    LoadMisaligned,
    /// A load of a byte that isn't readable.
    LoadAccess,
    /// A store or an atomic at an address that isn't a multiple of its size.
    StoreMisaligned,
    /// A store or an atomic at a byte that isn't writable.
    StoreAccess,
}

impl fmt::Display for Cause {
    ghost use Rattle.std.specs.Prelude.{Some};
    ghost use Rattle.sim_base.specs.Names.{cause_name};

    ghost output = { λ cause. Some (cause_name cause) };

    fn fmt<W: fmt::Write>(&self, f: &mut fmt::Formatter<W>) -> fmt::Result {
        f.write_str(match self {
            Cause::InstrMisaligned => "InstrMisaligned",
            Cause::InstrAccess => "InstrAccess",
            Cause::Illegal => "Illegal",
            Cause::Breakpoint => "Breakpoint",
            Cause::LoadMisaligned => "LoadMisaligned",
            Cause::LoadAccess => "LoadAccess",
            Cause::StoreMisaligned => "StoreMisaligned",
            Cause::StoreAccess => "StoreAccess",
        })
    }
}

/// How a run ended.
#[derive(Clone, Copy, Debug, PartialEq, Eq)]
pub enum End {
    /// The program exited with this code.
    Exit { code: u8 },
    /// A thread's instruction at `pc` trapped.
    Trap { thread: u32, cause: Cause, pc: u64 },
    /// Every live thread waits for another.
    Deadlock,
    /// Some node has made as many events as the settings allow.
    Budget,
}
