//! What each cause of a trap means.

use sim_base::Cause;

/// What the instruction did.
pub(crate) fn meaning_of(cause: Cause) -> &'static str {
    match cause {
        Cause::InstrMisaligned => "It jumped to an address that is no multiple of 4.",
        Cause::InstrAccess =>
            "It lies in no segment that may be executed: a wrong jump or return led there.",
        Cause::Illegal =>
            "It is no instruction of RV64IMA, which has no floating point and nothing compressed.",
        Cause::Breakpoint => "It is EBREAK, as a failed assertion or __builtin_trap() makes it.",
        Cause::LoadMisaligned =>
            "It loaded from an address that is no multiple of the number's size.",
        Cause::LoadAccess => "It loaded a byte of no segment, heap or stack.",
        Cause::StoreMisaligned =>
            "It stored, or was an atomic, at an address that is no multiple of the number's size.",
        Cause::StoreAccess =>
            "It stored, or was an atomic, at a byte that is unmapped or may not be written.",
    }
}

/// What is often the reason.
pub(crate) fn reason_of(cause: Cause) -> &'static str {
    match cause {
        Cause::InstrMisaligned | Cause::InstrAccess =>
            "Look for a wild function pointer or an overwritten return address.",
        Cause::Illegal => "Compile with -march=rv64ima -mabi=lp64, libraries too.",
        Cause::Breakpoint => "The program ended itself there.",
        Cause::LoadMisaligned | Cause::StoreMisaligned =>
            "Look for a pointer that was cast to a wider type.",
        Cause::LoadAccess | Cause::StoreAccess =>
            "Look for a wild pointer, a full stack (stack_bytes) or the heap's end (heap_bytes).",
    }
}
