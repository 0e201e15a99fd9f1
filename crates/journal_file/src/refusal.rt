//! Why a file gave no journal.

ghost use Rattle.journal_file.specs.declared.refusal.JournalRefusal.TheVariants.{NoMemory as OutOfMemory};
ghost use Rattle.std.specs.Prelude.{◌≡◌};

use sim_base::NoMemory;
use std::alloc::{AllocError, AllocFailed};

/// Why a file gave no journal.
#[derive(Clone, Copy, Debug, PartialEq, Eq)]
pub enum JournalRefusal {
    /// It has more than 300,000,000 bytes.
    TooLong,
    /// It is none at this place, counted in bytes from 0. The first such place counts.
    Byte { at: u64 },
    /// Memory ran out.
    NoMemory,
}

impl From<AllocError> for JournalRefusal {
    ghost from_gives = { λ _ e. e ≡ OutOfMemory };

    fn from(_error: AllocError) -> JournalRefusal {
        JournalRefusal::NoMemory
    }
}

impl<T: Drop> From<AllocFailed<T>> for JournalRefusal {
    ghost from_gives = { λ _ e. e ≡ OutOfMemory };

    fn from(_error: AllocFailed<T>) -> JournalRefusal {
        JournalRefusal::NoMemory
    }
}

impl From<NoMemory> for JournalRefusal {
    ghost from_gives = { λ _ e. e ≡ OutOfMemory };

    fn from(_error: NoMemory) -> JournalRefusal {
        JournalRefusal::NoMemory
    }
}
