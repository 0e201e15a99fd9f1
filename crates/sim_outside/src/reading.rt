//! Why a file was not read.

ghost use Rattle.std.specs.Prelude.{◌≡◌};

use std::alloc::AllocError;

/// Why a file was not read.
#[derive(Clone, Copy, Debug, PartialEq, Eq)]
pub enum FileAnswer {
    /// The file isn't there, or reading it failed.
    Failed,
    /// The file is longer than the limit.
    TooLong,
    /// Memory ran out.
    NoMemory,
}

impl From<AllocError> for FileAnswer {
    ghost use Rattle.sim_outside.specs.declared.reading.FileAnswer.TheVariants.{NoMemory};

    ghost from_gives = { λ _ answer. answer ≡ NoMemory };

    fn from(_error: AllocError) -> FileAnswer {
        FileAnswer::NoMemory
    }
}
