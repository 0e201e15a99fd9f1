//! Why a file was not written.

ghost use Rattle.std.specs.Prelude.{◌≡◌};

use std::alloc::AllocError;

/// Why a file was not written.
#[derive(Clone, Copy, Debug, PartialEq, Eq)]
pub enum WriteAnswer {
    /// Writing the file failed.
    Failed,
    /// Memory ran out.
    NoMemory,
}

impl From<AllocError> for WriteAnswer {
    ghost use Rattle.sim_outside.specs.declared.writing.WriteAnswer.TheVariants.{NoMemory};

    ghost from_gives = { λ _ answer. answer ≡ NoMemory };

    fn from(_error: AllocError) -> WriteAnswer {
        WriteAnswer::NoMemory
    }
}
