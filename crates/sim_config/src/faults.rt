//! Why words gave no request, and why a file gave no settings.

ghost use Rattle.std.specs.Prelude.{◌≡◌};
ghost use Rattle.sim_config.specs.declared.faults.RequestFault.TheVariants.{NoMemory as NoMemoryForRequest};
ghost use Rattle.sim_config.specs.declared.faults.ConfigFault.TheVariants.{NoMemory as NoMemoryForConfig};

use sim_base::{Field, NoMemory};
use std::alloc::AllocError;
use thiserror::Error;

/// Why the words of the command line gave no request.
#[derive(Clone, Copy, Debug, PartialEq, Eq, Error)]
pub enum RequestFault {
    /// The words have no meaning.
    #[error("the words have no meaning")]
    Usage,
    /// Memory ran out.
    #[error("out of memory")]
    NoMemory,
}

impl From<NoMemory> for RequestFault {
    ghost from_gives = { λ _ e. e ≡ NoMemoryForRequest };

    fn from(_error: NoMemory) -> RequestFault {
        RequestFault::NoMemory
    }
}

/// Why a settings file gave no settings.
#[derive(Clone, Copy, Debug, PartialEq, Eq, Error)]
pub enum ConfigFault {
    /// It is refused for this, the first that applies.
    #[error("bad setting {field:?}")]
    Bad { field: Field },
    /// Memory ran out.
    #[error("out of memory")]
    NoMemory,
}
