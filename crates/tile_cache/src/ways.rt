//! A line in a set, and how it is held: shared or modified.

ghost use Rattle.std.specs.Prelude.{◌≡◌, Some};
ghost use Rattle.tile_cache.specs.Cache.{is_m};

use sim_base::{Line, LineData};

/// How a line is held.
#[derive(Clone, Copy, Debug, PartialEq, Eq)]
pub enum Hold {
    /// It may be read.
    S,
    /// It may be read and written; nobody else has it.
    M,
}

impl Hold {
    /// Whether it lets its holder write.
    #[inline(always)]
    pub(crate) fn is_m(self) -> bool
        ensures { result ≡ is_m (Some self) }
    {
        matches!(self, Hold::M)
    }
}

/// A line in a set.
#[derive(Clone, Copy)]
pub struct Way {
    /// The line.
    pub line: Line,
    /// How it is held.
    pub hold: Hold,
    /// What it holds.
    pub content: LineData,
}
