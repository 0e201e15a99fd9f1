//! What nodes ask and tell of a line of memory: what it is wanted for, and what a node tells the line's home.
use sim_base::LineData;

/// What a line is wanted for. This simulator's own.
#[derive(Clone, Copy, Debug, PartialEq, Eq)]
pub enum Want {
    /// To read it.
    Read,
    /// To read it and write it.
    Write,
}

/// What a node tells a line's home. This simulator's own.
#[derive(Clone, Copy)]
pub enum Up {
    /// It asks for the line.
    Asks { want: Want },
    /// It gives up by itself the line that it had to write.
    GivesUp { content: LineData },
    /// It has dropped its copy, as it was told to.
    Acknowledges,
    /// It hands over the line that it had to write, as it was told to.
    HandsOver { content: LineData },
}
