//! Clock policies, kinds of generated programs, and cost classes of instructions.

/// How the clocks of tiles are kept near one another, after Graphite (HPCA 2010).
#[derive(Clone, Copy, Debug, PartialEq, Eq)]
pub enum Policy {
    /// Clocks meet only where threads do.
    Lax,
    /// All active tiles meet at the end of each quantum of cycles.
    LaxBarrier,
    /// A tile asks another one's clock from time to time, and waits where it is too far ahead.
    LaxP2p,
}

/// A kind of generated program, named for what its threads do.
#[derive(Clone, Copy, Debug, PartialEq, Eq)]
pub enum Kind {
    /// They take turns at one lock.
    Lock,
    /// They meet at a barrier.
    Barrier,
    /// Each hands its results on to the next.
    Pipeline,
    /// They add up parts of one sum.
    Reduce,
}

/// A class of instructions that cost the same number of cycles; the settings have one cost for each.
#[derive(Clone, Copy, Debug, PartialEq, Eq)]
pub enum CostClass {
    /// Arithmetic, logic, jumps and branches.
    Alu,
    /// Multiplications.
    Mul,
    /// Divisions and remainders.
    Div,
    /// Loads and stores.
    Mem,
    /// Atomic memory operations, load-reserved and store-conditional.
    Amo,
    /// Calls of the environment.
    Call,
}
