//! How a journal keeps its events: some that stand once, and then some that stand many times.

/// A part of the events that a journal has noted: so many of them stand once, and so many behind these stand many times, as
/// a whole, one after the other.
#[derive(Clone, Copy)]
pub(crate) struct Block {
    /// How many events stand once.
    pub(crate) once: usize,
    /// How many stand many times: at least one.
    pub(crate) size: usize,
    /// How often they stand: at least once.
    pub(crate) times: u32,
}
