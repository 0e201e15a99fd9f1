//! The actions of the flat machine, and the numbers of nodes.

/// The number of a node of the simulated machine: a tile, or a server.
pub type NodeId = u8;

/// One action of the flat machine, this simulator's reference: one memory of bytes, and threads
/// that act one at a time.
#[derive(Clone, Copy, Debug, PartialEq, Eq)]
pub enum Action {
    /// A thread executes its next instruction.
    Exec { thread: u32 },
    /// A thread's store-conditional fails.
    FailSc { thread: u32 },
    /// A thread reads the next byte of its write call.
    Load { thread: u32 },
    /// A thread's call, exit or trap is served.
    Serve { thread: u32 },
    /// A thread takes the answer of its call.
    Return { thread: u32 },
    /// A new thread begins on a tile.
    Begin { thread: u32, tile: NodeId },
}
