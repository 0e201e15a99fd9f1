//! Fates of threads, parked threads, joins, and what a thread asks to be served.

use sim_base::Cause;
use wire_msg::Call;

/// What has become of a thread that began.
#[derive(Clone, Copy, Debug, PartialEq, Eq)]
pub enum Fate {
    /// Its exit wasn't served yet. `joiner` is the thread that is parked joining it, if one is.
    Live { joiner: Option<u32> },
    /// It exited with a code; whether a thread has joined it.
    Exited { code: u8, joined: bool },
}

/// A thread that is parked at the word at an address, until another one wakes it.
#[derive(Clone, Copy, Debug, PartialEq, Eq)]
pub struct Waiter {
    /// The thread.
    pub thread: u32,
    /// The address of the word.
    pub addr: u64,
}

/// What a join comes to.
#[derive(Clone, Copy, Debug, PartialEq, Eq)]
pub enum Join {
    /// The target has exited with this code, and counts as joined from now on.
    Code { code: u8 },
    /// The caller is parked until the target exits.
    Parked,
    /// No thread of that number began, or it was joined already.
    NoThread,
    /// A thread can't join itself, nor one that another is parked joining.
    Invalid,
}

/// What a thread asks to be served.
#[derive(Drop)]
pub enum Request {
    /// A call.
    Call { call: Call },
    /// Its exit with a code.
    Exit { code: u8 },
    /// The trap of its instruction at `pc`.
    Trap { cause: Cause, pc: u64 },
}
