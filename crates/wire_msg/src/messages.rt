//! The messages of the machine, one case each, with their times and data.

ghost use Rattle.std.specs.Prelude.{◌≡◌, IfOk};

use crate::calls::Call;
use sim_base::{Cause, Line, LineData, NoMemory};
use std::alloc::Global;

/// What one node tells another. Times, clocks, delays and limits are in cycles of the simulated machine. Each
/// line of memory has a home, the tile that knows who holds it: tiles hold lines in M, to read and write, or in
/// S, to read alone, as the control server does. This simulator's own, after Graphite (HPCA 2010).
#[derive(Drop)]
pub enum Msg {
    /// A tile or the control server asks a line's home to read the line.
    GetS {
        line: Line,
    },
    /// A tile asks a line's home to write the line.
    GetM {
        line: Line,
    },
    /// A tile gives up a line that it held in M, with the data, and tells the home.
    PutM {
        line: Line,
        content: LineData,
    },
    /// A tile or the control server answers the home's `Inv`: it holds no copy any more.
    InvAck {
        line: Line,
    },
    /// A tile answers the home's `Fetch` or `FetchInv`, with the data.
    FetchAck {
        line: Line,
        content: LineData,
    },
    /// The home gives a line to read to the node that asked, which adds the delay to its clock.
    DataS {
        line: Line,
        content: LineData,
        delay: u64,
    },
    /// The home gives a line to write to the tile that asked, which adds the delay to its clock.
    DataM {
        line: Line,
        content: LineData,
        delay: u64,
    },
    /// The home tells a tile or the control server to drop its copy.
    Inv {
        line: Line,
    },
    /// The home tells a tile to go from M to S, and asks for the data.
    Fetch {
        line: Line,
    },
    /// The home tells a tile to go from M to nothing, and asks for the data.
    FetchInv {
        line: Line,
    },
    /// A tile passes a thread's call to the control server. `time` is the tile's clock.
    Call {
        thread: u32,
        time: u64,
        call: Call,
    },
    /// The control server answers a tile's call. `time` is that of the answer, and `limit` that of the present
    /// epoch.
    Return {
        value: u64,
        time: u64,
        limit: u64,
    },
    /// A thread begins at an entry with an argument, at a time and with a limit. The control server tells a
    /// local server, and that one the tile.
    Start {
        thread: u32,
        entry: u64,
        arg: u64,
        time: u64,
        limit: u64,
    },
    /// A thread exited with a code, at a time. The tile tells its local server, and that one the control
    /// server.
    Exit {
        thread: u32,
        code: u8,
        time: u64,
    },
    /// A tile tells the control server that a thread's instruction at `pc` trapped.
    Trapped {
        thread: u32,
        cause: Cause,
        pc: u64,
    },
    /// A tile tells the control server that a thread is at its limit.
    Reached {
        thread: u32,
    },
    /// The control server tells a tile the next limit.
    Limit {
        limit: u64,
    },
    /// A tile asks another one's clock.
    Probe,
    /// A tile answers a `Probe`: whether a thread runs on it, and its clock.
    ProbeReply {
        running: bool,
        clock: u64,
    },
}

impl Msg {
    /// An equal message. It takes memory for the bytes of a `Write` alone.
    pub fn copy(&self, alloc: Global) -> Result<Msg, NoMemory>
        ensures { IfOk result (λ copy. copy ≡ self.now) }
    {
        Ok(match *self {
            Msg::GetS { line } => Msg::GetS { line },
            Msg::GetM { line } => Msg::GetM { line },
            Msg::PutM { line, content } => Msg::PutM { line, content },
            Msg::InvAck { line } => Msg::InvAck { line },
            Msg::FetchAck { line, content } => Msg::FetchAck { line, content },
            Msg::DataS {
                line,
                content,
                delay,
            } => Msg::DataS {
                line,
                content,
                delay,
            },
            Msg::DataM {
                line,
                content,
                delay,
            } => Msg::DataM {
                line,
                content,
                delay,
            },
            Msg::Inv { line } => Msg::Inv { line },
            Msg::Fetch { line } => Msg::Fetch { line },
            Msg::FetchInv { line } => Msg::FetchInv { line },
            Msg::Call {
                thread,
                time,
                ref call,
            } => Msg::Call {
                thread,
                time,
                call: call.copy(alloc)?,
            },
            Msg::Return { value, time, limit } => Msg::Return { value, time, limit },
            Msg::Start {
                thread,
                entry,
                arg,
                time,
                limit,
            } => Msg::Start {
                thread,
                entry,
                arg,
                time,
                limit,
            },
            Msg::Exit { thread, code, time } => Msg::Exit { thread, code, time },
            Msg::Trapped { thread, cause, pc } => Msg::Trapped { thread, cause, pc },
            Msg::Reached { thread } => Msg::Reached { thread },
            Msg::Limit { limit } => Msg::Limit { limit },
            Msg::Probe => Msg::Probe,
            Msg::ProbeReply { running, clock } => Msg::ProbeReply { running, clock },
        })
    }
}
