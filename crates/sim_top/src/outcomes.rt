//! How a call ended, and what it comes to before anything is put or written.
ghost use Rattle.std.specs.Prelude.{◌≡◌};
ghost use Rattle.sim_top.specs.declared.outcomes.Halt.TheVariants.{NoMemory as OutOfMemory};

use elf_image::ImageFault;
use event_journal::Journal;
use sim_base::{Bytes, Cause, Field, NoMemory, Text};

/// How a call of the simulator ended.
#[derive(Clone, Copy, Debug, PartialEq, Eq)]
pub enum Outcome {
    /// The program exited with this code.
    Done { code: u8 },
    /// The image of a workload was written.
    Written,
    /// A thread's instruction at `pc` trapped.
    Trap { thread: u32, cause: Cause, pc: u64 },
    /// Every live thread waits for another.
    Deadlock,
    /// Some node has made as many events as the settings allow.
    Budget,
    /// The run came to a state without an end in which no event is enabled.
    Stuck,
    /// The words have no meaning.
    Usage,
    /// The settings are refused.
    BadConfig { field: Field },
    /// The image is refused.
    BadImage { fault: ImageFault },
    /// The journal is refused.
    BadJournal { fault: JournalFault },
    /// A file couldn't be read.
    ReadFault,
    /// The text couldn't be put, or a file couldn't be written.
    WriteFault,
    /// Memory ran out.
    NoMemory,
}

/// Why a journal is refused. Bytes and events are counted from 0.
#[derive(Clone, Copy, Debug, PartialEq, Eq)]
pub enum JournalFault {
    /// Its file has more than 300,000,000 bytes.
    TooLong,
    /// Its file is none at this place, the first such.
    Byte { at: u64 },
    /// This event isn't enabled after those before it, the first such.
    Event { index: u64 },
    /// All its events, of this number, are enabled, and the state after them has no end.
    Unfinished { count: u64 },
}

/// What a call of the simulator answers.
#[derive(Drop)]
pub struct Finish {
    /// The exit status of the process.
    pub status: u8,
    /// How it ended.
    pub outcome: Outcome,
    /// The events of the run. There are none where no run began, where it came to no end, and where memory ran out.
    pub journal: Journal,
}

/// An outcome, with the journal of its run, the text that is to be put, and the files that are to be written after it, in
/// order.
#[derive(Drop)]
pub(crate) struct Decision {
    pub outcome: Outcome,
    pub journal: Journal,
    pub text: Bytes,
    pub files: Vec<FileToWrite>,
}

/// A file that is to be written: the journal of a run, or the image of a workload.
#[derive(Drop)]
pub(crate) struct FileToWrite {
    pub name: Text,
    pub bytes: Bytes,
}

/// Why a stage of a call gives nothing.
#[derive(Clone, Copy)]
pub(crate) enum Halt {
    /// The call ends with this outcome.
    Refused { outcome: Outcome },
    /// Memory ran out.
    NoMemory,
}

impl From<NoMemory> for Halt {
    ghost from_gives = { λ _ halt. halt ≡ OutOfMemory };

    fn from(_error: NoMemory) -> Halt {
        Halt::NoMemory
    }
}
