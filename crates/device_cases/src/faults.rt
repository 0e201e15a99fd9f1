//! A call with each of its faults, and whether it comes out as it must.

use crate::calls::{Call, ROOM, Seen, are_same};
use sim_base::NoMemory;
use std::alloc::Global;

/// What is printed where a file can't be read.
static READ_FAULT: &[u8] = b"tilesim: read fault\n";

/// How many runs with a fault there were, and how many of them didn't come out as they must.
#[derive(Clone, Copy)]
pub struct Count {
    pub runs: u64,
    pub wrong: u64,
}

impl Count {
    /// Counts a run.
    fn add(&mut self, is_right: bool) {
        self.runs = self.runs.saturating_add(1);
        if !is_right {
            self.wrong = self.wrong.saturating_add(1);
        }
    }
}

/// Makes a call with each fault. `seen` is what came of it without one, `reads` how many of its calls read.
pub fn try_all(alloc: Global, call: &Call, seen: &Seen, reads: u64) -> Count {
    let mut count = Count { runs: 0, wrong: 0 };
    fail_files(alloc, call, seen, reads, &mut count);
    fail_puts(alloc, call, seen, &mut count);
    fill_stream(alloc, call, seen, &mut count);
    count
}

/// Fails each call on the files, and each read with the first call on the stream.
fn fail_files(alloc: Global, call: &Call, seen: &Seen, reads: u64, count: &mut Count) {
    for place in 0..seen.calls {
        let made = call.make(alloc, &[place], &[], ROOM);
        if place >= reads {
            count.add(is_cut(&made, call, seen, seen.taken.len()));
            continue;
        }
        if call.most > 0 {
            count.add(is_read_fault(&made, call));
        } else {
            count.add(is_nothing(&made, call));
        }
        let both = call.make(alloc, &[place], &[0], ROOM);
        count.add(is_nothing(&both, call));
    }
}

/// Fails each call on the stream.
fn fail_puts(alloc: Global, call: &Call, seen: &Seen, count: &mut Count) {
    let mut len: usize = 0;
    for place in 0..seen.puts {
        let made = call.make(alloc, &[], &[place], ROOM);
        count.add(is_cut(&made, call, seen, len));
        len = len.saturating_add(call.most).min(seen.taken.len());
    }
}

/// Has a stream that is full after each byte of the text but the last.
fn fill_stream(alloc: Global, call: &Call, seen: &Seen, count: &mut Count) {
    for room in 0..seen.taken.len() {
        let made = call.make(alloc, &[], &[], room);
        count.add(is_cut(&made, call, seen, room));
    }
}

/// Whether a call ended by a fault of writing, after the first bytes of the text, so many, with the files as they were and the
/// journal of the run.
fn is_cut(made: &Result<Seen, NoMemory>, call: &Call, seen: &Seen, len: usize) -> bool {
    let text = seen.taken.as_slice();
    let front = text.get(..len).unwrap_or(text);
    is_as(made, call, 9, seen.events, front)
}

/// Whether a call ended by a fault of reading, with its line and the files as they were.
fn is_read_fault(made: &Result<Seen, NoMemory>, call: &Call) -> bool {
    is_as(made, call, 8, 0, READ_FAULT)
}

/// Whether a call ended by a fault of writing, with no text and no run, and the files as they were.
fn is_nothing(made: &Result<Seen, NoMemory>, call: &Call) -> bool {
    is_as(made, call, 9, 0, &[])
}

/// Whether a call ended with this status, so many events and this text, with the files as they were.
fn is_as(made: &Result<Seen, NoMemory>, call: &Call, status: u8, events: u64, text: &[u8]) -> bool {
    let Ok(made) = made else {
        return false;
    };
    let is_answer = made.status == status && made.events == events;
    is_answer
        && made.taken.as_slice() == text
        && are_same(made.files.as_slice(), call.files.as_slice())
}
