//! Makes a call once for each of its calls on files and on the stream, with that one failing, and checks what comes of it.
//!
//! A line `file NAME HEX` adds a file. A line `try READS MOST WORDS..` makes the call of the words over files and a stream in memory,
//! of which the stream takes at most `MOST` bytes at once. That call without a fault tells the text, the files and how many
//! calls it makes; `READS` of those on files come first and read, the others write. Then it is made again:
//! - with each call on files failing: a read that fails gives status 8, its line and no other file; a write that fails gives
//!   status 9, the whole text, and leaves its name as it was;
//! - with each call that reads failing, and the first on the stream too: status 9, no text, and no other file;
//! - with each call on the stream failing, and with a stream that is full after each byte of the text: status 9, the text up to
//!   there, and no other file.
//!
//! Printed are the status without a fault, how many calls and bytes there were, and how many runs had a fault and how many of them
//! came out otherwise. The numbers of the stored run follow from the order of a call's steps;
//! the statuses and the lengths of the texts are also those of a simulator in C++ that shares no code with this one.
#![tactic(auto)]

mod calls;
mod faults;

use calls::{Call, Seen, file_of, number, words_of};
use faults::Count;
use std::alloc::Global;
use std::io;

fn main(rt: HostRuntime) -> io::Result<()> {
    let alloc = rt.alloc();
    let mut files = Vec::new(alloc);
    for line in rt.lines(alloc) {
        let line = line?;
        let (first, rest) = line.as_str().split_once(' ').unwrap_or((line.as_str(), ""));
        match first {
            "file" => files.push(file_of(alloc, rest)?)?,
            _ => try_faults(&rt, alloc, &files, rest)?,
        }
    }
    Ok(())
}

/// Makes a call with each fault, and prints what came of it.
fn try_faults(
    rt: &impl Print,
    alloc: Global,
    files: &Vec<(String, Vec<u8>)>,
    line: &str,
) -> io::Result<()> {
    let (reads, rest) = line.split_once(' ').unwrap_or((line, ""));
    let (most, words) = rest.split_once(' ').unwrap_or((rest, ""));
    let (Ok(words), Ok(files)) = (words_of(alloc, words), calls::copy(alloc, files)) else {
        return println!(rt; "out of memory");
    };
    let call = Call {
        files,
        words,
        most: number(most) as usize,
    };
    match call.make(alloc, &[], &[], calls::ROOM) {
        Ok(seen) => {
            let count = faults::try_all(alloc, &call, &seen, number(reads));
            print(rt, line, &seen, count)
        }
        Err(_) => println!(rt; "out of memory"),
    }
}

/// Prints what came of a call.
fn print(rt: &impl Print, line: &str, seen: &Seen, count: Count) -> io::Result<()> {
    let Seen {
        status,
        calls,
        puts,
        ..
    } = seen;
    let Count { runs, wrong } = count;
    let len = seen.taken.len();
    println!(rt; "{line}")?;
    println!(rt;
        "  status {status}, {calls} calls on files, {puts} on the stream, {len} bytes; {runs} runs with a fault, {wrong} wrong"
    )
}
