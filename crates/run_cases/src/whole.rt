//! The simulator's top call.

use crate::image;
use crate::words::{command, journal_bytes, list_of, number_of, settings_text, value_of};
use sim_base::{NoMemory, Text};
use sim_outside::{MemFiles, MemSink};
use sim_top::{Finish, execute_alone};
use std::alloc::{AllocError, Global};
use std::io;

/// How many bytes the stream has room for.
const ROOM: usize = 4_000_000;

/// Runs the simulator on a case's words, with the image under the name `program`, its settings under `settings` and its journal
/// under `journal`, and prints the status, the outcome, the number of the journal's events, and, unless the case is `brief`, what
/// the stream took: zero bytes are counted and not printed. Where a file `written` was written, it is printed too.
pub fn run(rt: &impl Print, alloc: Global, case: &str) -> io::Result<()> {
    let Ok(words) = command(alloc, case) else {
        return println!(rt; "out of memory");
    };
    match sink_of(alloc, case) {
        Ok(mut out) => execute(rt, alloc, case, words.as_slice(), &mut out),
        Err(NoMemory) => println!(rt; "out of memory"),
    }
}

/// The stream of a case.
fn sink_of(alloc: Global, case: &str) -> Result<MemSink, NoMemory> {
    let fails = list_of(alloc, case, "fails_to_put")?;
    let most = number_of(case, "most", u64::MAX) as usize;
    MemSink::new(alloc, ROOM, most, fails)
}

/// Runs the simulator on words.
fn execute(
    rt: &impl Print,
    alloc: Global,
    case: &str,
    words: &[Text],
    out: &mut MemSink,
) -> io::Result<()> {
    let mut files = files_of(alloc, case)?;
    let finish = execute_alone(alloc, words, &mut files, out);
    if value_of(case, "brief").is_some() {
        print_finish(rt, &finish)?;
        return println!(rt; "");
    }
    print_finish(rt, &finish)?;
    print_taken(rt, alloc, out.taken.as_slice())?;
    print_written(rt, &files)
}

/// Prints the status, the outcome and the number of events.
fn print_finish(rt: &impl Print, finish: &Finish) -> io::Result<()> {
    let status = finish.status;
    let outcome = &finish.outcome;
    let events = finish.journal.count();
    print!(rt; "status {status}, {outcome:?}, {events} events")
}

/// Prints how many bytes there are, and those that aren't zero.
fn print_taken(rt: &impl Print, alloc: Global, bytes: &[u8]) -> io::Result<()> {
    let len = bytes.len();
    println!(rt; ", {len} bytes")?;
    let text = without_zeros(alloc, bytes)?;
    rt.write_all(text.as_slice())
}

/// Prints the file `written`, where there is one.
fn print_written(rt: &impl Print, files: &MemFiles) -> io::Result<()> {
    for (name, bytes) in &files.files {
        if name.as_str() == "written" {
            print_bytes(rt, bytes.as_slice())?;
        }
    }
    Ok(())
}

/// Prints bytes to the base 16, in a line.
fn print_bytes(rt: &impl Print, bytes: &[u8]) -> io::Result<()> {
    for byte in bytes {
        print!(rt; "{byte:02x}")?;
    }
    println!(rt; "")
}

/// The bytes that aren't zero.
fn without_zeros(alloc: Global, bytes: &[u8]) -> Result<Vec<u8>, AllocError> {
    let mut kept = Vec::new(alloc);
    for byte in bytes {
        if *byte != 0 {
            kept.push(*byte)?;
        }
    }
    Ok(kept)
}

/// The files of a case.
fn files_of(alloc: Global, case: &str) -> Result<MemFiles, AllocError> {
    let fail = list_of(alloc, case, "fails_to_read")?;
    let files = named_files(alloc, case)?;
    Ok(MemFiles {
        files,
        fail,
        calls: 0,
        read_faults: 0,
        write_faults: 0,
    })
}

/// The files of a case, each with its name.
fn named_files(alloc: Global, case: &str) -> Result<Vec<(String, Vec<u8>)>, AllocError> {
    let mut files = Vec::new(alloc);
    push_file(alloc, &mut files, "program", image::file(alloc, case)?)?;
    push_settings(alloc, &mut files, case)?;
    push_journal(alloc, &mut files, case)?;
    Ok(files)
}

/// Adds the settings, where the case has some.
fn push_settings(
    alloc: Global,
    files: &mut Vec<(String, Vec<u8>)>,
    case: &str,
) -> Result<(), AllocError> {
    if value_of(case, "config").is_none() {
        return Ok(());
    }
    let text = settings_text(alloc, case)?;
    let bytes = text.as_bytes().to_vec(alloc)?;
    push_file(alloc, files, "settings", bytes)
}

/// Adds the journal, where the case has one.
fn push_journal(
    alloc: Global,
    files: &mut Vec<(String, Vec<u8>)>,
    case: &str,
) -> Result<(), AllocError> {
    if value_of(case, "journal").is_none() {
        return Ok(());
    }
    push_file(alloc, files, "journal", journal_bytes(alloc, case)?)
}

/// Adds a file.
fn push_file(
    alloc: Global,
    files: &mut Vec<(String, Vec<u8>)>,
    name: &str,
    bytes: Vec<u8>,
) -> Result<(), AllocError> {
    let name = String::from_str(alloc, name)?;
    files.push((name, bytes))?;
    Ok(())
}
