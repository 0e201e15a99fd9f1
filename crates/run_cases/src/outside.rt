//! Cases of the system's files and output, and of output that a stream takes in pieces.

use sim_outside::{Files, OsFiles, OsSink, Sink};
use std::alloc::Global;
use std::fmt::Display;
use std::io::{Error, ErrorKind};
use std::{fs, io, rt};

/// Writes a file of 200,000 bytes, and reads it and others up to a limit. Prints the answers, how many bytes were read,
/// whether they are those that were written, and the faults.
pub fn read<R: rt::Files + Print>(rt: &R, alloc: Global, limit: usize) -> io::Result<()> {
    let written = vec![in alloc; 7u8; 200_000]?;
    fs::write(rt, "written", written.as_slice())?;
    let mut files = OsFiles::new(rt);
    for name in ["absent", "written", "."] {
        let mut into = Vec::new(alloc);
        let answer = files.read_all(name, limit, &mut into);
        let len = into.len();
        let is_front = written.as_slice().starts_with(into.as_slice());
        let faults = files.read_faults;
        println!(rt; "{name}: {answer:?}, {len} bytes, {is_front}, {faults} faults")?;
    }
    fs::remove_file(rt, "written")
}

/// Writes 5 bytes and then 2 to one name, reads them back, and writes where no file can be. Prints the answers, the bytes that
/// were read, and the faults.
pub fn write<R: rt::Files + Print>(rt: &R, alloc: Global) -> io::Result<()> {
    let mut files = OsFiles::new(rt);
    for (name, bytes) in [
        ("written", "hello"),
        ("written", "ho"),
        ("absent/x", "ho"),
        (".", "ho"),
    ] {
        let answer = files.write_all(name, bytes.as_bytes());
        let faults = files.write_faults;
        println!(rt; "{name}: {answer:?}, {faults} faults")?;
    }
    let mut into = Vec::new(alloc);
    let answer = files.read_all("written", 9, &mut into);
    let is_last = into.as_slice() == b"ho".as_slice();
    println!(rt; "written: {answer:?}, {is_last}")?;
    fs::remove_file(rt, "written")
}

/// Puts a piece on an output that takes so many bytes of each, or is closed.
pub fn put(rt: &impl Print, takes: Option<usize>) -> io::Result<()> {
    let mut sink = OsSink::new(Pipe { takes });
    let answer = sink.put(b"hello");
    let faults = sink.faults;
    println!(rt; "{answer:?}, {faults} faults")
}

/// A stream that takes a number of bytes of each piece, or is closed.
#[derive(Drop)]
struct Pipe {
    takes: Option<usize>,
}

impl Print for Pipe {
    fn print<D: Display + Drop>(&self, _value: D) -> io::Result<()> {
        Ok(())
    }

    fn println<D: Display + Drop>(&self, _value: D) -> io::Result<()> {
        Ok(())
    }

    fn write_all(&self, _bytes: &[u8]) -> io::Result<()> {
        Ok(())
    }

    fn write_some(&self, bytes: &[u8]) -> io::Result<usize> {
        match self.takes {
            Some(count) => Ok(count.min(bytes.len())),
            None => Err(Error::from(ErrorKind::BrokenPipe)),
        }
    }
}
