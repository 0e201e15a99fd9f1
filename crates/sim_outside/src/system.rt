//! The system's files and its output.

ghost use Rattle.std.specs.Prelude.{◌≡◌, None, length, IfOk, ◌≤◌};

use crate::printing::{Failed, Sink};
use crate::reading::FileAnswer;
use crate::whole_files::Files;
use crate::writing::WriteAnswer;
use std::io::{ErrorKind, Read, Write};
use std::{fs, io, rt};

/// The system's files. Contracts know nothing of their contents.
#[derive(Drop)]
pub struct OsFiles<R> {
    system: R,
    /// How many faults of reading there were, the same for every name. It stops at 2^64 - 1.
    pub read_faults: u64,
    /// How many faults of writing there were, the same for every name. It stops at 2^64 - 1.
    pub write_faults: u64,
}

impl<R: rt::Files> OsFiles<R> {
    /// The files that the runtime reaches, with no faults yet. `R` may be a reference to it.
    pub fn new(system: R) -> OsFiles<R>
        ensures reads { result.read_faults ≡ 0 }
        ensures writes { result.write_faults ≡ 0 }
    {
        OsFiles {
            system,
            read_faults: 0,
            write_faults: 0,
        }
    }
}

/// Reads at most one byte more than the limit, to tell whether the file is longer.
fn read_start<R: rt::Files>(
    system: &R,
    name: &str,
    limit: usize,
    into: &mut Vec<u8>,
) -> io::Result<usize> {
    let most = u64::try_from(limit).unwrap_or(u64::MAX).saturating_add(1);
    fs::open(system, name)?.take(most).read_to_end(into)
}

/// Opens a file and empties it, or makes an empty one. By POSIX an `open` that fails makes and changes
/// no file, so memory that runs out here leaves each name what it held.
fn emptied<R: rt::Files>(system: &R, name: &str) -> Result<R::File, WriteAnswer> {
    fs::create(system, name).map_err(|error| match error.kind() {
        ErrorKind::OutOfMemory => WriteAnswer::NoMemory,
        _ => WriteAnswer::Failed,
    })
}

/// Writes a file from its start. Once it is emptied, memory that runs out is a failure like any other.
fn write_whole<R: rt::Files>(system: &R, name: &str, bytes: &[u8]) -> Result<(), WriteAnswer> {
    let mut file = emptied(system, name)?;
    file.write_all(bytes).map_err(|_| WriteAnswer::Failed)
}

impl<R: rt::Files> Files for OsFiles<R> {
    ghost read_faults = { λ files _. files.read_faults };

    ghost write_faults = { λ files _. files.write_faults };

    ghost holds = { λ _. None };

    fn read_all(&mut self, name: &str, limit: usize, into: &mut Vec<u8>) -> Result<(), FileAnswer> {
        match read_start(&self.system, name, limit, into) {
            Ok(_) if into.len() <= limit => Ok(()),
            Ok(_) => Err(FileAnswer::TooLong),
            Err(error) if error.kind() == ErrorKind::OutOfMemory => {
                into.clear();
                Err(FileAnswer::NoMemory)
            }
            Err(_) => {
                self.read_faults = self.read_faults.saturating_add(1);
                Err(FileAnswer::Failed)
            }
        }
    }

    fn write_all(&mut self, name: &str, bytes: &[u8]) -> Result<(), WriteAnswer> {
        let answer = write_whole(&self.system, name, bytes);
        if answer == Err(WriteAnswer::Failed) {
            self.write_faults = self.write_faults.saturating_add(1);
        }
        answer
    }
}

/// The system's output. Contracts know nothing of what came out.
#[derive(Drop)]
pub struct OsSink<P> {
    stream: P,
    /// How many faults there were. It stops at 2^64 - 1.
    pub faults: u64,
}

impl<P: Print> OsSink<P> {
    /// The stream that the runtime prints on, with no faults yet. `P` may be a reference to it.
    pub fn new(stream: P) -> OsSink<P>
        ensures { result.faults ≡ 0 }
    {
        OsSink { stream, faults: 0 }
    }
}

/// Writes some of the bytes, and tries again where the system interrupted the call.
fn write_some<P: Print>(stream: &P, piece: &[u8]) -> io::Result<usize>
    ensures { IfOk result (λ n. n ≤ length piece.now) }
{
    for _ in 0..u64::MAX {
        match io::writer(stream).write(piece) {
            Err(error) if error.kind() == ErrorKind::Interrupted => {}
            answer => return answer,
        }
    }
    Ok(0)
}

impl<P: Print> Sink for OsSink<P> {
    ghost faults = { λ sink. sink.faults };

    ghost taken = { λ _. None };

    fn put(&mut self, piece: &[u8]) -> Result<usize, Failed> {
        let answer = write_some(&self.stream, piece);
        match answer {
            Ok(count) if count > 0 || piece.is_empty() => Ok(count),
            Ok(_) => {
                self.faults = self.faults.saturating_add(1);
                Ok(0)
            }
            Err(_) => {
                self.faults = self.faults.saturating_add(1);
                Err(Failed)
            }
        }
    }
}
