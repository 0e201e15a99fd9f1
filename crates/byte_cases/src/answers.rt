//! What is read of a file's bytes.

use crate::files::Kind;
use elf_image::{ImageFault, ImageRefusal, read_image};
use journal_file::{JournalRefusal, read_journal};
use std::alloc::{AllocError, Global};

/// What is read of a file's bytes.
#[derive(Clone, Copy, PartialEq, Eq)]
pub enum Answer {
    /// An image.
    Image,
    /// No image, for its first fault.
    NoImage { fault: ImageFault },
    /// A journal of so many events.
    Journal { events: u64 },
    /// No journal, for the first byte that is wrong.
    NoJournal { at: u64 },
    /// A file that is too long for a journal.
    TooLong,
    /// Memory ran out.
    NoMemory,
}

/// Reads a file's bytes.
pub fn read(alloc: Global, kind: Kind, bytes: &[u8]) -> Answer {
    match kind {
        Kind::Image => image(alloc, bytes),
        Kind::Journal => journal(alloc, bytes),
    }
}

/// Reads an image.
fn image(alloc: Global, bytes: &[u8]) -> Answer {
    match read_image(alloc, bytes) {
        Ok(_) => Answer::Image,
        Err(ImageRefusal::Bad { fault }) => Answer::NoImage { fault },
        Err(ImageRefusal::NoMemory) => Answer::NoMemory,
    }
}

/// Reads a journal.
fn journal(alloc: Global, bytes: &[u8]) -> Answer {
    match read_journal(alloc, bytes) {
        Ok(journal) => Answer::Journal {
            events: journal.count(),
        },
        Err(JournalRefusal::Byte { at }) => Answer::NoJournal { at },
        Err(JournalRefusal::TooLong) => Answer::TooLong,
        Err(JournalRefusal::NoMemory) => Answer::NoMemory,
    }
}

/// An answer in words.
pub fn text(alloc: Global, answer: Answer) -> Result<String, AllocError> {
    match answer {
        Answer::Image => String::from_str(alloc, "taken"),
        Answer::NoImage { fault } => format!(in alloc; "{fault}"),
        Answer::Journal { events } => format!(in alloc; "{events} events"),
        Answer::NoJournal { at } => format!(in alloc; "byte {at}"),
        Answer::TooLong => String::from_str(alloc, "too long"),
        Answer::NoMemory => String::from_str(alloc, "out of memory"),
    }
}
