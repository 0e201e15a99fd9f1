//! The file that the questions are about.

use std::alloc::{AllocError, Global};

/// How a file is read.
#[derive(Clone, Copy, PartialEq, Eq)]
pub enum Kind {
    Image,
    Journal,
}

/// A file, and how it is read.
#[derive(Drop)]
pub struct File {
    pub kind: Kind,
    pub bytes: Vec<u8>,
}

/// The file of a line.
pub fn file_of(alloc: Global, kind: &str, digits: &str) -> Result<File, AllocError> {
    let kind = if kind == "image" {
        Kind::Image
    } else {
        Kind::Journal
    };
    let mut bytes = Vec::new(alloc);
    for pair in digits.as_bytes().chunks(2) {
        if let [high, low] = pair {
            bytes.push(digit(*high) << 4 | digit(*low))?;
        }
    }
    Ok(File { kind, bytes })
}

/// The value of a digit to the base 16.
fn digit(letter: u8) -> u8 {
    match letter {
        b'0'..=b'9' => letter - b'0',
        b'a'..=b'f' => letter - b'a' + 10,
        _ => 0,
    }
}
