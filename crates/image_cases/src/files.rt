//! Questions on files: are they taken, or what is their fault?

use crate::base::FILE;
use elf_image::{ImageRefusal, read_image};
use std::alloc::{AllocError, Global};
use std::str::SplitWhitespace;

/// Whether the file is taken with these fields changed, or its fault.
pub fn about_changed(alloc: Global, words: &mut SplitWhitespace<'_>) -> Result<String, AllocError> {
    let mut file = FILE.to_vec(alloc)?;
    while let Some(field) = words.next() {
        let value = number(words.next());
        change(&mut file, field, value);
    }
    verdict(alloc, file.as_slice())
}

/// Whether so many bytes of the file are taken, with zeros past its end, or their fault.
pub fn about_length(alloc: Global, length: u64) -> Result<String, AllocError> {
    let mut file = FILE.to_vec(alloc)?;
    file.resize(length as usize, 0)?;
    verdict(alloc, file.as_slice())
}

/// A number, in decimal digits, or in hexadecimal ones after `0x`; 0 where it is none.
pub fn number(word: Option<&str>) -> u64 {
    let word = word.unwrap_or("");
    let read = match word.strip_prefix("0x") {
        Some(digits) => u64::from_str_radix(digits, 16),
        None => word.parse::<u64>(),
    };
    read.unwrap_or(0)
}

/// Changes a field of a file, if there is one of this name: `e_type`, `code.p_flags`.
fn change(file: &mut Vec<u8>, field: &str, value: u64) {
    if let Some((place, size)) = place_of(field) {
        let bytes = value.to_le_bytes();
        for (slot, byte) in file.iter_mut().skip(place).zip(bytes.iter().take(size)) {
            *slot = *byte;
        }
    }
}

/// Where a field stands in the file, and how many bytes it has.
fn place_of(field: &str) -> Option<(usize, usize)> {
    match field.split_once('.') {
        None => file_field(field),
        Some((header, rest)) => {
            let (place, size) = header_field(rest)?;
            Some((place.saturating_add(header_start(header)?), size))
        }
    }
}

/// Where a field of the file header stands in the file, and how many bytes it has.
fn file_field(name: &str) -> Option<(usize, usize)> {
    match name {
        "magic" => Some((0, 4)),
        "class" => Some((4, 1)),
        "data" => Some((5, 1)),
        "version" => Some((6, 1)),
        "e_type" => Some((16, 2)),
        "e_machine" => Some((18, 2)),
        "e_entry" => Some((24, 8)),
        "e_phoff" => Some((32, 8)),
        "e_flags" => Some((48, 4)),
        "e_phentsize" => Some((54, 2)),
        "e_phnum" => Some((56, 2)),
        _ => None,
    }
}

/// Where a program header stands in the file.
fn header_start(name: &str) -> Option<usize> {
    match name {
        "attributes" => Some(64),
        "code" => Some(120),
        "data" => Some(176),
        "stack" => Some(232),
        _ => None,
    }
}

/// Where a field of a program header stands in it, and how many bytes it has.
fn header_field(name: &str) -> Option<(usize, usize)> {
    match name {
        "p_type" => Some((0, 4)),
        "p_flags" => Some((4, 4)),
        "p_offset" => Some((8, 8)),
        "p_vaddr" => Some((16, 8)),
        "p_filesz" => Some((32, 8)),
        "p_memsz" => Some((40, 8)),
        _ => None,
    }
}

/// Whether a file is taken, or its fault.
fn verdict(alloc: Global, file: &[u8]) -> Result<String, AllocError> {
    match read_image(alloc, file) {
        Ok(_) => String::from_str(alloc, "accepted"),
        Err(ImageRefusal::Bad { fault }) => format!(in alloc; "{fault:?}"),
        Err(ImageRefusal::NoMemory) => String::from_str(alloc, "out of memory"),
    }
}
