//! What is read of a file that is changed, cut or made longer.

use crate::answers::read;
use crate::files::File;
use crate::runs::Runs;
use std::alloc::{AllocError, Global};

/// What is read where the byte at a place has each value.
pub fn with_each_byte(alloc: Global, file: &File, place: usize) -> Result<String, AllocError> {
    let mut changed = file.bytes.as_slice().to_vec(alloc)?;
    let mut runs = Runs::new(alloc);
    for value in 0..256u64 {
        set(changed.as_mut_slice(), place, 1, value);
        runs.add(alloc, value, read(alloc, file.kind, changed.as_slice()))?;
    }
    runs.end(alloc)
}

/// What is read where a field has each of the values: `PLACE SIZE VALUE..`.
pub fn with_each_value(alloc: Global, file: &File, rest: &str) -> Result<String, AllocError> {
    let mut words = rest.split_whitespace();
    let place = number(words.next()) as usize;
    let size = number(words.next()) as usize;
    let mut changed = file.bytes.as_slice().to_vec(alloc)?;
    let mut runs = Runs::new(alloc);
    while let Some(word) = words.next() {
        let value = number(Some(word));
        set(changed.as_mut_slice(), place, size, value);
        runs.add(alloc, value, read(alloc, file.kind, changed.as_slice()))?;
    }
    let text = runs.end(alloc)?;
    format!(in alloc; "at {place}: {text}")
}

/// What is read of the file's first bytes, from none to all.
pub fn cut_at_each(alloc: Global, file: &File) -> Result<String, AllocError> {
    let bytes = file.bytes.as_slice();
    let mut runs = Runs::new(alloc);
    for len in 0..bytes.len() {
        let front = bytes.get(..len).unwrap_or(bytes);
        runs.add(alloc, len as u64, read(alloc, file.kind, front))?;
    }
    runs.add(alloc, bytes.len() as u64, read(alloc, file.kind, bytes))?;
    runs.end(alloc)
}

/// What is read where the byte at each place stands twice.
pub fn doubled_at_each(alloc: Global, file: &File) -> Result<String, AllocError> {
    let bytes = file.bytes.as_slice();
    let mut runs = Runs::new(alloc);
    for place in 0..bytes.len() {
        let mut longer = bytes.get(..place).unwrap_or(&[]).to_vec(alloc)?;
        longer.extend_from_slice(bytes.get(place..=place).unwrap_or(&[]))?;
        longer.extend_from_slice(bytes.get(place..).unwrap_or(&[]))?;
        let answer = read(alloc, file.kind, longer.as_slice());
        runs.add(alloc, place as u64, answer)?;
    }
    runs.end(alloc)
}

/// Makes so many bytes from a place on those of a number, the least significant first.
fn set(bytes: &mut [u8], place: usize, size: usize, value: u64) {
    let number = value.to_le_bytes();
    for (slot, byte) in bytes
        .iter_mut()
        .skip(place)
        .zip(number.iter().take(size.min(8)))
    {
        *slot = *byte;
    }
}

/// A number in decimal digits; 0 where it is none.
fn number(word: Option<&str>) -> u64 {
    word.unwrap_or("").parse::<u64>().unwrap_or(0)
}
