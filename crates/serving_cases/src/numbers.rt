//! Numbers as words. A word that isn't there, or is no number, counts as 0.

use std::str::SplitWhitespace;

/// The next number.
pub fn number(words: &mut SplitWhitespace<'_>) -> u64 {
    words.next().unwrap_or("").parse::<u64>().unwrap_or(0)
}

/// A number as one of 32 bits, at most the greatest.
pub fn word(number: u64) -> u32 {
    number.min(0xffff_ffff) as u32
}

/// A number as one of 8 bits, at most the greatest.
pub fn byte(number: u64) -> u8 {
    number.min(255) as u8
}
