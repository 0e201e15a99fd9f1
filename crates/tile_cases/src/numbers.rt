//! Numbers as words. A word that isn't there, or is no number, counts as 0.

use sim_base::NodeId;
use std::str::SplitWhitespace;

/// The next number.
pub fn number(words: &mut SplitWhitespace<'_>) -> u64 {
    words.next().unwrap_or("").parse::<u64>().unwrap_or(0)
}

/// The number of a node.
pub fn node(word: &str) -> NodeId {
    word.parse::<NodeId>().unwrap_or(0)
}

/// A number, as the greatest of 32 bits where it is greater.
pub fn narrow(number: u64) -> u32 {
    number.min(0xffff_ffff) as u32
}
