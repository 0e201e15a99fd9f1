//! Numbers behind words.

use std::alloc::{AllocError, Global};

/// Appends a name, words and a number to the base 10.
pub fn push(
    alloc: Global,
    text: &mut String,
    name: &str,
    words: &str,
    number: i64,
) -> Result<(), AllocError> {
    text.push_str(name)?;
    text.push_str(words)?;
    text.push_str(format!(in alloc; "{number}")?.as_str())
}

/// Appends words and a number to the base 16.
pub fn push_hex(
    alloc: Global,
    text: &mut String,
    words: &str,
    number: u64,
) -> Result<(), AllocError> {
    text.push_str(words)?;
    text.push_str(format!(in alloc; "{number:#x}")?.as_str())
}
