//! The words of a case: each is an instruction's 8 digits to the base 16, or a setting `KEY=VALUE`.
//!
//! - `words`: the command line, with commas between its words (`run,program` where there is none)
//! - `config`: the lines of the file `settings`, with commas between them; `--config settings` is then in that command line
//! - `journal`: the bytes of the file `journal`, to the base 16
//! - `layout`, `flags`, `data`, `cut`: what the image is (`image.rt`)
//! - `fails_to_read`, `fails_to_put`: the call of the files, or of the stream, that fails
//! - `most`: how many bytes the stream takes in a call
//! - `brief`: the status and the outcome alone are printed
//! - `act`: an action that the flat machine is asked for; `flat`: how many it makes at most; `byte`: an address whose
//!   byte is printed after them
//! - `hold`: a line and how many events of the journal are made, with an `@` between them
//! - `read`, `write`, `put`: calls of the system's files and of its output (`outside.rt`)

use sim_base::{NoMemory, Text};
use std::alloc::{AllocError, Global};

/// The value of a setting, if the case has it.
pub fn value_of<'a>(case: &'a str, key: &str) -> Option<&'a str> {
    for word in case.split_ascii_whitespace() {
        if let Some((name, value)) = word.split_once('=') {
            if name == key {
                return Some(value);
            }
        }
    }
    None
}

/// The value of a setting as a number, or another one where the case has none.
pub fn number_of(case: &str, key: &str, default: u64) -> u64 {
    match value_of(case, key) {
        Some(value) => value.parse::<u64>().unwrap_or(default),
        None => default,
    }
}

/// The value of a setting as a list of at most one number.
pub fn list_of(alloc: Global, case: &str, key: &str) -> Result<Vec<u64>, AllocError> {
    let mut numbers = Vec::new(alloc);
    if let Some(value) = value_of(case, key) {
        numbers.push(value.parse::<u64>().unwrap_or(0))?;
    }
    Ok(numbers)
}

/// The command line.
pub fn command(alloc: Global, case: &str) -> Result<Vec<Text>, NoMemory> {
    let mut words = Vec::new(alloc);
    let line = command_line(case);
    if !line.is_empty() {
        for word in line.split(',') {
            words.push(Text::new(alloc, word)?)?;
        }
    }
    Ok(words)
}

/// The words of the command line, with commas between them.
fn command_line(case: &str) -> &str {
    match value_of(case, "words") {
        Some(line) => line,
        None if value_of(case, "config").is_some() => "run,program,--config,settings",
        None => "run,program",
    }
}

/// The text of the file `settings`.
pub fn settings_text(alloc: Global, case: &str) -> Result<String, AllocError> {
    let mut text = String::new(alloc);
    for line in value_of(case, "config").unwrap_or("").split(',') {
        text.push_str(line)?;
        text.push_str("\n")?;
    }
    Ok(text)
}

/// The bytes of the file `journal`.
pub fn journal_bytes(alloc: Global, case: &str) -> Result<Vec<u8>, AllocError> {
    let mut bytes = Vec::new(alloc);
    for pair in value_of(case, "journal").unwrap_or("").as_bytes().chunks(2) {
        if let [high, low] = pair {
            bytes.push(digit(*high) << 4 | digit(*low))?;
        }
    }
    Ok(bytes)
}

/// The value of a digit to the base 16.
fn digit(letter: u8) -> u8 {
    match letter {
        b'0'..=b'9' => letter - b'0',
        b'a'..=b'f' => letter - b'a' + 10,
        _ => 0,
    }
}
