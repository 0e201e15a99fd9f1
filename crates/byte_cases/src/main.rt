//! Changes a file in every byte and cuts it at every length, and prints what is read of each such file.
//!
//! A line `image HEX` or `journal HEX` names a file, whose bytes the next lines ask about:
//! - `bytes FROM TO`: each byte from a place up to another, with each of its 256 values
//! - `field PLACE SIZE VALUE..`: a number of so many bytes, the least significant first, with each of the values
//! - `cuts`: the file's first bytes, from none to all
//! - `doubled`: each byte twice
//!
//! Answers that are the same and follow one another are printed once: `0-1 Kind, 2 taken, 3-255 Kind`. The answers of the stored
//! run come from a model in another language, written from the tables of faults in the documents: none comes from this program.
#![tactic(auto)]

mod answers;
mod changes;
mod files;
mod runs;

use files::{File, file_of};
use std::alloc::{AllocError, Global};
use std::io;

fn main(rt: HostRuntime) -> io::Result<()> {
    let alloc = rt.alloc();
    let mut file = file_of(alloc, "image", "")?;
    for line in rt.lines(alloc) {
        let line = line?;
        let (first, rest) = line.as_str().split_once(' ').unwrap_or((line.as_str(), ""));
        match first {
            "image" | "journal" => {
                file = file_of(alloc, first, rest)?;
                let len = file.bytes.len();
                println!(rt; "{first} of {len} bytes")?;
            }
            "bytes" => print_bytes(&rt, alloc, &file, rest)?,
            _ => {
                let text = answer(alloc, &file, first, rest)?;
                println!(rt; "{first} {text}")?;
            }
        }
    }
    Ok(())
}

/// Prints what is read where a byte has each value: a line for places that follow one another and have the same answers.
fn print_bytes(rt: &impl Print, alloc: Global, file: &File, rest: &str) -> io::Result<()> {
    let (from, to) = rest.split_once(' ').unwrap_or((rest, ""));
    let from = from.parse::<usize>().unwrap_or(0);
    let to = to.parse::<usize>().unwrap_or(0);
    let mut first = from;
    let mut last = from;
    let mut text = String::new(alloc);
    for place in from..to {
        let next = changes::with_each_byte(alloc, file, place)?;
        if next.as_str() != text.as_str() {
            print_places(rt, first, last, text.as_str())?;
            first = place;
            text = next;
        }
        last = place;
    }
    print_places(rt, first, last, text.as_str())
}

/// Prints the answers of places, if there are any.
fn print_places(rt: &impl Print, first: usize, last: usize, text: &str) -> io::Result<()> {
    if text.is_empty() {
        return Ok(());
    }
    println!(rt; "bytes {first}-{last}: {text}")
}

/// The answer to a question on a file.
fn answer(alloc: Global, file: &File, first: &str, rest: &str) -> Result<String, AllocError> {
    match first {
        "field" => changes::with_each_value(alloc, file, rest),
        "cuts" => changes::cut_at_each(alloc, file),
        _ => changes::doubled_at_each(alloc, file),
    }
}
