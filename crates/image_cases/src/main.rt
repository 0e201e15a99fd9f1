//! Answers a question on images a line, over one image as a linker lays it out (see `base`):
//! - `image NAME (FIELD VALUE)..`: is the file taken, with these fields changed? Else its fault.
//! - `length N`: is a file of its first N bytes taken, with zeros past its end?
//! - `segment K`, `written PLACE COUNT`: the image's segment K; bytes of the file that is written for it.
//! - `layout`, `fetch PC`, `byte ADDRESS`, `line NUMBER PLACE`, `may ADDRESS SIZE RIGHT`, `stack_end TILE`: its
//!   address map with the default settings.
//!
//! Its stored run has the table of faults of `elf_image`, each alone and some two at once, and the edges of the map.
#![tactic(auto)]

mod base;
mod files;
mod maps;

use base::FILE;
use elf_image::{World, read_image};
use files::number;
use sim_base::Config;
use std::alloc::{AllocError, Global};
use std::io;
use std::str::SplitWhitespace;

fn main(rt: HostRuntime) -> io::Result<()> {
    let alloc = rt.alloc();
    if let Ok(image) = read_image(alloc, FILE.as_slice()) {
        let world = World::new(image, Config::defaults());
        for line in rt.lines(alloc) {
            let line = line?;
            let text = answer(alloc, &world, line.as_str())?;
            println!(rt; "{line}: {text}")?;
        }
    }
    Ok(())
}

/// The answer to a question.
fn answer(alloc: Global, world: &World, question: &str) -> Result<String, AllocError> {
    let mut words = question.split_whitespace();
    match words.next().unwrap_or("") {
        "image" => {
            let _name = words.next();
            files::about_changed(alloc, &mut words)
        }
        "length" => files::about_length(alloc, number(words.next())),
        kind => about_map(alloc, world, kind, &mut words),
    }
}

/// The answer to a question on the image or its map.
fn about_map(
    alloc: Global,
    world: &World,
    kind: &str,
    words: &mut SplitWhitespace<'_>,
) -> Result<String, AllocError> {
    let first = number(words.next());
    let second = number(words.next());
    match kind {
        "segment" => maps::segment(alloc, world.image(), first),
        "written" => maps::written(alloc, world.image(), first, second),
        "layout" => maps::layout(alloc, world),
        "stack_end" => maps::stack_end(alloc, world, first),
        "fetch" => maps::fetched(alloc, world, first),
        "byte" => decimal(alloc, world.start_byte(first)),
        "line" => decimal(alloc, maps::byte_of_line(world, first, second)),
        _ => {
            let right = maps::right_of(words.next().unwrap_or(""));
            let may = world.may(first, second, right);
            String::from_str(alloc, if may { "true" } else { "false" })
        }
    }
}

/// A byte in decimal digits.
fn decimal(alloc: Global, byte: u8) -> Result<String, AllocError> {
    format!(in alloc; "{byte}")
}
