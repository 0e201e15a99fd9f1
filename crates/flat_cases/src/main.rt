//! Runs a case from each line of its input on the flat machine, and prints which of its actions were refused, what each
//! thread is doing, the output and the end. The stored answers were worked out by hand from the tables of calls and of
//! serving and the RISC-V ISA manual.
//!
//! A line is the case's name, a colon, the code (`program.rt`), a semicolon, and the actions (`actions.rt`).
#![tactic(auto)]

mod actions;
mod program;
mod report;

use elf_image::World;
use flat_machine::Flat;
use sim_base::Config;
use std::alloc::{AllocError, Global};
use std::io;

fn main(rt: HostRuntime) -> io::Result<()> {
    let alloc = rt.alloc();
    for line in rt.lines(alloc) {
        let text = answer(alloc, line?.as_str())?;
        print!(rt; "{text}")?;
    }
    Ok(())
}

/// The answer to a line: nothing where it has no colon.
fn answer(alloc: Global, line: &str) -> Result<String, AllocError> {
    let mut text = String::new(alloc);
    if let Some((name, case)) = line.split_once(':') {
        text.push_str(name)?;
        text.push_str("\n")?;
        let (code, wanted) = case.split_once(';').unwrap_or((case, ""));
        push_case(alloc, &mut text, code, wanted)?;
    }
    Ok(text)
}

/// Runs a case.
fn push_case(alloc: Global, text: &mut String, code: &str, wanted: &str) -> Result<(), AllocError> {
    let Some(image) = program::image(alloc, code)? else {
        return text.push_str("  no program\n");
    };
    let world = World::new(image, Config::defaults());
    let Ok(mut flat) = Flat::start(alloc, &world) else {
        return text.push_str("  out of memory\n");
    };
    play(alloc, text, &world, &mut flat, wanted)
}

/// Makes actions, and says which were refused, and how the machine stands where this is asked for and at the end.
fn play(
    alloc: Global,
    text: &mut String,
    world: &World,
    flat: &mut Flat,
    wanted: &str,
) -> Result<(), AllocError> {
    for word in wanted.split_ascii_whitespace() {
        if word == "?" {
            report::push(alloc, text, flat)?;
        } else if !actions::make(alloc, world, flat, word) {
            push_refused(text, word)?;
        }
    }
    report::push(alloc, text, flat)
}

/// Appends that a word was refused.
fn push_refused(text: &mut String, word: &str) -> Result<(), AllocError> {
    text.push_str("  ")?;
    text.push_str(word)?;
    text.push_str(" is refused\n")
}
