//! Runs a case from each line of its input and prints what came of it. Its stored run is a table of whole runs,
//! whose expected answers are worked out by hand from the RISC-V ISA manual, the ELF format and the rules of the
//! calls.
//!
//! A line is the case's name, a colon, and words: the code of the image as numbers to the base 16, and settings
//! (`words.rt`). The simulator runs `run program`, or the words of the case, on the image over files and a stream in memory;
//! other settings ask for actions of the flat machine, for who holds a line amid a run, or for calls of the system's files
//! or of its output.
#![tactic(auto)]

mod image;
mod lines;
mod machine;
mod outside;
mod whole;
mod words;
mod worlds;

use std::alloc::Global;
use std::{io, rt};
use words::value_of;

fn main(rt: HostRuntime) -> io::Result<()> {
    let alloc = rt.alloc();
    for line in rt.lines(alloc) {
        let line = line?;
        if let Some((name, case)) = line.as_str().split_once(':') {
            println!(rt; "{name}")?;
            run(&rt, alloc, case)?;
        }
    }
    Ok(())
}

/// Runs a case: what it asks for beside the simulator's top call, or else that.
fn run<R: rt::Files + Print>(rt: &R, alloc: Global, case: &str) -> io::Result<()> {
    if value_of(case, "act").is_some() {
        return machine::act(rt, alloc, case);
    }
    if value_of(case, "flat").is_some() {
        return machine::run(rt, alloc, case);
    }
    if let Some(value) = value_of(case, "hold") {
        return lines::hold(rt, alloc, case, value);
    }
    run_outside(rt, alloc, case)
}

/// Runs a case that calls the system, or the simulator.
fn run_outside<R: rt::Files + Print>(rt: &R, alloc: Global, case: &str) -> io::Result<()> {
    if value_of(case, "write").is_some() {
        return outside::write(rt, alloc);
    }
    if let Some(limit) = value_of(case, "read") {
        return outside::read(rt, alloc, limit.parse::<usize>().unwrap_or(0));
    }
    if let Some(takes) = value_of(case, "put") {
        return outside::put(rt, takes.parse::<usize>().ok());
    }
    whole::run(rt, alloc, case)
}
