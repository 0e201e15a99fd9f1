//! The flat machine.

use crate::words::number_of;
use crate::worlds::world;
use elf_image::World;
use flat_machine::Flat;
use sim_base::Action;
use std::alloc::Global;
use std::io;

/// Asks the flat machine for each action of a case and prints the answers, and how it then stands.
pub fn act(rt: &impl Print, alloc: Global, case: &str) -> io::Result<()> {
    let Some(world) = world(alloc, case) else {
        return println!(rt; "no program");
    };
    match Flat::start(alloc, &world) {
        Ok(mut flat) => ask_all(rt, alloc, &world, &mut flat, case),
        Err(_) => println!(rt; "out of memory"),
    }
}

/// Asks a flat machine for each action of a case.
fn ask_all(
    rt: &impl Print,
    alloc: Global,
    world: &World,
    flat: &mut Flat,
    case: &str,
) -> io::Result<()> {
    for word in case.split_ascii_whitespace() {
        if let Some(name) = word.strip_prefix("act=") {
            ask(rt, alloc, world, flat, action(name))?;
        }
    }
    report(rt, flat, case)
}

/// Asks a flat machine for an action.
fn ask(
    rt: &impl Print,
    alloc: Global,
    world: &World,
    flat: &mut Flat,
    action: Action,
) -> io::Result<()> {
    let answer = flat.act(alloc, world, &action);
    println!(rt; "{action:?}: {answer:?}")
}

/// Runs the flat machine for as many actions at most as a case says, and prints how it then stands.
pub fn run(rt: &impl Print, alloc: Global, case: &str) -> io::Result<()> {
    let Some(world) = world(alloc, case) else {
        return println!(rt; "no program");
    };
    match flat_machine::run(alloc, &world, number_of(case, "flat", 0)) {
        Ok(flat) => report(rt, &flat, case),
        Err(_) => println!(rt; "out of memory"),
    }
}

/// Prints the bytes that a case asks for, and how a flat machine stands.
fn report(rt: &impl Print, flat: &Flat, case: &str) -> io::Result<()> {
    for word in case.split_ascii_whitespace() {
        if let Some(digits) = word.strip_prefix("byte=") {
            let address = u64::from_str_radix(digits, 16).unwrap_or(0);
            print_byte(rt, address, flat.byte(address))?;
        }
    }
    let len = flat.output().len();
    let end = flat.ended();
    println!(rt; "{len} bytes, {end:?}")
}

/// Prints the byte at an address.
fn print_byte(rt: &impl Print, address: u64, byte: u8) -> io::Result<()> {
    println!(rt; "byte {address:#x}: {byte:#x}")
}

/// An action of a thread, 0 or the one that stands behind an `@`. One of another name is a return.
fn action(value: &str) -> Action {
    let (name, thread) = value.split_once('@').unwrap_or((value, "0"));
    let thread = thread.parse::<u32>().unwrap_or(0);
    match name {
        "exec" => Action::Exec { thread },
        "fail" => Action::FailSc { thread },
        "load" => Action::Load { thread },
        "serve" => Action::Serve { thread },
        _ => Action::Return { thread },
    }
}
