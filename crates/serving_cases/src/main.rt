//! Runs a case of the control server a line, and prints what it sends at each event. A line has how many tiles and hosts
//! there are, and then events, with semicolons between them. Nodes, threads, times, addresses and lines are decimal
//! numbers:
//! - `call TILE THREAD TIME` and `spawn ENTRY ARG`, `join THREAD`, `write COUNT`, `wait ADDRESS VALUE`,
//!   `wake ADDRESS COUNT`, `brk ADDRESS` or `exit_group CODE`: a tile passes on a thread's call;
//! - `exit SERVER THREAD TIME CODE`: a local server passes on a thread's exit;
//! - `trap TILE THREAD PC`, `reached TILE THREAD`: a tile tells of a trap, or of a limit that was reached;
//! - `data TILE LINE WORD`, `inv TILE LINE`: a tile sends a line, all of whose words are this one, or takes it back;
//! - `probe TILE`: a message that the control server doesn't know;
//! - `step`: a step of the control server, if it can make one.
//!
//! The answer has each event's messages, with the receiver first, and the thread that was served, and behind a bar the
//! end and the number of bytes that were output. An answer of a call that stands for an error is written as a negative
//! number. The stored answers were worked out apart, by a model of the table in words.
#![tactic(auto)]

mod events;
mod image;
mod messages;
mod numbers;
mod texts;

ghost use Rattle.std.specs.Prelude.{IfSome};
ghost use Rattle.sim_base.specs.Settings.{IsChecked};

use control_server::Control;
use elf_image::{World, read_image};
use events::happen;
use image::FILE;
use numbers::{number, word};
use sim_base::Config;
use std::alloc::{AllocError, Global};
use std::io;
use texts::push_end;

fn main(rt: HostRuntime) -> io::Result<()> {
    let alloc = rt.alloc();
    for line in rt.lines(alloc) {
        let text = answer(alloc, line?.as_str())?;
        println!(rt; "{text}")?;
    }
    Ok(())
}

/// The answer to a case.
fn answer(alloc: Global, line: &str) -> Result<String, AllocError> {
    let mut text = String::new(alloc);
    let (settings, events) = line.split_once(':').unwrap_or((line, ""));
    match config_of(settings) {
        Some(config) => push_case(alloc, &mut text, config, events)?,
        None => text.push_str("no settings")?,
    }
    Ok(text)
}

/// Appends what the control server of a machine does.
fn push_case(
    alloc: Global,
    text: &mut String,
    config: Config,
    events: &str,
) -> Result<(), AllocError>
    requires { IsChecked config }
{
    let Ok(image) = read_image(alloc, FILE.as_slice()) else {
        return text.push_str("no image");
    };
    let world = World::new(image, config);
    play(alloc, text, &world, events)
}

/// Appends what the control server sends at each event, and how it ends.
fn play(alloc: Global, text: &mut String, world: &World, events: &str) -> Result<(), AllocError> {
    let Ok(mut control) = Control::new(alloc, world) else {
        return text.push_str("out of memory");
    };
    for event in events.split(';') {
        happen(alloc, world, &mut control, event, text)?;
        text.push_str(";")?;
    }
    push_end(alloc, text, &control)
}

/// The settings with so many tiles and hosts, if they are in range.
fn config_of(settings: &str) -> Option<Config>
    ensures { IfSome result IsChecked }
{
    let mut words = settings.split_whitespace();
    let tiles = word(number(&mut words));
    let hosts = word(number(&mut words));
    let config = machine(tiles, hosts);
    match config.check() {
        Ok(()) => Some(config),
        Err(_) => None,
    }
}

/// The default settings with so many tiles and hosts.
fn machine(tiles: u32, hosts: u32) -> Config {
    Config {
        tiles,
        hosts,
        ..Config::defaults()
    }
}
