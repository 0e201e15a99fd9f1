//! A case: a tile, and what happens to it.

ghost use Rattle.std.specs.Prelude.{◌<◌};
ghost use Rattle.tile_node.specs.Answers.{IsOf};

use crate::events::{Event, event_of};
use crate::machines::machine_of;
use crate::programs::image;
use crate::texts::{push, push_action, push_message};
use elf_image::World;
use sim_base::{Action, NoMemory, NodeId};
use std::alloc::{AllocError, Global};
use tile_cache::Hold;
use tile_node::{TileCounts, TileNode};
use wire_msg::{LineData, Msg, Out};

/// The first line of data.
const DATA_LINE: u64 = 2048;

/// The parts of a line.
#[derive(Clone, Copy)]
struct Parts<'a> {
    name: &'a str,
    machine: &'a str,
    words: &'a str,
    events: &'a str,
}

/// The answer to a case: its name, and a line for each event.
pub fn answer(alloc: Global, line: &str) -> Result<String, NoMemory> {
    let parts = parts_of(line);
    let mut text = String::from_str(alloc, parts.name)?;
    push_case(alloc, &mut text, parts)?;
    Ok(text)
}

/// The parts of a line, which have bars between them.
fn parts_of(line: &str) -> Parts<'_> {
    let mut parts = line.split('|');
    let name = parts.next().unwrap_or("").trim();
    let machine = parts.next().unwrap_or("");
    let words = parts.next().unwrap_or("");
    let events = parts.next().unwrap_or("");
    Parts {
        name,
        machine,
        words,
        events,
    }
}

/// Appends the events of a case, each in a line, or what it lacks.
fn push_case(alloc: Global, text: &mut String, parts: Parts<'_>) -> Result<(), NoMemory> {
    let (tile, config) = machine_of(parts.machine);
    let Some(config) = config else {
        return Ok(text.push_str(": no machine")?);
    };
    let Some(image) = image(alloc, parts.words)? else {
        return Ok(text.push_str(": no program")?);
    };
    if u32::from(tile) >= config.tiles {
        return Ok(text.push_str(": no such tile")?);
    }
    let world = World::new(image, config);
    play(alloc, &world, tile, parts.events, text)
}

/// Makes the events of a list, each with a line of text.
fn play(
    alloc: Global,
    world: &World,
    tile: NodeId,
    events: &str,
    text: &mut String,
) -> Result<(), NoMemory>
    requires { tile < world.now.config.tiles }
{
    let mut node = TileNode::new(alloc, world, tile)?;
    for part in events.split(';') {
        text.push_str("\n    ")?;
        happen(alloc, world, &mut node, part, text)?;
    }
    Ok(())
}

/// Makes an event, and says what came of it.
fn happen(
    alloc: Global,
    world: &World,
    node: &mut TileNode,
    part: &str,
    text: &mut String,
) -> Result<(), NoMemory>
    requires { IsOf world.now node.old }
    ensures { IsOf world.now node.new }
{
    let mut out = Vec::new(alloc);
    match event_of(part) {
        Some(event) => {
            let action = take(alloc, world, node, event, &mut out)?;
            Ok(push_outcome(alloc, text, &out, action, node)?)
        }
        None => Ok(text.push_str("no event")?),
    }
}

/// Makes an event.
fn take(
    alloc: Global,
    world: &World,
    node: &mut TileNode,
    event: Event,
    out: &mut Out,
) -> Result<Option<Action>, NoMemory>
    requires { IsOf world.now node.old }
    ensures { IsOf world.now node.new }
{
    match event {
        Event::Step => step(alloc, world, node, out),
        Event::Run { steps } => run(alloc, world, node, steps, out),
        Event::Message { from, msg } => node.deliver(alloc, world, from, msg, out),
    }
}

/// Appends what was sent, the action, and how the tile is then.
fn push_outcome(
    alloc: Global,
    text: &mut String,
    out: &Out,
    action: Option<Action>,
    node: &TileNode,
) -> Result<(), AllocError> {
    for (to, msg) in out {
        push_message(alloc, text, msg)?;
        push(alloc, text, " to", &[u64::from(*to)])?;
        text.push_str(", ")?;
    }
    push_action(alloc, text, action)?;
    push_state(alloc, text, node.counts(), node.hold(DATA_LINE))
}

/// Appends a tile's clock, its counts, and how it holds the line of data.
fn push_state(
    alloc: Global,
    text: &mut String,
    counts: TileCounts,
    hold: Option<Hold>,
) -> Result<(), AllocError> {
    push(alloc, text, ", clock", &[counts.clock])?;
    push(alloc, text, ",", &[counts.instr])?;
    push(alloc, text, " instr,", &[counts.hits])?;
    push(alloc, text, " hits,", &[counts.misses])?;
    text.push_str(format!(in alloc; " misses, {hold:?}")?.as_str())
}

/// A step, if the tile can make one.
fn step(
    alloc: Global,
    world: &World,
    node: &mut TileNode,
    out: &mut Out,
) -> Result<Option<Action>, NoMemory>
    requires { IsOf world.now node.old }
    ensures { IsOf world.now node.new }
{
    if node.can_step() {
        node.step(alloc, world, out)
    } else {
        Ok(None)
    }
}

/// So many steps, with a line of zeros for each miss. What the last one sent and committed is told.
fn run(
    alloc: Global,
    world: &World,
    node: &mut TileNode,
    steps: u32,
    out: &mut Out,
) -> Result<Option<Action>, NoMemory>
    requires { IsOf world.now node.old }
    ensures { IsOf world.now node.new }
{
    let mut action = None;
    for _ in 0..steps {
        action = answered_step(alloc, world, node, out)?;
    }
    Ok(action)
}

/// A step, and at a miss the answer to it.
fn answered_step(
    alloc: Global,
    world: &World,
    node: &mut TileNode,
    out: &mut Out,
) -> Result<Option<Action>, NoMemory>
    requires { IsOf world.now node.old }
    ensures { IsOf world.now node.new }
{
    out.clear();
    let action = step(alloc, world, node, out)?;
    match answer_to(out) {
        Some((home, msg)) => {
            let _request = out.pop();
            node.deliver(alloc, world, home, msg, out)
        }
        None => Ok(action),
    }
}

/// A line of zeros from its home, if the last message asks for one.
fn answer_to(out: &Out) -> Option<(NodeId, Msg)> {
    let content = LineData::zeros();
    let delay = 0;
    match out.last() {
        Some((home, Msg::GetS { line })) => {
            let line = *line;
            Some((
                *home,
                Msg::DataS {
                    line,
                    content,
                    delay,
                },
            ))
        }
        Some((home, Msg::GetM { line })) => {
            let line = *line;
            Some((
                *home,
                Msg::DataM {
                    line,
                    content,
                    delay,
                },
            ))
        }
        _ => None,
    }
}
