//! The events of a case.

ghost use Rattle.control_server.specs.Control.{IsInOrder};

use crate::messages::message_of;
use crate::texts::{push, push_message};
use control_server::Control;
use elf_image::World;
use sim_base::{Action, NoMemory, NodeId};
use std::alloc::{AllocError, Global};
use wire_msg::{Msg, Out};

/// Appends what the control server sends at an event, and whom it serves.
pub fn happen(
    alloc: Global,
    world: &World,
    control: &mut Control,
    event: &str,
    text: &mut String,
) -> Result<(), AllocError>
    requires { IsInOrder world.now control.old }
    ensures { IsInOrder world.now control.new }
{
    let mut words = event.split_whitespace();
    let name = words.next().unwrap_or("");
    if name == "step" {
        return step(alloc, world, control, text);
    }
    match message_of(alloc, name, &mut words)? {
        Some((from, msg)) => deliver(alloc, world, control, from, msg, text),
        None => text.push_str(" no event"),
    }
}

/// A step, if one is possible.
fn step(
    alloc: Global,
    world: &World,
    control: &mut Control,
    text: &mut String,
) -> Result<(), AllocError>
    requires { IsInOrder world.now control.old }
    ensures { IsInOrder world.now control.new }
{
    if !control.can_step() {
        return text.push_str(" no step");
    }
    let mut out = Vec::new(alloc);
    let done = control.step(alloc, world, &mut out);
    tell(alloc, text, done, &out)
}

/// A delivery of a message.
fn deliver(
    alloc: Global,
    world: &World,
    control: &mut Control,
    from: NodeId,
    msg: Msg,
    text: &mut String,
) -> Result<(), AllocError>
    requires { IsInOrder world.now control.old }
    ensures { IsInOrder world.now control.new }
{
    let mut out = Vec::new(alloc);
    let done = control.deliver(alloc, world, from, msg, &mut out);
    tell(alloc, text, done, &out)
}

/// Appends who was served, and what was sent.
fn tell(
    alloc: Global,
    text: &mut String,
    done: Result<Option<Action>, NoMemory>,
    out: &Out,
) -> Result<(), AllocError> {
    match done {
        Err(NoMemory) => text.push_str(" out of memory")?,
        Ok(Some(Action::Serve { thread })) => push(alloc, text, " serve ", u64::from(thread))?,
        Ok(_) => {}
    }
    for (to, msg) in out {
        push_message(alloc, text, *to, msg)?;
    }
    Ok(())
}
