//! Messages and ends in words.

use control_server::Control;
use sim_base::NodeId;
use std::alloc::{AllocError, Global};
use wire_msg::Msg;

/// Appends words and a number.
pub fn push(alloc: Global, text: &mut String, words: &str, number: u64) -> Result<(), AllocError> {
    text.push_str(words)?;
    text.push_str(format!(in alloc; "{number}")?.as_str())
}

/// Appends a message and its receiver.
pub fn push_message(
    alloc: Global,
    text: &mut String,
    to: NodeId,
    msg: &Msg,
) -> Result<(), AllocError> {
    push(alloc, text, " <", u64::from(to))?;
    push_said(alloc, text, msg)?;
    text.push_str(">")
}

/// Appends what a message says.
fn push_said(alloc: Global, text: &mut String, msg: &Msg) -> Result<(), AllocError> {
    match msg {
        Msg::GetS { line } => push(alloc, text, ": gets ", *line),
        Msg::InvAck { line } => push(alloc, text, ": invack ", *line),
        Msg::Return { value, time, limit } => {
            push_signed(alloc, text, ": return ", value.cast_signed())?;
            push_times(alloc, text, *time, *limit)
        }
        Msg::Start {
            thread,
            entry,
            arg,
            time,
            limit,
        } => {
            push(alloc, text, ": start ", u64::from(*thread))?;
            push(alloc, text, " ", *entry)?;
            push(alloc, text, " ", *arg)?;
            push_times(alloc, text, *time, *limit)
        }
        Msg::Limit { limit } => push(alloc, text, ": limit ", *limit),
        _ => text.push_str(": another message"),
    }
}

/// Appends words and a number with its sign.
fn push_signed(
    alloc: Global,
    text: &mut String,
    words: &str,
    number: i64,
) -> Result<(), AllocError> {
    text.push_str(words)?;
    text.push_str(format!(in alloc; "{number}")?.as_str())
}

/// Appends the time of an answer, and the limit that it brings.
fn push_times(alloc: Global, text: &mut String, time: u64, limit: u64) -> Result<(), AllocError> {
    push(alloc, text, " at ", time)?;
    push(alloc, text, " to ", limit)
}

/// Appends how the program ended, and how much it output.
pub fn push_end(alloc: Global, text: &mut String, control: &Control) -> Result<(), AllocError> {
    match control.ended() {
        None => text.push_str(" | no end")?,
        Some(end) => text.push_str(format!(in alloc; " | {end:?}")?.as_str())?,
    }
    push(alloc, text, ", output ", control.output().len() as u64)
}
