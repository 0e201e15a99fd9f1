//! Messages and actions as text.

use sim_base::{Action, Cause};
use std::alloc::{AllocError, Global};
use wire_msg::{Call, LineData, Msg};

/// Appends a word and numbers, with a blank before each of them.
pub fn push(
    alloc: Global,
    text: &mut String,
    word: &str,
    numbers: &[u64],
) -> Result<(), AllocError> {
    text.push_str(word)?;
    for number in numbers {
        text.push_str(format!(in alloc; " {number}")?.as_str())?;
    }
    Ok(())
}

/// Appends what a message says. Of a line of data it has the number in its first 8 bytes.
pub fn push_message(alloc: Global, text: &mut String, msg: &Msg) -> Result<(), AllocError> {
    match msg {
        Msg::GetS { line } => push(alloc, text, "GetS", &[*line]),
        Msg::GetM { line } => push(alloc, text, "GetM", &[*line]),
        Msg::InvAck { line } => push(alloc, text, "InvAck", &[*line]),
        Msg::Inv { line } => push(alloc, text, "Inv", &[*line]),
        Msg::Fetch { line } => push(alloc, text, "Fetch", &[*line]),
        Msg::FetchInv { line } => push(alloc, text, "FetchInv", &[*line]),
        Msg::PutM { line, content } => push_data(alloc, text, "PutM", *line, content),
        Msg::FetchAck { line, content } => push_data(alloc, text, "FetchAck", *line, content),
        Msg::DataS { line, content, .. } => push_data(alloc, text, "DataS", *line, content),
        Msg::DataM { line, content, .. } => push_data(alloc, text, "DataM", *line, content),
        _ => push_thread_message(alloc, text, msg),
    }
}

/// Appends what a message with a line's data says.
fn push_data(
    alloc: Global,
    text: &mut String,
    word: &str,
    line: u64,
    content: &LineData,
) -> Result<(), AllocError> {
    push(alloc, text, word, &[line, content.load(0, 8)])
}

/// Appends what a message about a thread or a clock says.
fn push_thread_message(alloc: Global, text: &mut String, msg: &Msg) -> Result<(), AllocError> {
    match msg {
        Msg::Call { thread, time, call } => {
            push(alloc, text, "Call", &[u64::from(*thread), *time])?;
            push_call(alloc, text, call)
        }
        Msg::Exit { thread, code, time } => {
            push(
                alloc,
                text,
                "Exit",
                &[u64::from(*thread), u64::from(*code), *time],
            )
        }
        Msg::Trapped { thread, cause, pc } => push_trap(alloc, text, *thread, *cause, *pc),
        Msg::Reached { thread } => push(alloc, text, "Reached", &[u64::from(*thread)]),
        Msg::Probe => text.push_str("Probe"),
        Msg::ProbeReply {
            running: true,
            clock,
        } => push(alloc, text, "ProbeReply true", &[*clock]),
        Msg::ProbeReply { clock, .. } => push(alloc, text, "ProbeReply false", &[*clock]),
        _ => text.push_str("another message"),
    }
}

/// Appends a trap.
fn push_trap(
    alloc: Global,
    text: &mut String,
    thread: u32,
    cause: Cause,
    pc: u64,
) -> Result<(), AllocError> {
    text.push_str(format!(in alloc; "Trapped {thread} {cause:?} {pc:#x}")?.as_str())
}

/// Appends what a call asks for.
fn push_call(alloc: Global, text: &mut String, call: &Call) -> Result<(), AllocError> {
    match call {
        Call::Write { bytes } => {
            push(alloc, text, " Write", &[bytes.len() as u64])?;
            text.push_str(" bytes")
        }
        Call::Spawn { entry, arg } => push(alloc, text, " Spawn", &[*entry, *arg]),
        Call::FutexWait { addr, value } => {
            push(alloc, text, " FutexWait", &[*addr, u64::from(*value)])
        }
        _ => text.push_str(" another call"),
    }
}

/// Appends what an action is.
pub fn push_action(
    alloc: Global,
    text: &mut String,
    action: Option<Action>,
) -> Result<(), AllocError> {
    match action {
        None => text.push_str("no action"),
        Some(Action::Exec { thread }) => push(alloc, text, "Exec", &[u64::from(thread)]),
        Some(Action::FailSc { thread }) => push(alloc, text, "FailSc", &[u64::from(thread)]),
        Some(Action::Load { thread }) => push(alloc, text, "Load", &[u64::from(thread)]),
        Some(Action::Serve { thread }) => push(alloc, text, "Serve", &[u64::from(thread)]),
        Some(Action::Return { thread }) => push(alloc, text, "Return", &[u64::from(thread)]),
        Some(Action::Begin { thread, tile }) => {
            push(alloc, text, "Begin", &[u64::from(thread)])?;
            push(alloc, text, " on", &[u64::from(tile)])
        }
    }
}
