//! Messages as words.

use crate::numbers::{byte, number, word};
use sim_base::{Bytes, Cause, LineData, NodeId};
use std::alloc::{AllocError, Global};
use std::str::SplitWhitespace;
use wire_msg::{Call, Msg};

/// The kinds of message that come to a control server, and one that doesn't.
#[derive(Clone, Copy)]
enum Kind {
    Call,
    Exit,
    Trap,
    Reached,
    Data,
    Inv,
    Probe,
}

/// What a call asks for.
#[derive(Clone, Copy)]
enum Asked {
    Spawn,
    Join,
    Write,
    Wait,
    Wake,
    Brk,
    ExitGroup,
}

/// The message of a kind that words name, with its sender.
pub fn message_of(
    alloc: Global,
    name: &str,
    words: &mut SplitWhitespace<'_>,
) -> Result<Option<(NodeId, Msg)>, AllocError> {
    let Some(kind) = kind_of(name) else {
        return Ok(None);
    };
    let from = byte(number(words));
    let first = number(words);
    let second = number(words);
    let msg = match kind {
        Kind::Call => call_message(alloc, word(first), second, words)?,
        _ => message(kind, first, second, byte(number(words))),
    };
    Ok(Some((from, msg)))
}

/// The kind of this name.
fn kind_of(name: &str) -> Option<Kind> {
    match name {
        "call" => Some(Kind::Call),
        "exit" => Some(Kind::Exit),
        "trap" => Some(Kind::Trap),
        "reached" => Some(Kind::Reached),
        "data" => Some(Kind::Data),
        "inv" => Some(Kind::Inv),
        "probe" => Some(Kind::Probe),
        _ => None,
    }
}

/// A message that isn't about a call, with numbers in the order of the words.
fn message(kind: Kind, first: u64, second: u64, code: u8) -> Msg {
    let thread = word(first);
    match kind {
        Kind::Exit => Msg::Exit {
            thread,
            time: second,
            code,
        },
        Kind::Trap => Msg::Trapped {
            thread,
            cause: Cause::Illegal,
            pc: second,
        },
        Kind::Reached => Msg::Reached { thread },
        Kind::Data => Msg::DataS {
            line: first,
            content: line_of(word(second)),
            delay: 70,
        },
        Kind::Inv => Msg::Inv { line: first },
        _ => Msg::Probe,
    }
}

/// The message of a thread's call. A call of another name is one of `brk`.
fn call_message(
    alloc: Global,
    thread: u32,
    time: u64,
    words: &mut SplitWhitespace<'_>,
) -> Result<Msg, AllocError> {
    let asked = asked_of(words.next().unwrap_or(""));
    let first = number(words);
    let call = match asked {
        Asked::Write => written(alloc, first)?,
        _ => call(asked, first, number(words)),
    };
    Ok(Msg::Call { thread, time, call })
}

/// What a call of this name asks for.
fn asked_of(name: &str) -> Asked {
    match name {
        "spawn" => Asked::Spawn,
        "join" => Asked::Join,
        "write" => Asked::Write,
        "wait" => Asked::Wait,
        "wake" => Asked::Wake,
        "exit_group" => Asked::ExitGroup,
        _ => Asked::Brk,
    }
}

/// A write of so many bytes.
fn written(alloc: Global, count: u64) -> Result<Call, AllocError> {
    let bytes = Bytes::from_vec(vec![in alloc; 65; count as usize]?);
    Ok(Call::Write { bytes })
}

/// A call that isn't a write, with numbers in the order of the words.
fn call(asked: Asked, first: u64, second: u64) -> Call {
    match asked {
        Asked::Spawn => Call::Spawn {
            entry: first,
            arg: second,
        },
        Asked::Join => Call::Join { thread: first },
        Asked::Wait => Call::FutexWait {
            addr: first,
            value: word(second),
        },
        Asked::Wake => Call::FutexWake {
            addr: first,
            count: word(second),
        },
        Asked::ExitGroup => Call::ExitGroup { code: byte(first) },
        _ => Call::Brk { addr: first },
    }
}

/// A line whose words are all this one.
fn line_of(word: u32) -> LineData {
    let mut content = LineData::zeros();
    for place in 0..16u8 {
        content.store(4 * place, 4, word as u64);
    }
    content
}
