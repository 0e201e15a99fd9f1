//! Events as words. A number that isn't there, or is none, counts as 0.

use crate::numbers::{narrow, node, number};
use sim_base::NodeId;
use std::str::SplitWhitespace;
use wire_msg::{LineData, Msg};

/// Something that happens to a tile.
#[derive(Drop)]
pub enum Event {
    /// It makes a step.
    Step,
    /// It makes so many steps.
    Run { steps: u32 },
    /// A message comes from a node.
    Message { from: NodeId, msg: Msg },
}

/// The kinds of message that come to a tile.
#[derive(Clone, Copy)]
enum Kind {
    GetS,
    GetM,
    PutM,
    InvAck,
    FetchAck,
    DataS,
    DataM,
    Inv,
    Fetch,
    FetchInv,
    Return,
    Start,
    Reached,
    Limit,
    Probe,
    ProbeReply,
}

/// The event that words name.
pub fn event_of(part: &str) -> Option<Event> {
    let mut words = part.split_whitespace();
    let first = words.next().unwrap_or("");
    if first == "step" {
        Some(Event::Step)
    } else if first == "run" {
        let steps = narrow(number(&mut words));
        Some(Event::Run { steps })
    } else {
        delivery(first, &mut words)
    }
}

/// That a message comes from a node.
fn delivery(sender: &str, words: &mut SplitWhitespace<'_>) -> Option<Event> {
    let kind = kind_of(words.next().unwrap_or(""))?;
    let msg = message(kind, numbers(words));
    let from = node(sender);
    Some(Event::Message { from, msg })
}

/// The kind of this name.
fn kind_of(name: &str) -> Option<Kind> {
    match name {
        "GetS" => Some(Kind::GetS),
        "GetM" => Some(Kind::GetM),
        "PutM" => Some(Kind::PutM),
        "InvAck" => Some(Kind::InvAck),
        "FetchAck" => Some(Kind::FetchAck),
        "DataS" => Some(Kind::DataS),
        "DataM" => Some(Kind::DataM),
        "Inv" => Some(Kind::Inv),
        "Fetch" => Some(Kind::Fetch),
        "FetchInv" => Some(Kind::FetchInv),
        "Return" => Some(Kind::Return),
        "Start" => Some(Kind::Start),
        "Reached" => Some(Kind::Reached),
        "Limit" => Some(Kind::Limit),
        "Probe" => Some(Kind::Probe),
        "ProbeReply" => Some(Kind::ProbeReply),
        _ => None,
    }
}

/// The next five numbers.
fn numbers(words: &mut SplitWhitespace<'_>) -> [u64; 5] {
    let first = number(words);
    let second = number(words);
    let third = number(words);
    let fourth = number(words);
    let fifth = number(words);
    [first, second, third, fourth, fifth]
}

/// The message of a kind, with numbers in the order of its fields. A line of data has its number in the first 8 bytes.
fn message(kind: Kind, numbers: [u64; 5]) -> Msg {
    let [first, second, third, _, _] = numbers;
    match kind {
        Kind::PutM | Kind::FetchAck | Kind::DataS | Kind::DataM => {
            data_message(kind, first, line_of(second), third)
        }
        Kind::Return | Kind::Start | Kind::Reached | Kind::Limit | Kind::ProbeReply => {
            thread_message(kind, numbers)
        }
        Kind::GetS => Msg::GetS { line: first },
        Kind::GetM => Msg::GetM { line: first },
        Kind::InvAck => Msg::InvAck { line: first },
        Kind::Inv => Msg::Inv { line: first },
        Kind::Fetch => Msg::Fetch { line: first },
        Kind::FetchInv => Msg::FetchInv { line: first },
        Kind::Probe => Msg::Probe,
    }
}

/// A message with what a line holds.
fn data_message(kind: Kind, line: u64, content: LineData, delay: u64) -> Msg {
    match kind {
        Kind::PutM => Msg::PutM { line, content },
        Kind::FetchAck => Msg::FetchAck { line, content },
        Kind::DataS => Msg::DataS {
            line,
            content,
            delay,
        },
        _ => Msg::DataM {
            line,
            content,
            delay,
        },
    }
}

/// A message about a thread or a clock.
fn thread_message(kind: Kind, numbers: [u64; 5]) -> Msg {
    let [first, second, third, time, limit] = numbers;
    match kind {
        Kind::Return => Msg::Return {
            value: first,
            time: second,
            limit: third,
        },
        Kind::Start => Msg::Start {
            thread: narrow(first),
            entry: second,
            arg: third,
            time,
            limit,
        },
        Kind::Limit => Msg::Limit { limit: first },
        Kind::Reached => Msg::Reached {
            thread: narrow(first),
        },
        _ => Msg::ProbeReply {
            running: first != 0,
            clock: second,
        },
    }
}

/// A line with this number in its first 8 bytes, and zeros.
fn line_of(number: u64) -> LineData {
    let mut content = LineData::zeros();
    content.store(0, 8, number);
    content
}
