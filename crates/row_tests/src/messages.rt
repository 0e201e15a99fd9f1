//! Cases of messages: between which nodes each kind may go.

ghost use Rattle.sim_base.specs.Settings.{IsChecked};

use sim_base::{Cause, Config, NoMemory, NodeId};
use std::alloc::Global;
use wire_msg::{Bytes, Call, LineData, Msg};

/// Pairs of nodes, each with its letter, where tiles 0 to 3 go round two hosts. Node 4 is the control server, nodes 5
/// and 6 are the local servers, and no node has number 7.
static PAIRS: [(u8, NodeId, NodeId); 13] = [
    (b'h', 0, 1), // a tile, the home of line 5
    (b't', 0, 2), // a tile, another
    (b'H', 4, 1), // the control server, the home
    (b'T', 4, 2), // the control server, another tile
    (b'c', 0, 4), // a tile, the control server
    (b'l', 4, 5), // the control server, a local server
    (b'd', 5, 2), // a local server, a tile of its host
    (b'x', 5, 1), // a local server, a tile of the other host
    (b'u', 2, 5), // a tile, its local server
    (b'y', 1, 5), // a tile, the other local server
    (b'C', 5, 4), // a local server, the control server
    (b'n', 7, 1), // no node, a tile
    (b'm', 0, 7), // a tile, no node
];

/// Each message's pairs.
static ROUTES: [&str; 19] = [
    "hH", "hH", "hH", "hH", "hH", "htc", "ht", "htc", "ht", "ht", "c", "HT", "ld", "uC", "c", "c",
    "HT", "ht", "ht",
];

/// A message of each kind, those about lines about line 5.
fn message(alloc: Global, kind: usize) -> Result<Msg, NoMemory> {
    match kind {
        0..=9 => Ok(line_message(kind, 5, LineData { bytes: [9; 64] })),
        10 => Ok(Msg::Call {
            thread: 7,
            time: 1200,
            call: written(alloc)?,
        }),
        _ => Ok(thread_message(kind, 7, 1200, 2000)),
    }
}

/// A message about a line.
fn line_message(kind: usize, line: u64, content: LineData) -> Msg {
    let delay = 78;
    match kind {
        0 => Msg::GetS { line },
        1 => Msg::GetM { line },
        2 => Msg::PutM { line, content },
        3 => Msg::InvAck { line },
        4 => Msg::FetchAck { line, content },
        5 => Msg::DataS {
            line,
            content,
            delay,
        },
        6 => Msg::DataM {
            line,
            content,
            delay,
        },
        7 => Msg::Inv { line },
        8 => Msg::Fetch { line },
        _ => Msg::FetchInv { line },
    }
}

/// A message about a thread or a clock.
fn thread_message(kind: usize, thread: u32, time: u64, limit: u64) -> Msg {
    match kind {
        11 => Msg::Return {
            value: 3,
            time,
            limit,
        },
        12 => Msg::Start {
            thread,
            entry: 65_536,
            arg: 9,
            time,
            limit,
        },
        13 => Msg::Exit {
            thread,
            code: 41,
            time,
        },
        14 => Msg::Trapped {
            thread,
            cause: Cause::Breakpoint,
            pc: 65_540,
        },
        15 => Msg::Reached { thread },
        16 => Msg::Limit { limit },
        17 => Msg::Probe,
        _ => Msg::ProbeReply {
            running: true,
            clock: time,
        },
    }
}

fn written(alloc: Global) -> Result<Call, NoMemory> {
    let mut bytes = Bytes::new(alloc, 3)?;
    bytes.extend(b"abc")?;
    Ok(Call::Write { bytes })
}

/// The letters of the pairs between which a message may go.
fn letters(alloc: Global, msg: &Msg, config: &Config) -> Result<Vec<u8>, NoMemory>
    requires { IsChecked config.now }
{
    let mut found = Vec::new(alloc);
    for &(letter, from, to) in &PAIRS {
        if msg.may_go(config, from, to) {
            found.push(letter)?;
        }
    }
    Ok(found)
}

/// Whether a message of a kind may go between these pairs alone.
fn goes_between(alloc: Global, config: &Config, kind: usize, wanted: &str) -> Result<bool, NoMemory>
    requires { IsChecked config.now }
{
    let msg = message(alloc, kind)?;
    let found = letters(alloc, &msg, config)?;
    Ok(found.as_slice() == wanted.as_bytes())
}

/// The default settings with two hosts.
fn two_hosts() -> Config
    ensures { IsChecked result }
{
    Config {
        hosts: 2,
        ..Config::defaults()
    }
}

/// Whether the messages go between their pairs alone.
fn go_as_said(alloc: Global, config: &Config) -> Result<bool, NoMemory>
    requires { IsChecked config.now }
{
    let mut are_wanted = true;
    for (kind, &wanted) in ROUTES.iter().enumerate() {
        are_wanted = are_wanted && goes_between(alloc, config, kind, wanted)?;
    }
    Ok(are_wanted)
}

#[test]
fn messages_go_between_these(rt: HostRuntime) {
    let are_wanted = go_as_said(rt.alloc(), &two_hosts()).unwrap_or(false);
    assert!(rt; are_wanted);
}

/// Copies a message of each kind.
fn copy_all(alloc: Global) -> Result<(), NoMemory> {
    for kind in 0..19 {
        let _copy = message(alloc, kind)?.copy(alloc)?;
    }
    Ok(())
}

#[test]
fn each_message_has_a_copy(rt: HostRuntime) {
    let have_copies = copy_all(rt.alloc()).is_ok();
    assert!(rt; have_copies);
}
