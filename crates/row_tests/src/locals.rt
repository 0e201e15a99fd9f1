//! Cases of the local server: where a start and an exit go on to.

ghost use Rattle.std.specs.Prelude.{◌≡◌, ◌<◌, OnErr};
ghost use Rattle.sim_base.specs.Settings.{IsChecked};

use local_server::Local;
use sim_base::{Config, NoMemory, NodeId};
use std::alloc::Global;
use wire_msg::{Msg, Out};

/// A thread's start or its exit.
#[derive(Clone, Copy)]
enum Told {
    Start(u32),
    Exit(u32),
}

/// Messages to the local server of host 0 of two, from whom they are, and who gets the message of which thread then.
/// Of six tiles the host has 0, 2 and 4, of which 2 and 4 are idle at first, and node 6 is the control server. A start
/// from a tile and an exit from another host's tile change nothing.
static ROWS: [(NodeId, Told, Option<(NodeId, u32)>); 4] = [
    (2, Told::Start(8), None),
    (6, Told::Start(1), Some((2, 1))),
    (3, Told::Exit(9), None),
    (2, Told::Exit(1), Some((6, 1))),
];

fn message(told: Told) -> Msg {
    match told {
        Told::Start(thread) => {
            Msg::Start {
                thread,
                entry: 0x1_00C0,
                arg: 0,
                time: 0,
                limit: 1000,
            }
        }
        Told::Exit(thread) => {
            Msg::Exit {
                thread,
                code: 3,
                time: 10,
            }
        }
    }
}

/// The thread that a message is of.
fn thread_of(msg: &Msg) -> u32 {
    match msg {
        Msg::Start { thread, .. } | Msg::Exit { thread, .. } => *thread,
        _ => u32::MAX,
    }
}

/// The last message that the server sends when it is told this: to whom, and of which thread.
fn goes_on(
    alloc: Global,
    config: &Config,
    local: &mut Local,
    from: NodeId,
    msg: Msg,
) -> Result<Option<(NodeId, u32)>, NoMemory>
    requires checked { IsChecked config.now }
    requires in_range { local.old.host < config.now.hosts }
    ensures { local.new.host ≡ local.old.host }
{
    let mut out = Vec::new(alloc);
    local.deliver(config, from, msg, &mut out)?;
    Ok(last_of(&out))
}

/// The last message, by its receiver and its thread.
fn last_of(out: &Out) -> Option<(NodeId, u32)> {
    let (to, msg) = out.last()?;
    Some((*to, thread_of(msg)))
}

/// Whether the server answers as the rows say.
fn goes_as_said(alloc: Global, config: &Config, local: &mut Local) -> Result<bool, NoMemory>
    requires checked { IsChecked config.now }
    requires in_range { local.old.host < config.now.hosts }
{
    let mut is_right = true;
    for &(from, told, wanted) in &ROWS {
        is_right = is_right && goes_on(alloc, config, local, from, message(told))? == wanted;
    }
    Ok(is_right)
}

/// Six tiles on two hosts.
fn six_tiles() -> Config {
    Config {
        tiles: 6,
        hosts: 2,
        ..Config::defaults()
    }
}

/// Whether the local server of host 0 answers as the rows say.
fn host_0_goes_as_said(alloc: Global, config: &Config) -> Result<bool, NoMemory> {
    if config.check().is_err() || config.hosts == 0 {
        return Ok(false);
    }
    let mut local = Local::new(alloc, config, 0)?;
    goes_as_said(alloc, config, &mut local)
}

#[test]
fn starts_and_exits_go_on(rt: HostRuntime) {
    let is_right = host_0_goes_as_said(rt.alloc(), &six_tiles()).unwrap_or(false);
    assert!(rt; is_right);
}
