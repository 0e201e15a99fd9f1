//! The local server of a host: its idle tiles, and what it passes on.

ghost use Rattle.std.specs.Prelude.{◌≡◌, ◌<◌, ◌==◌, ◌++◌, true, false, if◌then◌else◌, IfOk, OnOk, OnErr};
ghost use Rattle.sim_base.specs.Numbering.{host_of};
ghost use Rattle.sim_base.specs.Settings.{IsChecked};
ghost use Rattle.local_server.specs.Local.{start_local, first_idle, with_tile, started, exited, received, delivered, Answers};

use sim_base::{Config, NoMemory, NodeId};
use std::alloc::Global;
use std::collections::BTreeSet;
use std::marker::Model;
use wire_msg::{Msg, Out};

/// The local server of a host: it knows which tiles of the host are idle. A start goes on to the lowest of them, and an
/// exit to the control server. It never acts by itself. Where memory runs out the server is spent: that call and all
/// later ones answer `NoMemory`.
#[derive(Drop)]
pub struct Local {
    host: u32,
    idle: BTreeSet<NodeId>,
    spent: bool,
}

impl Model for Local {
    ghost use Rattle.local_server.specs.Local.{LocalServer};

    ghost Value = { LocalServer };

    ghost view = { λ l. record { host = l.host; idle = l.idle.keys; spent = l.spent } };
}

impl Local {
    /// The server of a host before the program runs: all tiles of the host are idle, but tile 0, where the first thread
    /// is.
    pub fn new(alloc: Global, config: &Config, host: u32) -> Result<Local, NoMemory>
        requires { IsChecked config.now }
        ensures { IfOk result (λ local. local ≡ start_local config.now host) }
    {
        Ok(Local {
            host,
            idle: first_idle(alloc, config, host)?,
            spent: false,
        })
    }

    /// A message from a node is delivered. A start from the control server goes on as it is to the lowest idle tile,
    /// which is then busy; where none is idle it is dropped. An exit from a tile of the host makes that tile idle, and
    /// goes on as it is to the control server. Any other message changes nothing.
    pub fn deliver(
        &mut self,
        config: &Config,
        from: NodeId,
        msg: Msg,
        out: &mut Out,
    ) -> Result<(), NoMemory>
        requires checked { IsChecked config.now }
        requires in_range { self.old.host < config.now.hosts }
        ensures { Answers result self.old self.new out.old.items out.new.items
            (delivered config.now self.old.host self.old.idle from msg) }
    {
        self.begin()?;
        admit(&mut self.idle, config, self.host, from, msg, out)?;
        self.spent = false;
        Ok(())
    }

    /// A call begins, unless the server is spent. It is spent until the call ends.
    fn begin(&mut self) -> Result<(), NoMemory>
        ensures ok { IfOk result (λ _. (self.old.spent ≡ false) × (self.new ≡ record self.old { spent = true })) }
        ensures err { OnErr result ((self.new.spent ≡ true) × (self.new.host ≡ self.old.host)) }
    {
        if self.spent {
            return Err(NoMemory);
        }
        self.spent = true;
        Ok(())
    }
}

/// The tiles of a host, but tile 0.
fn first_idle(alloc: Global, config: &Config, host: u32) -> Result<BTreeSet<NodeId>, NoMemory>
    requires { IsChecked config.now }
    ensures { IfOk result (λ idle. idle.keys ≡ first_idle config.now host) }
{
    let mut idle = BTreeSet::new(alloc);
    for tile in 1..config.tiles as NodeId {
        enter_own(&mut idle, config, host, tile)?;
    }
    Ok(idle)
}

/// A tile is idle, if it is of the host.
fn enter_own(
    idle: &mut BTreeSet<NodeId>,
    config: &Config,
    host: u32,
    tile: NodeId,
) -> Result<(), NoMemory>
    requires checked { IsChecked config.now }
    requires in_range { tile < config.now.tiles }
    ensures { OnOk result (idle.new.keys ≡ (if host_of config.now tile == host then with_tile tile idle.old.keys else idle.old.keys)) }
{
    if config.host_of(tile) == host {
        idle.insert(tile)?;
    }
    Ok(())
}

/// A message comes from a node. Where that one may not send it, nothing changes.
fn admit(
    idle: &mut BTreeSet<NodeId>,
    config: &Config,
    host: u32,
    from: NodeId,
    msg: Msg,
    out: &mut Out,
) -> Result<(), NoMemory>
    requires checked { IsChecked config.now }
    requires in_range { host < config.now.hosts }
    ensures idle { OnOk result (idle.new.keys ≡ (delivered config.now host idle.old.keys from msg).idle) }
    ensures sent { OnOk result (out.new.items ≡ out.old.items ++ (delivered config.now host idle.old.keys from msg).mail) }
{
    if msg.may_go(config, from, config.local(host)) {
        receive(idle, config, from, msg, out)
    } else {
        Ok(())
    }
}

/// A message comes from a node that may send it.
fn receive(
    idle: &mut BTreeSet<NodeId>,
    config: &Config,
    from: NodeId,
    msg: Msg,
    out: &mut Out,
) -> Result<(), NoMemory>
    requires { IsChecked config.now }
    ensures idle { OnOk result (idle.new.keys ≡ (received config.now from msg idle.old.keys).idle) }
    ensures sent { OnOk result (out.new.items ≡ out.old.items ++ (received config.now from msg idle.old.keys).mail) }
{
    match &msg {
        Msg::Start { .. } => start(idle, msg, out),
        Msg::Exit { .. } => exit(idle, config, from, msg, out),
        _ => Ok(()),
    }
}

/// A start goes on to the lowest idle tile.
fn start(idle: &mut BTreeSet<NodeId>, msg: Msg, out: &mut Out) -> Result<(), NoMemory>
    ensures idle { OnOk result (idle.new.keys ≡ (started msg idle.old.keys).idle) }
    ensures sent { OnOk result (out.new.items ≡ out.old.items ++ (started msg idle.old.keys).mail) }
{
    if let Some(tile) = idle.pop_first() {
        out.push((tile, msg))?;
    }
    Ok(())
}

/// An exit makes its tile idle, and goes on to the control server.
fn exit(
    idle: &mut BTreeSet<NodeId>,
    config: &Config,
    from: NodeId,
    msg: Msg,
    out: &mut Out,
) -> Result<(), NoMemory>
    requires { IsChecked config.now }
    ensures idle { OnOk result (idle.new.keys ≡ (exited config.now from msg idle.old.keys).idle) }
    ensures sent { OnOk result (out.new.items ≡ out.old.items ++ (exited config.now from msg idle.old.keys).mail) }
{
    idle.insert(from)?;
    out.push((config.control(), msg))?;
    Ok(())
}
