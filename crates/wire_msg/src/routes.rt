//! Which message may go from which node to which.

ghost use Rattle.std.specs.Prelude.{◌≡◌};
ghost use Rattle.sim_base.specs.Settings.{IsChecked};
ghost use Rattle.wire_msg.specs.Message.{tile, control, local, has_role, is_reader, goes_in_host, may_send};

use crate::messages::Msg;
use sim_base::{Config, NodeId};

impl Msg {
    /// Whether a node may send this message to another, by what the two do in the machine. A node that is sent
    /// any other message drops it. Wants settings that pass [`Config::check`]; a number that no node has will
    /// do, and sends and receives nothing. The rules are this simulator's own, after Graphite (HPCA 2010).
    pub fn may_go(&self, config: &Config, from: NodeId, to: NodeId) -> bool
        requires { IsChecked config.now }
        ensures { result ≡ may_send config.now from to self.now }
    {
        match self {
            Msg::GetS { line }
            | Msg::GetM { line }
            | Msg::PutM { line, .. }
            | Msg::InvAck { line }
            | Msg::FetchAck { line, .. } => is_reader(config, from) && to == config.home(*line),
            Msg::DataS { .. } | Msg::Inv { .. } => is_tile(config, from) && is_reader(config, to),
            Msg::DataM { .. }
            | Msg::Fetch { .. }
            | Msg::FetchInv { .. }
            | Msg::Probe
            | Msg::ProbeReply { .. } => is_tile(config, from) && is_tile(config, to),
            Msg::Call { .. } | Msg::Trapped { .. } | Msg::Reached { .. } => {
                is_tile(config, from) && is_control(config, to)
            }
            Msg::Return { .. } | Msg::Limit { .. } => {
                is_control(config, from) && is_tile(config, to)
            }
            Msg::Start { .. } => {
                is_control(config, from) && is_local(config, to) || goes_down(config, from, to)
            }
            Msg::Exit { .. } => {
                goes_up(config, from, to) || is_local(config, from) && is_control(config, to)
            }
        }
    }
}

/// Whether a node is a tile, which runs threads and is home to lines.
fn is_tile(config: &Config, node: NodeId) -> bool
    ensures { result ≡ has_role config.now tile node }
{
    (node as u32) < config.tiles
}

/// Whether a node is the control server, which serves the whole program.
fn is_control(config: &Config, node: NodeId) -> bool
    requires { IsChecked config.now }
    ensures { result ≡ has_role config.now control node }
{
    node == config.control()
}

/// Whether a node is the local server of a host.
fn is_local(config: &Config, node: NodeId) -> bool
    requires { IsChecked config.now }
    ensures { result ≡ has_role config.now local node }
{
    config.control() < node && (node as u32) < config.nodes()
}

/// Whether a node may have lines to read.
fn is_reader(config: &Config, node: NodeId) -> bool
    requires { IsChecked config.now }
    ensures { result ≡ is_reader config.now node }
{
    is_tile(config, node) || is_control(config, node)
}

/// Whether a message goes from a tile to the local server of its host.
fn goes_up(config: &Config, from: NodeId, to: NodeId) -> bool
    requires { IsChecked config.now }
    ensures { result ≡ goes_in_host config.now tile local from to }
{
    is_tile(config, from) && is_local(config, to) && config.host_of(from) == config.host_of(to)
}

/// Whether a message goes from a local server to a tile of its host.
fn goes_down(config: &Config, from: NodeId, to: NodeId) -> bool
    requires { IsChecked config.now }
    ensures { result ≡ goes_in_host config.now local tile from to }
{
    is_local(config, from) && is_tile(config, to) && config.host_of(from) == config.host_of(to)
}
