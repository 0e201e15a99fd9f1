//! The numbers of nodes: tiles, servers, hosts, and the home of each line.

ghost use Rattle.std.specs.Prelude.{◌≡◌, ◌<◌, ◌≤◌};
ghost use Rattle.sim_base.specs.Numbering.{node_count, control_node, local_node, server_host, host_of, home_of, place_of};
ghost use Rattle.sim_base.specs.Settings.{IsChecked};

use crate::actions::NodeId;
use crate::lines::Line;
use crate::settings::Config;

/// The numbers of the nodes, and where they stand. Each call wants settings that pass [`Config::check`]. The
/// rules are this simulator's own, after Graphite (HPCA 2010).
#[tactic(auto, using(crate::proofs::CheckedSettings::node_bounds))]
impl Config {
    /// How many nodes there are: the tiles, the control server, and a local server of each host.
    pub fn nodes(&self) -> u32
        requires { IsChecked self.now }
        ensures count { result ≡ node_count self.now }
        ensures few { result ≤ 73 }
    {
        self.tiles + 1 + self.hosts
    }

    /// The control server: the node after the tiles.
    pub fn control(&self) -> NodeId
        requires { IsChecked self.now }
        ensures { result ≡ control_node self.now }
    {
        self.tiles as NodeId
    }

    /// The local server of a host: those of all hosts come after the control server.
    pub fn local(&self, host: u32) -> NodeId
        requires checked { IsChecked self.now }
        requires in_range { host < self.now.hosts }
        ensures { result ≡ local_node self.now host }
    {
        (self.tiles + 1 + host) as NodeId
    }

    /// The host that owns a node. The tiles go round the hosts, the control server is of host 0, and each
    /// local server is of its own host.
    pub fn host_of(&self, node: NodeId) -> u32
        requires checked { IsChecked self.now }
        requires in_range { node < node_count self.now }
        ensures host { result ≡ host_of self.now node }
        ensures in_range { result < self.now.hosts }
    {
        if (node as u32) < self.tiles {
            node as u32 % self.hosts
        } else {
            self.server_host(node)
        }
    }

    /// The tile that is home to a line. The lines go round the tiles.
    pub fn home(&self, line: Line) -> NodeId
        requires { IsChecked self.now }
        ensures home { result ≡ home_of self.now line }
        ensures in_range { result < self.now.tiles }
    {
        let tile = match self.tiles {
            1 => 0,
            2 => line % 2,
            4 => line % 4,
            8 => line % 8,
            16 => line % 16,
            32 => line % 32,
            64 => line % 64,
            tiles => line % u64::from(tiles),
        };
        tile as NodeId
    }

    /// The tile at whose place a node stands: a tile at its own, the control server at tile 0's, and the
    /// local server of host `k` at tile `k`'s.
    pub fn place_of(&self, node: NodeId) -> NodeId
        requires checked { IsChecked self.now }
        requires in_range { node < node_count self.now }
        ensures place { result ≡ place_of self.now node }
        ensures in_range { result < self.now.tiles }
    {
        if (node as u32) < self.tiles {
            node
        } else {
            self.server_host(node) as NodeId
        }
    }

    /// The host of a server: the control server is of host 0, and each local server of its own host.
    fn server_host(&self, node: NodeId) -> u32
        requires checked { IsChecked self.now }
        requires is_server { self.now.tiles ≤ node }
        requires in_range { node < node_count self.now }
        ensures host { result ≡ server_host self.now node }
        ensures in_range { result < self.now.hosts }
    {
        if node == self.control() {
            0
        } else {
            node as u32 - (self.tiles + 1)
        }
    }
}
