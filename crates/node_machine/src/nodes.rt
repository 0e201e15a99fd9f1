//! A node of the machine: a tile, the control server or a local server.

ghost use Rattle.std.specs.Prelude.{◌≡◌, ◌<◌, ◌≤◌, true, IfOk};
ghost use Rattle.sim_base.specs.Numbering.{node_count, server_host};
ghost use Rattle.node_machine.specs.Machine.{can_step, node_step, node_delivered, Acts, start_node, start_server, IsNode};

use control_server::Control;
use elf_image::World;
use local_server::Local;
use sim_base::{Action, NoMemory, NodeId};
use std::alloc::Global;
use tile_node::TileNode;
use wire_msg::{Msg, Out};

/// A node of the machine. Where memory runs out in a step or a delivery the node is spent: that call and all later ones
/// answer `NoMemory`. Its `World` is always that which it was made with.
#[derive(Drop)]
pub enum Node {
    /// One of the tiles, nodes 0 to n - 1.
    Tile { tile: TileNode },
    /// The control server, node n.
    Control { control: Control },
    /// The local server of a host, one of the nodes after it.
    Local { local: Local },
}

impl Node {
    /// The node of this number before the program runs.
    pub fn start(alloc: Global, world: &World, id: NodeId) -> Result<Node, NoMemory>
        requires { id < node_count world.now.config }
        ensures start { IfOk result (λ node. node ≡ start_node world.now id) }
        ensures fits { IfOk result (IsNode world.now id) }
    {
        if (id as u32) < world.config().tiles {
            let tile = TileNode::new(alloc, world, id)?;
            Ok(Node::Tile { tile })
        } else {
            start_server(alloc, world, id)
        }
    }

    /// Whether it can make a step of its own.
    #[inline(always)]
    pub fn can_step(&self) -> bool
        ensures { result ≡ can_step self.now }
    {
        match self {
            Node::Tile { tile } => tile.can_step(),
            Node::Control { control } => control.can_step(),
            Node::Local { .. } => false,
        }
    }

    /// Its step, which it can make. It appends what it sends, with the receivers, and gives the action that this commits,
    /// if it does.
    #[inline(always)]
    pub fn step(
        &mut self,
        alloc: Global,
        world: &World,
        id: NodeId,
        out: &mut Out,
    ) -> Result<Option<Action>, NoMemory>
        requires fits { IsNode world.now id self.old }
        requires can { can_step self.old ≡ true }
        ensures acts { Acts result self.old self.new out.old.items out.new.items (node_step world.now self.old) }
        ensures fits { IsNode world.now id self.new }
    {
        match self {
            Node::Tile { tile } => tile.step(alloc, world, out),
            Node::Control { control } => control.step(alloc, world, out),
            Node::Local { .. } => Ok(None),
        }
    }

    /// It takes a message from a node. It appends what it sends, with the receivers, and gives the action that this
    /// commits, if it does.
    pub fn deliver(
        &mut self,
        alloc: Global,
        world: &World,
        id: NodeId,
        from: NodeId,
        msg: Msg,
        out: &mut Out,
    ) -> Result<Option<Action>, NoMemory>
        requires { IsNode world.now id self.old }
        ensures acts { Acts result self.old self.new out.old.items out.new.items (node_delivered world.now self.old from msg) }
        ensures fits { IsNode world.now id self.new }
    {
        match self {
            Node::Tile { tile } => tile.deliver(alloc, world, from, msg, out),
            Node::Control { control } => control.deliver(alloc, world, from, msg, out),
            Node::Local { local } => {
                local.deliver(world.config(), from, msg, out)?;
                Ok(None)
            }
        }
    }
}

/// The server of this number before the program runs.
fn start_server(alloc: Global, world: &World, id: NodeId) -> Result<Node, NoMemory>
    requires server { world.now.config.tiles ≤ id }
    requires in_range { id < node_count world.now.config }
    ensures start { IfOk result (λ node. node ≡ start_server world.now id) }
    ensures fits { IfOk result (IsNode world.now id) }
{
    let config = world.config();
    if id == config.control() {
        let control = Control::new(alloc, world)?;
        Ok(Node::Control { control })
    } else {
        let local = Local::new(alloc, config, config.host_of(id))?;
        Ok(Node::Local { local })
    }
}
