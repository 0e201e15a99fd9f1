//! The machine of a world, as the trait of machines wants it.

ghost use Rattle.std.specs.Prelude.{◌≡◌};

use crate::nodes::Node;
use elf_image::World;
use event_journal::Machine;
use sim_base::{NoMemory, NodeId};
use std::alloc::Global;
use wire_msg::{Msg, Out};

/// The machine of a world: what event_journal's runs are runs of. Its methods wait for runs on several threads; nothing calls
/// them yet.
#[derive(Drop)]
pub struct TileMachine<'w> {
    world: &'w World,
}

impl<'w> TileMachine<'w> {
    /// The machine that runs this world's image under its settings.
    pub fn new(world: &'w World) -> TileMachine<'w>
        ensures { result.world.now ≡ world.now }
    {
        TileMachine { world }
    }
}

impl<'w> Machine for TileMachine<'w> {
    ghost use Rattle.node_machine.specs.Machine.{rules, IsNode};

    type Node = Node;

    type Msg = Msg;

    ghost rules = { λ machine. rules machine.world.now };

    ghost fits = { λ machine id node. IsNode machine.world.now id node };

    fn room(&self) -> u32 {
        self.world.config().events
    }

    fn can_step(&self, node: &Node) -> bool {
        node.can_step()
    }

    fn step(
        &self,
        alloc: Global,
        id: NodeId,
        node: &mut Node,
        out: &mut Out,
    ) -> Result<(), NoMemory> {
        node.step(alloc, self.world, id, out)?;
        Ok(())
    }

    fn deliver(
        &self,
        alloc: Global,
        id: NodeId,
        node: &mut Node,
        from: NodeId,
        msg: Msg,
        out: &mut Out,
    ) -> Result<(), NoMemory> {
        node.deliver(alloc, self.world, id, from, msg, out)?;
        Ok(())
    }
}
