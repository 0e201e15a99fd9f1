//! Steps of one node made one after the other, where no message comes between.

ghost use Rattle.std.specs.Prelude.{◌≡◌, ◌<◌, ◌≤◌, ◌+◌, [], true, length, map, slice_index, OnOk};
ghost use Rattle.node_machine.specs.Machine.{can_step, IsNode};
ghost use Rattle.node_machine.specs.Pending.{AreInboxes};
ghost use Rattle.node_machine.specs.Core.{IsCore};
ghost use Rattle.node_machine.specs.Alone.{StepsOn};
ghost use Rattle.node_machine.specs.Inner.{AreNodes, CanStepAt, NodeStepsAtOnce, node_steps_at_once, StepsOnce, NodeStepsOn, HaveStepped};

use crate::cores::{ApplyFault, Core};
use crate::making::{count_events, post};
use crate::nodes::Node;
use crate::pending::Pending;
use elf_image::World;
use event_journal::Event;
use sim_base::{NoMemory, NodeId};
use std::alloc::Global;
use wire_msg::Out;

impl Core {
    /// Makes steps of a node, one after the other, and gives how many: a tile's as long as it can step, may make one more
    /// event, and has sent nothing; of another node one. Where not even one is enabled nothing changes.
    pub fn step_on(&mut self, alloc: Global, world: &World, node: NodeId) -> Result<u32, ApplyFault>
        requires { IsCore world.now self.old }
        ensures steps { StepsOn world.now node result self.old self.new }
        ensures fits { IsCore world.now self.new }
    {
        if self.spent {
            return Err(ApplyFault::NoMemory);
        }
        if !self.is_enabled(Event::Step { node }) {
            return Err(ApplyFault::NotEnabled);
        }
        let most = self.steps_at_once(node);
        self.spent = true;
        let Ok(count) = step_all(
            alloc,
            world,
            node,
            most,
            &mut self.nodes,
            &mut self.pending,
            &mut self.out,
        ) else {
            return Err(ApplyFault::NoMemory);
        };
        count_events(&mut self.made, &mut self.full, node, count, self.room);
        self.spent = false;
        Ok(count)
    }

    /// How many steps of a node, which may make one more event, are made one after the other at most: of a tile as many as
    /// it may make events, of another node one.
    fn steps_at_once(&self, node: NodeId) -> u32
        requires in_range { node < length self.now.made }
        requires room { slice_index self.now.made node < self.now.room }
        ensures tile { node < self.now.tiles → slice_index self.now.made node + result ≡ self.now.room }
        ensures other { self.now.tiles ≤ node → result ≡ 1 }
    {
        if (node as u32) < self.tiles {
            self.room - self.made[node as usize]
        } else {
            1
        }
    }
}

impl Node {
    /// Makes steps one after the other, as long as it can step and has sent nothing, and gives how many.
    fn step_on(
        &mut self,
        alloc: Global,
        world: &World,
        id: NodeId,
        most: u32,
        out: &mut Out,
    ) -> Result<u32, NoMemory>
        requires fits { IsNode world.now id self.old }
        requires can { can_step self.old ≡ true }
        requires some { 0 < most }
        requires none_sent { out.old.items ≡ [] }
        ensures steps { NodeStepsOn world.now most result self.old self.new out.new.items }
        ensures fits { IsNode world.now id self.new }
    {
        for done in 0..most {
            if !self.step_once(alloc, world, id, out)? {
                return Ok(done + 1);
            }
        }
        Ok(most)
    }

    /// Makes one step, and gives whether it can go on: nothing was sent, and it can step again.
    #[inline(always)]
    fn step_once(
        &mut self,
        alloc: Global,
        world: &World,
        id: NodeId,
        out: &mut Out,
    ) -> Result<bool, NoMemory>
        requires fits { IsNode world.now id self.old }
        requires can { can_step self.old ≡ true }
        requires none_sent { out.old.items ≡ [] }
        ensures step { StepsOnce world.now result self.old self.new out.new.items }
        ensures fits { IsNode world.now id self.new }
    {
        if self.step_at_once(world, id) {
            return Ok(true);
        }
        self.step(alloc, world, id, out)?;
        Ok(out.is_empty() && self.can_step())
    }

    /// Makes its step, where it is a tile and that is an instruction that needs nothing but the tile, and gives true. Else
    /// nothing changes.
    #[inline(always)]
    fn step_at_once(&mut self, world: &World, id: NodeId) -> bool
        requires { IsNode world.now id self.old }
        ensures when { result ≡ node_steps_at_once world.now self.old }
        ensures step { NodeStepsAtOnce world.now result self.old self.new }
        ensures fits { IsNode world.now id self.new }
    {
        match self {
            Node::Tile { tile } => tile.step_at_once(world),
            Node::Control { .. } | Node::Local { .. } => false,
        }
    }
}

/// Makes steps of one of the nodes, which can step; what the last one sends joins the lists. The loop is a function of its own
/// in the machine code, with all registers for itself.
#[inline(never)]
fn step_all(
    alloc: Global,
    world: &World,
    id: NodeId,
    most: u32,
    nodes: &mut Vec<Node>,
    pending: &mut Pending,
    out: &mut Out,
) -> Result<u32, NoMemory>
    requires nodes { AreNodes world.now nodes.old.items }
    requires steps { pending.old.steps ≡ map can_step nodes.old.items }
    requires inboxes { AreInboxes (length nodes.old.items) pending.old.inboxes }
    requires none_sent { out.old.items ≡ [] }
    requires can { CanStepAt id nodes.old.items }
    requires some { 0 < most }
    ensures stepped { HaveStepped world.now id most result nodes.old.items nodes.new.items pending.old pending.new }
    ensures nodes { AreNodes world.now nodes.new.items }
    ensures inboxes { AreInboxes (length nodes.old.items) pending.new.inboxes }
    ensures none_sent { OnOk result (out.new.items ≡ []) }
{
    let node = &mut nodes[id as usize];
    let count = node.step_on(alloc, world, id, most, out)?;
    pending.set_step(id, node.can_step());
    post(id, out, pending)?;
    Ok(count)
}
