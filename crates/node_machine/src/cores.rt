//! The machine between two events, and what an event makes of it.

ghost use Rattle.std.specs.Prelude.{◌≡◌, All, IfOk, true, false};
ghost use Rattle.node_machine.specs.declared.cores.ApplyFault.TheVariants.{NoMemory as OutOfMemory};
ghost use Rattle.node_machine.specs.Core.{AreIn, AreParts, core_of, start_core, IsCore, is_enabled_in, Applies, AppliesEnabled};

use crate::making::{count_events, is_full, make, pending_of};
use crate::nodes::Node;
use crate::pending::Pending;
use elf_image::World;
use event_journal::{Event, Journal};
use sim_base::{Action, End, NoMemory, NodeId};
use std::alloc::Global;
use std::marker::Model;
use wire_msg::{Envelope, Out};

/// Why an event wasn't made.
#[derive(Clone, Copy, Debug, PartialEq, Eq)]
pub enum ApplyFault {
    /// It isn't enabled.
    NotEnabled,
    /// Memory ran out.
    NoMemory,
}

impl From<NoMemory> for ApplyFault {
    ghost from_gives = { λ _ e. e ≡ OutOfMemory };

    fn from(_error: NoMemory) -> ApplyFault {
        ApplyFault::NoMemory
    }
}

/// The whole machine between two events: its nodes, the messages that wait from each to each, and how many events each
/// made. Where memory runs out in an event the machine is spent, and each later one answers so too. Its `World` is always
/// that which it was made with.
#[derive(Drop)]
pub struct Core {
    pub(crate) tiles: u32,
    pub(crate) room: u32,
    pub(crate) nodes: Vec<Node>,
    pub(crate) pending: Pending,
    pub(crate) made: Vec<u32>,
    pub(crate) full: bool,
    pub(crate) out: Out,
    pub(crate) spent: bool,
}

impl Model for Core {
    ghost use Rattle.std.specs.Prelude.{◌≡◌, [], map, false};
    ghost use Rattle.node_machine.specs.Core.{CoreData, is_full};
    ghost use Rattle.node_machine.specs.Machine.{can_step};
    ghost use Rattle.std.specs.Coded.{codes};
    ghost use Rattle.dir_slice.specs.Inner.{slice_code};

    ghost Value = { CoreData };

    ghost coded = { Prim.hlevel (codes, slice_code) };

    ghost view = { λ c. record {
      tiles = c.tiles;
      room = c.room;
      nodes = c.nodes.items;
      inboxes = c.pending.inboxes;
      made = c.made.items;
      spent = c.spent;
    } };

    ghost invariant = { λ c.
        (c.full ≡ is_full c.room c.made.items)
        × (c.spent ≡ false → (c.pending.steps ≡ map can_step c.nodes.items) × (c.out.items ≡ [])) };
}

impl Core {
    /// The machine before the program runs: tile 0 runs thread 0, and no message waits.
    pub fn start(alloc: Global, world: &World) -> Result<Core, NoMemory>
        ensures start { IfOk result (λ core. core ≡ start_core world.now) }
        ensures fits { IfOk result (IsCore world.now) }
    {
        let count = world.config().nodes();
        let mut nodes = Vec::with_capacity(alloc, count as usize)?;
        let mut made = Vec::with_capacity(alloc, count as usize)?;
        for id in 0..count {
            nodes.push(Node::start(alloc, world, id as NodeId)?)?;
            made.push(0)?;
        }
        Core::of_parts(alloc, world, nodes, Vec::new(alloc), made)
    }

    /// The machine of these nodes, of messages that wait, each with its sender and its receiver, and of the numbers of
    /// events that the nodes made. Each message joins the end of its list, in order.
    pub fn of_parts(
        alloc: Global,
        world: &World,
        nodes: Vec<Node>,
        waiting: Vec<Envelope>,
        made: Vec<u32>,
    ) -> Result<Core, NoMemory>
        requires parts { AreParts world.now nodes.items made.items }
        requires waiting { All (AreIn world.now) waiting.items }
        ensures core { IfOk result (λ core. core ≡ core_of world.now nodes.items waiting.items made.items) }
        ensures fits { IfOk result (IsCore world.now) }
    {
        let config = world.config();
        let full = is_full(config.events, made.as_slice());
        let pending = pending_of(alloc, nodes.as_slice(), waiting)?;
        Ok(Core {
            tiles: config.tiles,
            room: config.events,
            nodes,
            pending,
            made,
            full,
            out: Vec::new(alloc),
            spent: false,
        })
    }

    /// Makes an event, and gives the action that it commits, if it does. Where the event isn't enabled nothing changes.
    #[inline(never)]
    pub fn apply(
        &mut self,
        alloc: Global,
        world: &World,
        event: Event,
    ) -> Result<Option<Action>, ApplyFault>
        requires { IsCore world.now self.old }
        ensures applies { Applies world.now event result self.old self.new }
        ensures fits { IsCore world.now self.new }
    {
        if self.spent {
            return Err(ApplyFault::NoMemory);
        }
        if !self.is_enabled(event) {
            return Err(ApplyFault::NotEnabled);
        }
        Ok(self.apply_enabled(alloc, world, event)?)
    }

    /// Makes an event that is enabled, and gives the action that it commits, if it does.
    #[inline(always)]
    pub fn apply_enabled(
        &mut self,
        alloc: Global,
        world: &World,
        event: Event,
    ) -> Result<Option<Action>, NoMemory>
        requires fits { IsCore world.now self.old }
        requires not_spent { self.old.spent ≡ false }
        requires enabled { is_enabled_in self.old event ≡ true }
        ensures applies { AppliesEnabled world.now event result self.old self.new }
        ensures fits { IsCore world.now self.new }
    {
        self.spent = true;
        let action = make(
            alloc,
            world,
            event,
            &mut self.nodes,
            &mut self.pending,
            &mut self.out,
        )?;
        count_events(&mut self.made, &mut self.full, event.node(), 1, self.room);
        self.spent = false;
        Ok(action)
    }
}

/// A run: its events, the machine after them, and how it ended.
#[derive(Drop)]
pub struct Ran {
    /// The events, in their order.
    pub journal: Journal,
    /// The machine after the last of them.
    pub core: Core,
    /// The end.
    pub end: End,
}
