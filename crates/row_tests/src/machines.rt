//! A machine of two nodes that pass a number on, run through the trait of machines.

ghost use Rattle.std.specs.Prelude.{◌≡◌, ◌≤◌, ◌-◌, ◌∷◌, [], ℕ, true, false, IfOk, OnOk};

use event_journal::Machine;
use sim_base::{NoMemory, NodeId};
use std::alloc::Global;

/// A node that may hold a number.
#[derive(Drop)]
struct Holder {
    number: u8,
    holds: bool,
}

/// Two nodes, 0 and 1, that pass a number to and fro.
#[derive(Drop)]
struct Passing {
    room: u32,
}

impl Machine for Passing {
    type Node = Holder;

    type Msg = u8;

    ghost rules = { λ passing. record {
      room = passing.room;
      can_step = λ node. node.holds;
      step = λ id node. record { node = record node { holds = false }; sent = (1 - id, node.number) ∷ [] };
      deliver = λ id node from number. record { node = record { number = number; holds = true }; sent = [] };
    } };

    ghost fits = { λ passing id node. id ≤ 1 };

    fn room(&self) -> u32 {
        self.room
    }

    fn can_step(&self, node: &Holder) -> bool {
        node.holds
    }

    fn step(
        &self,
        _alloc: Global,
        id: NodeId,
        node: &mut Holder,
        out: &mut Vec<(NodeId, u8)>,
    ) -> Result<(), NoMemory> {
        node.holds = false;
        out.push((1 - id, node.number))?;
        Ok(())
    }

    fn deliver(
        &self,
        _alloc: Global,
        _id: NodeId,
        node: &mut Holder,
        _from: NodeId,
        msg: u8,
        _out: &mut Vec<(NodeId, u8)>,
    ) -> Result<(), NoMemory> {
        *node = Holder {
            number: msg,
            holds: true,
        };
        Ok(())
    }
}

/// Makes a step of a machine's node, if it can make one and may make any; answers whether it did.
fn stepped<M: Machine>(
    alloc: Global,
    machine: &M,
    id: NodeId,
    node: &mut M::Node,
    out: &mut Vec<(NodeId, M::Msg)>,
) -> Result<bool, NoMemory>
    requires { M.fits machine.now id node.old }
    ensures { OnOk result (M.fits machine.now id node.new) }
{
    if machine.room() == 0 || !machine.can_step(node) {
        return Ok(false);
    }
    machine.step(alloc, id, node, out)?;
    Ok(true)
}

/// Gives a machine's node a message.
fn given<M: Machine>(
    alloc: Global,
    machine: &M,
    id: NodeId,
    node: &mut M::Node,
    msg: M::Msg,
    out: &mut Vec<(NodeId, M::Msg)>,
) -> Result<(), NoMemory>
    requires { M.fits machine.now id node.old }
    ensures { OnOk result (M.fits machine.now id node.new) }
{
    machine.deliver(alloc, id, node, 0, msg, out)
}

/// Node 0 passes its number to node 1: whether it did, and node 1 alone has the number then.
fn is_passed(alloc: Global) -> Result<bool, NoMemory> {
    let machine = Passing { room: 1 };
    let mut first = Holder {
        number: 42,
        holds: true,
    };
    let mut second = Holder {
        number: 0,
        holds: false,
    };
    let mut out = Vec::new(alloc);
    let is_made = stepped(alloc, &machine, 0, &mut first, &mut out)?;
    let mut answers = Vec::new(alloc);
    given(alloc, &machine, 1, &mut second, 42, &mut answers)?;
    let is_sent = out.as_slice() == [(1u8, 42u8)].as_slice() && answers.is_empty();
    Ok(is_made && is_sent && !first.holds && second.holds && second.number == 42)
}

#[test]
fn two_nodes_pass_a_number_on(rt: HostRuntime) {
    let is_passed = is_passed(rt.alloc()).unwrap_or(false);
    assert!(rt; is_passed, "a step and a delivery");
}
