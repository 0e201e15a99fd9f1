//! How an event is made: the node acts, its messages join their lists, the event is counted.

ghost use Rattle.std.specs.Prelude.{◌≡◌, ◌<◌, ◌≤◌, ◌+◌, [], All, length, map, nat_le, slice_set, slice_index, IfOk, OnOk};
ghost use Rattle.event_journal.specs.Event.{acting_node};
ghost use Rattle.node_machine.specs.Machine.{can_step, IsNode};
ghost use Rattle.node_machine.specs.declared.nodes.Node.TheVariants.{Tile};
ghost use Rattle.node_machine.specs.Pending.{nothing_pending, with_message, with_messages, AreInboxes, first_of, queue_in, rest_of, with_rest};
ghost use Rattle.node_machine.specs.Core.{with_envelopes, is_full};
ghost use Rattle.node_machine.specs.Inner.{AreNodes, HasActed, AreBelow, CanBeMade, CanStep, event_act, taken_act, inboxes_left, HasMade};

use crate::nodes::Node;
use crate::pending::Pending;
use elf_image::World;
use event_journal::Event;
use sim_base::{Action, NoMemory, NodeId};
use std::alloc::Global;
use tile_node::TileNode;
use wire_msg::{Envelope, Msg, Out};

/// Makes an event of one of the nodes, which can make it: the node acts, and what it sends joins the lists.
#[inline(always)]
pub(crate) fn make(
    alloc: Global,
    world: &World,
    event: Event,
    nodes: &mut Vec<Node>,
    pending: &mut Pending,
    out: &mut Out,
) -> Result<Option<Action>, NoMemory>
    requires nodes { AreNodes world.now nodes.old.items }
    requires steps { pending.old.steps ≡ map can_step nodes.old.items }
    requires inboxes { AreInboxes (length nodes.old.items) pending.old.inboxes }
    requires none_sent { out.old.items ≡ [] }
    requires can { CanBeMade event nodes.old.items }
    ensures made { HasMade world.now event result nodes.old.items nodes.new.items pending.old pending.new }
    ensures nodes { AreNodes world.now nodes.new.items }
    ensures inboxes { AreInboxes (length nodes.old.items) pending.new.inboxes }
    ensures none_sent { OnOk result (out.new.items ≡ []) }
{
    let id = event.node();
    let Some(node) = nodes.get_mut(id as usize) else {
        return Ok(None);
    };
    let action = act(alloc, world, event, node, pending, out)?;
    pending.set_step(id, node.can_step());
    post(id, out, pending)?;
    Ok(action)
}

/// The node whose event it is acts: it steps, or takes the first message of the sender.
#[inline(always)]
fn act(
    alloc: Global,
    world: &World,
    event: Event,
    node: &mut Node,
    pending: &mut Pending,
    out: &mut Out,
) -> Result<Option<Action>, NoMemory>
    requires fits { IsNode world.now (acting_node event) node.old }
    requires can { CanStep event node.old }
    ensures acts { HasActed result node.new out.old.items out.new.items (event_act world.now event node.old pending.old.inboxes) }
    ensures fits { IsNode world.now (acting_node event) node.new }
    ensures pending { pending.new ≡ record pending.old { inboxes = inboxes_left event pending.old.inboxes } }
{
    match event {
        Event::Step { node: id } => node.step(alloc, world, id, out),
        Event::Deliver { from, node: id } => {
            if let Node::Tile { tile } = node {
                return hand_over(alloc, world, id, tile, from, pending, out);
            }
            take_first(alloc, world, id, node, from, pending, out)
        }
    }
}

/// A tile takes the first message of a sender, if there is one. The message is lent to it where it waits, since tiles keep no
/// message, and it is only then dropped.
#[inline(always)]
fn hand_over(
    alloc: Global,
    world: &World,
    id: NodeId,
    tile: &mut TileNode,
    from: NodeId,
    pending: &mut Pending,
    out: &mut Out,
) -> Result<Option<Action>, NoMemory>
    requires fits { IsNode world.now id (Tile tile.old) }
    ensures acts { HasActed result (Tile tile.new) out.old.items out.new.items (taken_act world.now (Tile tile.old) from (first_of (queue_in pending.old.inboxes from id))) }
    ensures fits { IsNode world.now id (Tile tile.new) }
    ensures pending { pending.new ≡ record pending.old { inboxes = with_rest from id (rest_of (queue_in pending.old.inboxes from id)) pending.old.inboxes } }
{
    let result = match pending.first(from, id) {
        Some(msg) => tile.deliver_lent(alloc, world, from, msg, out),
        None => Ok(None),
    };
    pending.discard(from, id);
    result
}

/// A node takes the first message of a sender, if there is one. It is a call of its own, since it is for the servers, which
/// make few of the events.
#[inline(never)]
fn take_first(
    alloc: Global,
    world: &World,
    id: NodeId,
    node: &mut Node,
    from: NodeId,
    pending: &mut Pending,
    out: &mut Out,
) -> Result<Option<Action>, NoMemory>
    requires fits { IsNode world.now id node.old }
    ensures acts { HasActed result node.new out.old.items out.new.items (taken_act world.now node.old from (first_of (queue_in pending.old.inboxes from id))) }
    ensures fits { IsNode world.now id node.new }
    ensures pending { pending.new ≡ record pending.old { inboxes = with_rest from id (rest_of (queue_in pending.old.inboxes from id)) pending.old.inboxes } }
{
    match pending.pop(from, id) {
        Some(msg) => node.deliver(alloc, world, id, from, msg, out),
        None => Ok(None),
    }
}

/// What a node has sent joins the lists of its receivers, in order.
#[inline(always)]
pub(crate) fn post(from: NodeId, out: &mut Out, pending: &mut Pending) -> Result<(), NoMemory>
    requires from { from < length pending.old.inboxes }
    requires inboxes { AreInboxes (length pending.old.inboxes) pending.old.inboxes }
    ensures posted { OnOk result (pending.new ≡ record pending.old { inboxes = with_messages from out.old.items pending.old.inboxes }) }
    ensures none_sent { OnOk result (out.new.items ≡ []) }
    ensures inboxes { AreInboxes (length pending.old.inboxes) pending.new.inboxes }
{
    match out.len() {
        0 => Ok(()),
        1 => post_only(from, out, pending),
        _ => post_each(from, out, pending),
    }
}

/// The only message that a node has sent joins the list of its receiver.
fn post_only(from: NodeId, out: &mut Out, pending: &mut Pending) -> Result<(), NoMemory>
    requires from { from < length pending.old.inboxes }
    requires inboxes { AreInboxes (length pending.old.inboxes) pending.old.inboxes }
    requires only { length out.old.items ≡ 1 }
    ensures posted { OnOk result (pending.new ≡ record pending.old { inboxes = with_messages from out.old.items pending.old.inboxes }) }
    ensures none_sent { OnOk result (out.new.items ≡ []) }
    ensures inboxes { AreInboxes (length pending.old.inboxes) pending.new.inboxes }
{
    if let Some((to, msg)) = out.pop() {
        post_one(from, to, msg, pending)?;
    }
    Ok(())
}

/// The messages that a node has sent join the lists of their receivers, in order.
fn post_each(from: NodeId, out: &mut Out, pending: &mut Pending) -> Result<(), NoMemory>
    requires from { from < length pending.old.inboxes }
    requires inboxes { AreInboxes (length pending.old.inboxes) pending.old.inboxes }
    ensures posted { OnOk result (pending.new ≡ record pending.old { inboxes = with_messages from out.old.items pending.old.inboxes }) }
    ensures none_sent { OnOk result (out.new.items ≡ []) }
    ensures inboxes { AreInboxes (length pending.old.inboxes) pending.new.inboxes }
{
    for (to, msg) in out.drain(..) {
        post_one(from, to, msg, pending)?;
    }
    Ok(())
}

/// A message from a node joins its list. One for a node that isn't there is dropped.
#[inline(always)]
fn post_one(from: NodeId, to: NodeId, msg: Msg, pending: &mut Pending) -> Result<(), NoMemory>
    requires from { from < length pending.old.inboxes }
    requires inboxes { AreInboxes (length pending.old.inboxes) pending.old.inboxes }
    ensures posted { OnOk result (pending.new ≡ record pending.old { inboxes = with_message from to msg pending.old.inboxes }) }
    ensures length { length pending.new.inboxes ≡ length pending.old.inboxes }
    ensures inboxes { AreInboxes (length pending.old.inboxes) pending.new.inboxes }
{
    if (to as usize) < pending.nodes() {
        pending.push(from, to, msg)?;
    }
    Ok(())
}

/// A node, which may make so many more events, has made them. It is noted whether some node may make none after them.
#[tactic(auto, using(crate::proofs::MakeLemmas::full_set))]
pub(crate) fn count_events(made: &mut Vec<u32>, full: &mut bool, id: NodeId, more: u32, room: u32)
    requires in_range { id < length made.old.items }
    requires below { slice_index made.old.items id < room }
    requires room { slice_index made.old.items id + more ≤ room }
    requires full { full.old ≡ is_full room made.old.items }
    ensures made { made.new.items ≡ slice_set made.old.items id (slice_index made.old.items id + more) }
    ensures full { full.new ≡ is_full room made.new.items }
{
    let count = &mut made[id as usize];
    *count += more;
    if room <= *count {
        *full = true;
    }
}

/// Whether some node has made as many events as each may.
pub(crate) fn is_full(room: u32, made: &[u32]) -> bool
    ensures { result ≡ is_full room made.now }
{
    made.iter().any(|count| room <= *count)
}

/// What is pending at these nodes: which can step, and these messages.
pub(crate) fn pending_of(
    alloc: Global,
    nodes: &[Node],
    waiting: Vec<Envelope>,
) -> Result<Pending, NoMemory>
    requires few { length nodes.now ≤ 256 }
    requires waiting { All (AreBelow (length nodes.now)) waiting.items }
    ensures inboxes { IfOk result (λ pending. pending.inboxes ≡ with_envelopes waiting.items (nothing_pending (length nodes.now)).inboxes) }
    ensures boxes { IfOk result (λ pending. AreInboxes (length nodes.now) pending.inboxes) }
    ensures steps { IfOk result (λ pending. pending.steps ≡ map can_step nodes.now) }
{
    let mut pending = Pending::new(alloc, nodes.len())?;
    note_steps(nodes, &mut pending);
    post_all(waiting, &mut pending)?;
    Ok(pending)
}

/// Notes of each node whether it can step.
fn note_steps(nodes: &[Node], pending: &mut Pending)
    requires length { length pending.old.steps ≡ length nodes.now }
    requires few { length nodes.now ≤ 256 }
    ensures { pending.new ≡ record pending.old { steps = map can_step nodes.now } }
{
    for (id, node) in nodes.iter().enumerate() {
        pending.set_step(id as NodeId, node.can_step());
    }
}

/// Messages that wait, each with its sender and its receiver, join their lists, in order.
fn post_all(waiting: Vec<Envelope>, pending: &mut Pending) -> Result<(), NoMemory>
    requires senders { All (AreBelow (length pending.old.inboxes)) waiting.items }
    requires inboxes { AreInboxes (length pending.old.inboxes) pending.old.inboxes }
    ensures posted { OnOk result (pending.new ≡ record pending.old { inboxes = with_envelopes waiting.items pending.old.inboxes }) }
    ensures inboxes { AreInboxes (length pending.old.inboxes) pending.new.inboxes }
{
    for Envelope { from, to, msg, .. } in waiting {
        post_one(from, to, msg, pending)?;
    }
    Ok(())
}
