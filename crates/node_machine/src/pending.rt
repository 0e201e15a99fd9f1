//! What can happen next: the messages that wait for each node, and which nodes can step.

ghost use Rattle.std.specs.Prelude.{◌≡◌, ◌<◌, ◌++◌, ◌∷◌, [], not, length, replicate, position, remove, is_some, Some, slice_get, slice_set, slice_index_or, IfOk, OnOk, OnErr, false, if◌then◌else◌};
ghost use Rattle.std.specs.Option.{option_copied, option_map};
ghost use Rattle.event_journal.specs.State.{is_empty};
ghost use Rattle.node_set.specs.NodeSet.{with_node, without};
ghost use Rattle.node_machine.specs.Pending.{queue_from, senders_in, with_queue_from, inbox_of, queue_in, can_act_in, acting_in, nothing_pending, with_message, first_of, rest_of, with_rest};
ghost use Rattle.node_machine.specs.Mailbox.{is_from};

use node_set::NodeSet;
use sim_base::{NoMemory, NodeId};
use std::alloc::Global;
use std::marker::Model;
use wire_msg::Msg;

/// A message that waits, with its sender.
#[derive(Drop)]
struct Mail {
    from: NodeId,
    msg: Msg,
}

/// The messages that wait for one node, in the order in which they came. Contracts see them as a list for each sender.
#[derive(Drop)]
pub(crate) struct Inbox {
    count: usize,
    mail: Vec<Mail>,
    senders: NodeSet,
}

impl Model for Inbox {
    ghost use Rattle.node_machine.specs.Pending.{Inbox};
    ghost use Rattle.node_machine.specs.Mailbox.{lists_from, IsMailbox};

    ghost Value = { Inbox };

    ghost view = { λ i. lists_from i.mail.items i.count };

    ghost invariant = { λ i. IsMailbox i.count i.mail.items i.senders };
}

impl Inbox {
    /// No message waits from any of so many senders.
    pub(crate) fn new(alloc: Global, count: usize) -> Result<Inbox, NoMemory>
        ensures { IfOk result (λ inbox. inbox ≡ replicate count []) }
    {
        let mail = Vec::new(alloc);
        let senders = NodeSet::new();
        Ok(Inbox {
            count,
            mail,
            senders,
        })
    }

    /// A message from a sender, who is one of them, waits behind the others. Where memory runs out nothing changes.
    #[inline(always)]
    pub(crate) fn push(&mut self, from: NodeId, msg: Msg) -> Result<(), NoMemory>
        requires { from < length self.old }
        ensures ok { OnOk result (self.new ≡ with_queue_from self.old from (queue_from self.old from ++ msg ∷ [])) }
        ensures err { OnErr result (self.new ≡ self.old) }
    {
        self.mail.push(Mail { from, msg })?;
        self.senders.insert(from);
        Ok(())
    }

    /// Lends the first message of a sender, where one waits.
    #[inline]
    pub(crate) fn first(&self, from: NodeId) -> Option<&Msg>
        ensures { option_copied result ≡ first_of (queue_from self.now from) }
    {
        let place = first_place(&self.mail, from)?;
        Some(&self.mail[place].msg)
    }

    /// Takes the first message of a sender, where one waits.
    #[inline(always)]
    pub(crate) fn pop(&mut self, from: NodeId) -> Option<Msg>
        ensures message { result ≡ first_of (queue_from self.old from) }
        ensures rest { self.new ≡ with_queue_from self.old from (rest_of (queue_from self.old from)) }
    {
        let place = first_place(&self.mail, from)?;
        leave_unless(&mut self.senders, &self.mail[place + 1..], from);
        take_at(&mut self.mail, place)
    }

    /// Drops the first message of a sender, where one waits.
    #[inline(always)]
    pub(crate) fn discard(&mut self, from: NodeId)
        ensures { self.new ≡ with_queue_from self.old from (rest_of (queue_from self.old from)) }
    {
        match first_place(&self.mail, from) {
            Some(place) => {
                leave_unless(&mut self.senders, &self.mail[place + 1..], from);
                drop_at(&mut self.mail, place);
            }
            None => {}
        }
    }

    /// Whether a message of a sender waits.
    #[inline]
    pub(crate) fn has(&self, from: NodeId) -> bool
        ensures { result ≡ not (is_empty (queue_from self.now from)) }
    {
        self.senders.contains(from)
    }

    /// The senders from whom a message waits, in ascending order.
    #[inline]
    pub(crate) fn senders(&self) -> &NodeSet
        ensures { result.now ≡ senders_in self.now }
    {
        &self.senders
    }
}

/// What is pending in a machine: the messages that wait for each node, and which nodes can step. It keeps which nodes can
/// act, so that no event has to look at all of them, and an empty set, to lend for a node that isn't there.
#[derive(Drop)]
pub(crate) struct Pending {
    inboxes: Vec<Inbox>,
    steps: Vec<bool>,
    acting: NodeSet,
    no_senders: NodeSet,
}

impl Model for Pending {
    ghost use Rattle.node_machine.specs.Pending.{PendingData};
    ghost use Rattle.node_machine.specs.Mailbox.{IsNoted};

    ghost Value = { PendingData };

    ghost view = { λ p. record { inboxes = p.inboxes.items; steps = p.steps.items } };

    ghost invariant = { λ p. IsNoted (record { inboxes = p.inboxes.items; steps = p.steps.items }) p.acting p.no_senders };
}

impl Pending {
    /// So many nodes, none of which can step, and no message that waits.
    pub(crate) fn new(alloc: Global, count: usize) -> Result<Pending, NoMemory>
        ensures { IfOk result (λ pending. pending ≡ nothing_pending count) }
    {
        let mut inboxes = Vec::with_capacity(alloc, count)?;
        let mut steps = Vec::with_capacity(alloc, count)?;
        for _ in 0..count {
            inboxes.push(Inbox::new(alloc, count)?)?;
            steps.push(false)?;
        }
        let acting = NodeSet::new();
        let no_senders = NodeSet::new();
        Ok(Pending {
            inboxes,
            steps,
            acting,
            no_senders,
        })
    }

    /// How many nodes there are.
    #[inline]
    pub(crate) fn nodes(&self) -> usize
        ensures { result ≡ length self.now.inboxes }
    {
        self.inboxes.len()
    }

    /// Notes whether a node can step.
    #[inline]
    pub(crate) fn set_step(&mut self, node: NodeId, can: bool)
        ensures { self.new ≡ record self.old { steps = slice_set self.old.steps node can } }
    {
        if can_step(&self.steps, node) == can {
            return;
        }
        self.change_step(node, can);
    }

    /// Notes of a node whether it can step, and so whether it can act.
    fn change_step(&mut self, node: NodeId, can: bool)
        ensures { self.new ≡ record self.old { steps = slice_set self.old.steps node can } }
    {
        note_step(&mut self.steps, node, can);
        let acts = can_act(&self.inboxes, &self.steps, node);
        put(&mut self.acting, node, acts);
    }

    /// Whether a node is noted as one that can step.
    #[inline]
    pub(crate) fn can_step(&self, node: NodeId) -> bool
        ensures { result ≡ slice_index_or self.now.steps node false }
    {
        can_step(&self.steps, node)
    }

    /// A message from a node, to another, waits behind those that wait there. Where memory runs out nothing changes.
    #[inline(always)]
    pub(crate) fn push(&mut self, from: NodeId, to: NodeId, msg: Msg) -> Result<(), NoMemory>
        requires { from < length (inbox_of self.old.inboxes to) }
        ensures ok { OnOk result (self.new ≡ record self.old { inboxes = with_message from to msg self.old.inboxes }) }
        ensures err { OnErr result (self.new ≡ self.old) }
    {
        self.inboxes[to as usize].push(from, msg)?;
        self.acting.insert(to);
        Ok(())
    }

    /// Lends the first message from a node to another, where one waits.
    #[inline]
    pub(crate) fn first(&self, from: NodeId, to: NodeId) -> Option<&Msg>
        ensures { option_copied result ≡ first_of (queue_in self.now.inboxes from to) }
    {
        self.inboxes.get(to as usize)?.first(from)
    }

    /// Takes the first message from a node to another, where one waits. With it gone the other may no longer be able to act.
    pub(crate) fn pop(&mut self, from: NodeId, to: NodeId) -> Option<Msg>
        ensures message { result ≡ first_of (queue_in self.old.inboxes from to) }
        ensures rest { self.new ≡ record self.old { inboxes = with_rest from to (rest_of (queue_in self.old.inboxes from to)) self.old.inboxes } }
    {
        let msg = self.inboxes.get_mut(to as usize)?.pop(from);
        if !can_act(&self.inboxes, &self.steps, to) {
            self.acting.remove(to);
        }
        msg
    }

    /// Drops the first message from a node to another, where one waits. With it gone the other may no longer be able to act.
    #[inline(always)]
    pub(crate) fn discard(&mut self, from: NodeId, to: NodeId)
        ensures { self.new ≡ record self.old { inboxes = with_rest from to (rest_of (queue_in self.old.inboxes from to)) self.old.inboxes } }
    {
        let Some(inbox) = self.inboxes.get_mut(to as usize) else {
            return;
        };
        inbox.discard(from);
        if !can_act(&self.inboxes, &self.steps, to) {
            self.acting.remove(to);
        }
    }

    /// Whether a message from a node to another waits.
    #[inline]
    pub(crate) fn has(&self, from: NodeId, to: NodeId) -> bool
        ensures { result ≡ not (is_empty (queue_in self.now.inboxes from to)) }
    {
        match self.inboxes.get(to as usize) {
            Some(inbox) => inbox.has(from),
            None => false,
        }
    }

    /// The nodes that can act, in ascending order.
    #[inline]
    pub(crate) fn acting(&self) -> &NodeSet
        ensures { result.now ≡ acting_in self.now }
    {
        &self.acting
    }

    /// The senders from whom a message waits for a node, in ascending order.
    #[inline]
    pub(crate) fn senders(&self, node: NodeId) -> &NodeSet
        ensures { result.now ≡ senders_in (inbox_of self.now.inboxes node) }
    {
        match self.inboxes.get(node as usize) {
            Some(inbox) => inbox.senders(),
            None => self.nobody(),
        }
    }

    /// The empty set, lent. It is a call of its own, so that no event pays for it.
    #[inline(never)]
    fn nobody(&self) -> &NodeSet
        ensures { result.now ≡ [] }
    {
        &self.no_senders
    }
}

/// The place of a sender's first message.
#[inline]
fn first_place(mail: &[Mail], from: NodeId) -> Option<usize>
    ensures { result ≡ position (is_from from) mail.now }
{
    mail.iter().position(|one| one.from == from)
}

/// Takes a sender out of a set, unless one of these messages is from it.
#[inline(always)]
fn leave_unless(senders: &mut NodeSet, mail: &[Mail], from: NodeId)
    ensures { senders.new ≡ (if is_some (position (is_from from) mail.now) then senders.old else without from senders.old) }
{
    if first_place(mail, from).is_none() {
        senders.remove(from);
    }
}

/// Takes the message at a place. Nearly always it is the last one, behind which none has to move.
#[inline]
fn take_at(mail: &mut Vec<Mail>, place: usize) -> Option<Msg>
    requires { place < length mail.old.items }
    ensures message { result ≡ option_map (λ one. one.msg) (slice_get mail.old.items place) }
    ensures rest { mail.new.items ≡ remove mail.old.items place }
{
    if place + 1 < mail.len() {
        return Some(take_before_others(mail, place));
    }
    let Mail { msg, .. } = mail.pop()?;
    Some(msg)
}

/// Takes the message at a place, and moves those behind it one place up.
#[inline(never)]
fn take_before_others(mail: &mut Vec<Mail>, place: usize) -> Msg
    requires { place < length mail.old.items }
    ensures message { Some result ≡ option_map (λ one. one.msg) (slice_get mail.old.items place) }
    ensures rest { mail.new.items ≡ remove mail.old.items place }
{
    let Mail { msg, .. } = mail.remove(place);
    msg
}

/// Drops the message at a place. Nearly always it is the last one, behind which none has to move.
#[inline(always)]
fn drop_at(mail: &mut Vec<Mail>, place: usize)
    requires { place < length mail.old.items }
    ensures { mail.new.items ≡ remove mail.old.items place }
{
    if place + 1 < mail.len() {
        drop_before_others(mail, place);
    } else {
        let _ = mail.pop();
    }
}

/// Drops the message at a place, and moves those behind it one place up.
#[inline(never)]
fn drop_before_others(mail: &mut Vec<Mail>, place: usize)
    requires { place < length mail.old.items }
    ensures { mail.new.items ≡ remove mail.old.items place }
{
    let _ = mail.remove(place);
}

/// Puts a node into a set, or takes it out.
fn put(nodes: &mut NodeSet, node: NodeId, is_in: bool)
    ensures { nodes.new ≡ (if is_in then with_node node nodes.old else without node nodes.old) }
{
    if is_in {
        nodes.insert(node);
    } else {
        nodes.remove(node);
    }
}

/// Notes whether a node, where it is one of them, can step.
fn note_step(steps: &mut Vec<bool>, node: NodeId, can: bool)
    ensures { steps.new.items ≡ slice_set steps.old.items node can }
{
    if let Some(step) = steps.get_mut(node as usize) {
        *step = can;
    }
}

/// Whether a node is noted as one that can step.
#[inline]
fn can_step(steps: &Vec<bool>, node: NodeId) -> bool
    ensures { result ≡ slice_index_or steps.now.items node false }
{
    match steps.get(node as usize) {
        Some(step) => *step,
        None => false,
    }
}

/// Whether a message waits for a node.
#[inline]
fn is_awaited(inboxes: &Vec<Inbox>, node: NodeId) -> bool
    ensures { result ≡ not (is_empty (senders_in (inbox_of inboxes.now.items node))) }
{
    match inboxes.get(node as usize) {
        Some(inbox) => !inbox.senders().is_empty(),
        None => false,
    }
}

/// Whether a node can act: it can step, or a message waits for it.
#[inline]
fn can_act(inboxes: &Vec<Inbox>, steps: &Vec<bool>, node: NodeId) -> bool
    ensures { result ≡ can_act_in (record { inboxes = inboxes.now.items; steps = steps.now.items }) node }
{
    can_step(steps, node) || is_awaited(inboxes, node)
}
