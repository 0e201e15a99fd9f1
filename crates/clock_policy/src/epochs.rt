//! Epochs under the barrier: which threads are active, who reached the limit, and when the next begins.

ghost use Rattle.std.specs.Prelude.{◌≡◌, ◌≤◌, ◌<◌, ◌+◌, ◌*◌, [], ◌∷◌, ◌++◌, map, length, slice_get, vec_len, IfOk, OnOk, OnErr, IsOk};
ghost use Rattle.std.specs.Vec.{vec_capacity};
ghost use Rattle.std.specs.List.{filter_map, list_all};
ghost use Rattle.sim_base.specs.Saturated.{saturated};
ghost use Rattle.clock_policy.specs.Members.{with_member, without_member, reported, renewed, has_reached, standing};
ghost use Rattle.clock_policy.specs.Inner.{member_place, is_at};
ghost use Rattle.clock_policy.specs.Epoch.{start_epoch, limit_of, next_epoch, limit_sent, is_raised, advanced_by, announced_by, Advances};

use crate::members::Member;
use sim_base::{Config, NoMemory, NodeId};
use std::alloc::Global;
use std::marker::Model;
use wire_msg::{Msg, Out};

/// The epoch of a run under `LaxBarrier`: its number, and which threads are active and have reached its limit. Limits
/// are in cycles of the tiles' clocks.
#[derive(Drop)]
pub struct Epochs {
    quantum: u64,
    number: u64,
    members: Vec<Member>,
}

impl Model for Epochs {
    ghost use Rattle.clock_policy.specs.Inner.{member_place, is_at};
    ghost use Rattle.clock_policy.specs.Epoch.{Epoch};

    ghost Value = { Epoch };

    ghost view = { λ e. record { quantum = e.quantum; number = e.number; members = e.members.items } };
}

impl Epochs {
    /// Epoch 0, with thread 0 active. A limit comes after each quantum of the settings.
    pub fn new(alloc: Global, config: &Config) -> Result<Epochs, NoMemory>
        ensures { IfOk result (λ epochs. epochs ≡ start_epoch config.now.quantum) }
    {
        let mut members = Vec::new(alloc);
        members.push(Member::unreached(0))?;
        Ok(Epochs {
            quantum: config.quantum,
            number: 0,
            members,
        })
    }

    /// The clock at which the threads of the epoch stop: the quantum times the epoch's number and one, or 2^64 - 1 where
    /// that is less.
    pub fn limit(&self) -> u64
        ensures { result ≡ limit_of self.now }
    {
        limit_at(self.number, self.quantum)
    }

    /// A thread is active from now on, and hasn't reached the limit. Where it is active already, or where memory runs
    /// out, nothing changes.
    pub fn join(&mut self, thread: u32) -> Result<(), NoMemory>
        ensures ok { OnOk result (self.new ≡ record self.old { members = with_member thread self.old.members }) }
        ensures err { OnErr result (self.new ≡ self.old) }
    {
        enter(&mut self.members, thread)
    }

    /// A thread isn't active any more.
    pub fn leave(&mut self, thread: u32)
        ensures { self.new ≡ record self.old { members = without_member thread self.old.members } }
    {
        remove(&mut self.members, thread);
    }

    /// An active thread reports from a tile that it has reached the limit. The last report of an epoch counts. Where
    /// the thread isn't active, nothing changes.
    pub fn reached(&mut self, thread: u32, tile: NodeId)
        ensures { self.new ≡ record self.old { members = reported thread tile self.old.members } }
    {
        report(&mut self.members, thread, tile);
    }

    /// Where some thread is active and all active ones have reached the limit, the next epoch begins, and the tile from
    /// which each reported is told its limit, in ascending order of threads; the answer is true. Else nothing changes.
    /// Where memory runs out, nothing changes either, and nothing is sent.
    pub fn advance(&mut self, out: &mut Out) -> Result<bool, NoMemory>
        ensures advances { IfOk result (λ raised. Advances self.old raised self.new out.old.items out.new.items) }
        ensures raised { IfOk result (λ raised. raised ≡ is_raised (standing self.old.members)) }
        ensures epoch { OnOk result (self.new ≡ advanced_by (standing self.old.members) self.old) }
        ensures sent { OnOk result (out.new.items ≡ out.old.items ++ announced_by (standing self.old.members) self.old) }
        ensures err { OnErr result (self.new ≡ self.old) }
        ensures err_out { OnErr result (out.new.items ≡ out.old.items) }
    {
        if !self.is_met() {
            return Ok(false);
        }
        let number = self.number.saturating_add(1);
        send_limits(&self.members, limit_at(number, self.quantum), out)?;
        self.number = number;
        renew(&mut self.members);
        Ok(true)
    }

    /// Whether some thread is active and all active ones have reached the limit.
    #[tactic(auto, using(crate::proofs::MemberLists::is_raised_standing))]
    fn is_met(&self) -> bool
        ensures { result ≡ is_raised (standing self.now.members) }
    {
        !self.members.is_empty() && have_all_reached(&self.members)
    }
}

/// The limit of the epoch of a number.
fn limit_at(number: u64, quantum: u64) -> u64
    ensures { result ≡ saturated ((number + 1) * quantum) }
{
    number.saturating_add(1).saturating_mul(quantum)
}

/// Tells a limit to the tiles from which threads reported, in their order. Where memory runs out, nothing is sent.
fn send_limits(members: &[Member], limit: u64, out: &mut Out) -> Result<(), NoMemory>
    ensures ok { OnOk result (out.new.items ≡ out.old.items ++ filter_map (limit_sent limit) members.now) }
    ensures err { OnErr result (out.new.items ≡ out.old.items) }
{
    out.reserve(members.len())?;
    for member in members {
        send_limit(*member, limit, out)?;
    }
    Ok(())
}

/// Tells a limit to the tile from which a thread reported, if it did. It needs no memory where `out` has room.
fn send_limit(member: Member, limit: u64, out: &mut Out) -> Result<(), NoMemory>
    ensures ok { OnOk result (out.new.items ≡ out.old.items ++ filter_map (limit_sent limit) (member ∷ [])) }
    ensures len { vec_len out.new ≤ vec_len out.old + 1 }
    ensures capacity { vec_capacity out.old ≤ vec_capacity out.new }
    ensures succeeds { vec_len out.old < vec_capacity out.old → IsOk result }
{
    if let Some(tile) = member.reached {
        out.push((tile, Msg::Limit { limit }))?;
    }
    Ok(())
}

/// Whether all of these have reached the limit.
fn have_all_reached(members: &[Member]) -> bool
    ensures { result ≡ list_all has_reached members.now }
{
    members.iter().all(|m| m.reached.is_some())
}

/// A thread is a member from now on. Where it is already, or where memory runs out, nothing changes.
#[tactic(auto, using(crate::proofs::MemberLists::with_member_there, crate::proofs::MemberLists::with_member_new))]
fn enter(members: &mut Vec<Member>, thread: u32) -> Result<(), NoMemory>
    ensures ok { OnOk result (members.new.items ≡ with_member thread members.old.items) }
    ensures err { OnErr result (members.new.items ≡ members.old.items) }
{
    let place = member_place(members, thread);
    if !is_at(members, place, thread) {
        members.insert(place, Member::unreached(thread))?;
    }
    Ok(())
}

/// The place of a thread among members in ascending order: its own, or the one where it would stand.
fn member_place(members: &[Member], thread: u32) -> usize
    ensures place { result ≡ member_place thread members.now }
    ensures in_range { result ≤ length members.now }
{
    let place = members.iter().position(|m| thread <= m.thread);
    place.unwrap_or(members.len())
}

/// Whether a thread stands at a place.
fn is_at(members: &[Member], place: usize, thread: u32) -> bool
    ensures { result ≡ is_at thread (slice_get members.now place) }
{
    matches!(members.get(place), Some(member) if member.thread == thread)
}

/// A thread is no member any more.
fn remove(members: &mut Vec<Member>, thread: u32)
    ensures { members.new.items ≡ without_member thread members.old.items }
{
    members.retain(|m| m.thread != thread);
}

/// A thread reports from a tile that it has reached the limit.
fn report(members: &mut Vec<Member>, thread: u32, tile: NodeId)
    ensures { members.new.items ≡ reported thread tile members.old.items }
{
    for member in members.iter_mut() {
        *member = member.with_report(thread, tile);
    }
}

/// No thread has reached the limit any more.
fn renew(members: &mut Vec<Member>)
    ensures { members.new.items ≡ map renewed members.old.items }
{
    for member in members.iter_mut() {
        *member = Member::unreached(member.thread);
    }
}
