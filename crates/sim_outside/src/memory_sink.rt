//! A stream in memory, which keeps what it takes.

ghost use Rattle.std.specs.Prelude.{◌≡◌, ◌≤◌, ◌-◌, ℕ, List, [], true, false, Some, IfOk, MatchResult, length, vec_capacity};
ghost use Rattle.sim_outside.specs.Fault.{raised, Counts};
ghost use Rattle.sim_outside.specs.Sink.{Put, is_fault};
ghost use Rattle.sim_outside.specs.Memory.{is_to_fail, portion, faults_after};

use crate::printing::{Failed, Sink};
use sim_base::NoMemory;
use std::alloc::Global;

/// A stream in memory, which keeps what it takes.
#[derive(Drop)]
pub struct MemSink {
    /// The bytes that it took.
    pub taken: Vec<u8>,
    /// How many bytes it takes in all.
    pub room: usize,
    /// The numbers of the calls that fail, counted from 0.
    pub fail: Vec<u64>,
    /// How many bytes a call takes at most.
    pub most: usize,
    /// How many calls were made. It stops at 2^64 - 1.
    pub calls: u64,
    /// How many faults there were. It stops at 2^64 - 1.
    pub faults: u64,
    pub ghost reserved: { room ≤ vec_capacity taken },
}

impl MemSink {
    /// A stream that took nothing yet, with memory for `room` bytes, so that `put` takes none.
    pub fn new(alloc: Global, room: usize, most: usize, fail: Vec<u64>) -> Result<MemSink, NoMemory>
        ensures { IfOk result (λ sink. (sink.taken.items ≡ []) × (sink.room ≡ room) × (sink.most ≡ most)
            × (sink.fail.items ≡ fail.items) × (sink.calls ≡ 0) × (sink.faults ≡ 0)) }
    {
        let taken = Vec::with_capacity(alloc, room)?;
        Ok(MemSink {
            taken,
            room,
            fail,
            most,
            calls: 0,
            faults: 0,
        })
    }
}

impl Sink for MemSink {
    ghost faults = { λ sink. sink.faults };

    ghost taken = { λ sink. Some sink.taken.items };

    /// Takes as much as the most of a call and the room that is left allow.
    fn put(&mut self, piece: &[u8]) -> Result<usize, Failed>
        ensures never_falls { self.old.faults ≤ self.new.faults }
        ensures answer { Put result piece.now (Some self.old.taken.items) (Some self.new.taken.items) }
        ensures counted { Counts (is_fault result piece.now) self.old.faults self.new.faults }
        ensures exact { MatchResult result
            (λ k. (is_to_fail self.old.fail.items self.old.calls ≡ false)
            × (k ≡ portion piece.now self.old.most (self.old.room - length self.old.taken.items)))
            (λ _. is_to_fail self.old.fail.items self.old.calls ≡ true) }
        ensures calls { self.new.calls ≡ raised self.old.calls }
        ensures faults { self.new.faults ≡ faults_after result piece.now self.old.faults }
        ensures kept { (self.new.room ≡ self.old.room) × (self.new.most ≡ self.old.most)
            × (self.new.fail.items ≡ self.old.fail.items) }
    {
        let fails = self.fail.contains(&self.calls);
        self.calls = self.calls.saturating_add(1);
        if fails {
            self.faults = self.faults.saturating_add(1);
            return Err(Failed);
        }
        let left = self.room.saturating_sub(self.taken.len());
        let count = piece.len().min(self.most).min(left);
        if count > 0 {
            self.taken.extend_from_slice(&piece[..count]).unwrap();
        } else if !piece.is_empty() {
            self.faults = self.faults.saturating_add(1);
        }
        Ok(count)
    }
}
