//! The events of a run, in their order: what is repeated is kept once.
ghost use Rattle.std.specs.Prelude.{◌≡◌, ◌++◌, ◌∷◌, [], length, replicate, OnOk, OnErr};

use crate::blocks::Block;
use crate::events::Event;
use crate::reading::Events;
use sim_base::NoMemory;
use std::alloc::Global;
use std::marker::Model;

/// From how many times on a block of an event takes less memory than the events.
const LEAST_TIMES: u32 = 9;

/// The events of a run, in their order. Contracts see the list. An event that is pushed many times at once is kept once,
/// with how often: so a million steps of one tile take no more memory than a few.
#[derive(Drop)]
pub struct Journal {
    noted: Vec<Event>,
    blocks: Vec<Block>,
    covered: usize,
    count: u64,
}

impl Model for Journal {
    ghost use Rattle.std.specs.Prelude.{List};
    ghost use Rattle.event_journal.specs.declared.events.Event.{Event};
    ghost use Rattle.event_journal.specs.Blocks.{IsJournal, unrolled};

    ghost Value = { List Event };

    ghost view = { λ j. unrolled j.blocks.items j.noted.items };

    ghost invariant = { λ j. IsJournal j.blocks.items j.noted.items j.covered j.count };
}

impl Journal {
    /// The journal without events.
    pub fn new(alloc: Global) -> Journal
        ensures { result ≡ [] }
    {
        Journal::of(alloc, Vec::new(alloc))
    }

    /// The journal of these events.
    pub fn of(alloc: Global, events: Vec<Event>) -> Journal
        ensures { result ≡ events.items }
    {
        let count = events.len() as u64;
        Journal {
            noted: events,
            blocks: Vec::new(alloc),
            covered: 0,
            count,
        }
    }

    /// The number of events.
    pub fn count(&self) -> u64
        ensures { result ≡ length self.now }
    {
        self.count
    }

    /// The events, to be read in their order.
    pub fn events(&self) -> Events<'_>
        ensures { result ≡ self.now }
    {
        Events::of(self.noted.as_slice(), self.blocks.as_slice())
    }

    /// Appends an event. Where memory runs out, or the journal has 2^64 - 1 events, it stays as it was.
    #[inline]
    pub fn push(&mut self, event: Event) -> Result<(), NoMemory>
        ensures pushed { OnOk result (self.new ≡ self.old ++ event ∷ []) }
        ensures kept { OnErr result (self.new ≡ self.old) }
    {
        if self.count == u64::MAX {
            return Err(NoMemory);
        }
        self.noted.push(event)?;
        self.count += 1;
        Ok(())
    }

    /// Appends an event so many times. Where memory runs out, or the journal would have 2^64 events, it stays as it was.
    pub fn push_times(&mut self, event: Event, times: u32) -> Result<(), NoMemory>
        ensures pushed { OnOk result (self.new ≡ self.old ++ replicate times event) }
        ensures kept { OnErr result (self.new ≡ self.old) }
    {
        if u64::MAX - self.count < u64::from(times) {
            return Err(NoMemory);
        }
        if times < LEAST_TIMES {
            let all = self.noted.len() + times as usize;
            self.noted.resize(all, event)?;
            self.count += u64::from(times);
            return Ok(());
        }
        self.noted.push(event)?;
        let block = Block {
            once: self.noted.len() - 1 - self.covered,
            size: 1,
            times,
        };
        if self.blocks.push(block).is_err() {
            let _event = self.noted.pop();
            return Err(NoMemory);
        }
        self.covered = self.noted.len();
        self.count += u64::from(times);
        Ok(())
    }
}
