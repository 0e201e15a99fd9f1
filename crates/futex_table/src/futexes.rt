//! The table of parked threads: park one at a word, wake the longest parked ones.

ghost use Rattle.std.specs.Prelude.{◌≡◌, ◌<◌, ◌-◌, ◌^◌, ◌++◌, ◌∷◌, [], false, length, IfOk, OnOk, OnErr};
ghost use Rattle.serving.specs.ControlData.{is_waiting};
ghost use Rattle.serving.specs.Wake.{woken, still_parked, longest_at, without_thread};
ghost use Rattle.futex_table.specs.Entries.{waiters_of};

use indexmap::IndexMap;
use sim_base::NoMemory;
use std::alloc::Global;
use std::marker::Model;

/// The threads that are parked, each at the word at an address. Contracts see the list of them, in order of parking.
#[derive(Drop)]
pub struct Futexes {
    addresses: IndexMap<u32, u64>,
}

impl Model for Futexes {
    ghost use Rattle.std.specs.Prelude.{List};
    ghost use Rattle.serving.specs.declared.control_data.Waiter.{Waiter};
    ghost use Rattle.futex_table.specs.Entries.{waiters_of, AreOrderly};

    ghost Value = { List Waiter };

    ghost view = { λ f. waiters_of f.addresses.entries };

    ghost invariant = { λ f. AreOrderly f.addresses.entries };
}

impl Futexes {
    /// Nobody is parked.
    pub fn new(alloc: Global) -> Result<Futexes, NoMemory>
        ensures { IfOk result (λ futexes. futexes ≡ []) }
    {
        Ok(Futexes {
            addresses: IndexMap::new(alloc),
        })
    }

    /// How many threads are parked.
    pub fn parked(&self) -> u32
        ensures { result ≡ length self.now }
    {
        self.addresses.len() as u32
    }

    /// Whether a thread is parked.
    pub fn is_parked(&self, thread: u32) -> bool
        ensures { result ≡ is_waiting self.now thread }
    {
        self.addresses.contains_key(&thread)
    }

    /// Parks a thread that isn't parked at the word at an address. Where memory runs out, nothing changes.
    pub fn park(&mut self, addr: u64, thread: u32) -> Result<(), NoMemory>
        requires number { thread < 2 ^ 32 - 1 }
        requires awake { is_waiting self.old thread ≡ false }
        ensures ok { OnOk result (self.new ≡ self.old ++ (record { thread = thread; addr = addr }) ∷ []) }
        ensures err { OnErr result (self.new ≡ self.old) }
    {
        self.addresses.insert(thread, addr)?;
        Ok(())
    }

    /// Wakes at most so many threads that are parked at the word at an address: the longest parked ones, which are the
    /// answer, in order of parking. Where memory runs out, nothing changes.
    pub fn wake(&mut self, alloc: Global, addr: u64, count: u32) -> Result<Vec<u32>, NoMemory>
        ensures woken { IfOk result (λ threads. threads.items ≡ woken addr count self.old) }
        ensures ok { OnOk result (self.new ≡ still_parked addr count self.old) }
        ensures err { OnErr result (self.new ≡ self.old) }
    {
        let most = count.min(self.parked());
        let mut threads = Vec::with_capacity(alloc, most as usize)?;
        for _ in 0..most {
            match self.wake_longest(addr) {
                Some(thread) => threads.push(thread)?,
                None => break,
            }
        }
        Ok(threads)
    }

    /// Wakes the longest parked thread at the word at an address, if one is.
    fn wake_longest(&mut self, addr: u64) -> Option<u32>
        ensures woken { result ≡ longest_at addr self.old }
        ensures rest { self.new ≡ without_thread (longest_at addr self.old) self.old }
    {
        let thread = longest_at(&self.addresses, addr)?;
        self.addresses.shift_remove(&thread);
        Some(thread)
    }
}

/// The first thread that is parked at the word at an address, if one is.
fn longest_at(addresses: &IndexMap<u32, u64>, addr: u64) -> Option<u32>
    ensures { result ≡ longest_at addr (waiters_of addresses.now.entries) }
{
    let (thread, _) = addresses.iter().find(|(_, at)| **at == addr)?;
    Some(*thread)
}
