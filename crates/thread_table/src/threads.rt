//! The threads of a program by number: who began, is live, exited or is parked joining.

ghost use Rattle.std.specs.Prelude.{◌≡◌, ◌<◌, ◌-◌, ◌^◌, ◌++◌, ◌∷◌, [], slice_get, slice_set, Some, IfOk, OnOk, OnErr};
ghost use Rattle.std.specs.Option.{option_map};
ghost use Rattle.serving.specs.ControlData.{is_live, next_number, live_count, is_joiner, is_joining};
ghost use Rattle.serving.specs.Join.{join_of, joiner_of, fates_joined, fates_exited};
ghost use Rattle.thread_table.specs.Threads.{is_live_at, IsLive};

use serving::{Fate, Join};
use sim_base::NoMemory;
use std::alloc::Global;
use std::marker::Model;

/// The threads of a program, each with its fate, by number: they are numbered from 0 on, and no number is used again.
/// Contracts see the list of fates.
#[derive(Drop)]
pub struct Threads {
    fates: Vec<Fate>,
    live: u32,
}

impl Model for Threads {
    ghost use Rattle.std.specs.Prelude.{List, ◌≡◌, ◌<◌, ◌^◌, vec_len};
    ghost use Rattle.serving.specs.declared.control_data.Fate.{Fate};
    ghost use Rattle.serving.specs.ControlData.{live_count};

    ghost Value = { List Fate };

    ghost view = { λ t. t.fates.items };

    ghost invariant = { λ t. (t.live ≡ live_count t.fates.items) × (vec_len t.fates < 2 ^ 32) };
}

impl Threads {
    /// The threads before the program runs: thread 0 is live.
    pub fn new(alloc: Global) -> Result<Threads, NoMemory>
        ensures { IfOk result (λ threads. threads ≡ Fate.Live None ∷ []) }
    {
        let mut fates = Vec::new(alloc);
        fates.push(Fate::Live { joiner: None })?;
        Ok(Threads { fates, live: 1 })
    }

    /// The number that the next thread gets.
    pub fn next(&self) -> u32
        ensures { result ≡ next_number self.now }
    {
        self.fates.len() as u32
    }

    /// How many threads are live.
    pub fn live(&self) -> u32
        ensures { result ≡ live_count self.now }
    {
        self.live
    }

    /// What has become of a thread; none, where no thread of that number began.
    pub fn fate(&self, thread: u32) -> Option<Fate>
        ensures { result ≡ slice_get self.now thread }
    {
        self.fates.get(thread as usize).copied()
    }

    /// Whether a thread began and its exit wasn't served yet.
    pub fn is_live(&self, thread: u32) -> bool
        ensures { result ≡ is_live_at self.now thread }
    {
        matches!(self.fates.get(thread as usize), Some(Fate::Live { .. }))
    }

    /// Whether a thread is parked joining another. It looks at every thread.
    pub fn is_joining(&self, thread: u32) -> bool
        ensures { result ≡ is_joining self.now thread }
    {
        self.fates.iter().any(|fate| is_joiner(thread, fate))
    }

    /// A thread begins: it is live, and the answer is its number. The last number is 2^32 - 2. Where memory runs out,
    /// nothing changes.
    pub fn add(&mut self) -> Result<u32, NoMemory>
        requires { next_number self.old < 2 ^ 32 - 1 }
        ensures number { IfOk result (λ number. number ≡ next_number self.old) }
        ensures ok { OnOk result (self.new ≡ self.old ++ Fate.Live None ∷ []) }
        ensures err { OnErr result (self.new ≡ self.old) }
    {
        let number = self.next();
        self.fates.push(Fate::Live { joiner: None })?;
        self.live += 1;
        Ok(number)
    }

    /// A live thread exits with a code. The answer is the thread that is parked joining it, if one is: then it counts
    /// as joined, and that one isn't parked any more.
    #[tactic(auto, using(crate::proofs::LiveCount::live_count_exited))]
    pub fn exit(&mut self, thread: u32, code: u8) -> Option<u32>
        requires { IsLive self.old thread }
        ensures fates { self.new ≡ fates_exited self.old thread code }
        ensures joiner { result ≡ joiner_of self.old thread }
    {
        let joiner = self.joiner(thread);
        self.fates[thread as usize] = Fate::Exited {
            code,
            joined: joiner.is_some(),
        };
        self.live -= 1;
        joiner
    }

    /// A thread asks for another one's exit. A target that exited counts as joined from then on; a live one that nobody
    /// joins has the caller parked; in the other cases nothing changes. A target can be any number.
    pub fn join(&mut self, caller: u32, target: u64) -> Join
        ensures value { result ≡ join_of self.old caller target }
        ensures fates { self.new ≡ fates_joined self.old caller target (join_of self.old caller target) }
    {
        let join = self.join_of(caller, target);
        let index = target as usize;
        match join {
            Join::Code { code } => self.change(index, Fate::Exited { code, joined: true }),
            Join::Parked => self.change(
                index,
                Fate::Live {
                    joiner: Some(caller),
                },
            ),
            Join::NoThread | Join::Invalid => {}
        }
        join
    }

    /// A thread's fate changes, and the thread is as live as before.
    #[tactic(auto, using(crate::proofs::LiveCount::live_count_same))]
    fn change(&mut self, index: usize, fate: Fate)
        requires { option_map is_live (slice_get self.old index) ≡ Some (is_live fate) }
        ensures { self.new ≡ slice_set self.old index fate }
    {
        self.fates[index] = fate;
    }

    /// The thread that is parked joining a thread, if one is.
    fn joiner(&self, thread: u32) -> Option<u32>
        ensures { result ≡ joiner_of self.now thread }
    {
        match self.fates.get(thread as usize) {
            Some(Fate::Live { joiner }) => *joiner,
            _ => None,
        }
    }

    /// What a join comes to.
    fn join_of(&self, caller: u32, target: u64) -> Join
        ensures { result ≡ join_of self.now caller target }
    {
        let is_self = target == caller as u64;
        match self.fates.get(target as usize) {
            None | Some(Fate::Exited { joined: true, .. }) => Join::NoThread,
            Some(Fate::Live { joiner: Some(_) }) => Join::Invalid,
            _ if is_self => Join::Invalid,
            Some(Fate::Exited { code, .. }) => Join::Code { code: *code },
            Some(Fate::Live { joiner: None }) => Join::Parked,
        }
    }
}

/// Whether a thread is the one that is parked joining the one of a fate.
fn is_joiner(thread: u32, fate: &Fate) -> bool
    ensures { result ≡ is_joiner thread fate.now }
{
    matches!(fate, Fate::Live { joiner: Some(joiner) } if *joiner == thread)
}
