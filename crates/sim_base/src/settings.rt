//! The settings of a simulated machine: defaults, ranges, and the first setting out of its range.

ghost use Rattle.std.specs.Prelude.{◌≡◌, OnOk};
ghost use Rattle.std.specs.Result.{result_err};
ghost use Rattle.sim_base.specs.Ranges.{is_within, is_within_pages};

use crate::kinds::Policy;

/// What a settings file can be refused for: the file as a whole, or one setting. A refusal names the first
/// that applies, in this order.
#[derive(Clone, Copy, Debug, PartialEq, Eq)]
pub enum Field {
    /// The file is too long.
    Length,
    /// The file is no TOML.
    Text,
    /// A key is the name of no setting.
    Unknown,
    /// `tiles`.
    Tiles,
    /// `hosts`.
    Hosts,
    /// `sets`.
    Sets,
    /// `ways`.
    Ways,
    /// `stack_bytes`.
    StackBytes,
    /// `heap_bytes`.
    HeapBytes,
    /// `alu_cost`.
    AluCost,
    /// `mul_cost`.
    MulCost,
    /// `div_cost`.
    DivCost,
    /// `mem_cost`.
    MemCost,
    /// `amo_cost`.
    AmoCost,
    /// `call_cost`.
    CallCost,
    /// `spawn_cost`.
    SpawnCost,
    /// `hop_cost`.
    HopCost,
    /// `directory_cost`.
    DirectoryCost,
    /// `memory_cost`.
    MemoryCost,
    /// `policy`.
    Policy,
    /// `quantum`.
    Quantum,
    /// `slack`.
    Slack,
    /// `interval`.
    Interval,
    /// `events`.
    Events,
    /// `seed`.
    Seed,
}

/// The settings of a simulated machine. The costs are in cycles. The ranges, which [`Config::check`] tests,
/// are this simulator's own.
#[derive(Clone, Copy, Debug, PartialEq, Eq)]
pub struct Config {
    /// Tiles, each with a core and a cache: 1 to 64.
    pub tiles: u32,
    /// Hosts that the tiles are spread over: 1 to 8, and at most as many as the tiles.
    pub hosts: u32,
    /// Sets of a tile's cache: 1 to 1024.
    pub sets: u32,
    /// Lines in a set: 1 to 16.
    pub ways: u32,
    /// Bytes of each tile's stack: 4096 to 1,048,576, a multiple of 4096.
    pub stack_bytes: u64,
    /// Bytes of the heap: up to 67,108,864, a multiple of 4096.
    pub heap_bytes: u64,
    /// Cost of an instruction of class `Alu`: 1 to 1,000,000, as the next four.
    pub alu_cost: u64,
    /// Cost of a multiplication.
    pub mul_cost: u64,
    /// Cost of a division or a remainder.
    pub div_cost: u64,
    /// Cost of a load or a store, beside the delay of a miss.
    pub mem_cost: u64,
    /// Cost of an atomic, beside the delay of a miss.
    pub amo_cost: u64,
    /// Cost of a call: up to 1,000,000, as the next four.
    pub call_cost: u64,
    /// Cost of a thread's start.
    pub spawn_cost: u64,
    /// Cost of a message for each hop on its way.
    pub hop_cost: u64,
    /// Cost of a look-up in a directory.
    pub directory_cost: u64,
    /// Cost of an access to memory behind the directory.
    pub memory_cost: u64,
    /// How the clocks of the tiles are kept near one another.
    pub policy: Policy,
    /// Cycles between two barriers under `LaxBarrier`: 1 to 1,000,000,000.
    pub quantum: u64,
    /// Cycles that a tile may be ahead of the one that it asks under `LaxP2p`: up to 1,000,000,000.
    pub slack: u64,
    /// Cycles between two such questions of a tile: 1 to 1,000,000,000.
    pub interval: u64,
    /// Events that each node may make: 1 to 1,000,000.
    pub events: u32,
    /// What every random choice starts from: any number.
    pub seed: u64,
}

impl Config {
    ghost use Rattle.sim_base.specs.Settings.{default_settings, rows, first_bad, IsChecked, IsInRange};

    /// The settings of a machine that is told none: 4 tiles on one host, caches of 4 KiB, and no limit on
    /// how far clocks drift apart.
    pub fn defaults() -> Config
        ensures settings { result ≡ default_settings }
        ensures checked { IsChecked result }
    {
        Config {
            tiles: 4,
            hosts: 1,
            sets: 16,
            ways: 4,
            stack_bytes: 65_536,
            heap_bytes: 1_048_576,
            alu_cost: 1,
            mul_cost: 3,
            div_cost: 20,
            mem_cost: 1,
            amo_cost: 4,
            call_cost: 20,
            spawn_cost: 100,
            hop_cost: 2,
            directory_cost: 6,
            memory_cost: 60,
            policy: Policy::Lax,
            quantum: 1000,
            slack: 100_000,
            interval: 10_000,
            events: 1_000_000,
            seed: 1,
        }
    }

    /// Tests that each setting is in its range. Else it names the first that isn't, in the order of the
    /// fields. More hosts than tiles count as `Hosts`. Every seed will do.
    pub fn check(&self) -> Result<(), Field>
        ensures first { result_err result ≡ first_bad self.now }
        ensures ranges { OnOk result (IsInRange self.now) }
    {
        match self.first_bad() {
            Some(field) => Err(field),
            None => Ok(()),
        }
    }

    /// The first setting that is out of its range, if one is.
    fn first_bad(&self) -> Option<Field>
        ensures { result ≡ first_bad self.now }
    {
        self.rows().iter().find(|row| !row.1).map(|row| row.0)
    }

    /// Each setting that has a range, in the order of the fields, with whether it is within it.
    fn rows(&self) -> [(Field, bool); 20]
        ensures { result ≡ rows self.now }
    {
        [
            (Field::Tiles, is_within(1, 64, self.tiles as u64)),
            (
                Field::Hosts,
                is_within(1, self.tiles.min(8) as u64, self.hosts as u64),
            ),
            (Field::Sets, is_within(1, 1024, self.sets as u64)),
            (Field::Ways, is_within(1, 16, self.ways as u64)),
            (
                Field::StackBytes,
                is_within_pages(4096, 1_048_576, self.stack_bytes),
            ),
            (
                Field::HeapBytes,
                is_within_pages(0, 67_108_864, self.heap_bytes),
            ),
            (Field::AluCost, is_within(1, 1_000_000, self.alu_cost)),
            (Field::MulCost, is_within(1, 1_000_000, self.mul_cost)),
            (Field::DivCost, is_within(1, 1_000_000, self.div_cost)),
            (Field::MemCost, is_within(1, 1_000_000, self.mem_cost)),
            (Field::AmoCost, is_within(1, 1_000_000, self.amo_cost)),
            (Field::CallCost, is_within(0, 1_000_000, self.call_cost)),
            (Field::SpawnCost, is_within(0, 1_000_000, self.spawn_cost)),
            (Field::HopCost, is_within(0, 1_000_000, self.hop_cost)),
            (
                Field::DirectoryCost,
                is_within(0, 1_000_000, self.directory_cost),
            ),
            (Field::MemoryCost, is_within(0, 1_000_000, self.memory_cost)),
            (Field::Quantum, is_within(1, 1_000_000_000, self.quantum)),
            (Field::Slack, is_within(0, 1_000_000_000, self.slack)),
            (Field::Interval, is_within(1, 1_000_000_000, self.interval)),
            (Field::Events, is_within(1, 1_000_000, self.events as u64)),
        ]
    }
}

/// Whether a number is at least the first and at most the last.
fn is_within(first: u64, last: u64, n: u64) -> bool
    ensures { result ≡ is_within first last n }
{
    first <= n && n <= last
}

/// Whether a number of bytes is within bounds and fills whole pages of 4096.
fn is_within_pages(first: u64, last: u64, bytes: u64) -> bool
    ensures { result ≡ is_within_pages first last bytes }
{
    is_within(first, last, bytes) && bytes.is_multiple_of(4096)
}
