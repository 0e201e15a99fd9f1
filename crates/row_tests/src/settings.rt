//! Cases of settings, node numbers and bytes of a line.

use sim_base::{Config, Field, LineData, NodeId};

/// What is other than in the default settings.
#[derive(Clone, Copy)]
enum Changed {
    Nothing,
    /// Tiles, hosts, sets and ways.
    Machine(u32, u32, u32, u32),
    /// Bytes of a stack and of the heap.
    Memory(u64, u64),
    /// The costs of arithmetic, an atomic, a call and memory.
    Costs(u64, u64, u64, u64),
    /// Quantum, slack, interval and events, with the greatest seed.
    Pace(u64, u64, u64, u32),
}

fn settings(changed: Changed) -> Config {
    match changed {
        Changed::Nothing => Config::defaults(),
        Changed::Machine(tiles, hosts, sets, ways) => machine(tiles, hosts, sets, ways),
        Changed::Memory(stack_bytes, heap_bytes) => memory(stack_bytes, heap_bytes),
        Changed::Costs(alu, amo, call, memory) => costs(alu, amo, call, memory),
        Changed::Pace(quantum, slack, interval, events) => pace(quantum, slack, interval, events),
    }
}

fn machine(tiles: u32, hosts: u32, sets: u32, ways: u32) -> Config {
    Config {
        tiles,
        hosts,
        sets,
        ways,
        ..Config::defaults()
    }
}

fn memory(stack_bytes: u64, heap_bytes: u64) -> Config {
    Config {
        stack_bytes,
        heap_bytes,
        ..Config::defaults()
    }
}

fn costs(alu_cost: u64, amo_cost: u64, call_cost: u64, memory_cost: u64) -> Config {
    Config {
        alu_cost,
        amo_cost,
        call_cost,
        memory_cost,
        ..Config::defaults()
    }
}

fn pace(quantum: u64, slack: u64, interval: u64, events: u32) -> Config {
    Config {
        quantum,
        slack,
        interval,
        events,
        seed: 18_446_744_073_709_551_615,
        ..Config::defaults()
    }
}

/// Settings, each with the first that is out of its range.
static RANGES: [(Changed, Option<Field>); 27] = [
    (Changed::Nothing, None),
    (Changed::Machine(1, 1, 1, 1), None),
    (Changed::Machine(64, 8, 1024, 16), None),
    (Changed::Machine(0, 1, 16, 4), Some(Field::Tiles)),
    (Changed::Machine(65, 8, 16, 4), Some(Field::Tiles)),
    (Changed::Machine(64, 9, 16, 4), Some(Field::Hosts)),
    (Changed::Machine(4, 5, 0, 4), Some(Field::Hosts)),
    (Changed::Machine(4, 1, 1025, 17), Some(Field::Sets)),
    (Changed::Machine(4, 1, 16, 17), Some(Field::Ways)),
    (Changed::Memory(4096, 0), None),
    (Changed::Memory(1_048_576, 67_108_864), None),
    (Changed::Memory(0, 1), Some(Field::StackBytes)),
    (Changed::Memory(4097, 4096), Some(Field::StackBytes)),
    (Changed::Memory(1_052_672, 4096), Some(Field::StackBytes)),
    (Changed::Memory(4096, 67_112_960), Some(Field::HeapBytes)),
    (Changed::Costs(1, 1, 0, 0), None),
    (
        Changed::Costs(1_000_000, 1_000_000, 1_000_000, 1_000_000),
        None,
    ),
    (Changed::Costs(0, 0, 0, 0), Some(Field::AluCost)),
    (
        Changed::Costs(1, 1_000_001, 1_000_001, 0),
        Some(Field::AmoCost),
    ),
    (Changed::Costs(1, 1, 1_000_001, 0), Some(Field::CallCost)),
    (Changed::Costs(1, 1, 0, 1_000_001), Some(Field::MemoryCost)),
    (Changed::Pace(1, 0, 1, 1), None),
    (
        Changed::Pace(1_000_000_000, 1_000_000_000, 1_000_000_000, 1_000_000),
        None,
    ),
    (Changed::Pace(0, 0, 0, 0), Some(Field::Quantum)),
    (Changed::Pace(1, 1_000_000_001, 0, 1), Some(Field::Slack)),
    (Changed::Pace(1, 0, 1_000_000_001, 1), Some(Field::Interval)),
    (Changed::Pace(1, 0, 1, 1_000_001), Some(Field::Events)),
];

#[test]
fn the_first_setting_out_of_its_range_is_named(rt: HostRuntime) {
    for &(changed, field) in &RANGES {
        let is_named = settings(changed).check().err() == field;
        assert!(rt; is_named, "{field:?}");
    }
}

/// The host of a node and the tile at whose place it stands, on a machine of 5 tiles and 2 hosts: nodes 0 to 4 are
/// tiles, 5 is the control server, 6 and 7 are the local servers of hosts 0 and 1.
fn placed(node: NodeId) -> Option<(u32, NodeId)> {
    let config = machine(5, 2, 16, 4);
    config.check().ok()?;
    if u32::from(node) < config.nodes() {
        Some((config.host_of(node), config.place_of(node)))
    } else {
        None
    }
}

#[test]
fn five_tiles_on_two_hosts_are_numbered(rt: HostRuntime) {
    let rows = [
        (0, Some((0, 0))),
        (1, Some((1, 1))),
        (2, Some((0, 2))),
        (3, Some((1, 3))),
        (4, Some((0, 4))),
        (5, Some((0, 0))),
        (6, Some((0, 0))),
        (7, Some((1, 1))),
        (8, None),
    ];
    for (node, place) in rows {
        let is_there = placed(node) == place;
        assert!(rt; is_there, "node {node}");
    }
}

/// Some bytes of a line, as a number. The line's first bytes are 00 78 56 ff 12 00 00 00, and its last byte is ee.
fn loaded(offset: u8, size: u8) -> u64 {
    let mut line = LineData::zeros();
    line.store(1, 4, 0xabcd_1234_5678);
    line.store(3, 1, 0x77ff);
    line.store(63, 1, 0xee);
    line.store(64, 0, 0xdd);
    if size <= 8 && offset <= 56 {
        line.load(offset, size)
    } else {
        0
    }
}

#[test]
fn numbers_in_a_line_are_little_endian(rt: HostRuntime) {
    let rows = [
        (0, 8, 0x12_ff56_7800),
        (1, 4, 0x12ff_5678),
        (2, 2, 0xff56),
        (4, 1, 0x12),
        (56, 8, 0xee00_0000_0000_0000),
    ];
    for (offset, size, number) in rows {
        let is_loaded = loaded(offset, size) == number;
        assert!(rt; is_loaded, "{size} bytes at {offset}");
    }
}
