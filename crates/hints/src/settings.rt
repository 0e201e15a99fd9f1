//! Each setting with its type, range and default, and what else a settings file is refused for.

use sim_base::Field;

/// What a refused setting has to be, or what is wrong with the file.
pub(crate) fn rule_of(field: Field) -> &'static str {
    match field {
        Field::Length => "The settings' file has more than 65,536 bytes.",
        Field::Text =>
            "The settings' file is no TOML: a line KEY = NUMBER, or KEY = \"TEXT\", for each setting.",
        Field::Unknown => "The settings' file has a key that is no setting.",
        Field::Tiles => "tiles is an integer, 1 to 64; by default 4.",
        Field::Hosts => "hosts is an integer, 1 to 8 and at most tiles; by default 1.",
        Field::Sets => "sets is an integer, 1 to 1024; by default 16.",
        Field::Ways => "ways is an integer, 1 to 16; by default 4.",
        Field::StackBytes =>
            "stack_bytes is an integer, 4096 to 1,048,576, a multiple of 4096; by default 65,536.",
        Field::HeapBytes =>
            "heap_bytes is an integer, 0 to 67,108,864, a multiple of 4096; by default 1,048,576.",
        Field::AluCost => "alu_cost is an integer, 1 to 1,000,000; by default 1.",
        Field::MulCost => "mul_cost is an integer, 1 to 1,000,000; by default 3.",
        Field::DivCost => "div_cost is an integer, 1 to 1,000,000; by default 20.",
        Field::MemCost => "mem_cost is an integer, 1 to 1,000,000; by default 1.",
        Field::AmoCost => "amo_cost is an integer, 1 to 1,000,000; by default 4.",
        Field::CallCost => "call_cost is an integer, 0 to 1,000,000; by default 20.",
        Field::SpawnCost => "spawn_cost is an integer, 0 to 1,000,000; by default 100.",
        Field::HopCost => "hop_cost is an integer, 0 to 1,000,000; by default 2.",
        Field::DirectoryCost => "directory_cost is an integer, 0 to 1,000,000; by default 6.",
        Field::MemoryCost => "memory_cost is an integer, 0 to 1,000,000; by default 60.",
        Field::Policy => "policy is a text: \"lax\", \"barrier\" or \"p2p\"; by default \"lax\".",
        Field::Quantum => "quantum is an integer, 1 to 1,000,000,000; by default 1000.",
        Field::Slack => "slack is an integer, 0 to 1,000,000,000; by default 100,000.",
        Field::Interval => "interval is an integer, 1 to 1,000,000,000; by default 10,000.",
        Field::Events => "events is an integer, 1 to 1,000,000; by default 1,000,000.",
        Field::Seed => "seed is an integer, 0 to 2^63 - 1; by default 1.",
    }
}
