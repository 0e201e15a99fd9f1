//! The key of each setting, and which keys are known.

ghost use Rattle.std.specs.Prelude.{◌≡◌};
ghost use Rattle.sim_config.specs.SettingsFile.{key_of, is_known};

use sim_base::Field;

/// The settings, in the order in which a refusal names the first.
pub(crate) static FIELDS: [Field; 22] = [
    Field::Tiles,
    Field::Hosts,
    Field::Sets,
    Field::Ways,
    Field::StackBytes,
    Field::HeapBytes,
    Field::AluCost,
    Field::MulCost,
    Field::DivCost,
    Field::MemCost,
    Field::AmoCost,
    Field::CallCost,
    Field::SpawnCost,
    Field::HopCost,
    Field::DirectoryCost,
    Field::MemoryCost,
    Field::Policy,
    Field::Quantum,
    Field::Slack,
    Field::Interval,
    Field::Events,
    Field::Seed,
];

/// The key of a setting in a settings file; for the other refusals `length`, `text` and `unknown`. This simulator's own
/// names.
pub fn key_of(field: Field) -> &'static str
    ensures { result.now ≡ key_of field }
{
    match field {
        Field::Length => "length",
        Field::Text => "text",
        Field::Unknown => "unknown",
        Field::Tiles => "tiles",
        Field::Hosts => "hosts",
        Field::Sets => "sets",
        Field::Ways => "ways",
        Field::StackBytes => "stack_bytes",
        Field::HeapBytes => "heap_bytes",
        Field::AluCost => "alu_cost",
        Field::MulCost => "mul_cost",
        Field::DivCost => "div_cost",
        Field::MemCost => "mem_cost",
        Field::AmoCost => "amo_cost",
        Field::CallCost => "call_cost",
        Field::SpawnCost => "spawn_cost",
        Field::HopCost => "hop_cost",
        Field::DirectoryCost => "directory_cost",
        Field::MemoryCost => "memory_cost",
        Field::Policy => "policy",
        Field::Quantum => "quantum",
        Field::Slack => "slack",
        Field::Interval => "interval",
        Field::Events => "events",
        Field::Seed => "seed",
    }
}

/// Whether a key is that of a setting.
pub(crate) fn is_known(key: &str) -> bool
    ensures { result ≡ is_known key.now }
{
    FIELDS.iter().any(|field| key_of(*field) == key)
}
