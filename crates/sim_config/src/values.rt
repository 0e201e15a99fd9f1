//! The value of each setting in a document, and the first one of the wrong type.

ghost use Rattle.std.specs.Prelude.{◌≡◌, option_map};
ghost use Rattle.toml.specs.Data.{get_member};
ghost use Rattle.toml.specs.View.{view, table_view};
ghost use Rattle.sim_config.specs.SettingsFile.{key_of, number_in, policy_named, policy_in, is_of_type, number_at, policy_at, config_in, fits, is_found, first_refused};

use crate::keys::{FIELDS, key_of};
use sim_base::{Config, Field, Policy};
use toml::{Table, Value};

/// The settings of a document, with the default of each whose key is missing or whose value isn't of its type.
pub(crate) fn config_in(table: &Table) -> Config
    ensures { result ≡ config_in (table_view table.now) }
{
    let defaults = Config::defaults();
    Config {
        tiles: u32_at(table, Field::Tiles, defaults.tiles),
        hosts: u32_at(table, Field::Hosts, defaults.hosts),
        sets: u32_at(table, Field::Sets, defaults.sets),
        ways: u32_at(table, Field::Ways, defaults.ways),
        stack_bytes: u64_at(table, Field::StackBytes, defaults.stack_bytes),
        heap_bytes: u64_at(table, Field::HeapBytes, defaults.heap_bytes),
        alu_cost: u64_at(table, Field::AluCost, defaults.alu_cost),
        mul_cost: u64_at(table, Field::MulCost, defaults.mul_cost),
        div_cost: u64_at(table, Field::DivCost, defaults.div_cost),
        mem_cost: u64_at(table, Field::MemCost, defaults.mem_cost),
        amo_cost: u64_at(table, Field::AmoCost, defaults.amo_cost),
        call_cost: u64_at(table, Field::CallCost, defaults.call_cost),
        spawn_cost: u64_at(table, Field::SpawnCost, defaults.spawn_cost),
        hop_cost: u64_at(table, Field::HopCost, defaults.hop_cost),
        directory_cost: u64_at(table, Field::DirectoryCost, defaults.directory_cost),
        memory_cost: u64_at(table, Field::MemoryCost, defaults.memory_cost),
        policy: policy_at(table, Field::Policy, defaults.policy),
        quantum: u64_at(table, Field::Quantum, defaults.quantum),
        slack: u64_at(table, Field::Slack, defaults.slack),
        interval: u64_at(table, Field::Interval, defaults.interval),
        events: u32_at(table, Field::Events, defaults.events),
        seed: u64_at(table, Field::Seed, defaults.seed),
    }
}

/// The first setting in the table's order whose value isn't of its type, or that was found to be the first out of its
/// range.
pub(crate) fn first_refused(table: &Table, out_of_range: Option<Field>) -> Option<Field>
    ensures { result ≡ first_refused (table_view table.now) out_of_range }
{
    FIELDS.iter().copied().find(|field| !fits(table, *field) || is_found(out_of_range, *field))
}

/// Whether the setting is the one that was found.
fn is_found(found: Option<Field>, field: Field) -> bool
    ensures { result ≡ is_found found field }
{
    match found {
        Some(found) => key_of(found) == key_of(field),
        None => false,
    }
}

/// Whether a setting's key is missing, or its value has the setting's type.
fn fits(table: &Table, field: Field) -> bool
    ensures { result ≡ fits (table_view table.now) field }
{
    match value_at(table, field) {
        Some(value) => is_of_type(field, value),
        None => true,
    }
}

/// Whether a value has a setting's type: a policy's name, or an integer of the number's type.
fn is_of_type(field: Field, value: &Value) -> bool
    ensures { result ≡ is_of_type field (view value.now) }
{
    match field {
        Field::Policy => policy_in(value).is_some(),
        Field::Tiles | Field::Hosts | Field::Sets | Field::Ways | Field::Events => {
            u32_in(value).is_some()
        }
        _ => u64_in(value).is_some(),
    }
}

/// A number of 32 bits, or its default where its key is missing or its value is none.
fn u32_at(table: &Table, field: Field, default: u32) -> u32
    ensures { result ≡ number_at 32 (table_view table.now) field default }
{
    match value_at(table, field) {
        Some(value) => u32_in(value).unwrap_or(default),
        None => default,
    }
}

/// A number of 64 bits, or its default where its key is missing or its value is none.
fn u64_at(table: &Table, field: Field, default: u64) -> u64
    ensures { result ≡ number_at 64 (table_view table.now) field default }
{
    match value_at(table, field) {
        Some(value) => u64_in(value).unwrap_or(default),
        None => default,
    }
}

/// A policy, or its default where its key is missing or its value names none.
fn policy_at(table: &Table, field: Field, default: Policy) -> Policy
    ensures { result ≡ policy_at (table_view table.now) field default }
{
    match value_at(table, field) {
        Some(value) => policy_in(value).unwrap_or(default),
        None => default,
    }
}

/// The value at a setting's key.
fn value_at(table: &Table, field: Field) -> Option<&Value>
    ensures { option_map (λ value. view value.now) result ≡ get_member (key_of field) (table_view table.now) }
{
    table.get(key_of(field))
}

/// The number of 32 bits that a value is, if it is one.
fn u32_in(value: &Value) -> Option<u32>
    ensures { result ≡ number_in 32 (view value.now) }
{
    match value.as_integer() {
        Some(number) => u32::try_from(number).ok(),
        None => None,
    }
}

/// The number of 64 bits that a value is, if it is one.
fn u64_in(value: &Value) -> Option<u64>
    ensures { result ≡ number_in 64 (view value.now) }
{
    match value.as_integer() {
        Some(number) => u64::try_from(number).ok(),
        None => None,
    }
}

/// The policy that a value names, if it does.
fn policy_in(value: &Value) -> Option<Policy>
    ensures { result ≡ policy_in (view value.now) }
{
    match value.as_str() {
        Some(name) => policy_named(name),
        None => None,
    }
}

/// The policy of a name.
fn policy_named(name: &str) -> Option<Policy>
    ensures { result ≡ policy_named name.now }
{
    if name == "lax" {
        Some(Policy::Lax)
    } else if name == "barrier" {
        Some(Policy::LaxBarrier)
    } else if name == "p2p" {
        Some(Policy::LaxP2p)
    } else {
        None
    }
}
