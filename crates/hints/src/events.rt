//! Lines on the events of a run: the node that made most, and the event that a replay refused.

use event_journal::{Event, Journal};
use mesh_model::dearest;
use sim_base::{Config, NoMemory, NodeId, Policy};
use std::alloc::Global;

/// The most events that a setting allows a node.
const MOST_EVENTS: u64 = 1_000_000;

/// Appends which node made as many events as it may, and what can be done.
pub(crate) fn push_budget(
    alloc: Global,
    text: &mut String,
    journal: &Journal,
    settings: Option<&Config>,
) -> Result<(), NoMemory> {
    let (node, count) = busiest(journal);
    push_node(alloc, text, node, settings)?;
    text.push_str(format!(in alloc;
        " made {count} events, as many as the setting events allows.\n"
    )?.as_str())?;
    if count < MOST_EVENTS {
        text.push_str("It may be set up to 1000000.\n")?;
    } else {
        text.push_str("That is the most that it can be: give each tile less to do.\n")?;
    }
    match settings {
        Some(config) => push_quantum(alloc, text, config),
        None => Ok(()),
    }
}

/// Appends a warning, where the quantum of the barrier is below the dearest step.
fn push_quantum(alloc: Global, text: &mut String, config: &Config) -> Result<(), NoMemory> {
    if config.policy != Policy::LaxBarrier || config.check().is_err() {
        return Ok(());
    }
    let dearest = dearest(config);
    let quantum = config.quantum;
    if quantum < dearest {
        text.push_str(format!(in alloc;
            "The quantum, {quantum}, is below the dearest step, {dearest} cycles: a loop of LR and SC may then make no progress.\n"
        )?.as_str())?;
    }
    Ok(())
}

/// The node that made the most events, the first of several, with their number.
fn busiest(journal: &Journal) -> (NodeId, u64) {
    let mut counts = [0u64; 256];
    let mut left = journal.events();
    for _event in 0..journal.count() {
        if let Some(event) = left.next() {
            let node = event.node() as usize;
            counts[node] = counts[node].saturating_add(1);
        }
    }
    let mut most = 0u64;
    let mut busiest = 0u8;
    for node in 0..=255u8 {
        let count = counts[node as usize];
        if count > most {
            most = count;
            busiest = node;
        }
    }
    (busiest, most)
}

/// Appends which event a replay refused.
pub(crate) fn push_refused(
    alloc: Global,
    text: &mut String,
    event: Event,
    settings: Option<&Config>,
) -> Result<(), NoMemory> {
    push_node(alloc, text, event.node(), settings)?;
    match event {
        Event::Step { .. } => text.push_str(" was to make a step.\n")?,
        Event::Deliver { from, .. } => {
            text.push_str(" was to take a message from ")?;
            push_small(alloc, text, from, settings)?;
            text.push_str(".\n")?;
        }
    }
    Ok(())
}

/// Appends what a node is, as the first words of a line.
fn push_node(
    alloc: Global,
    text: &mut String,
    node: NodeId,
    settings: Option<&Config>,
) -> Result<(), NoMemory> {
    match role_of(node, settings) {
        Role::Tile => text.push_str(format!(in alloc; "Tile {node}")?.as_str())?,
        Role::Control => text.push_str("The control server")?,
        Role::Local { host } => {
            text.push_str(format!(in alloc; "The local server of host {host}")?.as_str())?;
        }
        Role::Unknown => text.push_str(format!(in alloc; "Node {node}")?.as_str())?,
    }
    Ok(())
}

/// Appends what a node is, amid a line.
fn push_small(
    alloc: Global,
    text: &mut String,
    node: NodeId,
    settings: Option<&Config>,
) -> Result<(), NoMemory> {
    match role_of(node, settings) {
        Role::Tile => text.push_str(format!(in alloc; "tile {node}")?.as_str())?,
        Role::Control => text.push_str("the control server")?,
        Role::Local { host } => {
            text.push_str(format!(in alloc; "the local server of host {host}")?.as_str())?;
        }
        Role::Unknown => text.push_str(format!(in alloc; "node {node}")?.as_str())?,
    }
    Ok(())
}

/// What a node is.
enum Role {
    Tile,
    Control,
    Local { host: u32 },
    Unknown,
}

/// What a node is: the tiles have the first numbers, then comes the control server, then the local servers.
fn role_of(node: NodeId, settings: Option<&Config>) -> Role {
    let node = node as u32;
    match settings {
        Some(config) if node < config.tiles => Role::Tile,
        Some(config) if node == config.tiles => Role::Control,
        Some(config) if node - config.tiles <= config.hosts => Role::Local {
            host: node - config.tiles - 1,
        },
        _ => Role::Unknown,
    }
}
