//! A node set beside a sorted list: both answer the same over many calls.

use crate::draws::draw;
use node_set::NodeSet;
use sim_base::NoMemory;
use std::alloc::Global;

/// Puts a number into a sorted list, unless it is there.
fn insert(plain: &mut Vec<u8>, node: u8) -> Result<(), NoMemory> {
    if let Err(place) = plain.binary_search(&node) {
        plain.insert(place, node)?;
    }
    Ok(())
}

/// Takes a number out of a sorted list, if it is there.
fn remove(plain: &mut Vec<u8>, node: u8) {
    if let Ok(place) = plain.binary_search(&node) {
        let _ = plain.remove(place);
    }
}

/// Takes the first number out of a list, if there is one.
fn pop_first(plain: &mut Vec<u8>) -> Option<u8> {
    let first = plain.first().copied()?;
    remove(plain, first);
    Some(first)
}

/// Makes one of three calls of both, and says whether both answer the same.
fn change(set: &mut NodeSet, plain: &mut Vec<u8>, call: u64, node: u8) -> Result<bool, NoMemory> {
    match call {
        0..4 => {
            set.insert(node);
            insert(plain, node)?;
        }
        4..7 => {
            set.remove(node);
            remove(plain, node);
        }
        _ => return Ok(set.pop_first() == pop_first(plain)),
    }
    Ok(true)
}

/// Whether both have the same of a number, at a place and in all.
fn look_same(set: &NodeSet, plain: &Vec<u8>, node: u8, place: usize) -> bool {
    set.contains(node) == plain.contains(&node)
        && set.get(place) == plain.get(place).copied()
        && set.len() == plain.len()
}

/// Whether a set and a sorted list stay the same over so many calls.
fn stay_same(alloc: Global, calls: u64) -> Result<bool, NoMemory> {
    let mut set = NodeSet::new();
    let mut plain = Vec::new(alloc);
    let mut state = 1;
    let mut is_same = true;
    for _ in 0..calls {
        let call = draw(&mut state, 8);
        let node = draw(&mut state, 256) as u8;
        let place = draw(&mut state, 128) as usize;
        let answers = change(&mut set, &mut plain, call, node)?;
        let looks = look_same(&set, &plain, draw(&mut state, 256) as u8, place);
        is_same = is_same && answers && looks;
    }
    Ok(is_same)
}

#[test]
fn sets_are_sorted_lists(rt: HostRuntime) {
    let is_right = stay_same(rt.alloc(), 5_000).unwrap_or(false);
    assert!(rt; is_right);
}
