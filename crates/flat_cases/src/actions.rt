//! Actions, as a line has them: a letter and a thread, as `s1` for the serving of thread 1, with the tile behind an `@`
//! where a thread begins, as `b1@3`; or a thread and a count, as `0*7`, for so many actions that the thread makes by
//! itself: each is the first of its instruction, its load, its serving and its return that is legal.

use crate::program::number;
use elf_image::World;
use flat_machine::Flat;
use sim_base::{Action, NodeId};
use std::alloc::Global;

/// Makes what a word names, and answers whether all of it was legal.
pub fn make(alloc: Global, world: &World, flat: &mut Flat, word: &str) -> bool {
    if let Some((thread, count)) = word.split_once('*') {
        return go_on(alloc, world, flat, number(thread), number(count));
    }
    match action(word) {
        Some(action) => ask(alloc, world, flat, action),
        None => false,
    }
}

/// A thread makes so many actions by itself.
fn go_on(alloc: Global, world: &World, flat: &mut Flat, thread: u32, count: u32) -> bool {
    for _ in 0..count {
        if !go_on_once(alloc, world, flat, thread) {
            return false;
        }
    }
    true
}

/// A thread makes the first action that is legal, if one is.
fn go_on_once(alloc: Global, world: &World, flat: &mut Flat, thread: u32) -> bool {
    ask(alloc, world, flat, Action::Exec { thread })
        || ask(alloc, world, flat, Action::Load { thread })
        || ask(alloc, world, flat, Action::Serve { thread })
        || ask(alloc, world, flat, Action::Return { thread })
}

/// Asks for an action, and answers whether it was legal.
fn ask(alloc: Global, world: &World, flat: &mut Flat, action: Action) -> bool {
    flat.act(alloc, world, &action).is_ok()
}

/// The action that a word names.
fn action(word: &str) -> Option<Action> {
    let (name, tile) = word.split_once('@').unwrap_or((word, "0"));
    let mut letters = name.chars();
    let letter = letters.next().unwrap_or(' ');
    let thread = number(letters.as_str());
    let tile = number(tile).min(255) as NodeId;
    match letter {
        'e' => Some(Action::Exec { thread }),
        'f' => Some(Action::FailSc { thread }),
        'l' => Some(Action::Load { thread }),
        's' => Some(Action::Serve { thread }),
        'r' => Some(Action::Return { thread }),
        'b' => Some(Action::Begin { thread, tile }),
        _ => None,
    }
}
