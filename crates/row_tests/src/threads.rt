//! Cases of the thread table: joins, exits and their answers.

use sim_base::NoMemory;
use std::alloc::Global;
use thread_table::{Fate, Join, Threads};

/// Threads 0 to 3, of which 3 has exited with 7.
fn four_threads(alloc: Global) -> Result<Threads, NoMemory> {
    let mut threads = Threads::new(alloc)?;
    for _ in 0..3 {
        if threads.next() < u32::MAX {
            threads.add()?;
        }
    }
    exit(&mut threads, 3, 7);
    Ok(threads)
}

/// The exit of a thread, if it is live.
fn exit(threads: &mut Threads, thread: u32, code: u8) -> Option<u32> {
    if threads.is_live(thread) {
        threads.exit(thread, code)
    } else {
        None
    }
}

/// Threads join one another in this order: one that never began, oneself, a live one, one that another thread is
/// joining, one that exited, and that one again.
static JOINS: [(u32, u64, Join); 7] = [
    (0, 4, Join::NoThread),
    (0, 0x1_0000_0001, Join::NoThread),
    (0, 0, Join::Invalid),
    (0, 2, Join::Parked),
    (1, 2, Join::Invalid),
    (1, 3, Join::Code { code: 7 }),
    (1, 3, Join::NoThread),
];

/// Whether the joins are answered as the rows say.
fn are_answered(threads: &mut Threads) -> bool {
    let mut is_right = true;
    for &(caller, target, wanted) in &JOINS {
        is_right = is_right && threads.join(caller, target) == wanted;
    }
    is_right
}

/// Whether the joins of four threads are answered as the rows say.
fn four_are_answered(alloc: Global) -> Result<bool, NoMemory> {
    let mut threads = four_threads(alloc)?;
    Ok(are_answered(&mut threads))
}

#[test]
fn joins(rt: HostRuntime) {
    let is_right = four_are_answered(rt.alloc()).unwrap_or(false);
    assert!(rt; is_right);
}

/// Whether thread 0, which is parked joining 2, is told when that exits with 5.
fn is_told(threads: &mut Threads) -> bool {
    threads.join(0, 2);
    let was_joining = threads.is_joining(0) && !threads.is_joining(2);
    let joiner = exit(threads, 2, 5);
    let wanted = Fate::Exited {
        code: 5,
        joined: true,
    };
    let is_over = joiner == Some(0) && threads.fate(2) == Some(wanted) && threads.live() == 2;
    was_joining && is_over && !threads.is_joining(0)
}

/// Whether the first of four threads is told.
fn first_is_told(alloc: Global) -> Result<bool, NoMemory> {
    let mut threads = four_threads(alloc)?;
    Ok(is_told(&mut threads))
}

#[test]
fn an_exit_answers_its_joiner(rt: HostRuntime) {
    let is_right = first_is_told(rt.alloc()).unwrap_or(false);
    assert!(rt; is_right);
}
