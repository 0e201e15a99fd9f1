//! Cases of the futex table: who is woken, and in which order.

use futex_table::Futexes;
use sim_base::NoMemory;
use std::alloc::Global;

/// The address of the word at which threads are parked, and of another one.
const WORD: u64 = 0x1_0000;

const OTHER: u64 = 0x1_0040;

/// Threads 4, 7 and 2 are parked at one word, in this order, and 5 at another after the first of them.
fn four_parked(alloc: Global) -> Result<Futexes, NoMemory> {
    let mut futexes = Futexes::new(alloc)?;
    for (addr, thread) in [(WORD, 4), (OTHER, 5), (WORD, 7), (WORD, 2)] {
        if thread < u32::MAX && !futexes.is_parked(thread) {
            futexes.park(addr, thread)?;
        }
    }
    Ok(futexes)
}

/// Calls that wake threads, each with those that it wakes and how many are left parked.
static WAKES: [(u64, u32, &[u32], u32); 3] = [
    (WORD, 2, &[4, 7], 2),
    (WORD, u32::MAX, &[2], 1),
    (WORD, 1, &[], 1),
];

/// Whether the calls wake whom the rows say.
fn are_woken(alloc: Global, futexes: &mut Futexes) -> Result<bool, NoMemory> {
    let mut is_right = true;
    for &(addr, count, wanted, left) in &WAKES {
        let woken = futexes.wake(alloc, addr, count)?;
        is_right = is_right && woken.as_slice() == wanted && futexes.parked() == left;
    }
    Ok(is_right)
}

/// Whether the calls wake whom the rows say, and leave thread 5 parked.
fn longest_are_woken(alloc: Global) -> Result<bool, NoMemory> {
    let mut futexes = four_parked(alloc)?;
    let are_woken = are_woken(alloc, &mut futexes)?;
    Ok(are_woken && futexes.is_parked(5))
}

#[test]
fn the_longest_parked_are_woken(rt: HostRuntime) {
    let is_right = longest_are_woken(rt.alloc()).unwrap_or(false);
    assert!(rt; is_right);
}
