//! What threads of the flat machine ask to be served, and what the answers change.

ghost use Rattle.std.specs.Prelude.{◌≡◌, ◌==◌, ◌&&◌, not, IfOk, map, filter, length, slice_get};
ghost use Rattle.serving.specs.ControlData.{live_count, is_live, is_waiting, is_joiner, is_joining};
ghost use Rattle.serving.specs.Join.{join_of, joiner_of};
ghost use Rattle.serving.specs.Serving.{is_full, end_of_exit, woken_with};
ghost use Rattle.serving.specs.Wake.{longest_at, woken, still_parked};
ghost use Rattle.flat_machine.specs.State.{with_status};
ghost use Rattle.flat_machine.specs.Serving.{fate_of, request_of, woken_threads};
ghost use Rattle.flat_machine.specs.Inner.{with_joiner, is_parked_by, are_all_parked_by};

use crate::threads::{Status, Thread};
use elf_image::World;
use serving::{Fate, Join, MOST_THREADS, Request, Waiter, join_by, joiner_by};
use sim_base::{End, NoMemory};
use std::alloc::Global;
use wire_msg::Call;

/// What a thread asks to be served, by its status. It takes memory for the bytes of a write alone.
pub(crate) fn request_of(alloc: Global, status: &Status) -> Result<Option<Request>, NoMemory>
    ensures { IfOk result (λ request. request ≡ request_of status.now) }
{
    let request = match status {
        Status::Writing { len, bytes, .. } => {
            if (bytes.len() as u64) < *len {
                return Ok(None);
            }
            let bytes = bytes.copy(alloc)?;
            Request::Call {
                call: Call::Write { bytes },
            }
        }
        Status::Asked { call } => Request::Call {
            call: call.copy(alloc)?,
        },
        Status::Left { code } => Request::Exit { code: *code },
        Status::Trapped { cause, pc } => Request::Trap {
            cause: *cause,
            pc: *pc,
        },
        Status::New { .. }
        | Status::Ready
        | Status::Parked
        | Status::Answered { .. }
        | Status::Gone { .. } => return Ok(None),
    };
    Ok(Some(request))
}

/// What has become of a thread.
fn fate_of(thread: &Thread) -> Fate
    ensures { result ≡ fate_of thread.now }
{
    match thread.status {
        Status::Gone { code, joined } => Fate::Exited { code, joined },
        _ => Fate::Live {
            joiner: thread.joiner,
        },
    }
}

/// What has become of the thread with this index, if it ever began.
fn fate_at(threads: &[Thread], index: usize) -> Option<Fate>
    ensures { result ≡ slice_get (map fate_of threads.now) index }
{
    if index < threads.len() {
        Some(fate_of(&threads[index]))
    } else {
        None
    }
}

/// What a join by `caller` of the thread with the number `target` comes to.
pub(crate) fn join_of(threads: &[Thread], caller: u32, target: u64) -> Join
    ensures { result ≡ join_of (map fate_of threads.now) caller target }
{
    join_by(caller, target, fate_at(threads, target as usize))
}

/// The thread that is parked joining the one with this number, if one is.
pub(crate) fn joiner_of(threads: &[Thread], number: u32) -> Option<u32>
    ensures { result ≡ joiner_of (map fate_of threads.now) number }
{
    match fate_at(threads, number as usize) {
        Some(fate) => joiner_by(fate),
        None => None,
    }
}

/// The thread with this index, if there is one, has this status.
pub(crate) fn set_status(threads: &mut Vec<Thread>, index: usize, status: Status)
    ensures { threads.new.items ≡ with_status threads.old.items index status }
{
    if index < threads.len() {
        threads[index].status = status;
    }
}

/// Somebody is parked joining the thread with this index, if there is one.
pub(crate) fn set_joiner(threads: &mut Vec<Thread>, index: usize, joiner: Option<u32>)
    ensures { threads.new.items ≡ with_joiner threads.old.items index joiner }
{
    if index < threads.len() {
        threads[index].joiner = joiner;
    }
}

/// Wakes at most `count` of those that are parked at an address, the longest parked first, with the answer 0. The
/// answer is how many.
pub(crate) fn wake(
    threads: &mut Vec<Thread>,
    waiters: &mut Vec<Waiter>,
    addr: u64,
    count: u32,
) -> u32
    ensures threads { threads.new.items ≡ woken_threads (map (woken_with 0) (woken addr count waiters.old.items)) threads.old.items }
    ensures waiters { waiters.new.items ≡ still_parked addr count waiters.old.items }
    ensures count { result ≡ length (woken addr count waiters.old.items) }
{
    for done in 0..count {
        let Some(thread) = longest_at(waiters.as_slice(), addr) else {
            return done;
        };
        remove(waiters, thread);
        set_status(threads, thread as usize, Status::Answered { value: 0 });
    }
    count
}

/// The thread that is parked longest at an address, if one is.
fn longest_at(waiters: &[Waiter], addr: u64) -> Option<u32>
    ensures { result ≡ longest_at addr waiters.now }
{
    for waiter in waiters {
        if waiter.addr == addr {
            return Some(waiter.thread);
        }
    }
    None
}

/// A thread is parked at no word any more.
fn remove(waiters: &mut Vec<Waiter>, thread: u32)
    ensures { waiters.new.items ≡ filter (λ w. not (w.thread == thread)) waiters.old.items }
{
    waiters.retain(|waiter| waiter.thread != thread);
}

/// Whether no thread can be spawned: as many are live as the machine has tiles, or no number is left.
pub(crate) fn is_full(world: &World, threads: &[Thread]) -> bool
    ensures { result ≡ is_full world.now (map fate_of threads.now) }
{
    world.config().tiles as usize <= live_count(threads) || MOST_THREADS as usize <= threads.len()
}

/// How many threads are live.
fn live_count(threads: &[Thread]) -> usize
    ensures { result ≡ live_count (map fate_of threads.now) }
{
    threads.iter().filter(|thread| is_live(thread)).count()
}

/// Whether a thread's exit isn't served yet.
fn is_live(thread: &Thread) -> bool
    ensures { result ≡ is_live (fate_of thread.now) }
{
    !matches!(thread.status, Status::Gone { .. })
}

/// The end after an exit with this code, if it is one: where no thread is live any more.
pub(crate) fn end_of_exit(threads: &[Thread], code: u8) -> Option<End>
    ensures { result ≡ end_of_exit (map fate_of threads.now) code }
{
    if live_count(threads) == 0 {
        Some(End::Exit { code })
    } else {
        None
    }
}

/// Whether threads are live and all of them are parked, so that none can go on.
pub(crate) fn is_stuck(threads: &[Thread], waiters: &[Waiter]) -> bool
    ensures { result ≡ (not (live_count (map fate_of threads.now) == 0) && are_all_parked_by (map fate_of threads.now) waiters.now) }
{
    live_count(threads) != 0 && are_all_parked(threads, waiters)
}

/// Whether all live threads are parked.
fn are_all_parked(threads: &[Thread], waiters: &[Waiter]) -> bool
    ensures { result ≡ are_all_parked_by (map fate_of threads.now) waiters.now }
{
    for (index, thread) in threads.iter().enumerate() {
        if is_live(thread) && !is_parked(threads, waiters, index) {
            return false;
        }
    }
    true
}

/// Whether the thread with this index is parked.
fn is_parked(threads: &[Thread], waiters: &[Waiter], index: usize) -> bool
    ensures { result ≡ is_parked_by (map fate_of threads.now) waiters.now index }
{
    is_waiting(waiters, index) || is_joining(threads, index)
}

/// Whether the thread with this index is parked at a word.
fn is_waiting(waiters: &[Waiter], index: usize) -> bool
    ensures { result ≡ is_waiting waiters.now index }
{
    waiters.iter().any(|waiter| waiter.thread as usize == index)
}

/// Whether the thread with this index is parked joining another one.
fn is_joining(threads: &[Thread], index: usize) -> bool
    ensures { result ≡ is_joining (map fate_of threads.now) index }
{
    threads.iter().any(|thread| is_joiner(index, thread))
}

/// Whether the thread with this index is parked joining this one.
fn is_joiner(index: usize, thread: &Thread) -> bool
    ensures { result ≡ is_joiner index (fate_of thread.now) }
{
    match fate_of(thread) {
        Fate::Live {
            joiner: Some(joiner),
        } => joiner as usize == index,
        _ => false,
    }
}
