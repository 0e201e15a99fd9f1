//! Cases of the private cache: the order of ways, holds, and numbers that are written.

ghost use Rattle.std.specs.Prelude.{◌≤◌};

use sim_base::{Line, LineData, NoMemory};
use std::alloc::Global;
use tile_cache::{Cache, Hold};

/// A call of a cache.
#[derive(Clone, Copy)]
enum Call {
    Place(Line, Hold),
    Touch(Line),
    Drop(Line),
    Downgrade(Line),
}

/// Calls of a cache with one set of four ways, each with what then has to leave before line 9 is placed.
static ONE_SET: [(Call, Option<(Line, Hold)>); 12] = [
    (Call::Place(1, Hold::S), None),
    (Call::Place(2, Hold::M), None),
    (Call::Place(3, Hold::S), None),
    (Call::Place(4, Hold::M), Some((1, Hold::S))),
    (Call::Touch(1), Some((2, Hold::M))),
    (Call::Touch(1), Some((2, Hold::M))),
    (Call::Downgrade(2), Some((2, Hold::S))),
    (Call::Place(2, Hold::M), Some((3, Hold::S))),
    (Call::Touch(4), Some((3, Hold::S))),
    (Call::Drop(3), None),
    (Call::Place(5, Hold::S), Some((1, Hold::S))),
    (Call::Downgrade(7), Some((1, Hold::S))),
];

/// Calls of a cache with three sets of one way, each with how lines 3, 4 and 7 are then held.
static THREE_SETS: [(Call, Option<Hold>, Option<Hold>, Option<Hold>); 6] = [
    (Call::Place(3, Hold::M), Some(Hold::M), None, None),
    (Call::Place(4, Hold::S), Some(Hold::M), Some(Hold::S), None),
    (Call::Downgrade(3), Some(Hold::S), Some(Hold::S), None),
    (Call::Drop(4), Some(Hold::S), None, None),
    (Call::Place(7, Hold::M), Some(Hold::S), None, Some(Hold::M)),
    (Call::Touch(7), Some(Hold::S), None, Some(Hold::M)),
];

/// Writes into line 5: the offset, the size and the value, and the number in the eight bytes at offset 8 after it.
static WRITES: [(u8, u8, u64, u64); 5] = [
    (8, 8, 0x0807_0605_0403_0201, 0x0807_0605_0403_0201),
    (10, 2, 0xcafe_abcd, 0x0807_0605_abcd_0201),
    (15, 1, 0xff, 0xff07_0605_abcd_0201),
    (12, 4, 0xdead_beef, 0xdead_beef_abcd_0201),
    (16, 4, 0, 0xdead_beef_abcd_0201),
];

/// Makes a call, if the cache allows it, and says whether it does.
fn make(cache: &mut Cache, call: Call) -> bool {
    match call {
        Call::Place(line, hold) => {
            let has_room = cache.victim(line).is_none();
            if has_room {
                cache.place(line, hold, LineData::zeros());
            }
            has_room
        }
        Call::Touch(line) => {
            let is_there = cache.find(line).is_some();
            if is_there {
                cache.touch(line);
            }
            is_there
        }
        Call::Drop(line) => cache.drop_line(line).is_some(),
        Call::Downgrade(line) => {
            cache.downgrade(line);
            true
        }
    }
}

/// The number at an offset of line 5, where the cache has it.
fn number_at(cache: &Cache, offset: u8) -> Option<u64>
    requires { offset ≤ 56 }
{
    cache.find(5)?;
    Some(cache.content(5).load(offset, 8))
}

/// Writes into line 5, if the cache allows it, and says whether it does.
fn write(cache: &mut Cache, offset: u8, size: u8, value: u64) -> bool {
    let is_allowed = size <= 8 && offset <= 56 && cache.find(5) == Some(Hold::M);
    if is_allowed {
        cache.write(5, offset, size, value);
    }
    is_allowed
}

/// Whether the calls of a cache with one set make the lines of the rows the next that leave.
fn leave_in_order(cache: &mut Cache) -> bool {
    let mut is_right = true;
    for &(call, victim) in &ONE_SET {
        is_right = is_right && make(cache, call) && cache.victim(9) == victim;
    }
    is_right
}

/// How lines 3, 4 and 7 are held.
fn holds(cache: &Cache) -> (Option<Hold>, Option<Hold>, Option<Hold>) {
    (cache.find(3), cache.find(4), cache.find(7))
}

/// Whether the lines are held as the rows say.
fn are_held(cache: &mut Cache) -> bool {
    let mut is_right = true;
    for &(call, of_3, of_4, of_7) in &THREE_SETS {
        is_right = is_right && make(cache, call) && holds(cache) == (of_3, of_4, of_7);
    }
    is_right
}

/// Whether line 5 has the numbers of the rows, one write after another.
fn are_written(cache: &mut Cache) -> bool {
    let mut is_right = true;
    for &(offset, size, value, number) in &WRITES {
        let is_made = write(cache, offset, size, value);
        is_right = is_right && is_made && number_at(cache, 8) == Some(number);
    }
    is_right
}

/// Whether the least recent of four has to leave.
fn least_recent_leaves(alloc: Global) -> Result<bool, NoMemory> {
    let mut cache = Cache::new(alloc, 1, 4)?;
    let is_right = leave_in_order(&mut cache);
    Ok(is_right && cache.victim(4).is_none())
}

#[test]
fn the_least_recent_of_four_has_to_leave(rt: HostRuntime) {
    let is_right = least_recent_leaves(rt.alloc()).unwrap_or(false);
    assert!(rt; is_right);
}

/// Whether the sets that lines 6 and 4 lie in are full, and that of line 5 isn't.
fn are_full(cache: &Cache) -> bool {
    cache.victim(6) == Some((3, Hold::S))
        && cache.victim(4) == Some((7, Hold::M))
        && cache.victim(5).is_none()
}

/// Whether each of three lines lies in its own set.
fn lie_apart(alloc: Global) -> Result<bool, NoMemory> {
    let mut cache = Cache::new(alloc, 3, 1)?;
    let are_held = are_held(&mut cache);
    Ok(are_held && are_full(&cache))
}

#[test]
fn lines_lie_in_their_own_sets(rt: HostRuntime) {
    let is_right = lie_apart(rt.alloc()).unwrap_or(false);
    assert!(rt; is_right);
}

/// A cache in which each byte of line 5 is 0x11.
fn with_line_5(alloc: Global) -> Result<Cache, NoMemory> {
    let mut cache = Cache::new(alloc, 2, 4)?;
    if cache.victim(5).is_none() {
        cache.place(5, Hold::M, LineData { bytes: [0x11; 64] });
    }
    Ok(cache)
}

/// Whether line 5 has the numbers of the rows, the others around them stay, and it is there to be dropped.
fn are_little_endian(alloc: Global) -> Result<bool, NoMemory> {
    let mut cache = with_line_5(alloc)?;
    let are_written = are_written(&mut cache);
    let before = number_at(&cache, 0) == Some(0x1111_1111_1111_1111);
    let behind = number_at(&cache, 16) == Some(0x1111_1111_0000_0000);
    Ok(are_written && before && behind && cache.drop_line(5).is_some())
}

#[test]
fn writes_are_little_endian_at_their_offset(rt: HostRuntime) {
    let is_right = are_little_endian(rt.alloc()).unwrap_or(false);
    assert!(rt; is_right);
}
