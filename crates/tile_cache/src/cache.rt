//! The private cache: find, place, read, write and drop a line.

ghost use Rattle.std.specs.Prelude.{◌≡◌, ◌≤◌, ◌<◌, ◌+◌, ◌*◌, ◌^◌, if◌then◌else◌, IsSome, IfOk, IfSome, Some, None, length};
ghost use Rattle.std.specs.Option.{option_copied};
ghost use Rattle.tile_cache.specs.Kept.{cache_of, IsKept};
ghost use Rattle.tile_cache.specs.Cache.{IsCache, set_number, set_of, empty_cache, way_of, hold_of, content_of, number_of, is_m, touched, written, victim_of, LeavesRoom, placed, without_line, downgraded};

use crate::set::Set;
use crate::ways::{Hold, Way};
use divisors::Divisor;
use sim_base::{Line, LineData, NoMemory};
use std::alloc::Global;
use std::marker::Model;

/// A private cache: set-associative and write-back. A line lies in the set of its number modulo the number
/// of sets, and the lines of a set stand in the order of their last use. The rules are this simulator's
/// own, after Graphite (HPCA 2010). No call but [`Cache::new`] can run out of memory.
#[derive(Drop)]
pub struct Cache {
    ways: u32,
    sets: Vec<Set>,
    count: Divisor,
}

impl Model for Cache {
    ghost use Rattle.std.specs.Prelude.{◌≡◌, length};
    ghost use Rattle.tile_cache.specs.Cache.{Sets};

    ghost Value = { Sets };

    ghost use Rattle.tile_cache.specs.Kept.{cache_of, IsKept};

    ghost view = { λ c. cache_of c.ways c.sets.items };

    ghost invariant = { λ c. IsKept c.ways c.sets.items × (c.count ≡ length c.sets.items) };
}

impl Cache {
    /// A cache without lines, with memory for all that it will ever hold. Both numbers are above 0.
    pub fn new(alloc: Global, sets: u32, ways: u32) -> Result<Cache, NoMemory>
        requires some_set { 0 < sets }
        requires some_way { 0 < ways }
        ensures { IfOk result (λ cache. cache ≡ empty_cache sets ways) }
    {
        let count = Divisor::new(sets);
        let sets = empty_sets(alloc, sets, ways)?;
        Ok(Cache { ways, sets, count })
    }

    /// How a line is held, if it is there.
    pub fn find(&self, line: Line) -> Option<Hold>
        ensures hold { result ≡ hold_of self.now line }
        ensures known { IsCache self.now }
    {
        self.set(line).find(line).map(|way| way.hold)
    }

    /// Lends a line, with how it is held, if it is there.
    #[inline]
    pub fn get(&self, line: Line) -> Option<&Way>
        ensures { option_copied result ≡ way_of self.now line }
    {
        self.set(line).find(line)
    }

    /// Lends what a line holds that is there.
    pub fn content(&self, line: Line) -> &LineData
        requires { IsSome (hold_of self.now line) }
        ensures { content_of self.now line ≡ Some result.now }
    {
        match self.set(line).find(line) {
            Some(way) => &way.content,
            None => unreachable!(),
        }
    }

    /// Makes a line that is there the most recent of its set.
    #[inline]
    pub fn touch(&mut self, line: Line)
        requires { IsSome (hold_of self.old line) }
        ensures cache { self.new ≡ touched self.old line }
        ensures way { way_of self.new line ≡ way_of self.old line }
    {
        let number = self.number(line);
        self.sets[number].touch(line);
    }

    /// Writes a number's low `size` bytes, little-endian as in RISC-V, from `offset` on of a line that is
    /// held in M. `size` is at most 8.
    #[inline]
    pub fn write(&mut self, line: Line, offset: u8, size: u8, value: u64)
        requires held { hold_of self.old line ≡ Some Hold.M }
        requires sized { size ≤ 8 }
        requires fits { offset + size ≤ 64 }
        ensures { self.new ≡ written self.old line offset size value }
    {
        let number = self.number(line);
        self.sets[number].write(line, offset, size, value);
    }

    /// The number in the `size` bytes from `offset` on of a line, little-endian as in RISC-V, and the line becomes the most
    /// recent of its set. Where the line isn't there nothing changes. `size` is at most 8.
    #[inline(always)]
    pub fn read(&mut self, line: Line, offset: u8, size: u8) -> Option<u64>
        requires sized { size ≤ 8 }
        requires fits { offset + size ≤ 64 }
        ensures number { result ≡ number_of self.old line offset size }
        ensures small { IfSome result (λ number. number < 2 ^ (8 * size)) }
        ensures cache { self.new ≡ touched self.old line }
    {
        let number = self.number(line);
        self.sets[number].read(line, offset, size)
    }

    /// Where a line is held in M, writes a number's low `size` bytes from `offset` on of it, little-endian as in RISC-V, makes
    /// it the most recent of its set, and gives true. Else nothing changes. `size` is at most 8.
    #[inline(always)]
    pub fn overwrite(&mut self, line: Line, offset: u8, size: u8, value: u64) -> bool
        requires sized { size ≤ 8 }
        requires fits { offset + size ≤ 64 }
        ensures held { result ≡ is_m (hold_of self.old line) }
        ensures cache { self.new ≡ (if is_m (hold_of self.old line) then written (touched self.old line) line offset size value else self.old) }
    {
        let number = self.number(line);
        self.sets[number].overwrite(line, offset, size, value)
    }

    /// The line that has to leave before another is placed, with its hold: the least recent of the set,
    /// where the set is full and doesn't have the line.
    pub fn victim(&self, line: Line) -> Option<(Line, Hold)>
        ensures victim { result ≡ victim_of self.now line }
        ensures known { IsCache self.now }
    {
        let set = self.set(line);
        if set.find(line).is_some() || set.len() < self.ways as usize {
            return None;
        }
        set.last().map(|way| (way.line, way.hold))
    }

    /// Places a line at the front of its set, in the place of what the cache had of it. The set has the line
    /// or has room.
    pub fn place(&mut self, line: Line, hold: Hold, content: LineData)
        requires { victim_of self.old line ≡ None }
        ensures cache { self.new ≡ placed self.old line hold content }
        ensures way { way_of self.new line ≡ Some (record { line = line; hold = hold; content = content }) }
    {
        let number = self.number(line);
        let set = &mut self.sets[number];
        let _ = set.take(line);
        set.push_front(Way {
            line,
            hold,
            content,
        });
    }

    /// Takes a line out, and gives what it held. Where it isn't there, nothing changes.
    pub fn drop_line(&mut self, line: Line) -> Option<LineData>
        ensures content { result ≡ content_of self.old line }
        ensures cache { self.new ≡ without_line self.old line }
        ensures room { LeavesRoom self.old line self.new }
    {
        let number = self.number(line);
        self.sets[number].take(line).map(|way| way.content)
    }

    /// Holds a line in S from now on. Where it isn't there, nothing changes.
    pub fn downgrade(&mut self, line: Line)
        ensures { self.new ≡ downgraded self.old line }
    {
        let number = self.number(line);
        self.sets[number].downgrade(line);
    }

    /// The number of a line's set.
    #[inline(always)]
    fn number(&self, line: Line) -> usize
        ensures number { result ≡ set_number self.now line }
        ensures within { result < length self.now.sets }
    {
        self.count.remainder(line) as usize
    }

    /// A line's set.
    #[inline]
    fn set(&self, line: Line) -> &Set
        ensures ways { result.now.ways.items ≡ set_of self.now line }
        ensures known { IsCache self.now }
    {
        &self.sets[self.number(line)]
    }
}

/// Sets without lines, each with memory for so many.
#[tactic(auto, unfolding(crate::specs::Cache::empty_cache))]
fn empty_sets(alloc: Global, sets: u32, ways: u32) -> Result<Vec<Set>, NoMemory>
    requires some_set { 0 < sets }
    requires some_way { 0 < ways }
    ensures count { IfOk result (λ made. length made.items ≡ sets) }
    ensures kept { IfOk result (λ made. IsKept ways made.items) }
    ensures empty { IfOk result (λ made. cache_of ways made.items ≡ empty_cache sets ways) }
{
    let mut made = Vec::with_capacity(alloc, sets as usize)?;
    for _ in 0..sets {
        made.push(Set::new(alloc, ways as usize)?)?;
    }
    Ok(made)
}
