//! A set of the cache: its lines, the most recent first.

ghost use Rattle.std.specs.Prelude.{◌≡◌, ◌≤◌, ◌<◌, ◌+◌, ◌*◌, ◌^◌, false, if◌then◌else◌, List, [], ◌∷◌, find, position, slice_index, IfOk, IfSome, vec_len};
ghost use Rattle.std.specs.Option.{option_copied, option_map};
ghost use Rattle.std.specs.Vec.{vec_capacity};
ghost use Rattle.sim_base.specs.LittleEndian.{loaded};
ghost use Rattle.tile_cache.specs.Cache.{has_line, is_m, others, with_line_changed, way_written, way_downgraded, last_way, has_repeat};
ghost use Rattle.tile_cache.specs.Kept.{at_front, hold_among, touched_ways};

use crate::ways::{Hold, Way};
use sim_base::{Line, NoMemory};
use std::alloc::Global;

/// A set of a cache: its lines, the most recent first, with memory for all that it will ever have.
#[derive(Drop)]
pub(crate) struct Set {
    pub(crate) ways: Vec<Way>,
}

impl Set {
    /// A set without lines, with memory for so many.
    pub(crate) fn new(alloc: Global, room: usize) -> Result<Set, NoMemory>
        ensures empty { IfOk result (λ set. set.ways.items ≡ []) }
        ensures memory { IfOk result (λ set. room ≤ vec_capacity set.ways) }
    {
        let ways = Vec::with_capacity(alloc, room)?;
        Ok(Set { ways })
    }

    /// How many lines it has.
    pub(crate) fn len(&self) -> usize
        ensures { result ≡ vec_len self.now.ways }
    {
        self.ways.len()
    }

    /// What it has of a line.
    #[inline]
    pub(crate) fn find(&self, line: Line) -> Option<&Way>
        ensures { option_copied result ≡ find (has_line line) self.now.ways.items }
    {
        self.ways.iter().find(|way| way.line == line)
    }

    /// Its least recent line.
    pub(crate) fn last(&self) -> Option<&Way>
        ensures { option_copied result ≡ last_way self.now.ways.items }
    {
        self.ways.last()
    }

    /// The place of a line.
    #[inline(always)]
    fn position(&self, line: Line) -> Option<usize>
        ensures { result ≡ position (has_line line) self.now.ways.items }
    {
        self.ways.iter().position(|way| way.line == line)
    }

    /// Brings a line to the front as it is.
    #[inline]
    pub(crate) fn touch(&mut self, line: Line)
        requires { has_repeat self.old.ways.items ≡ false }
        ensures ways { self.new.ways.items ≡ touched_ways line self.old.ways.items }
        ensures memory { vec_capacity self.old.ways ≤ vec_capacity self.new.ways }
    {
        if let Some(place) = self.position(line) {
            self.to_front(place);
        }
    }

    /// The number in the `size` bytes from `offset` on of a line that it has, which comes to the front.
    #[inline(always)]
    pub(crate) fn read(&mut self, line: Line, offset: u8, size: u8) -> Option<u64>
        requires once { has_repeat self.old.ways.items ≡ false }
        requires sized { size ≤ 8 }
        requires fits { offset + size ≤ 64 }
        ensures number { result ≡ option_map (λ way. loaded (slice_index way.content.bytes) offset size) (find (has_line line) self.old.ways.items) }
        ensures small { IfSome result (λ number. number < 2 ^ (8 * size)) }
        ensures ways { self.new.ways.items ≡ touched_ways line self.old.ways.items }
        ensures memory { vec_capacity self.old.ways ≤ vec_capacity self.new.ways }
    {
        let place = self.position(line)?;
        let number = self.ways[place].content.load(offset, size);
        self.to_front(place);
        Some(number)
    }

    /// Writes a number's low `size` bytes from `offset` on into a line that it has in M, which comes to the front, and
    /// gives true. Else nothing changes.
    #[inline(always)]
    pub(crate) fn overwrite(&mut self, line: Line, offset: u8, size: u8, value: u64) -> bool
        requires once { has_repeat self.old.ways.items ≡ false }
        requires sized { size ≤ 8 }
        requires fits { offset + size ≤ 64 }
        ensures held { result ≡ is_m (hold_among line self.old.ways.items) }
        ensures ways { self.new.ways.items ≡ (if is_m (hold_among line self.old.ways.items) then with_line_changed line (way_written offset size value) (touched_ways line self.old.ways.items) else self.old.ways.items) }
        ensures memory { vec_capacity self.old.ways ≤ vec_capacity self.new.ways }
    {
        let Some(place) = self.position(line) else {
            return false;
        };
        let hold = self.ways[place].hold;
        if !hold.is_m() {
            return false;
        }
        self.ways[place].content.store(offset, size, value);
        self.to_front(place);
        true
    }

    /// Brings the way at a place to the front, which is most often its place already.
    #[inline(always)]
    fn to_front(&mut self, place: usize)
        requires { place < vec_len self.old.ways }
        ensures ways { self.new.ways.items ≡ at_front place self.old.ways.items }
        ensures memory { vec_capacity self.old.ways ≤ vec_capacity self.new.ways }
    {
        if place > 0 {
            self.move_to_front(place);
        }
    }

    /// Brings the way at a place to the front, wherever it is.
    #[inline(never)]
    fn move_to_front(&mut self, place: usize)
        requires { place < vec_len self.old.ways }
        ensures ways { self.new.ways.items ≡ at_front place self.old.ways.items }
        ensures memory { vec_capacity self.old.ways ≤ vec_capacity self.new.ways }
    {
        let way = self.ways.remove(place);
        self.push_front(way);
    }

    /// Puts a line at the front that it doesn't have.
    pub(crate) fn push_front(&mut self, way: Way)
        requires { vec_len self.old.ways < vec_capacity self.old.ways }
        ensures ways { self.new.ways.items ≡ way ∷ self.old.ways.items }
        ensures memory { vec_capacity self.old.ways ≤ vec_capacity self.new.ways }
    {
        self.ways.insert(0, way).unwrap();
    }

    /// Takes a line out.
    pub(crate) fn take(&mut self, line: Line) -> Option<Way>
        requires { has_repeat self.old.ways.items ≡ false }
        ensures taken { result ≡ find (has_line line) self.old.ways.items }
        ensures ways { self.new.ways.items ≡ others line self.old.ways.items }
        ensures memory { vec_capacity self.new.ways ≡ vec_capacity self.old.ways }
    {
        match self.position(line) {
            Some(place) => Some(self.ways.remove(place)),
            None => None,
        }
    }

    /// Writes a number's low `size` bytes into a line from `offset` on.
    #[inline]
    pub(crate) fn write(&mut self, line: Line, offset: u8, size: u8, value: u64)
        requires once { has_repeat self.old.ways.items ≡ false }
        requires sized { size ≤ 8 }
        requires fits { offset + size ≤ 64 }
        ensures ways { self.new.ways.items
            ≡ with_line_changed line (way_written offset size value) self.old.ways.items }
        ensures memory { vec_capacity self.new.ways ≡ vec_capacity self.old.ways }
    {
        if let Some(place) = self.position(line) {
            self.ways[place].content.store(offset, size, value);
        }
    }

    /// Holds a line in S.
    pub(crate) fn downgrade(&mut self, line: Line)
        requires { has_repeat self.old.ways.items ≡ false }
        ensures ways { self.new.ways.items ≡ with_line_changed line way_downgraded self.old.ways.items }
        ensures memory { vec_capacity self.new.ways ≡ vec_capacity self.old.ways }
    {
        if let Some(place) = self.position(line) {
            self.ways[place].hold = Hold::S;
        }
    }
}
