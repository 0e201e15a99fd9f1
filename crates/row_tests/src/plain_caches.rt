//! A cache beside a plain list of ways: both answer the same over many calls.

ghost use Rattle.std.specs.Prelude.{◌<◌, IfSome, vec_len};

use crate::draws::draw;
use sim_base::{Line, LineData, NoMemory};
use std::alloc::Global;
use tile_cache::{Cache, Hold, Way};

/// How many sets the cache has, and how many ways a set.
const SETS: u32 = 3;

const WAYS: u32 = 4;

/// What a cache holds, as one list of ways, the most recent first.
#[derive(Drop)]
struct Plain {
    held: Vec<Way>,
}

impl Plain {
    /// The place of a line.
    fn place(&self, line: Line) -> Option<usize>
        ensures { IfSome result (λ place. place < vec_len self.now.held) }
    {
        for (place, way) in self.held.iter().enumerate() {
            if way.line == line {
                return Some(place);
            }
        }
        None
    }

    /// How a line is held and what it holds.
    fn find(&self, line: Line) -> Option<(Hold, LineData)> {
        let way = &self.held[self.place(line)?];
        Some((way.hold, way.content))
    }

    /// The line that has to leave before another is placed, with its hold.
    fn victim(&self, line: Line) -> Option<(Line, Hold)> {
        let mut count = 0u32;
        let mut last = None;
        for way in &self.held {
            if way.line == line {
                return None;
            }
            if way.line % SETS as u64 == line % SETS as u64 {
                count = count.saturating_add(1);
                last = Some((way.line, way.hold));
            }
        }
        if count < WAYS { None } else { last }
    }

    /// Takes a line out.
    fn take(&mut self, line: Line) -> Option<Way> {
        let place = self.place(line)?;
        Some(self.held.remove(place))
    }

    /// Puts a way first, in the place of what it had of the line.
    fn put(&mut self, way: Way) -> Result<(), NoMemory> {
        let _ = self.take(way.line);
        self.held.insert(0, way)?;
        Ok(())
    }

    /// Writes a byte at an offset of a line.
    fn write(&mut self, line: Line, offset: u8, byte: u8) {
        if let Some(place) = self.place(line) {
            if offset < 64 {
                self.held[place].content.bytes[offset as usize] = byte;
            }
        }
    }

    /// Holds a line in S.
    fn downgrade(&mut self, line: Line) {
        if let Some(place) = self.place(line) {
            self.held[place].hold = Hold::S;
        }
    }
}

/// Brings a line to the front of both, where the cache has it.
fn touch(cache: &mut Cache, plain: &mut Plain, line: Line) -> Result<(), NoMemory> {
    if cache.find(line).is_some() {
        cache.touch(line);
    }
    if let Some(way) = plain.take(line) {
        plain.put(way)?;
    }
    Ok(())
}

/// Writes a byte into a line of both, where the cache has it in M.
fn write(cache: &mut Cache, plain: &mut Plain, line: Line, byte: u8) {
    if cache.find(line) == Some(Hold::M) {
        let offset = byte % 64;
        cache.write(line, offset, 1, byte as u64);
        plain.write(line, offset, byte);
    }
}

/// Reads a byte of a line of both, which comes to the front, and says whether both give the same.
fn read(cache: &mut Cache, plain: &mut Plain, line: Line, offset: u8) -> Result<bool, NoMemory>
    requires { offset < 64 }
{
    let number = cache.read(line, offset, 1);
    let Some(way) = plain.take(line) else {
        return Ok(number.is_none());
    };
    let is_same = number == Some(way.content.bytes[offset as usize] as u64);
    plain.put(way)?;
    Ok(is_same)
}

/// Writes a byte into a line of both that is held in M, and comes to the front, and says whether both do.
fn overwrite(cache: &mut Cache, plain: &mut Plain, line: Line, byte: u8) -> Result<bool, NoMemory> {
    let is_held = matches!(plain.find(line), Some((Hold::M, _)));
    let offset = byte % 64;
    let is_written = cache.overwrite(line, offset, 1, byte as u64);
    if is_held {
        plain.write(line, offset, byte);
        if let Some(way) = plain.take(line) {
            plain.put(way)?;
        }
    }
    Ok(is_written == is_held)
}

/// Takes a line out of both, and says whether both give the same.
fn drop_line(cache: &mut Cache, plain: &mut Plain, line: Line) -> bool {
    match (cache.drop_line(line), plain.take(line)) {
        (Some(content), Some(way)) => content == way.content,
        (None, None) => true,
        _ => false,
    }
}

/// Places a line in both once its victim is dropped, and says whether both give the same.
fn place(cache: &mut Cache, plain: &mut Plain, way: Way) -> Result<bool, NoMemory> {
    let mut is_same = cache.victim(way.line) == plain.victim(way.line);
    if let Some((victim, _)) = cache.victim(way.line) {
        is_same = drop_line(cache, plain, victim) && is_same;
    }
    if cache.victim(way.line).is_none() {
        cache.place(way.line, way.hold, way.content);
    }
    plain.put(way)?;
    Ok(is_same)
}

/// Makes one of seven calls of both, and says whether both answer the same.
fn change(
    cache: &mut Cache,
    plain: &mut Plain,
    call: u64,
    line: Line,
    byte: u8,
) -> Result<bool, NoMemory> {
    let content = LineData { bytes: [byte; 64] };
    let hold = if byte % 2 == 0 { Hold::M } else { Hold::S };
    match call {
        0..3 => return place(
            cache,
            plain,
            Way {
                line,
                hold,
                content,
            },
        ),
        3 | 4 => touch(cache, plain, line)?,
        5 => return Ok(drop_line(cache, plain, line)),
        6 => {
            cache.downgrade(line);
            plain.downgrade(line);
        }
        7 => write(cache, plain, line, byte),
        8 => return read(cache, plain, line, byte % 64),
        _ => return overwrite(cache, plain, line, byte),
    }
    Ok(true)
}

/// How a line of a cache is held and what it holds.
fn find(cache: &Cache, line: Line) -> Option<(Hold, LineData)> {
    let way = cache.get(line)?;
    Some((way.hold, way.content))
}

/// Whether both have the same of a line, and the same has to leave before it is placed.
fn look_same(cache: &Cache, plain: &Plain, line: Line) -> bool {
    find(cache, line) == plain.find(line) && cache.victim(line) == plain.victim(line)
}

/// Whether a cache and a list of ways stay the same over so many calls.
fn stay_same(alloc: Global, calls: u64) -> Result<bool, NoMemory> {
    let mut cache = Cache::new(alloc, SETS, WAYS)?;
    let mut plain = Plain {
        held: Vec::new(alloc),
    };
    let mut state = 1;
    let mut is_same = true;
    for _ in 0..calls {
        let call = draw(&mut state, 10);
        let line = draw(&mut state, 20);
        let byte = draw(&mut state, 256) as u8;
        let answers = change(&mut cache, &mut plain, call, line, byte)?;
        let looks = look_same(&cache, &plain, draw(&mut state, 20));
        is_same = is_same && answers && looks;
    }
    Ok(is_same)
}

#[test]
fn caches_are_lists_of_ways(rt: HostRuntime) {
    let is_right = stay_same(rt.alloc(), 5_000).unwrap_or(false);
    assert!(rt; is_right);
}
