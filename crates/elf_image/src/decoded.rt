//! The instructions of an executable segment, decoded once, with a search by the pc.

ghost use Rattle.std.specs.Prelude.{◌≡◌, ◌≤◌, ◌^◌, ◌%◌, length, map, filter, All, IfOk};
ghost use Rattle.std.specs.Option.{option_copied};
ghost use Rattle.elf_image.specs.Image.{IsSegment, grants_execute};
ghost use Rattle.elf_image.specs.Decoded.{decoded_of, found_in, first_found};

use crate::listed::Listed;
use crate::program::Segment;
use sim_base::NoMemory;
use std::alloc::Global;
use std::marker::Model;

/// How many bytes an instruction word has.
const WORD: u64 = 4;

/// The instructions of an executable segment, decoded once and each with its class: one row for each multiple of 4
/// from the segment's start to the end of its bytes, and none where the word has no row. The words past the bytes
/// are 0, which is no instruction.
#[derive(Drop)]
pub struct Decoded {
    first: u64,
    rows: Vec<Option<Listed>>,
}

impl Model for Decoded {
    ghost use Rattle.elf_image.specs.Decoded.{Rows};

    ghost Value = { Rows };

    ghost view = { λ d. record { first = d.first; rows = d.rows.items } };
}

impl Decoded {
    /// Decodes the words of a segment.
    #[tactic(auto, unfolding(crate::specs::Decoded::decoded_of))]
    pub fn of(alloc: Global, segment: &Segment) -> Result<Decoded, NoMemory>
        requires { IsSegment segment.now }
        ensures { IfOk result (λ decoded. decoded ≡ decoded_of segment.now) }
    {
        let first = segment.vaddr.next_multiple_of(WORD);
        let end = segment.vaddr + segment.bytes.len() as u64;
        let count = end.saturating_sub(first).div_ceil(WORD);
        let mut rows = Vec::with_capacity(alloc, count as usize)?;
        for place in 0..count {
            rows.push(segment.listed_at(first + WORD * place))?;
        }
        Ok(Decoded { first, rows })
    }

    /// Lends the row at a multiple of 4.
    #[tactic(auto, unfolding(crate::specs::Decoded::found_in))]
    #[inline(always)]
    pub fn listed(&self, pc: u64) -> Option<&Listed>
        ensures { option_copied result ≡ found_in self.now pc }
    {
        let place = pc.checked_sub(self.first)? / WORD;
        self.rows.get(place as usize)?.as_ref()
    }
}

/// The executable ones of some segments, decoded.
pub fn decode_all(alloc: Global, segments: &[Segment]) -> Result<Vec<Decoded>, NoMemory>
    requires { All IsSegment segments.now }
    ensures { IfOk result (λ tables. tables.items ≡ map decoded_of (filter grants_execute segments.now)) }
{
    let mut tables = Vec::new(alloc);
    for segment in segments {
        if segment.is_executable() {
            tables.push(Decoded::of(alloc, segment)?)?;
        }
    }
    Ok(tables)
}

/// Lends the first row at a multiple of 4. A hit in the first table takes no call.
#[inline(always)]
pub fn first_found(tables: &[Decoded], pc: u64) -> Option<&Listed>
    ensures { option_copied result ≡ first_found tables.now pc }
{
    let (table, rest) = tables.split_first()?;
    if let Some(listed) = table.listed(pc) {
        return Some(listed);
    }
    found_later(rest, pc)
}

/// Lends the first row at a multiple of 4, by a search of the tables one after the other.
#[inline(never)]
fn found_later(tables: &[Decoded], pc: u64) -> Option<&Listed>
    ensures { option_copied result ≡ first_found tables.now pc }
{
    for table in tables {
        if let Some(listed) = table.listed(pc) {
            return Some(listed);
        }
    }
    None
}
