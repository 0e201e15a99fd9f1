//! An image: its segments and the entry, and the bytes that memory has before the program runs.

ghost use Rattle.std.specs.Prelude.{◌≡◌, ◌+◌, ◌^◌, ◌<◌, ◌≤◌, ◌&&◌, find, map, IfSome, IfOk, IsTrue, nat_lt};
ghost use Rattle.std.specs.List.{range_with_len, list_any};
ghost use Rattle.byteorder.specs.Endian.{little_number};
ghost use Rattle.std.specs.Option.{option_copied};
ghost use Rattle.elf_image.specs.Layout.{byte_of, holds_word};
ghost use Rattle.elf_image.specs.Decoded.{row_at, program_row};
ghost use Rattle.elf_image.specs.Inner.{grants, holds_range, grants_range};
ghost use Rattle.elf_image.specs.Image.{holds, segment_end, share_byte, grants_execute, grants_write, grants_read, some_reads, some_writes, IsProgram};

use crate::address_map::Right;
use crate::decoded::{Decoded, decode_all, first_found};
use crate::listed::Listed;
use byteorder::{ByteOrder, LittleEndian};
use rv_decode::{Instr, decode};
use sim_base::{Bytes, NoMemory};
use std::alloc::Global;
use std::marker::Model;

/// The first address past those that a segment may have: 2^32.
const ADDRESS_END: u64 = 1 << 32;

/// A part of a program that is loaded into memory: the addresses from `vaddr` to `vaddr + memsz`.
#[derive(Drop)]
pub struct Segment {
    /// Its first address.
    pub vaddr: u64,
    /// How many bytes it has in memory.
    pub memsz: u64,
    /// What may be done there: 1 is execute, 2 is write, 4 is read. Below 8.
    pub flags: u32,
    /// Its first bytes, at most `memsz`; those past them are zero.
    pub bytes: Bytes,
}

impl Segment {
    /// Whether an address lies in the segment.
    pub(crate) fn holds(&self, address: u64) -> bool
        ensures { result ≡ holds self.now address }
    {
        self.vaddr <= address && address - self.vaddr < self.memsz
    }

    /// Whether it ends above 2^32.
    pub(crate) fn ends_too_high(&self) -> bool
        ensures { result ≡ nat_lt (2 ^ 32) (segment_end self.now) }
    {
        self.memsz > ADDRESS_END || self.vaddr > ADDRESS_END - self.memsz
    }

    /// Whether some address lies in both: then the later of the starts does.
    pub(crate) fn shares_byte(&self, other: &Segment) -> bool
        ensures { result ≡ share_byte self.now other.now }
    {
        let start = self.vaddr.max(other.vaddr);
        self.holds(start) && other.holds(start)
    }

    /// Whether the four bytes at an address lie in the segment.
    pub(crate) fn holds_word(&self, address: u64) -> bool
        ensures { result ≡ holds_word self.now address }
    {
        self.vaddr <= address && self.memsz >= 4 && address - self.vaddr <= self.memsz - 4
    }

    /// The byte at an address of the segment before the program runs: the file's, or 0 past those.
    pub(crate) fn start_byte(&self, address: u64) -> u8
        requires { self.now.vaddr ≤ address }
        ensures { result ≡ byte_of self.now address }
    {
        let place = (address - self.vaddr) as usize;
        self.bytes.as_slice().get(place).copied().unwrap_or(0)
    }

    /// Whether it has all of a range.
    #[inline]
    fn holds_range(&self, address: u64, size: u64) -> bool
        ensures { result ≡ holds_range address size self.now }
    {
        self.vaddr <= address && size <= self.memsz && address - self.vaddr <= self.memsz - size
    }

    /// Whether it grants a right.
    #[inline]
    fn grants(&self, right: Right) -> bool
        ensures { result ≡ grants right self.now }
    {
        match right {
            Right::Read => self.is_readable(),
            Right::Write => self.is_writable(),
            Right::ReadWrite => self.is_readable() && self.is_writable(),
        }
    }

    /// The four bytes at an address before the program runs, as a little-endian number.
    pub(crate) fn word_at(&self, address: u64) -> u32
        requires word { IsTrue (holds_word self.now address) }
        requires low { address + 4 ≤ 2 ^ 64 }
        ensures { result ≡ little_number 4 (map (byte_of self.now) (range_with_len address 4)) }
    {
        LittleEndian::read_u32(&[
            self.start_byte(address),
            self.start_byte(address + 1),
            self.start_byte(address + 2),
            self.start_byte(address + 3),
        ])
    }

    /// The instruction at an address, if the segment has its four bytes and the word has a row.
    #[tactic(auto, unfolding(crate::specs::Decoded::row_at))]
    pub(crate) fn instruction_at(&self, address: u64) -> Option<Instr>
        requires { address + 4 ≤ 2 ^ 64 }
        ensures { result ≡ row_at self.now address }
    {
        if !self.holds_word(address) {
            return None;
        }
        decode(self.word_at(address))
    }

    /// The instruction at an address with its class, if the segment has its four bytes and the word has a row.
    pub(crate) fn listed_at(&self, address: u64) -> Option<Listed>
        requires { address + 4 ≤ 2 ^ 64 }
        ensures { result ≡ row_at self.now address }
    {
        Some(Listed::of(self.instruction_at(address)?))
    }

    /// Whether its bytes may be executed.
    pub(crate) fn is_executable(&self) -> bool
        ensures { result ≡ grants_execute self.now }
    {
        self.flags % 2 == 1
    }

    /// Whether its bytes may be written.
    pub(crate) fn is_writable(&self) -> bool
        ensures { result ≡ grants_write self.now }
    {
        self.flags / 2 % 2 == 1
    }

    /// Whether its bytes may be read.
    pub(crate) fn is_readable(&self) -> bool
        ensures { result ≡ grants_read self.now }
    {
        self.flags / 4 % 2 == 1
    }
}

/// A program that can be laid out in memory and started. Its segments don't overlap, end at or below
/// 2^32 and have at most 268,435,456 bytes in all, none can be both written and executed, and the entry
/// is a multiple of 4 in an executable one. The executable ones stand decoded beside them.
#[derive(Drop)]
pub struct Image {
    entry: u64,
    segments: Vec<Segment>,
    decoded: Vec<Decoded>,
}

impl Model for Image {
    ghost use Rattle.elf_image.specs.Image.{Program};
    ghost use Rattle.elf_image.specs.Decoded.{IsDecoded};

    ghost Value = { Program };

    ghost view = { λ i. record { entry = i.entry; segments = i.segments.items } };

    ghost invariant = { λ i. IsDecoded (record { entry = i.entry; segments = i.segments.items }) i.decoded.items };
}

impl Image {
    /// The image of an entry and segments that make a program, whose executable segments it decodes.
    pub fn new(alloc: Global, entry: u64, segments: Vec<Segment>) -> Result<Image, NoMemory>
        requires { IsProgram (record { entry = entry; segments = segments.items }) }
        ensures { IfOk result (λ image. image ≡ record { entry = entry; segments = segments.items }) }
    {
        let decoded = decode_all(alloc, segments.as_slice())?;
        Ok(Image {
            entry,
            segments,
            decoded,
        })
    }

    /// The address of the first instruction.
    pub fn entry(&self) -> u64
        ensures value { result ≡ self.now.entry }
        ensures program { IsProgram self.now }
    {
        self.entry
    }

    /// The segments, in the file's order.
    pub fn segments(&self) -> &[Segment]
        ensures value { result.now ≡ self.now.segments }
        ensures program { IsProgram self.now }
    {
        self.segments.as_slice()
    }

    /// The first segment that has an address.
    pub(crate) fn segment_at(&self, address: u64) -> Option<&Segment>
        ensures value { option_copied result ≡ find (λ s. holds s address) self.now.segments }
        ensures starts { IfSome result (λ s. s.now.vaddr ≤ address) }
    {
        self.segments.iter().find(|segment| segment.holds(address))
    }

    /// Whether a readable segment has an address.
    pub(crate) fn is_readable(&self, address: u64) -> bool
        ensures { result ≡ some_reads self.now address }
    {
        self.segments
            .iter()
            .any(|segment| segment.is_readable() && segment.holds(address))
    }

    /// Whether a writable segment has an address.
    pub(crate) fn is_writable(&self, address: u64) -> bool
        ensures { result ≡ some_writes self.now address }
    {
        self.segments
            .iter()
            .any(|segment| segment.is_writable() && segment.holds(address))
    }

    /// Whether one segment grants a right to all of a range.
    #[inline]
    pub(crate) fn grants_range(&self, address: u64, size: u64, right: Right) -> bool
        ensures { result ≡ list_any (grants_range right address size) self.now.segments }
    {
        self.segments.iter().any(|segment| segment.grants(right)
            && segment.holds_range(address, size))
    }

    /// The first executable segment that has the four bytes at an address.
    pub(crate) fn executable_at(&self, address: u64) -> Option<&Segment>
        ensures value { option_copied result ≡ find (λ s. grants_execute s && holds_word s address) self.now.segments }
        ensures word { IfSome result (λ s. IsTrue (holds_word s.now address)) }
        ensures low { IfSome result (λ s. address + 3 < 2 ^ 32) }
        ensures program { IsProgram self.now }
    {
        self.segments.iter().find(|segment| segment.is_executable() && segment.holds_word(address))
    }

    /// Lends the instruction at an address with its class, if one executable segment has its four bytes and the word
    /// has a row. An address that isn't a multiple of 4 has none.
    #[tactic(auto, unfolding(crate::specs::Decoded::program_row))]
    #[inline(always)]
    pub(crate) fn listed(&self, pc: u64) -> Option<&Listed>
        ensures value { option_copied result ≡ program_row self.now pc }
    {
        if pc % 4 != 0 {
            return None;
        }
        first_found(self.decoded.as_slice(), pc)
    }
}
