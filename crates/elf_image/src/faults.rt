//! The tests by which a file is refused as an image, in their order.

ghost use Rattle.std.specs.Prelude.{◌≡◌, ◌+◌, ◌*◌, ◌≤◌, ◌^◌, ◌-◌, ◌%◌, ◌==◌, ◌||◌, ◌&&◌, not, ℕ, List, map, drop, min, nat_lt, length, sum_by, IfNone, OnSome};
ghost use Rattle.std.specs.Bool.{OnFalse};
ghost use Rattle.std.specs.List.{list_any};
ghost use Rattle.elf_image.specs.Header.{e_phoff, e_phnum, e_phentsize, headers};
ghost use Rattle.elf_image.specs.Image.{share_byte, segment_end, holds, grants_execute, first_of, header_refusals, table_refusals, program_refusals, has_wrong_magic, has_wrong_class, has_wrong_kind, has_wrong_machine, has_kind, has_wrong_table, has_wrong_size, reaches_too_far, overlaps, has_write_exec, has_wrong_entry, AreSmall, IsProgram};

use crate::headers::{
    CLASS_64, EXECUTABLE, FILE_HEADER, LITTLE_ENDIAN, MAGIC, PROGRAM_HEADER, ProgramHeader, RISC_V,
    VERSION, header_count, table_offset,
};
use crate::program::Segment;
use crate::refusal::ImageFault;
use byteorder::{ByteOrder, LittleEndian};

/// The greatest length of a file, in bytes.
pub const FILE_LIMIT: usize = 16_777_216;

/// The greatest number of program headers.
const HEADER_LIMIT: u16 = 64;

/// The greatest number of bytes of memory that the segments have in all.
const MEMORY_LIMIT: u64 = 268_435_456;

/// The first fault of the file header, or of the file's length.
#[tactic(auto, unfolding(crate::specs::Image::first_of, crate::specs::Image::header_refusals))]
pub fn header_fault(bytes: &[u8]) -> Option<ImageFault>
    ensures value { result ≡ first_of header_refusals bytes.now }
    ensures room { IfNone result (64 ≤ length bytes.now) }
{
    if bytes.len() > FILE_LIMIT {
        return Some(ImageFault::TooLong);
    }
    if bytes.len() < FILE_HEADER {
        return Some(ImageFault::Short);
    }
    identity_fault(bytes)
}

/// The first fault of what a file header says of the file.
#[tactic(auto, unfolding(crate::specs::Image::first_of, crate::specs::Image::header_refusals))]
fn identity_fault(bytes: &[u8]) -> Option<ImageFault>
    requires { 64 ≤ length bytes.now }
    ensures { result ≡ first_of (drop 2 header_refusals) bytes.now }
{
    if has_wrong_magic(bytes) {
        Some(ImageFault::Magic)
    } else if has_wrong_class(bytes) {
        Some(ImageFault::Class)
    } else if has_wrong_kind(bytes) {
        Some(ImageFault::Kind)
    } else if has_wrong_machine(bytes) {
        Some(ImageFault::Machine)
    } else {
        None
    }
}

/// Whether the first four bytes aren't those of an ELF file.
#[tactic(auto, unfolding(crate::specs::Image::has_wrong_magic))]
fn has_wrong_magic(bytes: &[u8]) -> bool
    ensures { result ≡ has_wrong_magic bytes.now }
{
    !bytes.starts_with(&MAGIC)
}

/// Whether the file isn't one of 64 bits, little-endian, of version 1.
#[tactic(auto, unfolding(crate::specs::Image::has_wrong_class, crate::specs::Header::class, crate::specs::Header::data_encoding, crate::specs::Header::ident_version))]
fn has_wrong_class(bytes: &[u8]) -> bool
    requires { 64 ≤ length bytes.now }
    ensures { result ≡ has_wrong_class bytes.now }
{
    bytes[4] != CLASS_64 || bytes[5] != LITTLE_ENDIAN || bytes[6] != VERSION
}

/// Whether the file isn't an executable one.
#[tactic(auto, unfolding(crate::specs::Image::has_wrong_kind, crate::specs::Header::e_type))]
fn has_wrong_kind(bytes: &[u8]) -> bool
    requires { 64 ≤ length bytes.now }
    ensures { result ≡ has_wrong_kind bytes.now }
{
    LittleEndian::read_u16(&bytes[16..]) != EXECUTABLE
}

/// Whether the file isn't for RISC-V.
#[tactic(auto, unfolding(crate::specs::Image::has_wrong_machine, crate::specs::Header::e_machine))]
fn has_wrong_machine(bytes: &[u8]) -> bool
    requires { 64 ≤ length bytes.now }
    ensures { result ≡ has_wrong_machine bytes.now }
{
    LittleEndian::read_u16(&bytes[18..]) != RISC_V
}

/// Whether the program headers aren't of the right size and number, or pass the file's end.
pub fn has_wrong_table(bytes: &[u8]) -> bool
    requires { 64 ≤ length bytes.now }
    ensures value { result ≡ has_wrong_table bytes.now }
    ensures few { OnFalse result (e_phnum bytes.now ≤ 64) }
    ensures room { OnFalse result (e_phoff bytes.now + 56 * e_phnum bytes.now ≤ length bytes.now) }
{
    let size = header_size(bytes) as usize;
    let count = header_count(bytes);
    let len = bytes.len() as u64;
    let table = PROGRAM_HEADER as u64 * u64::from(count);
    let has_wrong_count = count == 0 || count > HEADER_LIMIT;
    size != PROGRAM_HEADER || has_wrong_count || table > len || table_offset(bytes) > len - table
}

/// The size that the file gives to a program header.
#[tactic(auto, unfolding(crate::specs::Header::e_phentsize))]
fn header_size(bytes: &[u8]) -> u16
    requires { 64 ≤ length bytes.now }
    ensures { result ≡ e_phentsize bytes.now }
{
    LittleEndian::read_u16(&bytes[54..])
}

/// Whether the size of some loaded header is wrong.
pub fn has_wrong_load(bytes: &[u8], loaded: &[ProgramHeader]) -> bool
    ensures { result ≡ list_any (has_wrong_size bytes.now) loaded.now }
{
    loaded.iter().any(|header| header.has_wrong_size(bytes))
}

/// The first fault of the headers' types.
pub fn kind_fault(table: &[ProgramHeader]) -> Option<ImageFault>
    ensures { (bytes : List ℕ) → headers bytes ≡ table.now → result ≡ first_of (drop 1 table_refusals) bytes }
{
    if has_kind(table, 2) {
        Some(ImageFault::Dynamic)
    } else if has_kind(table, 3) {
        Some(ImageFault::Interp)
    } else if has_kind(table, 7) {
        Some(ImageFault::Tls)
    } else {
        None
    }
}

/// Whether some header is of a type.
fn has_kind(table: &[ProgramHeader], kind: u32) -> bool
    ensures { result ≡ list_any (λ h. h.kind == kind) table.now }
{
    table.iter().any(|header| header.kind == kind)
}

/// The first rule on whole programs that an entry and segments break: that the segments end at or below 2^32 and
/// have at most 268,435,456 bytes of memory in all, that no two share a byte, that none can be both written and
/// executed, and that the entry is a multiple of 4 in an executable one. Where there is none they are a program, if
/// there are at most 64 segments, each with flags below 8 and no more bytes than memory.
pub fn program_fault(entry: u64, segments: &[Segment]) -> Option<ImageFault>
    ensures value { result ≡ first_of program_refusals (record { entry = entry; segments = segments.now }) }
    ensures program { IfNone result (AreSmall segments.now → IsProgram (record { entry = entry; segments = segments.now })) }
    ensures fault { OnSome result (IsProgram (record { entry = entry; segments = segments.now }) → ⊥) }
{
    first_program_fault(entry, segments)
}

/// The first rule on whole programs that an entry and segments break.
#[tactic(auto, unfolding(crate::specs::Image::first_of, crate::specs::Image::program_refusals))]
fn first_program_fault(entry: u64, segments: &[Segment]) -> Option<ImageFault>
    ensures { result ≡ first_of program_refusals (record { entry = entry; segments = segments.now }) }
{
    if reaches_too_far(segments) {
        Some(ImageFault::Reach)
    } else if overlaps(segments) {
        Some(ImageFault::Overlap)
    } else if has_write_exec(segments) {
        Some(ImageFault::WriteExec)
    } else if has_wrong_entry(entry, segments) {
        Some(ImageFault::Entry)
    } else {
        None
    }
}

/// Whether a segment ends above 2^32, or the segments have too much memory in all.
#[tactic(auto, unfolding(crate::specs::Image::reaches_too_far))]
fn reaches_too_far(segments: &[Segment]) -> bool
    ensures { result ≡ reaches_too_far segments.now }
{
    some_ends_too_high(segments) || total_size(segments) > MEMORY_LIMIT
}

/// Whether a segment ends above 2^32.
fn some_ends_too_high(segments: &[Segment]) -> bool
    ensures { result ≡ list_any (λ s. nat_lt (2 ^ 32) (segment_end s)) segments.now }
{
    segments.iter().any(|segment| segment.ends_too_high())
}

/// How many bytes of memory the segments have in all, or `u64::MAX` where that is less.
fn total_size(segments: &[Segment]) -> u64
    ensures { result ≡ min (sum_by (λ s. s.memsz) segments.now) (2 ^ 64 - 1) }
{
    let mut total: u64 = 0;
    for segment in segments {
        total = total.saturating_add(segment.memsz);
    }
    total
}

/// Whether two segments share a byte.
fn overlaps(segments: &[Segment]) -> bool
    ensures { result ≡ overlaps segments.now }
{
    for (place, segment) in segments.iter().enumerate() {
        let (_, later) = segments.split_at(place + 1);
        if shares_with_some(segment, later) {
            return true;
        }
    }
    false
}

/// Whether a segment shares a byte with some other.
fn shares_with_some(segment: &Segment, others: &[Segment]) -> bool
    ensures { result ≡ list_any (share_byte segment.now) others.now }
{
    others.iter().any(|other| segment.shares_byte(other))
}

/// Whether a segment can be both written and executed.
#[tactic(auto, unfolding(crate::specs::Image::has_write_exec))]
fn has_write_exec(segments: &[Segment]) -> bool
    ensures { result ≡ has_write_exec segments.now }
{
    segments
        .iter()
        .any(|segment| segment.is_writable() && segment.is_executable())
}

/// Whether the entry isn't a multiple of 4, or lies in no executable segment.
#[tactic(auto, unfolding(crate::specs::Image::has_wrong_entry))]
fn has_wrong_entry(entry: u64, segments: &[Segment]) -> bool
    ensures { result ≡ has_wrong_entry (record { entry = entry; segments = segments.now }) }
{
    entry % 4 != 0 || !has_entry(entry, segments)
}

/// Whether the entry lies in an executable segment.
fn has_entry(entry: u64, segments: &[Segment]) -> bool
    ensures { result ≡ list_any (λ s. grants_execute s && holds s entry) segments.now }
{
    segments
        .iter()
        .any(|segment| segment.is_executable() && segment.holds(entry))
}
