//! The fields of ELF headers that are read, and their values for a RISC-V executable.

ghost use Rattle.std.specs.Prelude.{◌≡◌, ◌+◌, ◌*◌, ◌≤◌, ◌==◌, ◌%◌, length, filter, IfOk};
ghost use Rattle.elf_image.specs.Header.{e_entry, e_phoff, e_phnum, header_from, headers};
ghost use Rattle.elf_image.specs.Image.{has_wrong_size};

use crate::program::Segment;
use byteorder::{ByteOrder, LittleEndian};
use sim_base::{Bytes, NoMemory};
use std::alloc::Global;

/// The first four bytes of an ELF file.
pub const MAGIC: [u8; 4] = [0x7F, b'E', b'L', b'F'];

/// The class of files of 64 bits.
pub const CLASS_64: u8 = 2;

/// The data encoding of little-endian files.
pub const LITTLE_ENDIAN: u8 = 1;

/// The version of the format.
pub const VERSION: u8 = 1;

/// The type of an executable file.
pub const EXECUTABLE: u16 = 2;

/// The machine number of RISC-V.
pub const RISC_V: u16 = 243;

/// The length of the file header, in bytes.
pub const FILE_HEADER: usize = 64;

/// The length of a program header, in bytes.
pub const PROGRAM_HEADER: usize = 56;

/// The type of a program header of what is loaded into memory.
pub const LOAD: u32 = 1;

/// The fields of a program header that are read, by the System V ABI.
#[derive(Clone, Copy)]
pub struct ProgramHeader {
    /// `p_type`: 1 is what is loaded.
    pub kind: u32,
    /// `p_flags`: 1 is execute, 2 is write, 4 is read.
    pub flags: u32,
    /// `p_offset`: where its bytes stand in the file.
    pub offset: u64,
    /// `p_vaddr`: its first address.
    pub vaddr: u64,
    /// `p_filesz`: how many bytes the file has for it.
    pub filesz: u64,
    /// `p_memsz`: how many bytes it has in memory.
    pub memsz: u64,
}

impl ProgramHeader {
    /// The program header at a place of a file.
    #[tactic(auto, unfolding(crate::specs::Header::header_from))]
    pub fn read(bytes: &[u8], at: usize) -> ProgramHeader
        requires { at + 56 ≤ length bytes.now }
        ensures { result ≡ header_from bytes.now at }
    {
        ProgramHeader {
            kind: LittleEndian::read_u32(&bytes[at..]),
            flags: LittleEndian::read_u32(&bytes[at + 4..]),
            offset: LittleEndian::read_u64(&bytes[at + 8..]),
            vaddr: LittleEndian::read_u64(&bytes[at + 16..]),
            filesz: LittleEndian::read_u64(&bytes[at + 32..]),
            memsz: LittleEndian::read_u64(&bytes[at + 40..]),
        }
    }

    /// Whether it is loaded into memory.
    pub fn is_loaded(&self) -> bool
        ensures { result ≡ (self.now.kind == 1) }
    {
        self.kind == LOAD
    }

    /// Its segment, with these bytes and the low three bits of the flags.
    pub fn with_bytes(&self, bytes: Vec<u8>) -> Segment
        ensures { result ≡ record { vaddr = self.now.vaddr; memsz = self.now.memsz; flags = self.now.flags % 8; bytes = bytes.items } }
    {
        Segment {
            vaddr: self.vaddr,
            memsz: self.memsz,
            flags: self.flags % 8,
            bytes: Bytes::from_vec(bytes),
        }
    }

    /// Whether it has more bytes in the file than in memory, or some past the file's end.
    pub fn has_wrong_size(&self, bytes: &[u8]) -> bool
        ensures { result ≡ has_wrong_size bytes.now self.now }
    {
        let len = bytes.len() as u64;
        self.memsz < self.filesz || self.filesz > len || self.offset > len - self.filesz
    }
}

/// The address of the first instruction.
#[tactic(auto, unfolding(crate::specs::Header::e_entry))]
pub fn entry_of(bytes: &[u8]) -> u64
    requires { 64 ≤ length bytes.now }
    ensures { result ≡ e_entry bytes.now }
{
    LittleEndian::read_u64(&bytes[24..])
}

/// Where the program headers stand in the file.
#[tactic(auto, unfolding(crate::specs::Header::e_phoff))]
pub fn table_offset(bytes: &[u8]) -> u64
    requires { 64 ≤ length bytes.now }
    ensures { result ≡ e_phoff bytes.now }
{
    LittleEndian::read_u64(&bytes[32..])
}

/// How many program headers there are.
#[tactic(auto, unfolding(crate::specs::Header::e_phnum))]
pub fn header_count(bytes: &[u8]) -> u16
    requires { 64 ≤ length bytes.now }
    ensures { result ≡ e_phnum bytes.now }
{
    LittleEndian::read_u16(&bytes[56..])
}

/// The program headers of a file that has the whole table.
pub fn read_headers(alloc: Global, bytes: &[u8]) -> Result<Vec<ProgramHeader>, NoMemory>
    requires header { 64 ≤ length bytes.now }
    requires table { e_phoff bytes.now + 56 * e_phnum bytes.now ≤ length bytes.now }
    ensures { IfOk result (λ table. table.items ≡ headers bytes.now) }
{
    let offset = table_offset(bytes) as usize;
    let count = header_count(bytes) as usize;
    let mut table = Vec::with_capacity(alloc, count)?;
    for number in 0..count {
        table.push(ProgramHeader::read(bytes, offset + PROGRAM_HEADER * number))?;
    }
    Ok(table)
}

/// The headers of what is loaded into memory.
pub fn loads_of(alloc: Global, table: &[ProgramHeader]) -> Result<Vec<ProgramHeader>, NoMemory>
    ensures { IfOk result (λ loaded. loaded.items ≡ filter (λ h. h.kind == 1) table.now) }
{
    let mut loaded = Vec::new(alloc);
    for header in table {
        if header.is_loaded() {
            loaded.push(*header)?;
        }
    }
    Ok(loaded)
}
