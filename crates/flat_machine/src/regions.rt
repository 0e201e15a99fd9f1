//! The flat machine's memory: the bytes of the segments, the heap and the stacks.

ghost use Rattle.std.specs.Prelude.{◌≡◌, ◌≤◌, ◌<◌, ◌+◌, ◌-◌, ◌*◌, ◌^◌, if◌then◌else◌, ◌++◌, ℕ, OnOk, IfOk, IfSome, IsTrue, All, length, map};
ghost use Rattle.sim_base.specs.Settings.{IsChecked};
ghost use Rattle.elf_image.specs.Image.{IsSegment, IsProgram};
ghost use Rattle.elf_image.specs.Layout.{heap_start};
ghost use Rattle.flat_machine.specs.Memory.{byte_at, with_byte, start_memory};
ghost use Rattle.flat_machine.specs.Inner.{has_address, byte_of, with_byte_in, segment_region, stack_region, start_regions};
ghost use Rattle.std.specs.List.{range_with_len};
ghost use Rattle.rv_exec.specs.Access.{is_size};
ghost use Rattle.sim_base.specs.LittleEndian.{loaded, with_bytes, stored};

use byteorder::{ByteOrder, LittleEndian};
use elf_image::{Segment, World};
use sim_base::{Bytes, NoMemory, NodeId};
use std::alloc::Global;
use std::marker::Model;

/// A contiguous range of addresses and its bytes.
#[derive(Drop)]
pub(crate) struct Region {
    pub(crate) start: u64,
    pub(crate) bytes: Bytes,
}

impl Region {
    /// The place of an address among the region's bytes, if it has it.
    fn place_of(&self, address: u64) -> Option<usize>
        ensures value { result ≡ (if has_address self.now.start (length self.now.bytes) address
            then Some (address - self.now.start) else None) }
        ensures room { IfSome result (λ place. place < length self.now.bytes) }
    {
        if address < self.start {
            return None;
        }
        let place = address - self.start;
        if place < self.bytes.len() as u64 {
            Some(place as usize)
        } else {
            None
        }
    }
}

/// The memory of the flat machine, which contracts see as a finite map from addresses to bytes.
/// It is kept as contiguous regions, so an access costs the same wherever it lies in one.
#[derive(Drop)]
pub struct Memory {
    regions: Vec<Region>,
}

impl Model for Memory {
    ghost use Rattle.std.specs.Prelude.{ℕ};
    ghost use Rattle.std.specs.Coded.{coded_ℕ};
    ghost use Rattle.std.specs.FinMap as map;
    ghost use Rattle.std.specs.Ordering.{nat_cmp};

    ghost Value = { map.FinMap nat_cmp ℕ };

    ghost coded = { map.code coded_ℕ coded_ℕ };

    ghost use Rattle.flat_machine.specs.Inner.{memory_of, AreLow};

    ghost view = { λ m. memory_of m.regions.items };

    ghost invariant = { λ m. AreLow m.regions.items };
}

impl Memory {
    /// The memory before the program runs.
    pub fn start(alloc: Global, world: &World) -> Result<Memory, NoMemory>
        ensures { IfOk result (λ memory. memory ≡ start_memory world.now) }
    {
        let regions = start_regions(alloc, world)?;
        Ok(Memory { regions })
    }

    /// The byte at an address, 0 where nothing is mapped.
    pub fn byte(&self, address: u64) -> u8
        ensures { result ≡ byte_at self.now address }
    {
        byte_in(self.regions.as_slice(), address)
    }

    /// Writes the byte at an address. Where nothing is mapped, nothing changes.
    pub fn set(&mut self, address: u64, byte: u8)
        ensures { self.new ≡ with_byte self.old address byte }
    {
        set_in(&mut self.regions, address, byte);
    }

    /// The byte so many addresses further on, 0 where nothing is mapped.
    fn byte_after(&self, address: u64, more: u64) -> u8
        ensures { result ≡ byte_at self.now (address + more) }
    {
        match address.checked_add(more) {
            Some(further) => self.byte(further),
            None => self.nothing(),
        }
    }

    /// What is read past all addresses: 0.
    fn nothing(&self) -> u8
        ensures value { result ≡ 0 }
        ensures past { (address : ℕ) → 2 ^ 64 ≤ address → byte_at self.now address ≡ 0 }
    {
        // No region has an address from 2^64 on.
        let _ = &self.regions;
        0
    }

    /// The number in the `size` bytes from an address on, little-endian. `size` is 1, 2, 4 or 8.
    pub fn load(&self, address: u64, size: u8) -> u64
        requires { IsTrue (is_size size) }
        ensures value { result ≡ loaded (byte_at self.now) address size }
        ensures small { result < 2 ^ (8 * size) }
    {
        match size {
            1 => u64::from(self.byte(address)),
            2 => u64::from(LittleEndian::read_u16(&[
                self.byte(address),
                self.byte_after(address, 1),
            ])),
            4 => u64::from(self.word(address)),
            8 => self.double_word(address),
            _ => unreachable!(),
        }
    }

    /// The number in the four bytes from an address on.
    pub fn word(&self, address: u64) -> u32
        ensures { result ≡ loaded (byte_at self.now) address 4 }
    {
        LittleEndian::read_u32(&[
            self.byte(address),
            self.byte_after(address, 1),
            self.byte_after(address, 2),
            self.byte_after(address, 3),
        ])
    }

    /// The number in the eight bytes from an address on.
    fn double_word(&self, address: u64) -> u64
        ensures { result ≡ loaded (byte_at self.now) address 8 }
    {
        LittleEndian::read_u64(&[
            self.byte(address),
            self.byte_after(address, 1),
            self.byte_after(address, 2),
            self.byte_after(address, 3),
            self.byte_after(address, 4),
            self.byte_after(address, 5),
            self.byte_after(address, 6),
            self.byte_after(address, 7),
        ])
    }

    /// Writes a number's low `size` bytes from an address on, little-endian. `size` is 1, 2, 4 or 8.
    pub fn store(&mut self, address: u64, size: u8, value: u64)
        requires sized { IsTrue (is_size size) }
        requires fits { address + size ≤ 2 ^ 64 }
        ensures { self.new ≡ stored with_byte self.old address size value }
    {
        let mut bytes = [0; 8];
        LittleEndian::write_u64(&mut bytes, value);
        self.set_all(address, &bytes[..size as usize]);
    }

    /// Writes bytes from an address on.
    fn set_all(&mut self, address: u64, bytes: &[u8])
        requires { address + length bytes.now ≤ 2 ^ 64 }
        ensures { self.new ≡ with_bytes with_byte self.old address bytes.now }
    {
        for (k, byte) in bytes.iter().enumerate() {
            self.set(address + k as u64, *byte);
        }
    }
}

/// The regions before the program runs: the segments, the heap window and the stacks.
fn start_regions(alloc: Global, world: &World) -> Result<Vec<Region>, NoMemory>
    ensures regions { IfOk result (λ regions. regions.items ≡ start_regions world.now) }
    ensures program { IsProgram world.now.image }
    ensures checked { OnOk result (IsChecked world.now.config) }
    ensures low { OnOk result (heap_start world.now ≤ 2 ^ 32) }
{
    let mut regions = segment_regions(alloc, world.image().segments())?;
    let start = world.layout().heap_start;
    let bytes = Bytes::zeros(alloc, world.config().heap_bytes as usize)?;
    regions.push(Region { start, bytes })?;
    add_stacks(alloc, world, &mut regions)?;
    Ok(regions)
}

/// Adds a region for each tile's stack.
fn add_stacks(alloc: Global, world: &World, regions: &mut Vec<Region>) -> Result<(), NoMemory>
    ensures { OnOk result (regions.new.items ≡ regions.old.items ++ map (stack_region world.now) (range_with_len 0 world.now.config.tiles)) }
{
    for tile in 0..world.config().tiles {
        let region = stack_region(alloc, world, tile)?;
        regions.push(region)?;
    }
    Ok(())
}

/// The stack of a tile.
fn stack_region(alloc: Global, world: &World, tile: u32) -> Result<Region, NoMemory>
    requires { tile < world.now.config.tiles }
    ensures { IfOk result (λ region. region ≡ stack_region world.now tile) }
{
    let size = world.config().stack_bytes;
    let start = world.stack_end(tile as NodeId) - size;
    let bytes = Bytes::zeros(alloc, size as usize)?;
    Ok(Region { start, bytes })
}

/// A region for each segment.
fn segment_regions(alloc: Global, segments: &[Segment]) -> Result<Vec<Region>, NoMemory>
    requires { All IsSegment segments.now }
    ensures { IfOk result (λ regions. regions.items ≡ map segment_region segments.now) }
{
    let mut regions = Vec::new(alloc);
    for segment in segments {
        let region = segment_region(alloc, segment)?;
        regions.push(region)?;
    }
    Ok(regions)
}

/// A segment's bytes of the file, and zeros up to its size in memory.
fn segment_region(alloc: Global, segment: &Segment) -> Result<Region, NoMemory>
    requires { length segment.now.bytes ≤ segment.now.memsz }
    ensures { IfOk result (λ region. region ≡ segment_region segment.now) }
{
    let mut bytes = segment.bytes.copy(alloc)?;
    bytes.pad(segment.memsz as usize)?;
    Ok(Region {
        start: segment.vaddr,
        bytes,
    })
}

/// The byte of the first region that has the address, else 0.
fn byte_in(regions: &[Region], address: u64) -> u8
    ensures { result ≡ byte_of regions.now address }
{
    for region in regions {
        if let Some(place) = region.place_of(address) {
            return region.bytes.at(place);
        }
    }
    0
}

/// Writes a byte of the first region that has the address. Where none has it, nothing changes.
fn set_in(regions: &mut Vec<Region>, address: u64, byte: u8)
    ensures { regions.new.items ≡ with_byte_in regions.old.items address byte }
{
    for region in regions.iter_mut() {
        if let Some(place) = region.place_of(address) {
            region.bytes.set(place, byte);
            return;
        }
    }
}
