//! A program under its settings: heap and stacks, the right to each byte, and the instruction at an address.

ghost use Rattle.std.specs.Prelude.{◌≡◌, ◌+◌, ◌*◌, ◌^◌, ◌<◌, ◌≤◌, nat_lt, All, IfSome};
ghost use Rattle.std.specs.Bool.{OnTrue};
ghost use Rattle.std.specs.Option.{option_copied};
ghost use Rattle.rv_decode.specs.Valid.{IsValid};
ghost use Rattle.elf_image.specs.Image.{IsSegment, IsProgram};
ghost use Rattle.elf_image.specs.Layout.{layout_of, IsLaidOut, stack_end, last_end, round_up, is_heap, is_stack, is_free, AreFree, is_readable, is_writable, has_right, may, start_byte, initial_line, fetch, instruction};
ghost use Rattle.elf_image.specs.Costs.{class_place, costs_of};
ghost use Rattle.sim_base.specs.Settings.{IsChecked};
ghost use Rattle.mesh_model.specs.Cost.{cost_of};

use crate::listed::Listed;
use crate::program::{Image, Segment};
use divisors::Divisor;
use mesh_model::cost;
use rv_decode::Instr;
use sim_base::{Config, CostClass, Line, LineData, NodeId};
use std::marker::Model;

/// How many bytes lie between the heap window and the first stack, and from a stack to the next, and what the
/// heap's start is a multiple of.
const PAGE: u64 = 4096;

/// How many bytes a line has.
const LINE_BYTES: u64 = 64;

/// The first line past those of 32-bit addresses.
const LINE_END: u64 = (1 << 32) / LINE_BYTES;

/// Where the heap window and the stacks lie.
#[derive(Clone, Copy, Debug, PartialEq, Eq)]
pub struct Layout {
    /// The first address of the heap window.
    pub heap_start: u64,
    /// The first address past the heap window.
    pub heap_end: u64,
    /// The first address of tile 0's stack. Each tile's begins 4096 bytes after the end of the one before.
    pub stack_base: u64,
}

/// What an access asks of each of its bytes.
#[derive(Clone, Copy, Debug, PartialEq, Eq)]
pub enum Right {
    /// A load, or a write call that reads the bytes.
    Read,
    /// A store.
    Write,
    /// An atomic.
    ReadWrite,
}

/// A program with the settings of the machine that runs it: its memory before it runs, and the rights of each
/// byte. This simulator's own: the heap window has `heap_bytes` bytes from the first multiple of 4096 past every
/// segment on. The stacks begin 4096 bytes after it, one for each tile, each of `stack_bytes` bytes and 4096 bytes
/// after the one before.
#[derive(Drop)]
pub struct World {
    image: Image,
    config: Config,
    layout: Layout,
    stride: Divisor,
    costs: [u64; 6],
}

impl Model for World {
    ghost use Rattle.elf_image.specs.Layout.{Setup};
    ghost use Rattle.elf_image.specs.Inner.{IsWorld};

    ghost Value = { Setup };

    ghost view = { λ w. record { image = w.image; config = w.config } };

    ghost invariant = { λ w. IsWorld (record { image = w.image; config = w.config }) w.layout w.stride w.costs };
}

impl World {
    /// The world of a program, with settings that pass [`Config::check`].
    pub fn new(image: Image, config: Config) -> World
        requires { IsChecked config }
        ensures { result ≡ record { image = image; config = config } }
    {
        let layout = layout_for(&image, &config);
        let stride = stride_of(&config);
        let costs = costs_of(&config);
        World {
            image,
            config,
            layout,
            stride,
            costs,
        }
    }

    /// The program.
    pub fn image(&self) -> &Image
        ensures { result.now ≡ self.now.image }
    {
        &self.image
    }

    /// The address of the first instruction, where thread 0 begins on tile 0.
    pub fn entry(&self) -> u64
        ensures value { result ≡ self.now.image.entry }
        ensures program { IsProgram self.now.image }
        ensures tile { 0 < self.now.config.tiles }
    {
        // The layout's bounds say that there is a tile.
        let _ = &self.layout;
        self.image.entry()
    }

    /// The settings.
    pub fn config(&self) -> &Config
        ensures value { result.now ≡ self.now.config }
        ensures checked { IsChecked self.now.config }
    {
        &self.config
    }

    /// How many cycles an instruction of a class takes under the settings, beside the delay of a miss.
    #[inline(always)]
    pub fn cost(&self, class: CostClass) -> u64
        ensures { result ≡ cost_of self.now.config class }
    {
        self.costs[class_place(class)]
    }

    /// Where the heap window and the stacks lie.
    pub fn layout(&self) -> Layout
        ensures value { result ≡ layout_of self.now }
        ensures low { result.heap_start ≤ 2 ^ 32 }
    {
        self.layout
    }

    /// The first address past a tile's stack.
    pub fn stack_end(&self, tile: NodeId) -> u64
        requires { tile < self.now.config.tiles }
        ensures value { result ≡ stack_end self.now tile }
        ensures room { self.now.config.stack_bytes ≤ result }
        ensures some { 4096 ≤ self.now.config.stack_bytes }
        ensures low { result < 2 ^ 33 }
    {
        let before = tile as u64 * (self.config.stack_bytes + PAGE);
        self.layout.stack_base + before + self.config.stack_bytes
    }

    /// The byte at an address before the program runs: the segment's that has it, and 0 where none has.
    pub fn start_byte(&self, addr: u64) -> u8
        ensures { result ≡ start_byte self.now addr }
    {
        match self.image.segment_at(addr) {
            Some(segment) => segment.start_byte(addr),
            None => 0,
        }
    }

    /// The 64 bytes of a line before the program runs. Line number `n` has the addresses from `64 * n` on,
    /// and each byte is the segment's that has it, and 0 where none has.
    pub fn initial_line(&self, line: Line) -> LineData
        ensures { result ≡ initial_line self.now line }
    {
        // The layout's bounds say that no segment has an address from 2^32 on.
        let _ = &self.layout;
        let mut bytes = [0; 64];
        if line < LINE_END {
            for place in 0..64 {
                bytes[place] = self.start_byte(line * LINE_BYTES + place as u64);
            }
        }
        LineData { bytes }
    }

    /// The instruction word at an address, if one executable segment has its four bytes.
    pub fn fetch(&self, pc: u64) -> Option<u32>
        ensures { result ≡ fetch self.now pc }
    {
        let segment = self.image.executable_at(pc)?;
        Some(segment.word_at(pc))
    }

    /// The instruction at an address, lent: that of the word that [`World::fetch`] gives there, decoded when the
    /// image was made. None where the address can't be fetched from, isn't a multiple of 4, as every pc of a run
    /// is, or the word has no row.
    #[inline(always)]
    pub fn instruction(&self, pc: u64) -> Option<&Instr>
        ensures value { option_copied result ≡ instruction self.now pc }
        ensures valid { IfSome result (λ instr. IsValid instr.now) }
    {
        Some(self.listed(pc)?.instr())
    }

    /// The instruction at an address with its class, lent: that of [`World::instruction`].
    #[inline(always)]
    pub fn listed(&self, pc: u64) -> Option<&Listed>
        ensures value { option_copied result ≡ instruction self.now pc }
        ensures valid { IfSome result (λ listed. IsValid listed.now) }
    {
        self.image.listed(pc)
    }

    /// Whether each of the `size` bytes from `addr` has a right. A range that passes 2^64 has none.
    #[inline(always)]
    pub fn may(&self, addr: u64, size: u64, right: Right) -> bool
        ensures { result ≡ may self.now addr size right }
    {
        if size <= self.free_from(addr) {
            return true;
        }
        self.may_in_segments(addr, size, right)
    }

    /// What [`World::may`] says of a range that isn't all in the heap window or on one stack: by the segments, and byte
    /// by byte where not one of them grants it all.
    #[inline(never)]
    fn may_in_segments(&self, addr: u64, size: u64, right: Right) -> bool
        ensures { result ≡ may self.now addr size right }
    {
        // The layout's bounds say that nothing is mapped near 2^64.
        let _ = &self.layout;
        let Some(end) = addr.checked_add(size) else {
            return false;
        };
        if self.image.grants_range(addr, size, right) {
            return true;
        }
        (addr..end).all(|address| self.has_right(address, right))
    }

    /// Whether the byte at an address has a right.
    fn has_right(&self, address: u64, right: Right) -> bool
        ensures { result ≡ has_right self.now right address }
    {
        match right {
            Right::Read => self.is_readable(address),
            Right::Write => self.is_writable(address),
            Right::ReadWrite => self.is_readable(address) && self.is_writable(address),
        }
    }

    /// Whether the byte at an address may be read.
    fn is_readable(&self, address: u64) -> bool
        ensures { result ≡ is_readable self.now address }
    {
        self.is_free(address) || self.image.is_readable(address)
    }

    /// Whether the byte at an address may be written.
    fn is_writable(&self, address: u64) -> bool
        ensures { result ≡ is_writable self.now address }
    {
        self.is_free(address) || self.image.is_writable(address)
    }

    /// Whether an address lies in the heap window or on a stack.
    fn is_free(&self, address: u64) -> bool
        ensures { result ≡ is_free self.now address }
    {
        self.is_heap(address) || self.is_stack(address)
    }

    /// Whether an address lies in the heap window.
    #[inline(always)]
    fn is_heap(&self, address: u64) -> bool
        ensures { result ≡ is_heap self.now address }
    {
        self.layout.heap_start <= address && address < self.layout.heap_end
    }

    /// Whether an address lies on the stack of some tile.
    fn is_stack(&self, address: u64) -> bool
        ensures { result ≡ is_stack self.now address }
    {
        self.left_on_stack(address) > 0
    }

    /// So many bytes from an address on lie in the heap window or on one stack, where each may be read and written.
    #[inline(always)]
    fn free_from(&self, address: u64) -> u64
        ensures { AreFree self.now address result }
    {
        if self.is_heap(address) {
            self.layout.heap_end - address
        } else {
            self.left_on_stack(address)
        }
    }

    /// So many bytes from an address on are left on its stack; none where it lies on no stack.
    #[inline(always)]
    fn left_on_stack(&self, address: u64) -> u64
        ensures on { nat_lt 0 result ≡ is_stack self.now address }
        ensures free { AreFree self.now address result }
    {
        let base = self.layout.stack_base;
        if address < base {
            return 0;
        }
        let stack = self.config.stack_bytes;
        let past = address - base;
        let tile = self.stride.quotient(past);
        let place = past - tile * u64::from(self.stride.number());
        if tile < self.config.tiles as u64 && place < stack {
            stack - place
        } else {
            0
        }
    }
}

/// How many bytes lie from a stack's start to the next one's.
fn stride_of(config: &Config) -> Divisor
    requires { IsChecked config.now }
    ensures { result ≡ config.now.stack_bytes + 4096 }
{
    Divisor::new((config.stack_bytes + PAGE) as u32)
}

/// What an instruction of each class costs, in cycles, by the classes' places.
#[tactic(auto, unfolding(crate::specs::Costs::costs_of))]
fn costs_of(config: &Config) -> [u64; 6]
    requires { IsChecked config.now }
    ensures { result ≡ costs_of config.now }
{
    [
        cost(config, CostClass::Alu),
        cost(config, CostClass::Mul),
        cost(config, CostClass::Div),
        cost(config, CostClass::Mem),
        cost(config, CostClass::Amo),
        cost(config, CostClass::Call),
    ]
}

/// The place of a class among the costs.
#[inline(always)]
fn class_place(class: CostClass) -> usize
    ensures value { result ≡ class_place class }
    ensures low { result < 6 }
{
    match class {
        CostClass::Alu => 0,
        CostClass::Mul => 1,
        CostClass::Div => 2,
        CostClass::Mem => 3,
        CostClass::Amo => 4,
        CostClass::Call => 5,
    }
}

/// The layout of a program under these settings.
fn layout_for(image: &Image, config: &Config) -> Layout
    requires { IsChecked config.now }
    ensures { IsLaidOut (record { image = image.now; config = config.now }) result }
{
    let heap_start = heap_start_for(image);
    let heap_end = heap_start + config.heap_bytes;
    Layout {
        heap_start,
        heap_end,
        stack_base: heap_end + PAGE,
    }
}

/// The first multiple of 4096 that isn't below any segment's end.
fn heap_start_for(image: &Image) -> u64
    ensures value { result ≡ round_up (last_end image.now.segments) }
    ensures low { result ≤ 2 ^ 32 }
    ensures program { IsProgram image.now }
{
    last_end(image.segments()).next_multiple_of(PAGE)
}

/// The greatest of the segments' ends, or 0 where there are none.
fn last_end(segments: &[Segment]) -> u64
    requires { All IsSegment segments.now }
    ensures value { result ≡ last_end segments.now }
    ensures low { result ≤ 2 ^ 32 }
{
    let mut last = 0;
    for segment in segments {
        last = last.max(segment.vaddr + segment.memsz);
    }
    last
}
