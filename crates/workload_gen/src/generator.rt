//! The image of a workload: code, data and entry, by its kind and its seed.

ghost use Rattle.std.specs.Prelude.{◌≡◌, ◌≤◌, ◌<◌, length, IfOk};
ghost use Rattle.elf_image.specs.File.{file_size};
ghost use Rattle.workload_gen.specs.Workload.{IsWorkload, WorkloadIsOne, program_of};

use crate::assembly::assemble;
use crate::listing::listing_of;
use elf_image::{Image, Segment};
use sim_base::{Bytes, Kind, NoMemory};
use std::alloc::Global;

/// Where the code stands, and where the program starts.
const TEXT_START: u64 = 0x10000;

/// The flags of what may be read and executed.
const READ_EXECUTE: u32 = 5;

/// Where the data stands.
const DATA_START: u64 = 0x20000;

/// How many bytes of data there are, all zero.
const DATA_SIZE: u64 = 4096;

/// The flags of what may be read and written.
const READ_WRITE: u32 = 6;

/// The program of a kind of workload and a seed, this simulator's own. Thread 0 spawns T workers, joins them, and writes
/// the number that they left. T is 3, 7, 11 or 15 by the seed modulo 4, and each worker makes K rounds, 100 to 199 by the
/// seed modulo 100. The file of the program has at most 16,777,216 bytes.
///
/// What a run that ends by exit 0 is meant to print, in 16 hexadecimal digits and a newline: `K * T * (T + 1) / 2` for
/// reduce, lock and barrier, `K * T` for pipeline. With fewer than T + 1 tiles a spawn may be refused, and then the run
/// exits with 1.
pub fn generate(alloc: Global, kind: Kind, seed: u64) -> Result<Image, NoMemory>
    ensures workload { IfOk result (IsWorkload kind seed) }
    ensures fits { IfOk result (λ image. file_size image.segments ≤ 16777216) }
{
    let workers = 3 + 4 * (seed % 4);
    let rounds = 100 + seed % 100;
    let listing = listing_of(alloc, kind, workers, rounds)?;
    let code = assemble(alloc, listing.as_slice())?;
    image_of(alloc, code)
}

/// A law: a kind and a seed have one workload.
pub fn workload_is_one()
    ensures { WorkloadIsOne }
{}

/// The image of the program with this code, and a page of zeros as its data.
fn image_of(alloc: Global, code: Vec<u8>) -> Result<Image, NoMemory>
    requires some { 0 < length code.items }
    requires few { length code.items ≤ 800 }
    ensures { IfOk result (λ image. image ≡ program_of code.items) }
{
    let text = Segment {
        vaddr: TEXT_START,
        memsz: code.len() as u64,
        flags: READ_EXECUTE,
        bytes: Bytes::from_vec(code),
    };
    let data = Segment {
        vaddr: DATA_START,
        memsz: DATA_SIZE,
        flags: READ_WRITE,
        bytes: Bytes::new(alloc, 0)?,
    };
    let mut segments = Vec::new(alloc);
    segments.push(text)?;
    segments.push(data)?;
    Image::new(alloc, TEXT_START, segments)
}
