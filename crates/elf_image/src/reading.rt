//! How an image is read from the bytes of an ELF file.

ghost use Rattle.std.specs.Prelude.{◌≡◌, ◌+◌, ◌≤◌, false, length, map, Some, None, All, IfOk, IfErr, OnOk};
ghost use Rattle.elf_image.specs.declared.refusal.ImageFault.{ImageFault};
ghost use Rattle.elf_image.specs.declared.refusal.ImageRefusal.TheVariants.{Bad};
ghost use Rattle.elf_image.specs.Header.{headers, loads};
ghost use Rattle.elf_image.specs.Image.{image_of, first_fault, first_of, table_refusals, has_wrong_table, segment_of, frame, Reads};

use crate::faults::{has_wrong_load, has_wrong_table, header_fault, kind_fault, program_fault};
use crate::headers::{ProgramHeader, entry_of, loads_of, read_headers};
use crate::program::{Image, Segment};
use crate::refusal::{ImageFault, ImageRefusal};
use sim_base::NoMemory;
use std::alloc::Global;

/// Reads the image of an ELF64 file, whose fields are little-endian, by the System V ABI. A file that
/// isn't a program of this simulator's is refused with the first fault that it has.
pub fn read_image(alloc: Global, bytes: &[u8]) -> Result<Image, ImageRefusal>
    ensures { Reads result (image_of bytes.now) }
{
    let loaded = read_loads(alloc, bytes)?;
    let segments = read_segments(alloc, bytes, loaded.as_slice())?;
    Ok(Image::new(alloc, entry_of(bytes), segments)?)
}

/// The loaded headers of a file that is taken, or why it is refused.
fn read_loads(alloc: Global, bytes: &[u8]) -> Result<Vec<ProgramHeader>, ImageRefusal>
    ensures value { IfOk result (λ loaded. loaded.items ≡ loads bytes.now) }
    ensures room { OnOk result (64 ≤ length bytes.now) }
    ensures taken { OnOk result (first_fault bytes.now ≡ None) }
    ensures refused { IfErr result (λ e. (fault : ImageFault) → e ≡ Bad fault → first_fault bytes.now ≡ Some fault) }
{
    if let Some(fault) = header_fault(bytes) {
        return Err(ImageRefusal::Bad { fault });
    }
    if has_wrong_table(bytes) {
        let fault = ImageFault::Headers;
        return Err(ImageRefusal::Bad { fault });
    }
    let table = read_headers(alloc, bytes)?;
    let loaded = loads_of(alloc, table.as_slice())?;
    if let Some(fault) = table_fault(bytes, table.as_slice(), loaded.as_slice()) {
        return Err(ImageRefusal::Bad { fault });
    }
    let frames = frames_of(alloc, loaded.as_slice())?;
    match program_fault(entry_of(bytes), frames.as_slice()) {
        Some(fault) => Err(ImageRefusal::Bad { fault }),
        None => Ok(loaded),
    }
}

/// The first fault of the headers of a file whose table has the right size.
fn table_fault(
    bytes: &[u8],
    table: &[ProgramHeader],
    loaded: &[ProgramHeader],
) -> Option<ImageFault>
    requires right { has_wrong_table bytes.now ≡ false }
    requires table { table.now ≡ headers bytes.now }
    requires loaded { loaded.now ≡ loads bytes.now }
    ensures { result ≡ first_of table_refusals bytes.now }
{
    if has_wrong_load(bytes, loaded) {
        return Some(ImageFault::Headers);
    }
    kind_fault(table)
}

/// The segments of loaded headers without their bytes, which no test of a program asks for.
fn frames_of(alloc: Global, loaded: &[ProgramHeader]) -> Result<Vec<Segment>, NoMemory>
    ensures { IfOk result (λ frames. frames.items ≡ map frame loaded.now) }
{
    let mut frames = Vec::with_capacity(alloc, loaded.len())?;
    for header in loaded {
        frames.push(header.with_bytes(Vec::new(alloc)))?;
    }
    Ok(frames)
}

/// The segments of loaded headers.
fn read_segments(
    alloc: Global,
    bytes: &[u8],
    loaded: &[ProgramHeader],
) -> Result<Vec<Segment>, NoMemory>
    requires { All (λ h. h.offset + h.filesz ≤ length bytes.now) loaded.now }
    ensures { IfOk result (λ segments. segments.items ≡ map (segment_of bytes.now) loaded.now) }
{
    let mut segments = Vec::with_capacity(alloc, loaded.len())?;
    for header in loaded {
        segments.push(read_segment(alloc, bytes, header)?)?;
    }
    Ok(segments)
}

/// The segment of a program header.
fn read_segment(alloc: Global, bytes: &[u8], header: &ProgramHeader) -> Result<Segment, NoMemory>
    requires { header.now.offset + header.now.filesz ≤ length bytes.now }
    ensures { IfOk result (λ segment. segment ≡ segment_of bytes.now header.now) }
{
    let held = &bytes[header.offset as usize..][..header.filesz as usize];
    Ok(header.with_bytes(held.to_vec(alloc)?))
}
