//! How an image is written as the bytes of an ELF file.

ghost use Rattle.std.specs.Prelude.{◌≡◌, ◌+◌, ◌*◌, ◌≤◌, ◌<◌, ◌^◌, ◌++◌, length, map, sum_by, All, Ok, OnOk, IfOk, replicate};
ghost use Rattle.std.specs.List.{flat_map};
ghost use Rattle.byteorder.specs.Endian.{little_bytes};
ghost use Rattle.elf_image.specs.Image.{image_of, IsSegment};
ghost use Rattle.elf_image.specs.File.{file_of, ident_bytes, header_bytes, segment_header, table_bytes, file_size};

use crate::headers::{
    CLASS_64, EXECUTABLE, FILE_HEADER, LITTLE_ENDIAN, LOAD, MAGIC, PROGRAM_HEADER, RISC_V, VERSION,
};
use crate::program::{Image, Segment};
use sim_base::NoMemory;
use std::alloc::Global;

/// How many bytes the file of a program has: the headers', and those of each segment.
pub fn file_size(image: &Image) -> u64
    ensures { result ≡ file_size image.now.segments }
{
    size_of(image.segments())
}

/// How many bytes the file of some segments has.
fn size_of(segments: &[Segment]) -> u64
    requires few { length segments.now ≤ 64 }
    requires each { All IsSegment segments.now }
    ensures { result ≡ file_size segments.now }
{
    let mut size = (FILE_HEADER + PROGRAM_HEADER * segments.len()) as u64;
    for segment in segments {
        size += segment.bytes.len() as u64;
    }
    size
}

/// The ELF64 file of a program, by the System V ABI: the file header, a program header for each segment,
/// and then the segments' bytes one after the other. Reading it gives the same program. `file_size`
/// says how many bytes it has: at most 16,777,216, the greatest length that is read.
pub fn write_image(alloc: Global, image: &Image) -> Result<Vec<u8>, NoMemory>
    requires { file_size image.now.segments ≤ 16777216 }
    ensures value { IfOk result (λ file. file.items ≡ file_of image.now) }
    ensures reads_back { image_of (file_of image.now) ≡ Ok image.now }
{
    let segments = image.segments();
    let mut file = Vec::new(alloc);
    push_file_header(&mut file, image.entry(), segments.len())?;
    push_table(&mut file, segments)?;
    push_contents(&mut file, segments)?;
    Ok(file)
}

/// Appends the file header.
fn push_file_header(file: &mut Vec<u8>, entry: u64, count: usize) -> Result<(), NoMemory>
    requires { count < 2 ^ 16 }
    ensures { OnOk result (file.new.items ≡ file.old.items ++ header_bytes entry count) }
{
    push_ident(file)?;
    push_kind(file)?;
    push_number(file, entry)?;
    push_number(file, FILE_HEADER as u64)?;
    push(file, &[0; 12])?;
    push_sizes(file, count as u16)?;
    Ok(())
}

/// Appends e_ident, whose last nine bytes are zero.
#[tactic(auto, unfolding(crate::specs::File::ident_bytes))]
fn push_ident(file: &mut Vec<u8>) -> Result<(), NoMemory>
    ensures { OnOk result (file.new.items ≡ file.old.items ++ ident_bytes) }
{
    push(file, &MAGIC)?;
    push(file, &[CLASS_64, LITTLE_ENDIAN, VERSION])?;
    push(file, &[0; 9])?;
    Ok(())
}

/// Appends e_type, e_machine and e_version.
fn push_kind(file: &mut Vec<u8>) -> Result<(), NoMemory>
    ensures { OnOk result (file.new.items ≡ file.old.items ++ (little_bytes 2 2 ++ little_bytes 2 243 ++ little_bytes 4 1)) }
{
    push(file, &EXECUTABLE.to_le_bytes())?;
    push(file, &RISC_V.to_le_bytes())?;
    push(file, &u32::from(VERSION).to_le_bytes())?;
    Ok(())
}

/// Appends the sizes of the file header and of a program header, the number of those, and three fields on
/// sections, of which there are none.
fn push_sizes(file: &mut Vec<u8>, count: u16) -> Result<(), NoMemory>
    ensures { OnOk result (file.new.items ≡ file.old.items ++ (little_bytes 2 64 ++ little_bytes 2 56 ++ little_bytes 2 count ++ replicate 6 0)) }
{
    push(file, &(FILE_HEADER as u16).to_le_bytes())?;
    push(file, &(PROGRAM_HEADER as u16).to_le_bytes())?;
    push(file, &count.to_le_bytes())?;
    push(file, &[0; 6])?;
    Ok(())
}

/// Appends bytes.
fn push(file: &mut Vec<u8>, bytes: &[u8]) -> Result<(), NoMemory>
    ensures { OnOk result (file.new.items ≡ file.old.items ++ bytes.now) }
{
    file.extend_from_slice(bytes)?;
    Ok(())
}

/// Appends a number of eight bytes.
fn push_number(file: &mut Vec<u8>, number: u64) -> Result<(), NoMemory>
    ensures { OnOk result (file.new.items ≡ file.old.items ++ little_bytes 8 number) }
{
    push(file, &number.to_le_bytes())
}

/// Appends a program header for each segment.
fn push_table(file: &mut Vec<u8>, segments: &[Segment]) -> Result<(), NoMemory>
    requires { file_size segments.now ≤ 16777216 }
    ensures { OnOk result (file.new.items ≡ file.old.items ++ table_bytes (64 + 56 * length segments.now) segments.now) }
{
    let mut at = (FILE_HEADER + PROGRAM_HEADER * segments.len()) as u64;
    for segment in segments {
        push_segment_header(file, at, segment)?;
        at += segment.bytes.len() as u64;
    }
    Ok(())
}

/// Appends the program header of a segment whose bytes stand at a place of the file.
fn push_segment_header(file: &mut Vec<u8>, at: u64, segment: &Segment) -> Result<(), NoMemory>
    ensures { OnOk result (file.new.items ≡ file.old.items ++ segment_header at segment.now) }
{
    push(file, &LOAD.to_le_bytes())?;
    push(file, &segment.flags.to_le_bytes())?;
    push_number(file, at)?;
    push_number(file, segment.vaddr)?;
    push_number(file, segment.vaddr)?;
    push_number(file, segment.bytes.len() as u64)?;
    push_number(file, segment.memsz)?;
    push_number(file, 1)?;
    Ok(())
}

/// Appends the bytes of the segments.
fn push_contents(file: &mut Vec<u8>, segments: &[Segment]) -> Result<(), NoMemory>
    ensures { OnOk result (file.new.items ≡ file.old.items ++ flat_map (λ s. s.bytes) segments.now) }
{
    for segment in segments {
        file.extend_from_slice(segment.bytes.as_slice())?;
    }
    Ok(())
}
