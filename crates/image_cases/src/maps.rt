//! Questions on the image and its address map with the default settings.

use elf_image::{FILE_LIMIT, Image, Right, World, file_size, write_image};
use std::alloc::{AllocError, Global};

/// A segment of an image.
pub fn segment(alloc: Global, image: &Image, place: u64) -> Result<String, AllocError> {
    let Some(found) = image.segments().get(place as usize) else {
        return String::from_str(alloc, "none");
    };
    let (vaddr, memsz, flags, len) = (found.vaddr, found.memsz, found.flags, found.bytes.len());
    format!(in alloc; "{vaddr:#x} memsz {memsz} flags {flags} bytes {len}")
}

/// Some bytes of the file that is written for an image, behind its length.
pub fn written(alloc: Global, image: &Image, place: u64, count: u64) -> Result<String, AllocError> {
    let size = file_size(image);
    if size > FILE_LIMIT as u64 {
        return String::from_str(alloc, "too long");
    }
    let Ok(file) = write_image(alloc, image) else {
        return String::from_str(alloc, "out of memory");
    };
    let mut text = format!(in alloc; "{size}")?;
    push_bytes(
        alloc,
        &mut text,
        file.as_slice(),
        place as usize,
        count as usize,
    )?;
    Ok(text)
}

/// Appends so many bytes from a place on.
fn push_bytes(
    alloc: Global,
    text: &mut String,
    bytes: &[u8],
    place: usize,
    count: usize,
) -> Result<(), AllocError> {
    let rest = bytes.get(place..).unwrap_or(&[]);
    let part = rest.get(..count).unwrap_or(rest);
    for byte in part {
        text.push_str(format!(in alloc; " {byte:02X}")?.as_str())?;
    }
    Ok(())
}

/// Where the heap and the stacks are.
pub fn layout(alloc: Global, world: &World) -> Result<String, AllocError> {
    let layout = world.layout();
    let (start, end, stacks) = (layout.heap_start, layout.heap_end, layout.stack_base);
    format!(in alloc; "heap {start:#x} {end:#x} stacks {stacks:#x}")
}

/// The first address past a tile's stack.
pub fn stack_end(alloc: Global, world: &World, tile: u64) -> Result<String, AllocError> {
    let tile = tile.min(255) as u8;
    if u32::from(tile) >= world.config().tiles {
        return String::from_str(alloc, "no tile");
    }
    let end = world.stack_end(tile);
    format!(in alloc; "{end:#x}")
}

/// The word that is fetched at an address, and its instruction.
pub fn fetched(alloc: Global, world: &World, pc: u64) -> Result<String, AllocError> {
    let Some(word) = world.fetch(pc) else {
        return String::from_str(alloc, "not executable");
    };
    match world.instruction(pc) {
        Some(instr) => format!(in alloc; "{word:#010x} {instr:?}"),
        None => format!(in alloc; "{word:#010x} no instruction"),
    }
}

/// The byte at a place of a line before the program runs.
pub fn byte_of_line(world: &World, line: u64, place: u64) -> u8 {
    let content = world.initial_line(line);
    let place = place.min(63) as usize;
    content.bytes[place]
}

/// The right of a name.
pub fn right_of(name: &str) -> Right {
    match name {
        "read" => Right::Read,
        "write" => Right::Write,
        _ => Right::ReadWrite,
    }
}
