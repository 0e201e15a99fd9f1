//! Programs as words.

use elf_image::{Image, read_image};
use sim_base::NoMemory;
use std::alloc::{AllocError, Global};

/// The headers of a program by the System V ABI: 256 bytes, read and executed, from 0x10000 on, where it is entered, and
/// 8192 zeros, read and written, from 0x20000 on.
const HEADERS: [u8; 176] = [
    0x7F, 0x45, 0x4C, 0x46, 2, 1, 1, 0, 0, 0, 0, 0, 0, 0, 0, 0, // e_ident
    2, 0, 0xF3, 0, 1, 0, 0, 0, // e_type, e_machine, e_version
    0, 0, 1, 0, 0, 0, 0, 0, // e_entry
    64, 0, 0, 0, 0, 0, 0, 0, // e_phoff
    0, 0, 0, 0, 0, 0, 0, 0, // e_shoff
    0, 0, 0, 0, 64, 0, 56, 0, 2, 0, 0, 0, 0, 0, 0, 0, // e_flags to e_shstrndx
    1, 0, 0, 0, 5, 0, 0, 0, // the code
    176, 0, 0, 0, 0, 0, 0, 0, // p_offset
    0, 0, 1, 0, 0, 0, 0, 0, // p_vaddr
    0, 0, 1, 0, 0, 0, 0, 0, // p_paddr
    0, 1, 0, 0, 0, 0, 0, 0, // p_filesz
    0, 1, 0, 0, 0, 0, 0, 0, // p_memsz
    1, 0, 0, 0, 0, 0, 0, 0, // p_align
    1, 0, 0, 0, 6, 0, 0, 0, // the data
    0xB0, 1, 0, 0, 0, 0, 0, 0, // p_offset
    0, 0, 2, 0, 0, 0, 0, 0, // p_vaddr
    0, 0, 2, 0, 0, 0, 0, 0, // p_paddr
    0, 0, 0, 0, 0, 0, 0, 0, // p_filesz
    0, 0x20, 0, 0, 0, 0, 0, 0, // p_memsz
    1, 0, 0, 0, 0, 0, 0, 0, // p_align
];

/// How many bytes the file has.
const FILE_BYTES: usize = 432;

/// The image of a program of at most 64 words. A word that is none counts as 0.
pub fn image(alloc: Global, words: &str) -> Result<Option<Image>, NoMemory> {
    let file = file(alloc, words)?;
    Ok(read_image(alloc, file.as_slice()).ok())
}

/// The file of a program.
fn file(alloc: Global, words: &str) -> Result<Vec<u8>, AllocError> {
    let mut file = HEADERS.to_vec(alloc)?;
    for word in words.split_whitespace() {
        let word = u32::from_str_radix(word, 16).unwrap_or(0);
        file.extend_from_slice(&word.to_le_bytes())?;
    }
    file.resize(FILE_BYTES, 0)?;
    Ok(file)
}
