//! The program of a line. Its parts stand at 0x10100, where it enters, 0x10200 and so on up to 0x10800, with a `/`
//! between one and the next. A part is made of words: an instruction's hexadecimal digits, `ecall`, or a register with
//! its number, as `a0=0x11000`, for the two instructions that load it. The segment ends at 0x10900, so the heap is at 0x11000.

use elf_image::{Image, read_image};
use std::alloc::{AllocError, Global};

/// The header of an executable for RISC-V with one segment, which is read and executed from 0x10000 on, by the System V
/// ABI.
static HEADERS: [u8; 120] = [
    0x7F, 0x45, 0x4C, 0x46, 2, 1, 1, 0, 0, 0, 0, 0, 0, 0, 0, 0, // e_ident
    2, 0, 0xF3, 0, 1, 0, 0, 0, // e_type, e_machine, e_version
    0, 1, 1, 0, 0, 0, 0, 0, // e_entry
    64, 0, 0, 0, 0, 0, 0, 0, // e_phoff
    0, 0, 0, 0, 0, 0, 0, 0, // e_shoff
    5, 0, 0, 0, 64, 0, 56, 0, 1, 0, 0, 0, 0, 0, 0, 0, // e_flags to e_shstrndx
    1, 0, 0, 0, 5, 0, 0, 0, // p_type, p_flags
    0, 0, 0, 0, 0, 0, 0, 0, // p_offset
    0, 0, 1, 0, 0, 0, 0, 0, // p_vaddr
    0, 0, 1, 0, 0, 0, 0, 0, // p_paddr
    0, 9, 0, 0, 0, 0, 0, 0, // p_filesz
    0, 9, 0, 0, 0, 0, 0, 0, // p_memsz
    0, 0x10, 0, 0, 0, 0, 0, 0, // p_align
];

/// Where the first part begins in the file.
const CODE: usize = 0x100;

/// How many bytes each part has.
const PART: usize = 0x100;

/// Where the last part ends.
const END: usize = 0x900;

/// The instruction ECALL.
const ECALL: u32 = 0x0000_0073;

/// The image of a program.
pub fn image(alloc: Global, code: &str) -> Result<Option<Image>, AllocError> {
    let file = assembled(alloc, code)?;
    Ok(read_image(alloc, file.as_slice()).ok())
}

/// The file of a program.
fn assembled(alloc: Global, code: &str) -> Result<Vec<u8>, AllocError> {
    let mut file = HEADERS.to_vec(alloc)?;
    let mut end = CODE;
    file.resize(end, 0)?;
    for part in code.split('/') {
        add_part(&mut file, part)?;
        end = end.saturating_add(PART).min(END);
        file.resize(end, 0)?;
    }
    file.resize(END, 0)?;
    Ok(file)
}

/// Adds the instructions of a part.
fn add_part(file: &mut Vec<u8>, part: &str) -> Result<(), AllocError> {
    for word in part.split_ascii_whitespace() {
        match word.split_once('=') {
            Some((register, value)) => add_load(file, place_of(register), number(value))?,
            None => add(file, instruction(word))?,
        }
    }
    Ok(())
}

/// The instruction that a word names, or that of no row.
fn instruction(word: &str) -> u32 {
    if word == "ecall" {
        ECALL
    } else {
        u32::from_str_radix(word, 16).unwrap_or(0)
    }
}

/// A register's number, by its name in the calling convention.
fn place_of(register: &str) -> u32 {
    match register {
        "t0" => 5,
        "a0" => 10,
        "a1" => 11,
        "a2" => 12,
        "a3" => 13,
        "a7" => 17,
        _ => 0,
    }
}

/// Adds LUI and ADDI, by which a register has a number of at most 31 bits.
fn add_load(file: &mut Vec<u8>, register: u32, value: u32) -> Result<(), AllocError> {
    let rd = register << 7;
    let rs1 = register << 15;
    let high = value.wrapping_add(0x800) & 0xFFFF_F000;
    add(file, high | (rd | 0x37))?;
    add(file, value << 20 | (rs1 | (rd | 0x13)))
}

/// Adds an instruction.
fn add(file: &mut Vec<u8>, instruction: u32) -> Result<(), AllocError> {
    file.extend_from_slice(&instruction.to_le_bytes())
}

/// A number, to the base 16 behind `0x`, else to the base 10; 0 where it is none.
pub fn number(word: &str) -> u32 {
    let read = match word.strip_prefix("0x") {
        Some(digits) => u32::from_str_radix(digits, 16),
        None => word.parse::<u32>(),
    };
    read.unwrap_or(0)
}
