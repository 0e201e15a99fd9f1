//! The image of a case: an executable for RISC-V, by the ELF format and the System V ABI.

use crate::words::{number_of, value_of};
use std::alloc::{AllocError, Global};

/// Where the code begins in the file, and the text.
const CODE: usize = 0x120;

const TEXT: usize = 0x180;

/// Where an image's data begins in the file.
const DATA: usize = 0x190;

/// What an image has beside its code.
#[derive(Clone, Copy, PartialEq, Eq)]
enum Layout {
    /// One segment, that of the code.
    Plain,
    /// One segment, with a text in it.
    Text,
    /// What the usual linker writes: attributes, the segment of the code with a text, one with 4 bytes of data, and a
    /// mark for the stack.
    Linked,
    /// The segment of the code, and one with zeros, which is read and written.
    Data,
}

/// The layout of a case, by the value of `layout`. A case that says how many bytes its data has is one with data.
fn layout_of(case: &str) -> Layout {
    if value_of(case, "data").is_some() {
        return Layout::Data;
    }
    match value_of(case, "layout").unwrap_or("plain") {
        "text" => Layout::Text,
        "linked" => Layout::Linked,
        _ => Layout::Plain,
    }
}

/// A program header of ELF64.
#[derive(Clone, Copy)]
struct Header {
    kind: u32,
    flags: u32,
    offset: u64,
    address: u64,
    file_size: u64,
    memory_size: u64,
}

/// The segment of the code, from the file's start.
fn code_header(flags: u32, size: u64) -> Header {
    Header {
        kind: 1,
        flags,
        offset: 0,
        address: 0x10000,
        file_size: size,
        memory_size: size,
    }
}

/// The segment of the data, which is read and written.
const DATA_HEADER: Header = Header {
    kind: 1,
    flags: 6,
    offset: 0x190,
    address: 0x11000,
    file_size: 4,
    memory_size: 4,
};

/// A segment of zeros at the same address.
fn zeros_header(size: u64) -> Header {
    Header {
        offset: 0x164,
        file_size: 0,
        memory_size: size,
        ..DATA_HEADER
    }
}

/// The attributes that the usual linker writes, and its mark for the stack.
const ATTRIBUTES: Header = Header {
    kind: 0x7000_0003,
    flags: 4,
    offset: 0x194,
    address: 0,
    file_size: 0,
    memory_size: 0,
};

const STACK: Header = Header {
    kind: 0x6474_E551,
    flags: 6,
    offset: 0,
    address: 0,
    file_size: 0,
    memory_size: 0,
};

/// The file of a case's image. Its code stands at 0x10120, where it enters, and `hello` and a newline at 0x10180. It has
/// the first bytes alone where the case says `cut`.
pub fn file(alloc: Global, case: &str) -> Result<Vec<u8>, AllocError> {
    let layout = layout_of(case);
    let mut file = Vec::new(alloc);
    push_headers(&mut file, case, layout)?;
    file.resize(CODE, 0)?;
    push_code(&mut file, case)?;
    push_rest(&mut file, layout)?;
    file.truncate(number_of(case, "cut", u64::MAX) as usize);
    Ok(file)
}

/// Adds the instruction words of a case.
fn push_code(file: &mut Vec<u8>, case: &str) -> Result<(), AllocError> {
    for word in case.split_ascii_whitespace() {
        if let Ok(instruction) = u32::from_str_radix(word, 16) {
            push_word(file, instruction)?;
        }
    }
    Ok(())
}

/// Adds what stands behind the code.
fn push_rest(file: &mut Vec<u8>, layout: Layout) -> Result<(), AllocError> {
    match layout {
        Layout::Plain | Layout::Data => file.resize(0x164, 0),
        Layout::Text => push_text(file),
        Layout::Linked => {
            push_text(file)?;
            push_word(file, 42)
        }
    }
}

/// Adds the text, at its place.
fn push_text(file: &mut Vec<u8>) -> Result<(), AllocError> {
    file.resize(TEXT, 0)?;
    file.extend_from_slice(b"hello\n")?;
    file.resize(DATA, 0)
}

/// Adds the headers of a layout.
fn push_headers(file: &mut Vec<u8>, case: &str, layout: Layout) -> Result<(), AllocError> {
    let flags = number_of(case, "flags", 5).min(7) as u32;
    match layout {
        Layout::Plain => {
            push_file_header(file, 1)?;
            push_header(file, &code_header(flags, 0x164))
        }
        Layout::Text => {
            push_file_header(file, 1)?;
            push_header(file, &code_header(flags, 0x190))
        }
        Layout::Data => {
            push_file_header(file, 2)?;
            push_header(file, &code_header(flags, 0x164))?;
            push_header(file, &zeros_header(number_of(case, "data", 0)))
        }
        Layout::Linked => {
            push_file_header(file, 4)?;
            push_header(file, &ATTRIBUTES)?;
            push_header(file, &code_header(flags, 0x190))?;
            push_header(file, &DATA_HEADER)?;
            push_header(file, &STACK)
        }
    }
}

/// The header of an executable for RISC-V, up to how many program headers there are.
static FILE_HEADER: [u8; 56] = [
    0x7F, 0x45, 0x4C, 0x46, 2, 1, 1, 0, 0, 0, 0, 0, 0, 0, 0, 0, // e_ident
    2, 0, 0xF3, 0, 1, 0, 0, 0, // e_type, e_machine, e_version
    0x20, 1, 1, 0, 0, 0, 0, 0, // e_entry
    64, 0, 0, 0, 0, 0, 0, 0, // e_phoff
    0, 0, 0, 0, 0, 0, 0, 0, // e_shoff
    5, 0, 0, 0, 64, 0, 56, 0, // e_flags, e_ehsize, e_phentsize
];

/// Adds the file header for so many program headers.
fn push_file_header(file: &mut Vec<u8>, count: u64) -> Result<(), AllocError> {
    file.extend_from_slice(&FILE_HEADER)?;
    push_double(file, count) // e_phnum, e_shentsize, e_shnum, e_shstrndx
}

/// Adds a program header.
fn push_header(file: &mut Vec<u8>, header: &Header) -> Result<(), AllocError> {
    push_word(file, header.kind)?;
    push_word(file, header.flags)?;
    push_double(file, header.offset)?;
    push_double(file, header.address)?;
    push_double(file, header.address)?;
    push_double(file, header.file_size)?;
    push_double(file, header.memory_size)?;
    push_double(file, 0x1000) // p_align
}

/// Adds a number of 4 bytes.
fn push_word(file: &mut Vec<u8>, number: u32) -> Result<(), AllocError> {
    file.extend_from_slice(&number.to_le_bytes())
}

/// Adds a number of 8 bytes.
fn push_double(file: &mut Vec<u8>, number: u64) -> Result<(), AllocError> {
    file.extend_from_slice(&number.to_le_bytes())
}
