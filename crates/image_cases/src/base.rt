//! The image that the questions are about, as a linker lays it out, by the System V ABI.

/// How many bytes the file has.
pub const FILE_BYTES: usize = 304;

/// The file. The code with the headers themselves is read and executed from 0x10000 on, and entered at 0x10120. From
/// 0x11000 on are 4 bytes of data with 16 zeros after them, read and written. Two more headers are of types that nothing
/// reads: the attributes of RISC-V, with more bytes in the file than in memory, and the flags of the stack.
pub static FILE: [u8; FILE_BYTES] = [
    0x7F, 0x45, 0x4C, 0x46, 2, 1, 1, 0, 0, 0, 0, 0, 0, 0, 0, 0, // e_ident
    2, 0, 0xF3, 0, 1, 0, 0, 0, // e_type, e_machine, e_version
    0x20, 1, 1, 0, 0, 0, 0, 0, // e_entry
    0x40, 0, 0, 0, 0, 0, 0, 0, // e_phoff
    0, 0, 0, 0, 0, 0, 0, 0, // e_shoff
    0, 0, 0, 0, 0x40, 0, 0x38, 0, 4, 0, 0, 0, 0, 0, 0, 0, // e_flags to e_shstrndx
    3, 0, 0, 0x70, 4, 0, 0, 0, // attributes
    0x30, 1, 0, 0, 0, 0, 0, 0, // p_offset
    0, 0, 0, 0, 0, 0, 0, 0, // p_vaddr
    0, 0, 0, 0, 0, 0, 0, 0, // p_paddr
    0x40, 0, 0, 0, 0, 0, 0, 0, // p_filesz
    0, 0, 0, 0, 0, 0, 0, 0, // p_memsz
    0, 0x10, 0, 0, 0, 0, 0, 0, // p_align
    1, 0, 0, 0, 5, 0, 0, 0, // the code
    0, 0, 0, 0, 0, 0, 0, 0, // p_offset
    0, 0, 1, 0, 0, 0, 0, 0, // p_vaddr
    0, 0, 1, 0, 0, 0, 0, 0, // p_paddr
    0x2C, 1, 0, 0, 0, 0, 0, 0, // p_filesz
    0x2C, 1, 0, 0, 0, 0, 0, 0, // p_memsz
    0, 0x10, 0, 0, 0, 0, 0, 0, // p_align
    1, 0, 0, 0, 6, 0, 0, 0, // the data
    0x2C, 1, 0, 0, 0, 0, 0, 0, // p_offset
    0, 0x10, 1, 0, 0, 0, 0, 0, // p_vaddr
    0, 0x10, 1, 0, 0, 0, 0, 0, // p_paddr
    4, 0, 0, 0, 0, 0, 0, 0, // p_filesz
    0x14, 0, 0, 0, 0, 0, 0, 0, // p_memsz
    0, 0x10, 0, 0, 0, 0, 0, 0, // p_align
    0x51, 0xE5, 0x74, 0x64, 6, 0, 0, 0, // the stack
    0, 0, 0, 0, 0, 0, 0, 0, // p_offset
    0, 0, 0, 0, 0, 0, 0, 0, // p_vaddr
    0, 0, 0, 0, 0, 0, 0, 0, // p_paddr
    0, 0, 0, 0, 0, 0, 0, 0, // p_filesz
    0, 0, 0, 0, 0, 0, 0, 0, // p_memsz
    0, 0x10, 0, 0, 0, 0, 0, 0, // p_align
    0x93, 8, 0xD0, 5, // addi a7, x0, 93
    0x13, 5, 0, 0, // addi a0, x0, 0
    0x73, 0, 0, 0, // ecall
    1, 2, 3, 4, // the bytes of the data
];
