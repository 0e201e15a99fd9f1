//! The image of the cases.

/// A program of one instruction, `ecall`, at 0x10078. Its heap window starts at 0x11000, the next page, and ends at
/// 0x111000, with the default settings.
pub static FILE: [u8; 124] = [
    0x7F, 0x45, 0x4C, 0x46, 2, 1, 1, 0, 0, 0, 0, 0, 0, 0, 0, 0, // e_ident
    2, 0, 0xF3, 0, 1, 0, 0, 0, // e_type, e_machine, e_version
    0x78, 0, 0x01, 0, 0, 0, 0, 0, // e_entry
    64, 0, 0, 0, 0, 0, 0, 0, // e_phoff
    0, 0, 0, 0, 0, 0, 0, 0, // e_shoff
    0, 0, 0, 0, 64, 0, 56, 0, 1, 0, 0, 0, 0, 0, 0, 0, // e_flags to e_shstrndx
    1, 0, 0, 0, 5, 0, 0, 0, // p_type, p_flags
    120, 0, 0, 0, 0, 0, 0, 0, // p_offset
    0x78, 0, 0x01, 0, 0, 0, 0, 0, // p_vaddr
    0x78, 0, 0x01, 0, 0, 0, 0, 0, // p_paddr
    4, 0, 0, 0, 0, 0, 0, 0, // p_filesz
    4, 0, 0, 0, 0, 0, 0, 0, // p_memsz
    0, 0x10, 0, 0, 0, 0, 0, 0, // p_align
    0x73, 0, 0, 0, // ecall
];
