//! What each fault of an image means, and what to do about it.

use elf_image::ImageFault;

/// What is wrong with the file.
pub(crate) fn meaning_of(fault: ImageFault) -> &'static str {
    match fault {
        ImageFault::TooLong => "The file has more than 16,777,216 bytes.",
        ImageFault::Short => "The file has fewer than 64 bytes, so it has no ELF header.",
        ImageFault::Magic => "The file is no ELF file: it doesn't begin with 7F 45 4C 46.",
        ImageFault::Class => "The file isn't of 64 bits, little-endian and of version 1.",
        ImageFault::Kind =>
            "The file is no executable: an object file, a library or a program without fixed addresses.",
        ImageFault::Machine => "The file is for another processor than RISC-V.",
        ImageFault::Headers =>
            "A program header is wrong, there is none, or one lies past the file's end.",
        ImageFault::Dynamic => "The program asks for dynamic linking.",
        ImageFault::Interp => "The program names an interpreter that is to load it.",
        ImageFault::Tls => "The program has thread-local variables.",
        ImageFault::Reach =>
            "A segment ends above 2^32, or all have more than 268,435,456 bytes of memory.",
        ImageFault::Overlap => "Two segments share a byte of memory.",
        ImageFault::WriteExec => "A segment may be both written and executed.",
        ImageFault::Entry =>
            "The entry is no multiple of 4, or lies in no segment that may be executed.",
    }
}

/// What to do about it.
pub(crate) fn remedy_of(fault: ImageFault) -> &'static str {
    match fault {
        ImageFault::TooLong =>
            "Leave the symbols out (-s), and large tables to the program: zeroed data takes no bytes.",
        ImageFault::Short | ImageFault::Magic =>
            "Give the linked program, and no source, script or archive.",
        ImageFault::Class => "Compile with -march=rv64ima -mabi=lp64.",
        ImageFault::Kind => "Link it, with -static and -no-pie.",
        ImageFault::Machine => "Compile with riscv64-unknown-elf-gcc, as examples/c/tilecc does.",
        ImageFault::Headers => "Link it again, without -c; a file that was cut off lacks its end.",
        ImageFault::Dynamic | ImageFault::Interp => "Link with -static and -no-pie.",
        ImageFault::Tls =>
            "Leave out _Thread_local, and link with -nostdlib: a C library brings some of its own.",
        ImageFault::Reach =>
            "Link at lower addresses (examples/c/tilesim.ld), and keep large data in the heap.",
        ImageFault::Overlap => "Give each segment of the linker script addresses of its own.",
        ImageFault::WriteExec =>
            "Link without -N, with a segment for code and one for data (examples/c/tilesim.ld).",
        ImageFault::Entry =>
            "Name a start routine (ENTRY(_start)), and compile with -march=rv64ima.",
    }
}
