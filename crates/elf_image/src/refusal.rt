//! Why a file is no image, as codes and their names.

ghost use Rattle.elf_image.specs.declared.refusal.ImageRefusal.TheVariants.{NoMemory as OutOfMemory};
ghost use Rattle.std.specs.Prelude.{◌≡◌};

use sim_base::NoMemory;
use std::alloc::{AllocError, AllocFailed};
use std::fmt;

/// Why a file is no image, by this simulator's own rules. The first that stands counts.
#[derive(Clone, Copy, Debug, PartialEq, Eq)]
pub enum ImageFault {
    /// It has more than 16,777,216 bytes.
    TooLong,
    /// It has fewer bytes than the file header, which has 64.
    Short,
    /// Its first four bytes aren't those of an ELF file.
    Magic,
    /// It isn't of 64 bits, little-endian or of version 1.
    Class,
    /// It isn't an executable file.
    Kind,
    /// It isn't for RISC-V.
    Machine,
    /// Its program headers aren't of 56 bytes, are none or more than 64, or pass the file's end, or one
    /// that is loaded has more bytes in the file than in memory, or some past the file's end.
    Headers,
    /// A header asks for dynamic linking.
    Dynamic,
    /// A header asks for an interpreter.
    Interp,
    /// A header asks for thread-local storage.
    Tls,
    /// A segment ends above 2^32, or the segments have more than 268,435,456 bytes of memory in all.
    Reach,
    /// Two segments share a byte.
    Overlap,
    /// A segment can be both written and executed.
    WriteExec,
    /// The entry isn't a multiple of 4, or lies in no executable segment.
    Entry,
}

impl fmt::Display for ImageFault {
    ghost use Rattle.std.specs.Prelude.{Some};
    ghost use Rattle.elf_image.specs.Names.{fault_name};

    ghost output = { λ fault. Some (fault_name fault) };

    fn fmt<W: fmt::Write>(&self, f: &mut fmt::Formatter<W>) -> fmt::Result {
        f.write_str(match self {
            ImageFault::TooLong => "TooLong",
            ImageFault::Short => "Short",
            ImageFault::Magic => "Magic",
            ImageFault::Class => "Class",
            ImageFault::Kind => "Kind",
            ImageFault::Machine => "Machine",
            ImageFault::Headers => "Headers",
            ImageFault::Dynamic => "Dynamic",
            ImageFault::Interp => "Interp",
            ImageFault::Tls => "Tls",
            ImageFault::Reach => "Reach",
            ImageFault::Overlap => "Overlap",
            ImageFault::WriteExec => "WriteExec",
            ImageFault::Entry => "Entry",
        })
    }
}

/// Why a file gave no image.
#[derive(Clone, Copy, Debug, PartialEq, Eq)]
pub enum ImageRefusal {
    /// The file isn't one that is taken.
    Bad { fault: ImageFault },
    /// Memory ran out.
    NoMemory,
}

impl From<AllocError> for ImageRefusal {
    ghost from_gives = { λ _ e. e ≡ OutOfMemory };

    fn from(_error: AllocError) -> ImageRefusal {
        ImageRefusal::NoMemory
    }
}

impl<T: Drop> From<AllocFailed<T>> for ImageRefusal {
    ghost from_gives = { λ _ e. e ≡ OutOfMemory };

    fn from(_error: AllocFailed<T>) -> ImageRefusal {
        ImageRefusal::NoMemory
    }
}

impl From<NoMemory> for ImageRefusal {
    ghost from_gives = { λ _ e. e ≡ OutOfMemory };

    fn from(_error: NoMemory) -> ImageRefusal {
        ImageRefusal::NoMemory
    }
}
