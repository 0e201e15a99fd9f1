//! What the definitions say, as facts beside folds and tests. They have no code.

ghost use Rattle.elf_image.specs.Image.{OverlapIsCommonAddress, ProgramIsWithoutFault};
ghost use Rattle.elf_image.specs.Layout.{HeapStartsPastSegments};

/// Segments overlap exactly where two different ones have an address in common.
pub fn overlap_is_common_address()
    ensures { OverlapIsCommonAddress }
{}

/// An entry and segments are a program exactly where the segments are few and small and [`crate::program_fault`]
/// finds nothing.
pub fn program_is_without_fault()
    ensures { ProgramIsWithoutFault }
{}

/// The heap window starts at the least multiple of 4096 that isn't below any segment's end.
pub fn heap_starts_past_segments()
    ensures { HeapStartsPastSegments }
{}
