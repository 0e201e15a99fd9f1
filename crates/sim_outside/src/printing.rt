//! A stream that takes bytes, as a trait.

ghost use Rattle.std.specs.Prelude.{◌≤◌, ℕ, List, Option};
ghost use Rattle.sim_outside.specs.Fault.{Counts};
ghost use Rattle.sim_outside.specs.Sink.{Put, is_fault};

/// A stream failed.
#[derive(Clone, Copy, Debug, PartialEq, Eq)]
pub struct Failed;

/// A stream that takes bytes.
pub trait Sink {
    /// How many faults it has had. The count stops at 2^64 - 1.
    ghost faults: { Self → ℕ };

    /// The bytes that it took so far, where this is told.
    ghost taken: { Self → Option (List ℕ) };

    /// Takes the first bytes of `piece` and answers how many.
    ///
    /// A fault is that it takes none of a piece that isn't empty, or `Failed`; then nothing was taken.
    /// The count of faults rises with a fault, and else is as it was.
    fn put(&mut self, piece: &[u8]) -> Result<usize, Failed>
        ensures never_falls { faults self.old ≤ faults self.new }
        ensures answer { Put result piece.now (taken self.old) (taken self.new) }
        ensures counted { Counts (is_fault result piece.now) (faults self.old) (faults self.new) };
}
