//! Files that are read and written whole, as a trait.

ghost use Rattle.std.specs.Prelude.{◌≡◌, ◌≤◌, ℕ, List, []};
ghost use Rattle.sim_outside.specs.Files.{ReadAll, WriteAll};
ghost use Rattle.sim_outside.specs.Told.{Contents};

use crate::reading::FileAnswer;
use crate::writing::WriteAnswer;

/// Files that are read and written whole, by name.
pub trait Files {
    /// How many faults of reading each name has had. A count stops at 2^64 - 1.
    ghost read_faults: { Self → List ℕ → ℕ };

    /// How many faults of writing each name has had. A count stops at 2^64 - 1.
    ghost write_faults: { Self → List ℕ → ℕ };

    /// What the names hold. It is told of every name or of none.
    ghost holds: { Self → Contents };

    /// Reads the whole file into `into`, which begins empty, if it has at most `limit` bytes.
    ///
    /// `Failed` comes only with one more fault of that name, counted once; `into` then holds bytes of no meaning. A
    /// name that isn't there is such a fault. `TooLong` leaves more than `limit` bytes in `into`, which
    /// begin the file. `NoMemory` leaves `into` empty. With any answer but `Failed` each name has as
    /// many faults as before. No name holds anything else afterwards, and no fault of writing is
    /// counted.
    fn read_all(&mut self, name: &str, limit: usize, into: &mut Vec<u8>) -> Result<(), FileAnswer>
        requires { into.old.items ≡ [] }
        ensures never_falls { (n : List ℕ) → read_faults self.old n ≤ read_faults self.new n }
        ensures writes { write_faults self.new ≡ write_faults self.old }
        ensures kept { holds self.new ≡ holds self.old }
        ensures answer { ReadAll result (holds self.old) name.now limit into.new.items
            (read_faults self.old) (read_faults self.new) };

    /// Makes the name hold exactly these bytes, whether it was there or not.
    ///
    /// `Failed` comes only with one more fault of that name, which then holds unknown bytes or isn't
    /// there. After `NoMemory` each name holds what it held. With any answer but `Failed` each name has
    /// as many faults as before. No other name holds anything else afterwards, and no fault of reading
    /// is counted.
    fn write_all(&mut self, name: &str, bytes: &[u8]) -> Result<(), WriteAnswer>
        ensures never_falls { (n : List ℕ) → write_faults self.old n ≤ write_faults self.new n }
        ensures reads { read_faults self.new ≡ read_faults self.old }
        ensures answer { WriteAll result (holds self.old) (holds self.new) name.now bytes.now
            (write_faults self.old) (write_faults self.new) };
}
