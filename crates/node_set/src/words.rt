//! The place of a bit in a word of 64.

ghost use Rattle.std.specs.Prelude.{◌≡◌, ◌<◌, Some, count_ones, slice_get};
ghost use Rattle.node_set.specs.Inner.{bits};

/// The number of the bit at a place among those of a word that are set.
#[inline]
pub(crate) fn bit_at_place(word: u64, place: usize) -> u8
    requires { place < count_ones word }
    ensures bit { slice_get (bits 64 0 word) place ≡ Some result }
    ensures within { result < 64 }
{
    // The word has a bit, but the compiler doesn't know that, and so not how often the loop runs either. It leaves the loop
    // as it is then: of an unrolled one a processor guesses two ends wrong where the place is drawn.
    let one = usize::from(word != 0);
    let mut rest = word;
    let mut left = place;
    while left > 0 {
        rest &= rest.wrapping_sub(1);
        left -= one;
    }
    rest.trailing_zeros() as u8
}
