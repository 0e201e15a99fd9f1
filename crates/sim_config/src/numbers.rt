//! Decimal numbers, as words and settings have them.

ghost use Rattle.std.specs.Prelude.{◌≡◌};
ghost use Rattle.std.specs.Char.{is_ascii_digit};
ghost use Rattle.std.specs.List.{list_all};
ghost use Rattle.sim_config.specs.Words.{has_no_leading_zero, is_numeral, word_number};

/// The number that a word is: decimal digits without a sign and without a zero in front, but for `0` itself, at most
/// 2^64 - 1.
pub(crate) fn number_of(word: &str) -> Option<u64>
    ensures { result ≡ word_number word.now }
{
    if is_numeral(word.as_bytes()) {
        word.parse::<u64>().ok()
    } else {
        None
    }
}

/// Whether bytes are digits without a zero in front.
fn is_numeral(bytes: &[u8]) -> bool
    ensures { result ≡ is_numeral bytes.now }
{
    are_digits(bytes) && has_no_leading_zero(bytes)
}

/// Whether bytes are decimal digits.
fn are_digits(bytes: &[u8]) -> bool
    ensures { result ≡ list_all is_ascii_digit bytes.now }
{
    bytes.iter().all(|byte| byte.is_ascii_digit())
}

/// Whether there are bytes, and no zero stands in front of another.
fn has_no_leading_zero(bytes: &[u8]) -> bool
    ensures { result ≡ has_no_leading_zero bytes.now }
{
    match bytes {
        [] => false,
        [first, rest @ ..] => *first != b'0' || rest.is_empty(),
    }
}
