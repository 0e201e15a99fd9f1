//! Quotients and remainders, of the extension M.
ghost use Rattle.std.specs.Prelude.{◌≡◌};
ghost use Rattle.std.specs.Int.{w32, w64};
ghost use Rattle.rv_exec.specs.Arithmetic.{signed_quotient, unsigned_quotient, signed_remainder, unsigned_remainder};
ghost use Rattle.rv_exec.specs.Class.{register_class};
ghost use Rattle.rv_exec.specs.Effect.{register_value};

use crate::values::{sign_extended, word};
use rv_decode::Op;
use sim_base::CostClass;

/// What a division of two registers' numbers writes: a quotient or a remainder.
pub(crate) fn value_of_division(op: Op, a: u64, b: u64) -> u64
    requires { register_class op ≡ CostClass.Div }
    ensures { result ≡ register_value op a b }
{
    match op {
        Op::Div => quotient(a, b),
        Op::Divu => unsigned_quotient(a, b),
        Op::Rem => remainder(a, b),
        Op::Remu => unsigned_remainder(a, b),
        Op::Divw => sign_extended(word_quotient(word(a), word(b))),
        Op::Divuw => sign_extended(unsigned_word_quotient(word(a), word(b))),
        Op::Remw => sign_extended(word_remainder(word(a), word(b))),
        Op::Remuw => sign_extended(unsigned_word_remainder(word(a), word(b))),
        _ => unreachable!(),
    }
}

/// The quotient of signed numbers, rounded toward zero; all ones where `b` is 0.
fn quotient(a: u64, b: u64) -> u64
    ensures { result ≡ signed_quotient w64 a b }
{
    if b == 0 {
        u64::MAX
    } else {
        a.cast_signed()
            .wrapping_div(b.cast_signed())
            .cast_unsigned()
    }
}

/// The quotient of unsigned numbers; all ones where `b` is 0.
fn unsigned_quotient(a: u64, b: u64) -> u64
    ensures { result ≡ unsigned_quotient w64 a b }
{
    if b == 0 { u64::MAX } else { a / b }
}

/// The remainder of signed numbers, which has the sign of `a`; `a` where `b` is 0.
fn remainder(a: u64, b: u64) -> u64
    ensures { result ≡ signed_remainder w64 a b }
{
    if b == 0 {
        a
    } else {
        a.cast_signed()
            .wrapping_rem(b.cast_signed())
            .cast_unsigned()
    }
}

/// The remainder of unsigned numbers; `a` where `b` is 0.
fn unsigned_remainder(a: u64, b: u64) -> u64
    ensures { result ≡ unsigned_remainder a b }
{
    if b == 0 { a } else { a % b }
}

/// The quotient of signed words, rounded toward zero; all ones where `b` is 0.
fn word_quotient(a: u32, b: u32) -> u32
    ensures { result ≡ signed_quotient w32 a b }
{
    if b == 0 {
        u32::MAX
    } else {
        a.cast_signed()
            .wrapping_div(b.cast_signed())
            .cast_unsigned()
    }
}

/// The quotient of unsigned words; all ones where `b` is 0.
fn unsigned_word_quotient(a: u32, b: u32) -> u32
    ensures { result ≡ unsigned_quotient w32 a b }
{
    if b == 0 { u32::MAX } else { a / b }
}

/// The remainder of signed words, which has the sign of `a`; `a` where `b` is 0.
fn word_remainder(a: u32, b: u32) -> u32
    ensures { result ≡ signed_remainder w32 a b }
{
    if b == 0 {
        a
    } else {
        a.cast_signed()
            .wrapping_rem(b.cast_signed())
            .cast_unsigned()
    }
}

/// The remainder of unsigned words; `a` where `b` is 0.
fn unsigned_word_remainder(a: u32, b: u32) -> u32
    ensures { result ≡ unsigned_remainder a b }
{
    if b == 0 { a } else { a % b }
}
