//! Products, of the extension M.
ghost use Rattle.std.specs.Prelude.{◌≡◌};
ghost use Rattle.rv_exec.specs.Arithmetic.{high_half, signed_high_product, mixed_high_product, unsigned_high_product};
ghost use Rattle.rv_exec.specs.Class.{register_class};
ghost use Rattle.rv_exec.specs.Effect.{register_value};

use crate::values::{sign_extended, word};
use rv_decode::Op;
use sim_base::CostClass;

/// What a multiplication of two registers' numbers writes.
pub(crate) fn value_of_product(op: Op, a: u64, b: u64) -> u64
    requires { register_class op ≡ CostClass.Mul }
    ensures { result ≡ register_value op a b }
{
    match op {
        Op::Mul => a.wrapping_mul(b),
        Op::Mulh => signed_high_product(a, b),
        Op::Mulhsu => mixed_high_product(a, b),
        Op::Mulhu => unsigned_high_product(a, b),
        Op::Mulw => sign_extended(word(a).wrapping_mul(word(b))),
        _ => unreachable!(),
    }
}

/// The high half of a product of signed numbers.
fn signed_high_product(a: u64, b: u64) -> u64
    ensures { result ≡ signed_high_product a b }
{
    high_half(i128::from(a.cast_signed()) * i128::from(b.cast_signed()))
}

/// The high half of a product of a signed and an unsigned number.
fn mixed_high_product(a: u64, b: u64) -> u64
    ensures { result ≡ mixed_high_product a b }
{
    high_half(i128::from(a.cast_signed()) * i128::from(b))
}

/// The high half of a product of unsigned numbers.
fn unsigned_high_product(a: u64, b: u64) -> u64
    ensures { result ≡ unsigned_high_product a b }
{
    ((u128::from(a) * u128::from(b)) >> 64) as u64
}

/// The high 64 bits of a signed number of 128 bits.
fn high_half(product: i128) -> u64
    ensures { result ≡ high_half product }
{
    (product.cast_unsigned() >> 64) as u64
}
