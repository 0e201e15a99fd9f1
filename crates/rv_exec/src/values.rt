//! The numbers that instructions write, the branches' tests, and the sizes and signs of accesses.
ghost use Rattle.std.specs.Prelude.{◌≡◌, ◌<◌, IsTrue};
ghost use Rattle.rv_decode.specs.Field.{extended};
ghost use Rattle.rv_decode.specs.Valid.{is_upper, is_branch, is_load, is_store, is_immediate, is_register, IsAmount};
ghost use Rattle.rv_exec.specs.Arithmetic.{signed_lt, low_word, arithmetic_shift, word_arithmetic_shift};
ghost use Rattle.rv_exec.specs.Access.{size_of, is_size, is_signed};
ghost use Rattle.rv_exec.specs.Effect.{upper_value, is_taken, immediate_value, shift_value, register_value};

use crate::division::value_of_division;
use crate::products::value_of_product;
use rv_decode::Op;

/// What LUI and AUIPC write.
#[inline(always)]
pub(crate) fn value_of_upper(op: Op, imm: u64, pc: u64) -> u64
    requires { IsTrue (is_upper op) }
    ensures { result ≡ upper_value op imm pc }
{
    match op {
        Op::Lui => imm,
        Op::Auipc => pc.wrapping_add(imm),
        _ => unreachable!(),
    }
}

/// Whether a branch on `a` and `b` is taken.
#[inline(always)]
pub(crate) fn takes(op: Op, a: u64, b: u64) -> bool
    requires { IsTrue (is_branch op) }
    ensures { result ≡ is_taken op a b }
{
    match op {
        Op::Beq => a == b,
        Op::Bne => a != b,
        Op::Blt => is_signed_less(a, b),
        Op::Bge => !is_signed_less(a, b),
        Op::Bltu => a < b,
        Op::Bgeu => a >= b,
        _ => unreachable!(),
    }
}

/// What arithmetic on `a` and an immediate writes.
#[inline(always)]
pub(crate) fn value_of_immediate(op: Op, a: u64, imm: u64) -> u64
    requires { IsTrue (is_immediate op) }
    ensures { result ≡ immediate_value op a imm }
{
    match op {
        Op::Addi => a.wrapping_add(imm),
        Op::Slti => u64::from(is_signed_less(a, imm)),
        Op::Sltiu => u64::from(a < imm),
        Op::Xori => a ^ imm,
        Op::Ori => a | imm,
        Op::Andi => a & imm,
        Op::Addiw => sign_extended(word(a).wrapping_add(word(imm))),
        _ => unreachable!(),
    }
}

/// What a shift of `a` by a constant writes.
#[inline(always)]
pub(crate) fn value_of_shift(op: Op, a: u64, amount: u8) -> u64
    requires { IsAmount op amount }
    ensures { result ≡ shift_value op a amount }
{
    match op {
        Op::Slli => a << amount,
        Op::Srli => a >> amount,
        Op::Srai => signed_shift(a, amount),
        Op::Slliw => sign_extended(word(a) << amount),
        Op::Srliw => sign_extended(word(a) >> amount),
        Op::Sraiw => signed_word_shift(a, amount),
        _ => unreachable!(),
    }
}

/// What arithmetic on two registers' numbers writes. A shift's amount is the low 6 bits of `b`, or
/// 5 in a W form.
#[inline(always)]
pub(crate) fn value_of_registers(op: Op, a: u64, b: u64) -> u64
    requires { IsTrue (is_register op) }
    ensures { result ≡ register_value op a b }
{
    let amount = (b % 64) as u8;
    let word_amount = (b % 32) as u8;
    match op {
        Op::Add => a.wrapping_add(b),
        Op::Sll => a << amount,
        Op::Slt => u64::from(is_signed_less(a, b)),
        Op::Sltu => u64::from(a < b),
        Op::Xor => a ^ b,
        Op::Srl => a >> amount,
        Op::Or => a | b,
        Op::And => a & b,
        Op::Sub => a.wrapping_sub(b),
        Op::Sra => signed_shift(a, amount),
        Op::Mul | Op::Mulh | Op::Mulhsu | Op::Mulhu | Op::Mulw => value_of_product(op, a, b),
        Op::Div | Op::Divu | Op::Rem | Op::Remu => value_of_division(op, a, b),
        Op::Addw => sign_extended(word(a).wrapping_add(word(b))),
        Op::Sllw => sign_extended(word(a) << word_amount),
        Op::Srlw => sign_extended(word(a) >> word_amount),
        Op::Subw => sign_extended(word(a).wrapping_sub(word(b))),
        Op::Sraw => signed_word_shift(a, word_amount),
        Op::Divw | Op::Divuw | Op::Remw | Op::Remuw => value_of_division(op, a, b),
        _ => unreachable!(),
    }
}

/// How many bytes a load reads.
#[inline(always)]
pub(crate) fn bytes_of_load(op: Op) -> u8
    requires { IsTrue (is_load op) }
    ensures value { result ≡ size_of op }
    ensures sized { IsTrue (is_size result) }
{
    match op {
        Op::Lb | Op::Lbu => 1,
        Op::Lh | Op::Lhu => 2,
        Op::Lw | Op::Lwu => 4,
        Op::Ld => 8,
        _ => unreachable!(),
    }
}

/// How many bytes a store writes.
#[inline(always)]
pub(crate) fn bytes_of_store(op: Op) -> u8
    requires { IsTrue (is_store op) }
    ensures value { result ≡ size_of op }
    ensures sized { IsTrue (is_size result) }
{
    match op {
        Op::Sb => 1,
        Op::Sh => 2,
        Op::Sw => 4,
        Op::Sd => 8,
        _ => unreachable!(),
    }
}

/// Whether a load reads a signed number.
#[inline(always)]
pub(crate) fn has_sign(op: Op) -> bool
    requires { IsTrue (is_load op) }
    ensures { result ≡ is_signed op }
{
    match op {
        Op::Lb | Op::Lh | Op::Lw | Op::Ld => true,
        Op::Lbu | Op::Lhu | Op::Lwu => false,
        _ => unreachable!(),
    }
}

/// Whether `a` is less than `b` in two's complement.
#[inline(always)]
fn is_signed_less(a: u64, b: u64) -> bool
    ensures { result ≡ signed_lt a b }
{
    a.cast_signed() < b.cast_signed()
}

/// A shift to the right that copies the sign.
#[inline(always)]
fn signed_shift(a: u64, amount: u8) -> u64
    requires { amount < 64 }
    ensures { result ≡ arithmetic_shift a amount }
{
    (a.cast_signed() >> amount).cast_unsigned()
}

/// A shift of the low word to the right that copies the word's sign.
#[inline(always)]
fn signed_word_shift(a: u64, amount: u8) -> u64
    requires { amount < 32 }
    ensures { result ≡ word_arithmetic_shift a amount }
{
    sign_extended((word(a).cast_signed() >> amount).cast_unsigned())
}

/// The low word of a register's number.
#[inline(always)]
pub(crate) fn word(n: u64) -> u32
    ensures { result ≡ low_word n }
{
    (n & 0xffff_ffff) as u32
}

/// A word as 64 bits with the same signed value.
#[inline(always)]
pub(crate) fn sign_extended(n: u32) -> u64
    ensures { result ≡ extended 32 n }
{
    i64::from(n.cast_signed()).cast_unsigned()
}
