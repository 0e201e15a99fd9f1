//! What atomics do, and what the atomic memory operations write.
ghost use Rattle.std.specs.Prelude.{◌≡◌, IsTrue};
ghost use Rattle.std.specs.Int.{w32, w64};
ghost use Rattle.rv_decode.specs.Valid.{is_atomic};
ghost use Rattle.rv_exec.specs.Access.{atomic_op, amo_value};

use crate::access::{AccessOp, AmoOp};
use rv_decode::Op;

/// What an atomic does.
pub(crate) fn kind_of_atomic(op: Op) -> AccessOp
    requires { IsTrue (is_atomic op) }
    ensures { result ≡ atomic_op op }
{
    match op {
        Op::Lr => AccessOp::Lr,
        Op::Sc => AccessOp::Sc,
        Op::AmoAdd => AccessOp::Amo { op: AmoOp::Add },
        Op::AmoSwap => AccessOp::Amo { op: AmoOp::Swap },
        Op::AmoXor => AccessOp::Amo { op: AmoOp::Xor },
        Op::AmoOr => AccessOp::Amo { op: AmoOp::Or },
        Op::AmoAnd => AccessOp::Amo { op: AmoOp::And },
        Op::AmoMin => AccessOp::Amo { op: AmoOp::Min },
        Op::AmoMax => AccessOp::Amo { op: AmoOp::Max },
        Op::AmoMinu => AccessOp::Amo { op: AmoOp::Minu },
        Op::AmoMaxu => AccessOp::Amo { op: AmoOp::Maxu },
        _ => unreachable!(),
    }
}

/// What an atomic memory operation on 8 bytes writes over `old`.
pub(crate) fn new_double(op: AmoOp, old: u64, value: u64) -> u64
    ensures { result ≡ amo_value w64 op old value }
{
    match op {
        AmoOp::Add => old.wrapping_add(value),
        AmoOp::Swap => value,
        AmoOp::Xor => old ^ value,
        AmoOp::Or => old | value,
        AmoOp::And => old & value,
        AmoOp::Min if old.cast_signed() < value.cast_signed() => old,
        AmoOp::Min => value,
        AmoOp::Max if old.cast_signed() < value.cast_signed() => value,
        AmoOp::Max => old,
        AmoOp::Minu => old.min(value),
        AmoOp::Maxu => old.max(value),
    }
}

/// What an atomic memory operation on 4 bytes writes over `old`.
pub(crate) fn new_word(op: AmoOp, old: u32, value: u32) -> u32
    ensures { result ≡ amo_value w32 op old value }
{
    match op {
        AmoOp::Add => old.wrapping_add(value),
        AmoOp::Swap => value,
        AmoOp::Xor => old ^ value,
        AmoOp::Or => old | value,
        AmoOp::And => old & value,
        AmoOp::Min if old.cast_signed() < value.cast_signed() => old,
        AmoOp::Min => value,
        AmoOp::Max if old.cast_signed() < value.cast_signed() => value,
        AmoOp::Max => old,
        AmoOp::Minu => old.min(value),
        AmoOp::Maxu => old.max(value),
    }
}
