//! The cost class of each instruction.

ghost use Rattle.std.specs.Prelude.{◌≡◌, ◌↔◌, IsTrue};
ghost use Rattle.sim_base.specs.declared.kinds.CostClass.TheVariants.{Mul, Div};
ghost use Rattle.rv_exec.specs.Class.{class_of, register_class};

use rv_decode::{Instr, Op};
use sim_base::CostClass;

/// The class of an instruction: instructions of one class cost the same number of cycles. The classes are
/// this simulator's own. Multiplications, with MULW among them, are `Mul`; the eight divisions and
/// remainders `Div`; loads and stores `Mem`; load-reserved, store-conditional and the atomic memory
/// operations `Amo`; ECALL is `Call`. All others are `Alu`.
#[inline(always)]
pub fn class(instr: &Instr) -> CostClass
    ensures { result ≡ class_of instr.now }
{
    match *instr {
        Instr::Load { .. } | Instr::Store { .. } => CostClass::Mem,
        Instr::Reg { op, .. } => class_of_registers(op),
        Instr::Atomic { .. } => CostClass::Amo,
        Instr::Ecall => CostClass::Call,
        _ => CostClass::Alu,
    }
}

/// The class of an instruction on two registers.
#[inline(always)]
fn class_of_registers(op: Op) -> CostClass
    ensures { result ≡ register_class op }
{
    if is_product(op) {
        CostClass::Mul
    } else if is_division(op) {
        CostClass::Div
    } else {
        CostClass::Alu
    }
}

/// Whether an instruction on two registers multiplies.
#[inline(always)]
fn is_product(op: Op) -> bool
    ensures { IsTrue result ↔ (register_class op ≡ Mul) }
{
    matches!(op, Op::Mul | Op::Mulh | Op::Mulhsu | Op::Mulhu | Op::Mulw)
}

/// Whether an instruction on two registers divides.
#[inline(always)]
fn is_division(op: Op) -> bool
    ensures { IsTrue result ↔ (register_class op ≡ Div) }
{
    matches!(
        op,
        Op::Div | Op::Divu | Op::Rem | Op::Remu | Op::Divw | Op::Divuw | Op::Remw | Op::Remuw
    )
}
