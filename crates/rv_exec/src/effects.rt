//! The effect of each instruction by registers and pc: a value, a jump, an access, a call or a trap.

ghost use Rattle.std.specs.Prelude.{◌≡◌, ◌<◌, ◌%◌, ◌==◌, IsTrue};
ghost use Rattle.rv_decode.specs.Valid.{IsValid, is_load, is_store, is_atomic};
ghost use Rattle.sim_base.specs.declared.ends.Cause.TheVariants.{LoadMisaligned, StoreMisaligned};
ghost use Rattle.rv_exec.specs.Arithmetic.{even_address};
ghost use Rattle.rv_exec.specs.Access.{load_of, store_of, atomic_of, size_of, is_size, is_signed};
ghost use Rattle.rv_exec.specs.Effect.{effect_of, jump, advance, access_or_trap, misaligned_atomic, HasRegister, HasAccess};

use crate::access::{Access, AccessOp};
use crate::atomics::kind_of_atomic;
use crate::meaning::Meaning;
use crate::registers::Regs;
use crate::values::{
    bytes_of_load, bytes_of_store, has_sign, takes, value_of_immediate, value_of_registers,
    value_of_shift, value_of_upper,
};
use rv_decode::{Instr, Op};
use sim_base::Cause;

/// What an instruction at `pc` does, by what the registers hold. It changes nothing itself. The
/// rules are those of the RISC-V ISA manual; arithmetic is modulo 2^64, addresses included.
///
/// A jump, or a branch that is taken, to an address that isn't a multiple of 4 traps; a branch
/// that isn't taken goes on, whatever its target. A load, a store or an atomic whose address isn't a
/// multiple of its size traps. A FENCE does nothing.
#[inline(always)]
pub fn effect(instr: &Instr, regs: &Regs, pc: u64) -> Meaning
    requires { IsValid instr.now }
    ensures meaning { result ≡ effect_of instr.now regs.now pc }
    ensures register { HasRegister result }
    ensures access { HasAccess result }
{
    match *instr {
        Instr::Upper { op, rd, imm } => go_on(rd, value_of_upper(op, imm, pc), pc),
        Instr::Jal { rd, imm } => jump_to(rd, pc.wrapping_add(4), pc.wrapping_add(imm)),
        Instr::Jalr { rd, rs1, imm } => {
            let target = without_bit_0(regs.get(rs1).wrapping_add(imm));
            jump_to(rd, pc.wrapping_add(4), target)
        }
        Instr::Branch { op, rs1, rs2, imm } => {
            if takes(op, regs.get(rs1), regs.get(rs2)) {
                jump_to(0, 0, pc.wrapping_add(imm))
            } else {
                go_on(0, 0, pc)
            }
        }
        Instr::Load { op, rd, rs1, imm } => load_from(op, rd, regs.get(rs1).wrapping_add(imm)),
        Instr::Store { op, rs1, rs2, imm } => {
            store_to(op, regs.get(rs1).wrapping_add(imm), regs.get(rs2))
        }
        Instr::Imm { op, rd, rs1, imm } => {
            go_on(rd, value_of_immediate(op, regs.get(rs1), imm), pc)
        }
        Instr::Shift {
            op,
            rd,
            rs1,
            amount,
        } => { go_on(rd, value_of_shift(op, regs.get(rs1), amount), pc) }
        Instr::Reg { op, rd, rs1, rs2 } => {
            go_on(rd, value_of_registers(op, regs.get(rs1), regs.get(rs2)), pc)
        }
        Instr::Atomic {
            op,
            wide,
            rd,
            rs1,
            rs2,
            ..
        } => { atomic_at(op, wide, rd, regs.get(rs1), regs.get(rs2)) }
        Instr::Fence { .. } => go_on(0, 0, pc),
        Instr::Ecall => Meaning::Call,
        Instr::Ebreak => Meaning::Trap {
            cause: Cause::Breakpoint,
        },
    }
}

/// A value for `rd`, below 32, and the next instruction.
#[inline(always)]
fn go_on(rd: u8, value: u64, pc: u64) -> Meaning
    requires { rd < 32 }
    ensures meaning { result ≡ advance rd value pc }
    ensures register { HasRegister result }
{
    let pc = pc.wrapping_add(4);
    Meaning::Next { rd, value, pc }
}

/// A value for `rd`, below 32, and the instruction at `target`; a trap where that isn't a multiple
/// of 4.
#[inline(always)]
fn jump_to(rd: u8, value: u64, target: u64) -> Meaning
    requires { rd < 32 }
    ensures meaning { result ≡ jump rd value target }
    ensures register { HasRegister result }
{
    if target % 4 == 0 {
        Meaning::Next {
            rd,
            value,
            pc: target,
        }
    } else {
        Meaning::Trap {
            cause: Cause::InstrMisaligned,
        }
    }
}

/// A load to `rd`, below 32; a trap where `addr` isn't a multiple of its size.
#[inline(always)]
fn load_from(op: Op, rd: u8, addr: u64) -> Meaning
    requires load { IsTrue (is_load op) }
    requires register { rd < 32 }
    ensures meaning { result ≡ access_or_trap (load_of op rd addr) LoadMisaligned }
    ensures register { HasRegister result }
    ensures access { HasAccess result }
{
    let size = bytes_of_load(op);
    if is_multiple(addr, size) {
        Meaning::Access {
            access: Access {
                op: AccessOp::Load,
                rd,
                addr,
                size,
                signed: has_sign(op),
                value: 0,
            },
        }
    } else {
        Meaning::Trap {
            cause: Cause::LoadMisaligned,
        }
    }
}

/// A store of `value`; a trap where `addr` isn't a multiple of its size.
#[inline(always)]
fn store_to(op: Op, addr: u64, value: u64) -> Meaning
    requires { IsTrue (is_store op) }
    ensures meaning { result ≡ access_or_trap (store_of op addr value) StoreMisaligned }
    ensures register { HasRegister result }
    ensures access { HasAccess result }
{
    let size = bytes_of_store(op);
    if is_multiple(addr, size) {
        Meaning::Access {
            access: Access {
                op: AccessOp::Store,
                rd: 0,
                addr,
                size,
                signed: false,
                value,
            },
        }
    } else {
        Meaning::Trap {
            cause: Cause::StoreMisaligned,
        }
    }
}

/// An atomic on the bytes at `addr`, with `value` as its own number, to `rd`, below 32; a trap where `addr`
/// isn't a multiple of its size.
#[inline(always)]
fn atomic_at(op: Op, wide: bool, rd: u8, addr: u64, value: u64) -> Meaning
    requires atomic { IsTrue (is_atomic op) }
    requires register { rd < 32 }
    ensures meaning { result ≡ access_or_trap (atomic_of op wide rd addr value) (misaligned_atomic op) }
    ensures register { HasRegister result }
    ensures access { HasAccess result }
{
    let size = if wide { 8 } else { 4 };
    if is_multiple(addr, size) {
        Meaning::Access {
            access: Access {
                op: kind_of_atomic(op),
                rd,
                addr,
                size,
                signed: true,
                value,
            },
        }
    } else {
        Meaning::Trap {
            cause: cause_of_misaligned_atomic(op),
        }
    }
}

/// Why an atomic traps whose address isn't a multiple of its size.
fn cause_of_misaligned_atomic(op: Op) -> Cause
    ensures { result ≡ misaligned_atomic op }
{
    match op {
        Op::Lr => Cause::LoadMisaligned,
        _ => Cause::StoreMisaligned,
    }
}

/// Whether an address is a multiple of an access's size.
#[inline(always)]
fn is_multiple(addr: u64, size: u8) -> bool
    requires { IsTrue (is_size size) }
    ensures { result ≡ addr % size == 0 }
{
    addr & (u64::from(size) - 1) == 0
}

/// An address with its bit 0 cleared.
fn without_bit_0(address: u64) -> u64
    ensures { result ≡ even_address address }
{
    address & !1
}
