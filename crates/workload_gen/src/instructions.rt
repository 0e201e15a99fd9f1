//! The statements of the workloads by the names of the RISC-V assembler: an instruction with its operands in the manual's
//! order, and the registers by their names in the calling convention.

ghost use Rattle.std.specs.Prelude.{◌≡◌, ◌<◌, ◌^◌};
ghost use Rattle.workload_gen.specs.Instructions.{minus, addi, li, mv, andi, slti, slli, lui, add, srl, lw, ld, sb, sw, sd, amoadd_w, amoadd_d, amoswap_w, amoswap_d, ecall, beq, bne, blt, bge};

use crate::assembly::{Label, Statement};
use rv_decode::{Instr, Op};

/// The register that is always 0.
pub(crate) const X0: u8 = 0;
/// A temporary register.
pub(crate) const T0: u8 = 5;
/// A temporary register.
pub(crate) const T1: u8 = 6;
/// A temporary register.
pub(crate) const T2: u8 = 7;
/// A saved register.
pub(crate) const S0: u8 = 8;
/// A saved register.
pub(crate) const S1: u8 = 9;
/// A register of arguments and answers.
pub(crate) const A0: u8 = 10;
/// A register of arguments and answers.
pub(crate) const A1: u8 = 11;
/// A register of arguments and answers.
pub(crate) const A2: u8 = 12;
/// A register of arguments and answers.
pub(crate) const A3: u8 = 13;
/// The register of a call's number.
pub(crate) const A7: u8 = 17;
/// A saved register.
pub(crate) const S2: u8 = 18;
/// A saved register.
pub(crate) const S3: u8 = 19;
/// A saved register.
pub(crate) const S4: u8 = 20;
/// A saved register.
pub(crate) const S5: u8 = 21;
/// A saved register.
pub(crate) const S6: u8 = 22;
/// A temporary register.
pub(crate) const T3: u8 = 28;
/// A temporary register.
pub(crate) const T4: u8 = 29;

/// A negative immediate, modulo 2^64.
pub(crate) fn minus(n: u64) -> u64
    requires { 0 < n }
    ensures { result ≡ minus n }
{
    u64::MAX - (n - 1)
}

/// Adds a constant of 12 bits.
pub(crate) fn addi(rd: u8, rs1: u8, imm: u64) -> Statement
    ensures { result ≡ addi rd rs1 imm }
{
    Statement::Plain(Instr::Imm {
        op: Op::Addi,
        rd,
        rs1,
        imm,
    })
}

/// Loads a constant of 12 bits.
pub(crate) fn li(rd: u8, value: u64) -> Statement
    ensures { result ≡ li rd value }
{
    addi(rd, X0, value)
}

/// Copies a register.
pub(crate) fn mv(rd: u8, rs: u8) -> Statement
    ensures { result ≡ mv rd rs }
{
    addi(rd, rs, 0)
}

/// The bits that are set in a register and in a constant.
pub(crate) fn andi(rd: u8, rs1: u8, imm: u64) -> Statement
    ensures { result ≡ andi rd rs1 imm }
{
    Statement::Plain(Instr::Imm {
        op: Op::Andi,
        rd,
        rs1,
        imm,
    })
}

/// 1 where a register is less than a constant, both signed, else 0.
pub(crate) fn slti(rd: u8, rs1: u8, imm: u64) -> Statement
    ensures { result ≡ slti rd rs1 imm }
{
    Statement::Plain(Instr::Imm {
        op: Op::Slti,
        rd,
        rs1,
        imm,
    })
}

/// Shifts left by a constant.
pub(crate) fn slli(rd: u8, rs1: u8, amount: u8) -> Statement
    ensures { result ≡ slli rd rs1 amount }
{
    Statement::Plain(Instr::Shift {
        op: Op::Slli,
        rd,
        rs1,
        amount,
    })
}

/// Loads a constant whose upper 20 bits are given.
pub(crate) fn lui(rd: u8, upper: u64) -> Statement
    requires { upper < 2 ^ 20 }
    ensures { result ≡ lui rd upper }
{
    Statement::Plain(Instr::Upper {
        op: Op::Lui,
        rd,
        imm: upper * 4096,
    })
}

/// Adds two registers.
pub(crate) fn add(rd: u8, rs1: u8, rs2: u8) -> Statement
    ensures { result ≡ add rd rs1 rs2 }
{
    Statement::Plain(Instr::Reg {
        op: Op::Add,
        rd,
        rs1,
        rs2,
    })
}

/// Shifts right by a register, filling with zeros.
pub(crate) fn srl(rd: u8, rs1: u8, rs2: u8) -> Statement
    ensures { result ≡ srl rd rs1 rs2 }
{
    Statement::Plain(Instr::Reg {
        op: Op::Srl,
        rd,
        rs1,
        rs2,
    })
}

/// Loads 4 bytes, with their sign.
pub(crate) fn lw(rd: u8, offset: u64, rs1: u8) -> Statement
    ensures { result ≡ lw rd offset rs1 }
{
    Statement::Plain(Instr::Load {
        op: Op::Lw,
        rd,
        rs1,
        imm: offset,
    })
}

/// Loads 8 bytes.
pub(crate) fn ld(rd: u8, offset: u64, rs1: u8) -> Statement
    ensures { result ≡ ld rd offset rs1 }
{
    Statement::Plain(Instr::Load {
        op: Op::Ld,
        rd,
        rs1,
        imm: offset,
    })
}

/// Stores the lowest byte.
pub(crate) fn sb(rs2: u8, offset: u64, rs1: u8) -> Statement
    ensures { result ≡ sb rs2 offset rs1 }
{
    Statement::Plain(Instr::Store {
        op: Op::Sb,
        rs1,
        rs2,
        imm: offset,
    })
}

/// Stores the lowest 4 bytes.
pub(crate) fn sw(rs2: u8, offset: u64, rs1: u8) -> Statement
    ensures { result ≡ sw rs2 offset rs1 }
{
    Statement::Plain(Instr::Store {
        op: Op::Sw,
        rs1,
        rs2,
        imm: offset,
    })
}

/// Stores 8 bytes.
pub(crate) fn sd(rs2: u8, offset: u64, rs1: u8) -> Statement
    ensures { result ≡ sd rs2 offset rs1 }
{
    Statement::Plain(Instr::Store {
        op: Op::Sd,
        rs1,
        rs2,
        imm: offset,
    })
}

/// Adds to 4 bytes and gives what they were.
pub(crate) fn amoadd_w(rd: u8, rs2: u8, rs1: u8) -> Statement
    ensures { result ≡ amoadd_w rd rs2 rs1 }
{
    Statement::Plain(Instr::Atomic {
        op: Op::AmoAdd,
        wide: false,
        rd,
        rs1,
        rs2,
        aq: false,
        rl: false,
    })
}

/// Adds to 8 bytes and gives what they were.
pub(crate) fn amoadd_d(rd: u8, rs2: u8, rs1: u8) -> Statement
    ensures { result ≡ amoadd_d rd rs2 rs1 }
{
    Statement::Plain(Instr::Atomic {
        op: Op::AmoAdd,
        wide: true,
        rd,
        rs1,
        rs2,
        aq: false,
        rl: false,
    })
}

/// Stores 4 bytes and gives what they were.
pub(crate) fn amoswap_w(rd: u8, rs2: u8, rs1: u8) -> Statement
    ensures { result ≡ amoswap_w rd rs2 rs1 }
{
    Statement::Plain(Instr::Atomic {
        op: Op::AmoSwap,
        wide: false,
        rd,
        rs1,
        rs2,
        aq: false,
        rl: false,
    })
}

/// Stores 8 bytes and gives what they were.
pub(crate) fn amoswap_d(rd: u8, rs2: u8, rs1: u8) -> Statement
    ensures { result ≡ amoswap_d rd rs2 rs1 }
{
    Statement::Plain(Instr::Atomic {
        op: Op::AmoSwap,
        wide: true,
        rd,
        rs1,
        rs2,
        aq: false,
        rl: false,
    })
}

/// Calls the environment.
pub(crate) fn ecall() -> Statement
    ensures { result ≡ ecall }
{
    Statement::Plain(Instr::Ecall)
}

/// Branches where both are equal.
pub(crate) fn beq(rs1: u8, rs2: u8, label: Label) -> Statement
    ensures { result ≡ beq rs1 rs2 label }
{
    Statement::BranchTo {
        op: Op::Beq,
        rs1,
        rs2,
        label,
    }
}

/// Branches where both are different.
pub(crate) fn bne(rs1: u8, rs2: u8, label: Label) -> Statement
    ensures { result ≡ bne rs1 rs2 label }
{
    Statement::BranchTo {
        op: Op::Bne,
        rs1,
        rs2,
        label,
    }
}

/// Branches where the first is less, signed.
pub(crate) fn blt(rs1: u8, rs2: u8, label: Label) -> Statement
    ensures { result ≡ blt rs1 rs2 label }
{
    Statement::BranchTo {
        op: Op::Blt,
        rs1,
        rs2,
        label,
    }
}

/// Branches where the first is not less, signed.
pub(crate) fn bge(rs1: u8, rs2: u8, label: Label) -> Statement
    ensures { result ≡ bge rs1 rs2 label }
{
    Statement::BranchTo {
        op: Op::Bge,
        rs1,
        rs2,
        label,
    }
}
