//! Instructions as an assembler writes them.

use crate::texts::push;
use rv_decode::{Instr, Op};
use std::alloc::{AllocError, Global};

/// Appends an instruction's text, with registers by their numbers and no shorter names for frequent forms.
pub fn push_listing(alloc: Global, text: &mut String, instr: &Instr) -> Result<(), AllocError> {
    match *instr {
        Instr::Upper { op, rd, imm } => {
            push(alloc, text, name(op), " x", i64::from(rd))?;
            push(alloc, text, "", ", ", (imm >> 12 & 0xf_ffff).cast_signed())
        }
        Instr::Jal { rd, imm } => {
            push(alloc, text, "jal", " x", i64::from(rd))?;
            push(alloc, text, "", ", ", imm.cast_signed())
        }
        Instr::Jalr { rd, rs1, imm } => push_moved(alloc, text, "jalr", rd, rs1, imm),
        Instr::Branch { op, rs1, rs2, imm } => {
            push_constant(alloc, text, name(op), rs1, rs2, imm.cast_signed())
        }
        Instr::Load { op, rd, rs1, imm } => push_moved(alloc, text, name(op), rd, rs1, imm),
        Instr::Store { op, rs1, rs2, imm } => push_moved(alloc, text, name(op), rs2, rs1, imm),
        Instr::Imm { op, rd, rs1, imm } => {
            push_constant(alloc, text, name(op), rd, rs1, imm.cast_signed())
        }
        Instr::Shift {
            op,
            rd,
            rs1,
            amount,
        } => push_constant(alloc, text, name(op), rd, rs1, i64::from(amount)),
        Instr::Reg { op, rd, rs1, rs2 } => {
            push_registers(alloc, text, name(op), rd, rs1)?;
            push(alloc, text, "", ", x", i64::from(rs2))
        }
        Instr::Atomic { .. } => push_atomic(alloc, text, instr),
        Instr::Fence { rd, rs1, imm } => {
            push_constant(alloc, text, "fence", rd, rs1, imm.cast_signed())
        }
        Instr::Ecall => text.push_str("ecall"),
        Instr::Ebreak => text.push_str("ebreak"),
    }
}

/// Appends a name and two registers.
fn push_registers(
    alloc: Global,
    text: &mut String,
    name: &str,
    first: u8,
    second: u8,
) -> Result<(), AllocError> {
    push(alloc, text, name, " x", i64::from(first))?;
    push(alloc, text, "", ", x", i64::from(second))
}

/// Appends a name, a register, and an address by another one and a signed offset.
fn push_moved(
    alloc: Global,
    text: &mut String,
    name: &str,
    first: u8,
    base: u8,
    imm: u64,
) -> Result<(), AllocError> {
    push(alloc, text, name, " x", i64::from(first))?;
    push(alloc, text, "", ", ", imm.cast_signed())?;
    push(alloc, text, "", "(x", i64::from(base))?;
    text.push_str(")")
}

/// Appends a name, two registers, and a signed number.
fn push_constant(
    alloc: Global,
    text: &mut String,
    name: &str,
    first: u8,
    second: u8,
    number: i64,
) -> Result<(), AllocError> {
    push_registers(alloc, text, name, first, second)?;
    push(alloc, text, "", ", ", number)
}

/// Appends an atomic, with its width and its order behind its name.
fn push_atomic(alloc: Global, text: &mut String, instr: &Instr) -> Result<(), AllocError> {
    if let Instr::Atomic {
        op,
        wide,
        rd,
        rs1,
        rs2,
        aq,
        rl,
    } = *instr
    {
        text.push_str(name(op))?;
        text.push_str(if wide { ".d" } else { ".w" })?;
        push(alloc, text, order(aq, rl), " x", i64::from(rd))?;
        if op != Op::Lr {
            push(alloc, text, "", ", x", i64::from(rs2))?;
        }
        push(alloc, text, "", ", (x", i64::from(rs1))?;
        text.push_str(")")?;
    }
    Ok(())
}

/// Whether an atomic acquires and releases.
fn order(aq: bool, rl: bool) -> &'static str {
    match (aq, rl) {
        (false, false) => "",
        (true, false) => ".aq",
        (false, true) => ".rl",
        (true, true) => ".aqrl",
    }
}

/// The name that stands first.
fn name(op: Op) -> &'static str {
    match op {
        Op::Lui => "lui",
        Op::Auipc => "auipc",
        Op::Beq => "beq",
        Op::Bne => "bne",
        Op::Blt => "blt",
        Op::Bge => "bge",
        Op::Bltu => "bltu",
        Op::Bgeu => "bgeu",
        Op::Lb => "lb",
        Op::Lh => "lh",
        Op::Lw => "lw",
        Op::Ld => "ld",
        Op::Lbu => "lbu",
        Op::Lhu => "lhu",
        Op::Lwu => "lwu",
        Op::Sb => "sb",
        Op::Sh => "sh",
        Op::Sw => "sw",
        Op::Sd => "sd",
        Op::Addi => "addi",
        Op::Slti => "slti",
        Op::Sltiu => "sltiu",
        Op::Xori => "xori",
        Op::Ori => "ori",
        Op::Andi => "andi",
        Op::Addiw => "addiw",
        Op::Slli => "slli",
        Op::Srli => "srli",
        Op::Srai => "srai",
        Op::Slliw => "slliw",
        Op::Srliw => "srliw",
        Op::Sraiw => "sraiw",
        Op::Add => "add",
        Op::Sll => "sll",
        Op::Slt => "slt",
        Op::Sltu => "sltu",
        Op::Xor => "xor",
        Op::Srl => "srl",
        Op::Or => "or",
        Op::And => "and",
        Op::Sub => "sub",
        Op::Sra => "sra",
        Op::Mul => "mul",
        Op::Mulh => "mulh",
        Op::Mulhsu => "mulhsu",
        Op::Mulhu => "mulhu",
        Op::Div => "div",
        Op::Divu => "divu",
        Op::Rem => "rem",
        Op::Remu => "remu",
        Op::Addw => "addw",
        Op::Sllw => "sllw",
        Op::Srlw => "srlw",
        Op::Subw => "subw",
        Op::Sraw => "sraw",
        Op::Mulw => "mulw",
        Op::Divw => "divw",
        Op::Divuw => "divuw",
        Op::Remw => "remw",
        Op::Remuw => "remuw",
        Op::AmoAdd => "amoadd",
        Op::AmoSwap => "amoswap",
        Op::Lr => "lr",
        Op::Sc => "sc",
        Op::AmoXor => "amoxor",
        Op::AmoOr => "amoor",
        Op::AmoAnd => "amoand",
        Op::AmoMin => "amomin",
        Op::AmoMax => "amomax",
        Op::AmoMinu => "amominu",
        Op::AmoMaxu => "amomaxu",
    }
}
