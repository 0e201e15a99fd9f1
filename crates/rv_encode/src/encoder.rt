//! The forms, each with its immediate cut over the fields as the RISC-V ISA manual lays it out. An immediate is
//! a number modulo 2^64, so its low bits are those of the signed number.

ghost use Rattle.std.specs.Prelude.{◌≡◌, ◌<◌, ◌^◌, ℕ, Some};
ghost use Rattle.rv_decode.specs.declared.instr.Instr.{Instr};
ghost use Rattle.rv_decode.specs.Table.{row};
ghost use Rattle.rv_decode.specs.Valid.{IsValid, IsSigned};
ghost use Rattle.rv_encode.specs.Word.{IsWordOf, IsWithImmediate};

use crate::codes::{
    atomic_code, branch_code, immediate_codes, load_code, register_codes, shift_codes, store_code,
    upper_code,
};
use crate::fields::Fields;
use rv_decode::{Instr, Op};

/// The one word of 32 bits that decodes to an instruction: the RISC-V ISA manual's listing read backwards.
/// An instruction is valid if its name belongs to its form, its registers are below 32, and its immediate or
/// amount is one that the form can give; every valid instruction has its word.
#[tactic(auto, using(crate::proofs::Rows::row_of_word, crate::proofs::Rows::same_word))]
pub fn encode(instr: &Instr) -> u32
    requires { IsValid instr.now }
    ensures back { row result ≡ Some instr.now }
    ensures only { (w : ℕ) → w < 2 ^ 32 → row w ≡ Some instr.now → w ≡ result }
{
    word_of(instr)
}

/// A law of the RISC-V ISA manual's listing: no two words of 32 bits are one instruction.
#[tactic(auto, using(crate::proofs::Rows::same_word))]
pub fn decodes_once()
    ensures { (w v : ℕ) → w < 2 ^ 32 → v < 2 ^ 32 → (i : Instr) → row w ≡ Some i → row v ≡ Some i → w ≡ v }
{}

/// The word in whose fields the instruction's codes and operands stand.
fn word_of(instr: &Instr) -> u32
    requires { IsValid instr.now }
    ensures { IsWordOf instr.now result }
{
    match *instr {
        Instr::Upper { op, rd, imm } => upper(op, rd, imm),
        Instr::Jal { rd, imm } => jump(rd, imm),
        Instr::Jalr { rd, rs1, imm } => with_immediate(0b110_0111, 0, rd, rs1, imm),
        Instr::Branch { op, rs1, rs2, imm } => branch(op, rs1, rs2, imm),
        Instr::Load { op, rd, rs1, imm } => with_immediate(0b000_0011, load_code(op), rd, rs1, imm),
        Instr::Store { op, rs1, rs2, imm } => store(op, rs1, rs2, imm),
        Instr::Imm { op, rd, rs1, imm } => constant(op, rd, rs1, imm),
        Instr::Shift {
            op,
            rd,
            rs1,
            amount,
        } => shift(op, rd, rs1, amount),
        Instr::Reg { op, rd, rs1, rs2 } => register(op, rd, rs1, rs2),
        Instr::Atomic {
            op,
            wide,
            rd,
            rs1,
            rs2,
            aq,
            rl,
        } => atomic(op, wide, rd, rs1, rs2, aq, rl),
        Instr::Fence { rd, rs1, imm } => with_immediate(0b000_1111, 0, rd, rs1, imm),
        Instr::Ecall => 0x0000_0073,
        Instr::Ebreak => 0x0010_0073,
    }
}

/// A word of the I form, with an immediate in its bits 31 to 20.
fn with_immediate(opcode: u8, funct3: u8, rd: u8, rs1: u8, imm: u64) -> u32
    requires opcode { opcode < 2 ^ 7 }
    requires funct3 { funct3 < 2 ^ 3 }
    requires rd { rd < 32 }
    requires rs1 { rs1 < 32 }
    requires imm { IsSigned 12 imm }
    ensures { IsWithImmediate opcode funct3 rd rs1 imm result }
{
    Fields {
        opcode,
        rd,
        funct3,
        rs1,
        rs2: (imm & 0x1f) as u8,
        funct7: (imm >> 5 & 0x7f) as u8,
    }
    .word()
}

/// LUI or AUIPC: bits 31 to 12 are the immediate's.
fn upper(op: Op, rd: u8, imm: u64) -> u32
    requires { IsValid (Instr.Upper op rd imm) }
    ensures { IsWordOf (Instr.Upper op rd imm) result }
{
    Fields {
        opcode: upper_code(op),
        rd,
        funct3: (imm >> 12 & 0x7) as u8,
        rs1: (imm >> 15 & 0x1f) as u8,
        rs2: (imm >> 20 & 0x1f) as u8,
        funct7: (imm >> 25 & 0x7f) as u8,
    }
    .word()
}

/// JAL: bits 31 to 12 are the immediate's bits 20, 10 to 1, 11 and 19 to 12.
fn jump(rd: u8, imm: u64) -> u32
    requires { IsValid (Instr.Jal rd imm) }
    ensures { IsWordOf (Instr.Jal rd imm) result }
{
    Fields {
        opcode: 0b110_1111,
        rd,
        funct3: (imm >> 12 & 0x7) as u8,
        rs1: (imm >> 15 & 0x1f) as u8,
        rs2: ((imm >> 1 & 0xf) << 1 | imm >> 11 & 0x1) as u8,
        funct7: ((imm >> 20 & 0x1) << 6 | imm >> 5 & 0x3f) as u8,
    }
    .word()
}

/// A branch: bits 31 to 25 are the immediate's bits 12 and 10 to 5, and bits 11 to 7 its bits 4 to 1 and 11.
fn branch(op: Op, rs1: u8, rs2: u8, imm: u64) -> u32
    requires { IsValid (Instr.Branch op rs1 rs2 imm) }
    ensures { IsWordOf (Instr.Branch op rs1 rs2 imm) result }
{
    Fields {
        opcode: 0b110_0011,
        rd: ((imm >> 1 & 0xf) << 1 | imm >> 11 & 0x1) as u8,
        funct3: branch_code(op),
        rs1,
        rs2,
        funct7: ((imm >> 12 & 0x1) << 6 | imm >> 5 & 0x3f) as u8,
    }
    .word()
}

/// A store: bits 31 to 25 are the immediate's bits 11 to 5, and bits 11 to 7 its bits 4 to 0.
fn store(op: Op, rs1: u8, rs2: u8, imm: u64) -> u32
    requires { IsValid (Instr.Store op rs1 rs2 imm) }
    ensures { IsWordOf (Instr.Store op rs1 rs2 imm) result }
{
    Fields {
        opcode: 0b010_0011,
        rd: (imm & 0x1f) as u8,
        funct3: store_code(op),
        rs1,
        rs2,
        funct7: (imm >> 5 & 0x7f) as u8,
    }
    .word()
}

/// Arithmetic with an immediate.
fn constant(op: Op, rd: u8, rs1: u8, imm: u64) -> u32
    requires { IsValid (Instr.Imm op rd rs1 imm) }
    ensures { IsWordOf (Instr.Imm op rd rs1 imm) result }
{
    let codes = immediate_codes(op);
    with_immediate(codes.opcode, codes.funct3, rd, rs1, imm)
}

/// A shift by a constant: the amount's bit 5 is the lowest bit of funct7.
fn shift(op: Op, rd: u8, rs1: u8, amount: u8) -> u32
    requires { IsValid (Instr.Shift op rd rs1 amount) }
    ensures { IsWordOf (Instr.Shift op rd rs1 amount) result }
{
    let codes = shift_codes(op);
    Fields {
        opcode: codes.opcode,
        rd,
        funct3: codes.funct3,
        rs1,
        rs2: amount & 0x1f,
        funct7: codes.funct7 + (amount >> 5),
    }
    .word()
}

/// Arithmetic on two registers.
fn register(op: Op, rd: u8, rs1: u8, rs2: u8) -> u32
    requires { IsValid (Instr.Reg op rd rs1 rs2) }
    ensures { IsWordOf (Instr.Reg op rd rs1 rs2) result }
{
    let codes = register_codes(op);
    Fields {
        opcode: codes.opcode,
        rd,
        funct3: codes.funct3,
        rs1,
        rs2,
        funct7: codes.funct7,
    }
    .word()
}

/// An atomic: bits 31 to 27 are its code, bit 26 is `aq` and bit 25 `rl`.
fn atomic(op: Op, wide: bool, rd: u8, rs1: u8, rs2: u8, aq: bool, rl: bool) -> u32
    requires { IsValid (Instr.Atomic op wide rd rs1 rs2 aq rl) }
    ensures { IsWordOf (Instr.Atomic op wide rd rs1 rs2 aq rl) result }
{
    Fields {
        opcode: 0b010_1111,
        rd,
        funct3: if wide { 0b011 } else { 0b010 },
        rs1,
        rs2,
        funct7: atomic_code(op) << 2 | (u8::from(aq) << 1 | u8::from(rl)),
    }
    .word()
}
