//! The listing of instructions: one function for each opcode with more than one, by its codes.

ghost use Rattle.std.specs.Prelude.{◌≡◌, Some, IsTrue, IfSome};
ghost use Rattle.rv_decode.specs.Table.{row, upper, jump, jump_register, branch, load, store, constant, shift, shift_w, register, atomic, fence, jumps, branches, loads, stores, constants, constants_w, registers, registers_w, atomics, atomics_of, fences, system};
ghost use Rattle.rv_decode.specs.Field.{amount, amount_w, rs2};
ghost use Rattle.rv_decode.specs.Valid.{IsValid, is_upper, is_branch, is_load, is_store, is_immediate, is_register, is_atomic, IsAmount, IsSource};

use crate::fields::{
    amount, amount_w, aq, funct3, funct5, funct6, funct7, immediate_b, immediate_i, immediate_j,
    immediate_s, immediate_u, opcode, rd, rl, rs1, rs2,
};
use crate::instr::{Instr, Op};

/// The instruction that a word of 32 bits is by the RISC-V ISA manual: RV64IMA, which is RV64I with the
/// extensions M and A. `None`: it is none of them, the zero word among others.
#[tactic(auto, unfolding(crate::specs::Table::row))]
pub fn decode(word: u32) -> Option<Instr>
    ensures row { result ≡ row word }
    ensures valid { IfSome result IsValid }
{
    match opcode(word) {
        0b011_0111 => Some(upper(Op::Lui, word)),
        0b001_0111 => Some(upper(Op::Auipc, word)),
        0b110_1111 => Some(jump(word)),
        0b110_0111 => jumps(word),
        0b110_0011 => branches(word),
        0b000_0011 => loads(word),
        0b010_0011 => stores(word),
        0b001_0011 => constants(word),
        0b001_1011 => constants_w(word),
        0b011_0011 => registers(word),
        0b011_1011 => registers_w(word),
        0b010_1111 => atomics(word),
        0b000_1111 => fences(word),
        0b111_0011 => system(word),
        _ => None,
    }
}

#[tactic(auto, unfolding(crate::specs::Table::jumps))]
fn jumps(word: u32) -> Option<Instr>
    ensures row { result ≡ jumps word }
    ensures valid { IfSome result IsValid }
{
    match funct3(word) {
        0b000 => Some(jump_register(word)),
        _ => None,
    }
}

#[tactic(auto, unfolding(crate::specs::Table::branches))]
fn branches(word: u32) -> Option<Instr>
    ensures row { result ≡ branches word }
    ensures valid { IfSome result IsValid }
{
    match funct3(word) {
        0b000 => Some(branch(Op::Beq, word)),
        0b001 => Some(branch(Op::Bne, word)),
        0b100 => Some(branch(Op::Blt, word)),
        0b101 => Some(branch(Op::Bge, word)),
        0b110 => Some(branch(Op::Bltu, word)),
        0b111 => Some(branch(Op::Bgeu, word)),
        _ => None,
    }
}

#[tactic(auto, unfolding(crate::specs::Table::loads))]
fn loads(word: u32) -> Option<Instr>
    ensures row { result ≡ loads word }
    ensures valid { IfSome result IsValid }
{
    match funct3(word) {
        0b000 => Some(load(Op::Lb, word)),
        0b001 => Some(load(Op::Lh, word)),
        0b010 => Some(load(Op::Lw, word)),
        0b011 => Some(load(Op::Ld, word)),
        0b100 => Some(load(Op::Lbu, word)),
        0b101 => Some(load(Op::Lhu, word)),
        0b110 => Some(load(Op::Lwu, word)),
        _ => None,
    }
}

#[tactic(auto, unfolding(crate::specs::Table::stores))]
fn stores(word: u32) -> Option<Instr>
    ensures row { result ≡ stores word }
    ensures valid { IfSome result IsValid }
{
    match funct3(word) {
        0b000 => Some(store(Op::Sb, word)),
        0b001 => Some(store(Op::Sh, word)),
        0b010 => Some(store(Op::Sw, word)),
        0b011 => Some(store(Op::Sd, word)),
        _ => None,
    }
}

#[tactic(auto, unfolding(crate::specs::Table::constants))]
fn constants(word: u32) -> Option<Instr>
    ensures row { result ≡ constants word }
    ensures valid { IfSome result IsValid }
{
    match (funct3(word), funct6(word)) {
        (0b000, _) => Some(constant(Op::Addi, word)),
        (0b010, _) => Some(constant(Op::Slti, word)),
        (0b011, _) => Some(constant(Op::Sltiu, word)),
        (0b100, _) => Some(constant(Op::Xori, word)),
        (0b110, _) => Some(constant(Op::Ori, word)),
        (0b111, _) => Some(constant(Op::Andi, word)),
        (0b001, 0b00_0000) => Some(shift(Op::Slli, word)),
        (0b101, 0b00_0000) => Some(shift(Op::Srli, word)),
        (0b101, 0b01_0000) => Some(shift(Op::Srai, word)),
        _ => None,
    }
}

#[tactic(auto, unfolding(crate::specs::Table::constants_w))]
fn constants_w(word: u32) -> Option<Instr>
    ensures row { result ≡ constants_w word }
    ensures valid { IfSome result IsValid }
{
    match (funct3(word), funct7(word)) {
        (0b000, _) => Some(constant(Op::Addiw, word)),
        (0b001, 0b000_0000) => Some(shift_w(Op::Slliw, word)),
        (0b101, 0b000_0000) => Some(shift_w(Op::Srliw, word)),
        (0b101, 0b010_0000) => Some(shift_w(Op::Sraiw, word)),
        _ => None,
    }
}

#[tactic(auto, unfolding(crate::specs::Table::registers))]
fn registers(word: u32) -> Option<Instr>
    ensures row { result ≡ registers word }
    ensures valid { IfSome result IsValid }
{
    match (funct7(word), funct3(word)) {
        (0b000_0000, 0b000) => Some(register(Op::Add, word)),
        (0b000_0000, 0b001) => Some(register(Op::Sll, word)),
        (0b000_0000, 0b010) => Some(register(Op::Slt, word)),
        (0b000_0000, 0b011) => Some(register(Op::Sltu, word)),
        (0b000_0000, 0b100) => Some(register(Op::Xor, word)),
        (0b000_0000, 0b101) => Some(register(Op::Srl, word)),
        (0b000_0000, 0b110) => Some(register(Op::Or, word)),
        (0b000_0000, 0b111) => Some(register(Op::And, word)),
        (0b010_0000, 0b000) => Some(register(Op::Sub, word)),
        (0b010_0000, 0b101) => Some(register(Op::Sra, word)),
        (0b000_0001, 0b000) => Some(register(Op::Mul, word)),
        (0b000_0001, 0b001) => Some(register(Op::Mulh, word)),
        (0b000_0001, 0b010) => Some(register(Op::Mulhsu, word)),
        (0b000_0001, 0b011) => Some(register(Op::Mulhu, word)),
        (0b000_0001, 0b100) => Some(register(Op::Div, word)),
        (0b000_0001, 0b101) => Some(register(Op::Divu, word)),
        (0b000_0001, 0b110) => Some(register(Op::Rem, word)),
        (0b000_0001, 0b111) => Some(register(Op::Remu, word)),
        _ => None,
    }
}

#[tactic(auto, unfolding(crate::specs::Table::registers_w))]
fn registers_w(word: u32) -> Option<Instr>
    ensures row { result ≡ registers_w word }
    ensures valid { IfSome result IsValid }
{
    match (funct7(word), funct3(word)) {
        (0b000_0000, 0b000) => Some(register(Op::Addw, word)),
        (0b000_0000, 0b001) => Some(register(Op::Sllw, word)),
        (0b000_0000, 0b101) => Some(register(Op::Srlw, word)),
        (0b010_0000, 0b000) => Some(register(Op::Subw, word)),
        (0b010_0000, 0b101) => Some(register(Op::Sraw, word)),
        (0b000_0001, 0b000) => Some(register(Op::Mulw, word)),
        (0b000_0001, 0b100) => Some(register(Op::Divw, word)),
        (0b000_0001, 0b101) => Some(register(Op::Divuw, word)),
        (0b000_0001, 0b110) => Some(register(Op::Remw, word)),
        (0b000_0001, 0b111) => Some(register(Op::Remuw, word)),
        _ => None,
    }
}

#[tactic(auto, unfolding(crate::specs::Table::atomics))]
fn atomics(word: u32) -> Option<Instr>
    ensures row { result ≡ atomics word }
    ensures valid { IfSome result IsValid }
{
    match funct3(word) {
        0b010 => atomics_of(false, word),
        0b011 => atomics_of(true, word),
        _ => None,
    }
}

#[tactic(auto, unfolding(crate::specs::Table::atomics_of))]
fn atomics_of(wide: bool, word: u32) -> Option<Instr>
    ensures row { result ≡ atomics_of wide word }
    ensures valid { IfSome result IsValid }
{
    match (funct5(word), rs2(word)) {
        (0b0_0000, _) => Some(atomic(Op::AmoAdd, wide, word)),
        (0b0_0001, _) => Some(atomic(Op::AmoSwap, wide, word)),
        (0b0_0010, 0) => Some(atomic(Op::Lr, wide, word)),
        (0b0_0011, _) => Some(atomic(Op::Sc, wide, word)),
        (0b0_0100, _) => Some(atomic(Op::AmoXor, wide, word)),
        (0b0_1000, _) => Some(atomic(Op::AmoOr, wide, word)),
        (0b0_1100, _) => Some(atomic(Op::AmoAnd, wide, word)),
        (0b1_0000, _) => Some(atomic(Op::AmoMin, wide, word)),
        (0b1_0100, _) => Some(atomic(Op::AmoMax, wide, word)),
        (0b1_1000, _) => Some(atomic(Op::AmoMinu, wide, word)),
        (0b1_1100, _) => Some(atomic(Op::AmoMaxu, wide, word)),
        _ => None,
    }
}

#[tactic(auto, unfolding(crate::specs::Table::fences))]
fn fences(word: u32) -> Option<Instr>
    ensures row { result ≡ fences word }
    ensures valid { IfSome result IsValid }
{
    match funct3(word) {
        0b000 => Some(fence(word)),
        _ => None,
    }
}

#[tactic(auto, unfolding(crate::specs::Table::system))]
fn system(word: u32) -> Option<Instr>
    ensures row { result ≡ system word }
    ensures valid { IfSome result IsValid }
{
    match word {
        0x0000_0073 => Some(Instr::Ecall),
        0x0010_0073 => Some(Instr::Ebreak),
        _ => None,
    }
}

fn upper(op: Op, word: u32) -> Instr
    requires { IsTrue (is_upper op) }
    ensures row { Some result ≡ upper op word }
    ensures valid { IsValid result }
{
    Instr::Upper {
        op,
        rd: rd(word),
        imm: immediate_u(word),
    }
}

fn jump(word: u32) -> Instr
    ensures row { Some result ≡ jump word }
    ensures valid { IsValid result }
{
    Instr::Jal {
        rd: rd(word),
        imm: immediate_j(word),
    }
}

fn jump_register(word: u32) -> Instr
    ensures row { Some result ≡ jump_register word }
    ensures valid { IsValid result }
{
    Instr::Jalr {
        rd: rd(word),
        rs1: rs1(word),
        imm: immediate_i(word),
    }
}

fn branch(op: Op, word: u32) -> Instr
    requires { IsTrue (is_branch op) }
    ensures row { Some result ≡ branch op word }
    ensures valid { IsValid result }
{
    Instr::Branch {
        op,
        rs1: rs1(word),
        rs2: rs2(word),
        imm: immediate_b(word),
    }
}

fn load(op: Op, word: u32) -> Instr
    requires { IsTrue (is_load op) }
    ensures row { Some result ≡ load op word }
    ensures valid { IsValid result }
{
    Instr::Load {
        op,
        rd: rd(word),
        rs1: rs1(word),
        imm: immediate_i(word),
    }
}

fn store(op: Op, word: u32) -> Instr
    requires { IsTrue (is_store op) }
    ensures row { Some result ≡ store op word }
    ensures valid { IsValid result }
{
    Instr::Store {
        op,
        rs1: rs1(word),
        rs2: rs2(word),
        imm: immediate_s(word),
    }
}

fn constant(op: Op, word: u32) -> Instr
    requires { IsTrue (is_immediate op) }
    ensures row { Some result ≡ constant op word }
    ensures valid { IsValid result }
{
    Instr::Imm {
        op,
        rd: rd(word),
        rs1: rs1(word),
        imm: immediate_i(word),
    }
}

/// A shift of 64 bits by a constant.
fn shift(op: Op, word: u32) -> Instr
    requires { IsAmount op (amount word) }
    ensures row { Some result ≡ shift op word }
    ensures valid { IsValid result }
{
    Instr::Shift {
        op,
        rd: rd(word),
        rs1: rs1(word),
        amount: amount(word),
    }
}

/// A shift of 32 bits by a constant.
fn shift_w(op: Op, word: u32) -> Instr
    requires { IsAmount op (amount_w word) }
    ensures row { Some result ≡ shift_w op word }
    ensures valid { IsValid result }
{
    Instr::Shift {
        op,
        rd: rd(word),
        rs1: rs1(word),
        amount: amount_w(word),
    }
}

fn register(op: Op, word: u32) -> Instr
    requires { IsTrue (is_register op) }
    ensures row { Some result ≡ register op word }
    ensures valid { IsValid result }
{
    Instr::Reg {
        op,
        rd: rd(word),
        rs1: rs1(word),
        rs2: rs2(word),
    }
}

/// An atomic of 8 bytes or of 4.
fn atomic(op: Op, wide: bool, word: u32) -> Instr
    requires known { IsTrue (is_atomic op) }
    requires source { IsSource op (rs2 word) }
    ensures row { Some result ≡ atomic wide op word }
    ensures valid { IsValid result }
{
    Instr::Atomic {
        op,
        wide,
        rd: rd(word),
        rs1: rs1(word),
        rs2: rs2(word),
        aq: aq(word),
        rl: rl(word),
    }
}

fn fence(word: u32) -> Instr
    ensures row { Some result ≡ fence word }
    ensures valid { IsValid result }
{
    Instr::Fence {
        rd: rd(word),
        rs1: rs1(word),
        imm: immediate_i(word),
    }
}
