//! A decoded instruction, by its form and its name.

/// The name of an instruction. Each belongs to one form of `Instr`.
#[derive(Clone, Copy, Debug, PartialEq, Eq)]
pub enum Op {
    Lui,
    Auipc,
    Beq,
    Bne,
    Blt,
    Bge,
    Bltu,
    Bgeu,
    Lb,
    Lh,
    Lw,
    Ld,
    Lbu,
    Lhu,
    Lwu,
    Sb,
    Sh,
    Sw,
    Sd,
    Addi,
    Slti,
    Sltiu,
    Xori,
    Ori,
    Andi,
    Addiw,
    Slli,
    Srli,
    Srai,
    Slliw,
    Srliw,
    Sraiw,
    Add,
    Sll,
    Slt,
    Sltu,
    Xor,
    Srl,
    Or,
    And,
    Sub,
    Sra,
    Mul,
    Mulh,
    Mulhsu,
    Mulhu,
    Div,
    Divu,
    Rem,
    Remu,
    Addw,
    Sllw,
    Srlw,
    Subw,
    Sraw,
    Mulw,
    Divw,
    Divuw,
    Remw,
    Remuw,
    AmoAdd,
    AmoSwap,
    Lr,
    Sc,
    AmoXor,
    AmoOr,
    AmoAnd,
    AmoMin,
    AmoMax,
    AmoMinu,
    AmoMaxu,
}

/// A decoded instruction, by its form in the RISC-V ISA manual. Registers are numbers below 32.
/// Immediates are sign-extended to 64 bits, as numbers modulo 2^64.
#[derive(Clone, Copy, Debug, PartialEq, Eq)]
pub enum Instr {
    /// LUI and AUIPC. The immediate's low 12 bits are zero.
    Upper {
        op: Op,
        rd: u8,
        imm: u64,
    },
    /// JAL. The immediate is a multiple of 2.
    Jal {
        rd: u8,
        imm: u64,
    },
    /// JALR.
    Jalr {
        rd: u8,
        rs1: u8,
        imm: u64,
    },
    /// The six branches. The immediate is a multiple of 2.
    Branch {
        op: Op,
        rs1: u8,
        rs2: u8,
        imm: u64,
    },
    /// The seven loads.
    Load {
        op: Op,
        rd: u8,
        rs1: u8,
        imm: u64,
    },
    /// The four stores: `rs1` gives the address, `rs2` what is stored.
    Store {
        op: Op,
        rs1: u8,
        rs2: u8,
        imm: u64,
    },
    /// Arithmetic with an immediate, shifts aside.
    Imm {
        op: Op,
        rd: u8,
        rs1: u8,
        imm: u64,
    },
    /// Shifts by a constant, below 64, or below 32 in the W forms.
    Shift {
        op: Op,
        rd: u8,
        rs1: u8,
        amount: u8,
    },
    /// Arithmetic on two registers.
    Reg {
        op: Op,
        rd: u8,
        rs1: u8,
        rs2: u8,
    },
    /// The atomics: load-reserved, store-conditional and the atomic memory operations, at the address in
    /// `rs1`, on 8 bytes where it is `wide` and else on 4. `aq` and `rl` are kept and mean nothing here, since
    /// all accesses are in one order already. `rs2` of a load-reserved is 0.
    Atomic {
        op: Op,
        wide: bool,
        rd: u8,
        rs1: u8,
        rs2: u8,
        aq: bool,
        rl: bool,
    },
    /// FENCE, whose other bits are kept and mean nothing here.
    Fence {
        rd: u8,
        rs1: u8,
        imm: u64,
    },
    /// ECALL.
    Ecall,
    /// EBREAK.
    Ebreak,
}
