//! The codes of the instructions of each form, as the RISC-V ISA manual lists them.

ghost use Rattle.std.specs.Prelude.{◌≡◌, ◌<◌, ◌^◌, ◌%◌, IsTrue};
ghost use Rattle.rv_decode.specs.Valid.{is_upper, is_branch, is_load, is_store, is_immediate, is_register, is_atomic, IsAmount};
ghost use Rattle.rv_encode.specs.Codes.{codes, upper_code, branch_code, load_code, store_code, immediate_codes, shift_codes, register_codes, atomic_code, FitFields};

use rv_decode::Op;

/// What tells the instructions of a form apart. `funct7` is 0 where the form has none.
#[derive(Clone, Copy)]
pub(crate) struct Codes {
    pub(crate) opcode: u8,
    pub(crate) funct3: u8,
    pub(crate) funct7: u8,
}

impl Codes {
    fn new(opcode: u8, funct3: u8, funct7: u8) -> Codes
        ensures { result ≡ codes opcode funct3 funct7 }
    {
        Codes {
            opcode,
            funct3,
            funct7,
        }
    }
}

/// The opcode of LUI or AUIPC.
pub(crate) fn upper_code(op: Op) -> u8
    requires { IsTrue (is_upper op) }
    ensures value { result ≡ upper_code op }
    ensures fits { result < 2 ^ 7 }
{
    match op {
        Op::Lui => 0b011_0111,
        Op::Auipc => 0b001_0111,
        _ => unreachable!(),
    }
}

/// The funct3 of a branch.
pub(crate) fn branch_code(op: Op) -> u8
    requires { IsTrue (is_branch op) }
    ensures value { result ≡ branch_code op }
    ensures fits { result < 2 ^ 3 }
{
    match op {
        Op::Beq => 0b000,
        Op::Bne => 0b001,
        Op::Blt => 0b100,
        Op::Bge => 0b101,
        Op::Bltu => 0b110,
        Op::Bgeu => 0b111,
        _ => unreachable!(),
    }
}

/// The funct3 of a load.
pub(crate) fn load_code(op: Op) -> u8
    requires { IsTrue (is_load op) }
    ensures value { result ≡ load_code op }
    ensures fits { result < 2 ^ 3 }
{
    match op {
        Op::Lb => 0b000,
        Op::Lh => 0b001,
        Op::Lw => 0b010,
        Op::Ld => 0b011,
        Op::Lbu => 0b100,
        Op::Lhu => 0b101,
        Op::Lwu => 0b110,
        _ => unreachable!(),
    }
}

/// The funct3 of a store.
pub(crate) fn store_code(op: Op) -> u8
    requires { IsTrue (is_store op) }
    ensures value { result ≡ store_code op }
    ensures fits { result < 2 ^ 3 }
{
    match op {
        Op::Sb => 0b000,
        Op::Sh => 0b001,
        Op::Sw => 0b010,
        Op::Sd => 0b011,
        _ => unreachable!(),
    }
}

/// The funct5 of an atomic.
pub(crate) fn atomic_code(op: Op) -> u8
    requires { IsTrue (is_atomic op) }
    ensures value { result ≡ atomic_code op }
    ensures fits { result < 2 ^ 5 }
{
    match op {
        Op::AmoAdd => 0b0_0000,
        Op::AmoSwap => 0b0_0001,
        Op::Lr => 0b0_0010,
        Op::Sc => 0b0_0011,
        Op::AmoXor => 0b0_0100,
        Op::AmoOr => 0b0_1000,
        Op::AmoAnd => 0b0_1100,
        Op::AmoMin => 0b1_0000,
        Op::AmoMax => 0b1_0100,
        Op::AmoMinu => 0b1_1000,
        Op::AmoMaxu => 0b1_1100,
        _ => unreachable!(),
    }
}

/// The codes of arithmetic with an immediate.
pub(crate) fn immediate_codes(op: Op) -> Codes
    requires { IsTrue (is_immediate op) }
    ensures value { result ≡ immediate_codes op }
    ensures fits { FitFields result }
{
    match op {
        Op::Addi => Codes::new(0b001_0011, 0b000, 0b000_0000),
        Op::Slti => Codes::new(0b001_0011, 0b010, 0b000_0000),
        Op::Sltiu => Codes::new(0b001_0011, 0b011, 0b000_0000),
        Op::Xori => Codes::new(0b001_0011, 0b100, 0b000_0000),
        Op::Ori => Codes::new(0b001_0011, 0b110, 0b000_0000),
        Op::Andi => Codes::new(0b001_0011, 0b111, 0b000_0000),
        Op::Addiw => Codes::new(0b001_1011, 0b000, 0b000_0000),
        _ => unreachable!(),
    }
}

/// The codes of a shift by a constant.
pub(crate) fn shift_codes(op: Op) -> Codes
    requires { IsAmount op 0 }
    ensures value { result ≡ shift_codes op }
    ensures fits { FitFields result }
    ensures even { result.funct7 % 2 ≡ 0 }
{
    match op {
        Op::Slli => Codes::new(0b001_0011, 0b001, 0b000_0000),
        Op::Srli => Codes::new(0b001_0011, 0b101, 0b000_0000),
        Op::Srai => Codes::new(0b001_0011, 0b101, 0b010_0000),
        Op::Slliw => Codes::new(0b001_1011, 0b001, 0b000_0000),
        Op::Srliw => Codes::new(0b001_1011, 0b101, 0b000_0000),
        Op::Sraiw => Codes::new(0b001_1011, 0b101, 0b010_0000),
        _ => unreachable!(),
    }
}

/// The codes of arithmetic on two registers.
pub(crate) fn register_codes(op: Op) -> Codes
    requires { IsTrue (is_register op) }
    ensures value { result ≡ register_codes op }
    ensures fits { FitFields result }
{
    match op {
        Op::Add => Codes::new(0b011_0011, 0b000, 0b000_0000),
        Op::Sll => Codes::new(0b011_0011, 0b001, 0b000_0000),
        Op::Slt => Codes::new(0b011_0011, 0b010, 0b000_0000),
        Op::Sltu => Codes::new(0b011_0011, 0b011, 0b000_0000),
        Op::Xor => Codes::new(0b011_0011, 0b100, 0b000_0000),
        Op::Srl => Codes::new(0b011_0011, 0b101, 0b000_0000),
        Op::Or => Codes::new(0b011_0011, 0b110, 0b000_0000),
        Op::And => Codes::new(0b011_0011, 0b111, 0b000_0000),
        Op::Sub => Codes::new(0b011_0011, 0b000, 0b010_0000),
        Op::Sra => Codes::new(0b011_0011, 0b101, 0b010_0000),
        Op::Mul => Codes::new(0b011_0011, 0b000, 0b000_0001),
        Op::Mulh => Codes::new(0b011_0011, 0b001, 0b000_0001),
        Op::Mulhsu => Codes::new(0b011_0011, 0b010, 0b000_0001),
        Op::Mulhu => Codes::new(0b011_0011, 0b011, 0b000_0001),
        Op::Div => Codes::new(0b011_0011, 0b100, 0b000_0001),
        Op::Divu => Codes::new(0b011_0011, 0b101, 0b000_0001),
        Op::Rem => Codes::new(0b011_0011, 0b110, 0b000_0001),
        Op::Remu => Codes::new(0b011_0011, 0b111, 0b000_0001),
        Op::Addw => Codes::new(0b011_1011, 0b000, 0b000_0000),
        Op::Sllw => Codes::new(0b011_1011, 0b001, 0b000_0000),
        Op::Srlw => Codes::new(0b011_1011, 0b101, 0b000_0000),
        Op::Subw => Codes::new(0b011_1011, 0b000, 0b010_0000),
        Op::Sraw => Codes::new(0b011_1011, 0b101, 0b010_0000),
        Op::Mulw => Codes::new(0b011_1011, 0b000, 0b000_0001),
        Op::Divw => Codes::new(0b011_1011, 0b100, 0b000_0001),
        Op::Divuw => Codes::new(0b011_1011, 0b101, 0b000_0001),
        Op::Remw => Codes::new(0b011_1011, 0b110, 0b000_0001),
        Op::Remuw => Codes::new(0b011_1011, 0b111, 0b000_0001),
        _ => unreachable!(),
    }
}
