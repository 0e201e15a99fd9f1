//! The fields and the immediates of an instruction word, as the RISC-V ISA manual lays them out.

ghost use Rattle.std.specs.Prelude.{◌≡◌, ◌+◌, ◌%◌, ◌^◌, ◌<◌, ◌≤◌};
ghost use Rattle.rv_decode.specs.Field.{extended, opcode, rd, funct3, rs1, rs2, funct7, funct6, funct5, aq, rl, amount, amount_w, immediate_i, immediate_s, immediate_b, immediate_u, immediate_j};
ghost use Rattle.rv_decode.specs.Valid.{IsSigned};

/// Bits 6 to 0.
pub fn opcode(word: u32) -> u32
    ensures value { result ≡ opcode word }
{
    word & 0x7f
}

/// The register that is written, bits 11 to 7.
pub fn rd(word: u32) -> u8
    ensures value { result ≡ rd word }
    ensures below { result < 32 }
{
    (word >> 7 & 0x1f) as u8
}

/// Bits 14 to 12.
pub fn funct3(word: u32) -> u32
    ensures value { result ≡ funct3 word }
{
    word >> 12 & 0x7
}

/// The first register that is read, bits 19 to 15.
pub fn rs1(word: u32) -> u8
    ensures value { result ≡ rs1 word }
    ensures below { result < 32 }
{
    (word >> 15 & 0x1f) as u8
}

/// The second register that is read, bits 24 to 20.
pub fn rs2(word: u32) -> u8
    ensures value { result ≡ rs2 word }
    ensures below { result < 32 }
{
    (word >> 20 & 0x1f) as u8
}

/// Bits 31 to 25.
pub fn funct7(word: u32) -> u32
    ensures value { result ≡ funct7 word }
{
    word >> 25
}

/// Bits 31 to 26, which tell a shift by a constant of 64 bits.
pub fn funct6(word: u32) -> u32
    ensures value { result ≡ funct6 word }
{
    word >> 26
}

/// Bits 31 to 27, the code of an atomic.
pub fn funct5(word: u32) -> u32
    ensures value { result ≡ funct5 word }
{
    word >> 27
}

/// Bit 26, with which an atomic acquires.
pub fn aq(word: u32) -> bool
    ensures value { result ≡ aq word }
{
    word >> 26 & 1 == 1
}

/// Bit 25, with which an atomic releases.
pub fn rl(word: u32) -> bool
    ensures value { result ≡ rl word }
{
    word >> 25 & 1 == 1
}

/// How far a constant shifts 64 bits, bits 25 to 20.
pub fn amount(word: u32) -> u8
    ensures value { result ≡ amount word }
    ensures below { result < 64 }
{
    (word >> 20 & 0x3f) as u8
}

/// How far a constant shifts 32 bits, bits 24 to 20.
pub fn amount_w(word: u32) -> u8
    ensures value { result ≡ amount_w word }
    ensures below { result < 32 }
{
    (word >> 20 & 0x1f) as u8
}

/// The immediate of the I form.
pub fn immediate_i(word: u32) -> u64
    ensures value { result ≡ immediate_i word }
    ensures range { IsSigned 12 result }
{
    extended((word >> 20) as u64, 12)
}

/// The immediate of the S form.
pub fn immediate_s(word: u32) -> u64
    ensures value { result ≡ immediate_s word }
    ensures range { IsSigned 12 result }
{
    let bits = word >> 25 << 5 | (word >> 7 & 0x1f);
    extended(bits as u64, 12)
}

/// The immediate of the B form.
pub fn immediate_b(word: u32) -> u64
    ensures value { result ≡ immediate_b word }
    ensures range { IsSigned 13 result }
    ensures even { result % 2 ≡ 0 }
{
    let bits = word >> 31 << 12
        | ((word >> 7 & 0x1) << 11 | ((word >> 25 & 0x3f) << 5 | (word >> 8 & 0xf) << 1));
    extended(bits as u64, 13)
}

/// The immediate of the U form.
pub fn immediate_u(word: u32) -> u64
    ensures value { result ≡ immediate_u word }
    ensures range { IsSigned 32 result }
    ensures whole { result % 2 ^ 12 ≡ 0 }
{
    extended((word >> 12 << 12) as u64, 32)
}

/// The immediate of the J form.
pub fn immediate_j(word: u32) -> u64
    ensures value { result ≡ immediate_j word }
    ensures range { IsSigned 21 result }
    ensures even { result % 2 ≡ 0 }
{
    let bits = word >> 31 << 20
        | ((word >> 12 & 0xff) << 12 | ((word >> 20 & 0x1) << 11 | (word >> 21 & 0x3ff) << 1));
    extended(bits as u64, 21)
}

/// The sign extension to 64 bits of a number of `bits` bits.
fn extended(n: u64, bits: u32) -> u64
    requires signed { 0 < bits }
    requires narrow { bits ≤ 32 }
    requires fits { n < 2 ^ bits }
    ensures value { result ≡ extended bits n }
    ensures range { IsSigned bits result }
{
    if n < 1 << (bits - 1) {
        n
    } else {
        n + (1u64 << bits).wrapping_neg()
    }
}
