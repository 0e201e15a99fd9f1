//! An access to memory that an instruction asks for, and what it gives and writes.

ghost use Rattle.std.specs.Prelude.{◌≡◌, ◌*◌, ◌^◌, ◌<◌, IsTrue};
ghost use Rattle.rv_decode.specs.Field.{extended};
ghost use Rattle.rv_exec.specs.Access.{IsAccess, is_size, is_atomic_size, low_bytes, as_read, amo_value, width_of, finish_of};

use crate::atomics::{new_double, new_word};
use crate::values::{sign_extended, word};
use std::marker::Model;

/// An atomic memory operation: what it writes, by the old number and its own. From the extension A of the
/// RISC-V ISA manual.
#[derive(Clone, Copy, Debug, PartialEq, Eq)]
pub enum AmoOp {
    /// Their sum, modulo 2^32 for 4 bytes and 2^64 for 8.
    Add,
    /// Its own number.
    Swap,
    /// The bits that one of them has.
    Xor,
    /// The bits that either or both have.
    Or,
    /// The bits that both have.
    And,
    /// The lesser, both signed.
    Min,
    /// The greater, both signed.
    Max,
    /// The lesser, both unsigned.
    Minu,
    /// The greater, both unsigned.
    Maxu,
}

/// What a memory access does.
#[derive(Clone, Copy, Debug, PartialEq, Eq)]
pub enum AccessOp {
    /// It reads.
    Load,
    /// It writes.
    Store,
    /// It reads, and reserves: a store-conditional may succeed later.
    Lr,
    /// It writes where the reservation still stands. Whether it does is for the machine to say.
    Sc,
    /// It reads, and writes what the operation makes of the old number and its own, in one step.
    Amo { op: AmoOp },
}

/// One access to memory that an instruction asks for. Its address is always a multiple of its size: an instruction whose
/// address isn't traps and makes none.
#[derive(Clone, Copy, Debug, PartialEq, Eq)]
pub struct Access {
    /// The address of its first byte.
    pub addr: u64,
    /// What is stored, or an atomic's own number, in its low `size` bytes; 0 for a load.
    pub value: u64,
    /// Whether it reads, writes or both.
    pub op: AccessOp,
    /// The register that gets what the access gives, below 32; 0 for a store.
    pub rd: u8,
    /// How many bytes it has: 1, 2, 4 or 8, and for an atomic 4 or 8.
    pub size: u8,
    /// Whether what is read is a signed number.
    pub signed: bool,
}

impl Model for Access {
    ghost use Rattle.rv_exec.specs.Access.{Asked, IsAccess};

    ghost Value = { Asked };

    ghost view = { λ a. record { op = a.op; rd = a.rd; addr = a.addr; size = a.size; signed = a.signed; value = a.value } };

    ghost invariant = { λ a. IsAccess (record { op = a.op; rd = a.rd; addr = a.addr; size = a.size; signed = a.signed; value = a.value }) };

    ghost inverse = { λ v. record { op = v.op; rd = v.rd; addr = v.addr; size = v.size; signed = v.signed; value = v.value } };
}

impl Access {
    /// Whether it reads, writes or both.
    #[inline(always)]
    pub fn op(&self) -> AccessOp
        ensures value { result ≡ self.now.op }
        ensures known { IsAccess self.now }
    {
        self.op
    }

    /// The register that gets what the access gives, below 32; 0 for a store.
    #[inline(always)]
    pub fn rd(&self) -> u8
        ensures value { result ≡ self.now.rd }
        ensures known { IsAccess self.now }
    {
        self.rd
    }

    /// The address of its first byte, a multiple of its size.
    #[inline(always)]
    pub fn addr(&self) -> u64
        ensures value { result ≡ self.now.addr }
        ensures known { IsAccess self.now }
    {
        self.addr
    }

    /// How many bytes it has: 1, 2, 4 or 8, and for an atomic 4 or 8.
    #[inline(always)]
    pub fn size(&self) -> u8
        ensures value { result ≡ self.now.size }
        ensures known { IsAccess self.now }
    {
        self.size
    }
}

/// What an access gives: what `rd` gets, and what is written, if anything.
#[derive(Clone, Copy, Debug, PartialEq, Eq)]
pub struct Done {
    /// What `rd` gets; 0 for a store, whose `rd` is 0, and for a store-conditional, which then succeeded.
    pub value: u64,
    /// The number that the access's bytes hold afterwards, where it writes them.
    pub write: Option<u64>,
}

/// What an access gives where its bytes hold the number `old`. Numbers in memory are little-endian, and
/// have as many bytes as the access. A store-conditional is taken to succeed: it gives 0 and writes. The
/// rules are those of the RISC-V ISA manual.
#[inline(always)]
pub fn finish(access: &Access, old: u64) -> Done
    requires { old < 2 ^ (8 * access.now.size) }
    ensures { result ≡ finish_of access.now old }
{
    match access.op {
        AccessOp::Load | AccessOp::Lr => {
            let value = as_read(access, old);
            Done { value, write: None }
        }
        AccessOp::Store | AccessOp::Sc => {
            let write = Some(low_part(access.value, access.size));
            Done { value: 0, write }
        }
        AccessOp::Amo { op } => {
            let new = new_number(op, old, access.value, access.size);
            Done {
                value: as_read(access, old),
                write: Some(new),
            }
        }
    }
}

/// What is read where an access's bytes hold the number `old`: with its sign, where it has one.
#[inline(always)]
fn as_read(access: &Access, old: u64) -> u64
    requires { old < 2 ^ (8 * access.now.size) }
    ensures { result ≡ as_read access.now old }
{
    if access.signed {
        with_sign(old, access.size)
    } else {
        old
    }
}

/// What an atomic memory operation on `size` bytes writes over the number `old`.
fn new_number(op: AmoOp, old: u64, value: u64, size: u8) -> u64
    requires sized { IsTrue (is_atomic_size size) }
    requires fits { old < 2 ^ (8 * size) }
    ensures { result ≡ amo_value (width_of size) op old (low_bytes size value) }
{
    match size {
        4 => u64::from(new_word(op, old as u32, word(value))),
        8 => new_double(op, old, value),
        _ => unreachable!(),
    }
}

/// A number of `size` bytes as 64 bits with the same signed value.
#[inline(always)]
fn with_sign(n: u64, size: u8) -> u64
    requires sized { IsTrue (is_size size) }
    requires fits { n < 2 ^ (8 * size) }
    ensures { result ≡ extended (8 * size) n }
{
    match size {
        1 => i64::from((n as u8).cast_signed()).cast_unsigned(),
        2 => i64::from((n as u16).cast_signed()).cast_unsigned(),
        4 => sign_extended(n as u32),
        8 => n,
        _ => unreachable!(),
    }
}

/// The low `size` bytes of a number.
#[inline(always)]
fn low_part(n: u64, size: u8) -> u64
    requires { IsTrue (is_size size) }
    ensures { result ≡ low_bytes size n }
{
    match size {
        1 => n % (1 << 8),
        2 => n % (1 << 16),
        4 => n % (1 << 32),
        8 => n,
        _ => unreachable!(),
    }
}
