//! The next step of a hart: an instruction, an access that its rights allow, a call or a trap.

ghost use Rattle.std.specs.Prelude.{◌≡◌};
ghost use Rattle.rv_decode.specs.Valid.{IsValid};
ghost use Rattle.rv_hart.specs.Step.{next_step, instruction_step, access_step, right_of, access_fault, is_granted};
ghost use Rattle.rv_hart.specs.Inner.{is_allowed, IsStep};

use crate::calls::call_step;
use crate::reservations::{Span, lacks_reservation};
use elf_image::{Right, World};
use rv_decode::{Instr, decode};
use rv_exec::{Access, AccessOp, Meaning, Regs, class, effect};
use sim_base::{Cause, CostClass};
use wire_msg::Call;

/// What a hart does next.
#[derive(Drop)]
pub enum Step {
    /// Register `rd`, below 32, gets `value`, which changes nothing where `rd` is 0, and the hart goes on at `pc`. It
    /// costs what the instruction's class costs.
    Next {
        class: CostClass,
        rd: u8,
        value: u64,
        pc: u64,
    },
    /// It accesses memory. Each byte has the right that the access needs, and a store-conditional has its reservation.
    Access {
        access: Access,
    },
    /// A store-conditional whose bytes may be written lacks its reservation: it fails, and `rd` gets 1.
    ScFails {
        rd: u8,
    },
    /// The hart answers a call itself.
    Answer {
        value: u64,
    },
    /// It passes a call on to whoever serves calls.
    Ask {
        call: Call,
    },
    /// It begins a write call of `len` bytes, 1 to 4096, from `addr` on, each of which may be read.
    Write {
        addr: u64,
        len: u64,
    },
    /// Its thread exits with a code.
    Exit {
        code: u8,
    },
    /// It traps, and changes nothing.
    Trap {
        cause: Cause,
    },
}

/// The next step of a hart with these registers, this pc and this reservation, on which thread number `thread` runs.
/// Traps come in the order of the RISC-V ISA manual: the fetch, an illegal word, the address's alignment, then the
/// rights of the bytes, which are this simulator's own; a store-conditional's reservation is looked at last.
#[inline(always)]
pub fn next_step(
    world: &World,
    regs: &Regs,
    pc: u64,
    reservation: Option<Span>,
    thread: u32,
) -> Step
    ensures step { result ≡ next_step world.now regs.now pc reservation thread }
    ensures known { IsStep world.now result }
{
    if let Some(instr) = world.instruction(pc) {
        return instruction_step(world, instr, regs, pc, reservation, thread);
    }
    let Some(word) = world.fetch(pc) else {
        return Step::Trap {
            cause: Cause::InstrAccess,
        };
    };
    match decode(word) {
        Some(instr) => instruction_step(world, &instr, regs, pc, reservation, thread),
        None => Step::Trap {
            cause: Cause::Illegal,
        },
    }
}

/// What an instruction at `pc` does.
#[inline(always)]
fn instruction_step(
    world: &World,
    instr: &Instr,
    regs: &Regs,
    pc: u64,
    reservation: Option<Span>,
    thread: u32,
) -> Step
    requires { IsValid instr.now }
    ensures step { result ≡ instruction_step world.now regs.now pc reservation thread instr.now }
    ensures known { IsStep world.now result }
{
    match effect(instr, regs, pc) {
        Meaning::Next { rd, value, pc } => Step::Next {
            class: class(instr),
            rd,
            value,
            pc,
        },
        Meaning::Access { access } => access_step(world, reservation, access),
        Meaning::Call => call_step(world, regs, thread),
        Meaning::Trap { cause } => Step::Trap { cause },
    }
}

/// An access: its bytes' rights are tested first, then a store-conditional's reservation.
#[inline(always)]
fn access_step(world: &World, reservation: Option<Span>, access: Access) -> Step
    ensures step { result ≡ access_step world.now reservation access }
    ensures known { IsStep world.now result }
{
    if !is_granted(world, &access) {
        Step::Trap {
            cause: access_fault(access.op()),
        }
    } else if lacks_reservation(reservation, &access) {
        Step::ScFails { rd: access.rd() }
    } else {
        Step::Access { access }
    }
}

/// Whether an access is made as it is asked for: each of its bytes has the right that it needs, and a store-conditional has
/// its reservation. Else it traps, or fails.
#[inline(always)]
pub fn is_allowed(world: &World, reservation: Option<Span>, access: &Access) -> bool
    ensures { result ≡ is_allowed world.now reservation access.now }
{
    is_granted(world, access) && !lacks_reservation(reservation, access)
}

/// Whether each byte of an access has the right that it needs.
#[inline(always)]
fn is_granted(world: &World, access: &Access) -> bool
    ensures { result ≡ is_granted world.now access.now }
{
    world.may(
        access.addr(),
        u64::from(access.size()),
        right_of(access.op()),
    )
}

/// The right that an access needs of its bytes.
#[inline(always)]
fn right_of(op: AccessOp) -> Right
    ensures { result ≡ right_of op }
{
    match op {
        AccessOp::Load | AccessOp::Lr => Right::Read,
        AccessOp::Store | AccessOp::Sc => Right::Write,
        AccessOp::Amo { .. } => Right::ReadWrite,
    }
}

/// The trap of an access whose bytes lack the right.
fn access_fault(op: AccessOp) -> Cause
    ensures { result ≡ access_fault op }
{
    match op {
        AccessOp::Load | AccessOp::Lr => Cause::LoadAccess,
        AccessOp::Store | AccessOp::Sc | AccessOp::Amo { .. } => Cause::StoreAccess,
    }
}
