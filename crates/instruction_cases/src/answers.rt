//! What a case's instruction does.

ghost use Rattle.std.specs.Prelude.{◌*◌, ◌^◌, ◌<◌, IsTrue};
ghost use Rattle.rv_decode.specs.Valid.{IsValid};
ghost use Rattle.rv_exec.specs.Access.{is_size};

use crate::listing::push_listing;
use crate::texts::{push, push_hex};
use rv_decode::{Instr, decode};
use rv_encode::encode;
use rv_exec::{Access, Meaning, Regs, class, effect, finish};
use sim_base::{Cause, CostClass};
use std::alloc::{AllocError, Global};
use std::str::SplitWhitespace;

/// A word, what x1 and x2 hold, and what the bytes of an access hold.
#[derive(Clone, Copy)]
struct Case {
    word: u32,
    a: u64,
    b: u64,
    old: u64,
}

/// The answer to a line.
pub fn answer(alloc: Global, line: &str) -> Result<String, AllocError> {
    let mut text = String::new(alloc);
    match case_of(line) {
        Some(case) => push_case(alloc, &mut text, case)?,
        None => {
            text.push_str("not a case: ")?;
            text.push_str(line)?;
        }
    }
    Ok(text)
}

/// The four numbers of a line.
fn case_of(line: &str) -> Option<Case> {
    let mut numbers = line.split_whitespace();
    let word = u32::try_from(number(&mut numbers)?).ok()?;
    let a = number(&mut numbers)?;
    let b = number(&mut numbers)?;
    let old = number(&mut numbers)?;
    Some(Case { word, a, b, old })
}

/// The next number.
fn number(numbers: &mut SplitWhitespace<'_>) -> Option<u64> {
    u64::from_str_radix(numbers.next()?, 16).ok()
}

/// Appends the answer to a case.
fn push_case(alloc: Global, text: &mut String, case: Case) -> Result<(), AllocError> {
    match decode(case.word) {
        Some(instr) => push_instr(alloc, text, &instr, case),
        None => {
            push_word(alloc, text, case.word)?;
            text.push_str("no instruction")
        }
    }
}

/// Appends what the encoder makes of an instruction, its text, its class and what it does.
fn push_instr(alloc: Global, text: &mut String, instr: &Instr, case: Case) -> Result<(), AllocError>
    requires { IsValid instr.now }
{
    push_word(alloc, text, encode(instr))?;
    push_listing(alloc, text, instr)?;
    push_class(alloc, text, class(instr))?;
    push_outcome(alloc, text, instr, case)
}

/// Appends a word, and a colon.
fn push_word(alloc: Global, text: &mut String, word: u32) -> Result<(), AllocError> {
    text.push_str(format!(in alloc; "{word:08x}: ")?.as_str())
}

/// Appends a class, between colons.
fn push_class(alloc: Global, text: &mut String, class: CostClass) -> Result<(), AllocError> {
    text.push_str(format!(in alloc; ": {class:?}: ")?.as_str())
}

/// Appends what an instruction does at 0x1000.
fn push_outcome(
    alloc: Global,
    text: &mut String,
    instr: &Instr,
    case: Case,
) -> Result<(), AllocError>
    requires { IsValid instr.now }
{
    match effect(instr, &regs_of(case), 0x1000) {
        Meaning::Next { rd, value, pc } => {
            push(alloc, text, "", "x", i64::from(rd))?;
            push_hex(alloc, text, " = ", value)?;
            push_hex(alloc, text, ", then ", pc)
        }
        Meaning::Access { access } => push_finished(alloc, text, &access, case.old),
        Meaning::Call => text.push_str("call"),
        Meaning::Trap { cause } => push_trap(alloc, text, cause),
    }
}

/// The registers of a case.
fn regs_of(case: Case) -> Regs {
    let mut regs = Regs::new();
    regs.set(1, case.a);
    regs.set(2, case.b);
    regs
}

/// Appends a trap.
fn push_trap(alloc: Global, text: &mut String, cause: Cause) -> Result<(), AllocError> {
    text.push_str(format!(in alloc; "trap {cause:?}")?.as_str())
}

/// Appends what an access is, gives and writes.
fn push_finished(
    alloc: Global,
    text: &mut String,
    access: &Access,
    old: u64,
) -> Result<(), AllocError> {
    let size = access.size();
    let done = finish(access, fitting(old, size));
    push_asked(alloc, text, access)?;
    push_hex(alloc, text, " = ", done.value)?;
    match done.write {
        Some(written) => {
            push_hex(alloc, text, ", then ", written)?;
            text.push_str(" there")
        }
        None => Ok(()),
    }
}

/// Appends what an access asks for, and the register that gets its value.
fn push_asked(alloc: Global, text: &mut String, access: &Access) -> Result<(), AllocError> {
    let op = access.op();
    text.push_str(format!(in alloc; "{op:?}")?.as_str())?;
    push(alloc, text, "", " ", i64::from(access.size()))?;
    push_hex(alloc, text, " at ", access.addr())?;
    push(alloc, text, "", ", x", i64::from(access.rd()))
}

/// A number's low `size` bytes.
fn fitting(number: u64, size: u8) -> u64
    requires { IsTrue (is_size size) }
    ensures { result < 2 ^ (8 * size) }
{
    match size {
        1 => number % (1 << 8),
        2 => number % (1 << 16),
        4 => number % (1 << 32),
        _ => number,
    }
}
