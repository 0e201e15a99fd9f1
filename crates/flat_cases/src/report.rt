//! How a flat machine stands.

use flat_machine::{Flat, Status, Thread};
use std::alloc::{AllocError, Global};

/// The register that has the answer of a call.
const A0: u8 = 10;

/// Appends what each thread is doing, how much was output, and the end.
pub fn push(alloc: Global, text: &mut String, flat: &Flat) -> Result<(), AllocError> {
    for (number, thread) in flat.threads().iter().enumerate() {
        push_decimal(alloc, text, "  ", number as u64)?;
        push_status(alloc, text, thread)?;
        text.push_str("\n")?;
    }
    push_end(alloc, text, flat)
}

/// Appends how much was output, and the end.
fn push_end(alloc: Global, text: &mut String, flat: &Flat) -> Result<(), AllocError> {
    let len = flat.output().len();
    let ended = flat.ended();
    text.push_str(format!(in alloc; "  {len} bytes, {ended:?}\n")?.as_str())
}

/// Appends what a thread is doing.
fn push_status(alloc: Global, text: &mut String, thread: &Thread) -> Result<(), AllocError> {
    match &thread.status {
        Status::New { entry, arg } => {
            push_hex(alloc, text, " is new, for ", *entry)?;
            push_decimal(alloc, text, " with ", *arg)
        }
        Status::Ready => {
            push_hex(alloc, text, " is ready at ", thread.pc)?;
            push_hex(alloc, text, " with a0 ", thread.regs.get(A0))
        }
        Status::Writing { len, bytes, .. } => {
            push_decimal(alloc, text, " is writing, ", bytes.len() as u64)?;
            push_decimal(alloc, text, " bytes of ", *len)
        }
        Status::Asked { .. } => text.push_str(" has asked"),
        Status::Parked => text.push_str(" is parked"),
        Status::Answered { value } => push_hex(alloc, text, " is answered ", *value),
        status => push_past(alloc, text, status),
    }
}

/// Appends what a thread is that executes no more.
fn push_past(alloc: Global, text: &mut String, status: &Status) -> Result<(), AllocError> {
    match status {
        Status::Left { code } => push_decimal(alloc, text, " has left with ", u64::from(*code)),
        Status::Trapped { cause, pc } => {
            text.push_str(format!(in alloc; " has trapped, {cause:?}")?.as_str())?;
            push_hex(alloc, text, " at ", *pc)
        }
        Status::Gone { code, joined } => {
            push_decimal(alloc, text, " is gone with ", u64::from(*code))?;
            text.push_str(if *joined {
                ", joined true"
            } else {
                ", joined false"
            })
        }
        _ => Ok(()),
    }
}

/// Appends words and a number to the base 10.
fn push_decimal(
    alloc: Global,
    text: &mut String,
    words: &str,
    number: u64,
) -> Result<(), AllocError> {
    text.push_str(words)?;
    text.push_str(format!(in alloc; "{number}")?.as_str())
}

/// Appends words and a number to the base 16.
fn push_hex(alloc: Global, text: &mut String, words: &str, number: u64) -> Result<(), AllocError> {
    text.push_str(words)?;
    text.push_str(format!(in alloc; "{number:#x}")?.as_str())
}
