//! Worked examples. The words are what an assembler makes of the text beside them, and the values follow from the
//! RISC-V ISA manual. Every instruction's effects stand in the cases of `instruction_cases`.

use rv_decode::decode;
use rv_exec::{Access, Meaning, Regs, class, effect, finish};
use sim_base::{Cause, CostClass};

/// What a word does at 0x1000, where x1 holds `a` and x2 holds `b`.
fn meaning_of(word: u32, a: u64, b: u64) -> Option<Meaning> {
    let mut regs = Regs::new();
    regs.set(1, a);
    regs.set(2, b);
    let instr = decode(word)?;
    Some(effect(&instr, &regs, 0x1000))
}

fn next(rd: u8, value: u64, pc: u64) -> Meaning {
    Meaning::Next { rd, value, pc }
}

#[test]
fn effects_by_form(rt: HostRuntime) {
    let misaligned = Meaning::Trap {
        cause: Cause::LoadMisaligned,
    };
    let rows = [
        (
            "div x3, x1, x2",
            0x0220_c1b3,
            7,
            0,
            next(3, u64::MAX, 0x1004),
        ),
        (
            "jalr x3, 5(x1)",
            0x0050_81e7,
            0x2000,
            0,
            next(3, 0x1004, 0x2004),
        ),
        ("lw x3, 4(x1)", 0x0040_a183, 0x2002, 7, misaligned),
        ("ecall", 0x0000_0073, 0, 0, Meaning::Call),
    ];
    for (text, word, a, b, meaning) in rows {
        let is_done = meaning_of(word, a, b) == Some(meaning);
        assert!(rt; is_done, "{text}");
    }
}

/// The access that a word asks for at 0x2000, where x2 holds 5.
fn access_of(word: u32) -> Option<Access> {
    match meaning_of(word, 0x2000, 5)? {
        Meaning::Access { access } => Some(access),
        _ => None,
    }
}

/// What the access of a word on 4 bytes gives where these hold `old`, and what it writes.
fn done_of(word: u32, old: u64) -> Option<(u64, Option<u64>)> {
    let access = access_of(word)?;
    match access.size() {
        4 if old < 1 << 32 => {
            let done = finish(&access, old);
            Some((done.value, done.write))
        }
        _ => None,
    }
}

#[test]
fn an_atomic_gives_the_old_number(rt: HostRuntime) {
    let done = done_of(0x8020_a1af, 0x8000_0006); // amomin.w x3, x2, (x1)
    let is_done = done == Some((0xffff_ffff_8000_0006, Some(0x8000_0006)));
    assert!(rt; is_done);
}

/// The class of a word.
fn class_of(word: u32) -> Option<CostClass> {
    let instr = decode(word)?;
    Some(class(&instr))
}

#[test]
fn remuw_costs_as_a_division(rt: HostRuntime) {
    let is_division = class_of(0x0220_f1bb) == Some(CostClass::Div); // remuw x3, x1, x2
    assert!(rt; is_division);
}
