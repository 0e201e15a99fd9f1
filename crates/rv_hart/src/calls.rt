//! What a call of a thread asks for, by its number and arguments.

ghost use Rattle.std.specs.Prelude.{◌≡◌, ◌-◌, ◌*◌, ◌/◌, ◌%◌, ◌^◌};
ghost use Rattle.rv_hart.specs.Call.{call_step, write_call, futex_call, without_bit_7};
ghost use Rattle.rv_hart.specs.Inner.{IsStep};

use crate::registers::{A0, A1, A2, A3, A7};
use crate::steps::Step;
use elf_image::{Right, World};
use rv_exec::Regs;
use wire_msg::Call;
use wire_msg::error_numbers::{BAD_ADDRESS, BAD_DESCRIPTOR, INVALID, NO_SUCH_CALL};

/// The most bytes that one write call moves.
const MOST_WRITTEN: u64 = 4096;

/// What the call that `a7` names asks for, by the thread with this number.
pub(crate) fn call_step(world: &World, regs: &Regs, thread: u32) -> Step
    ensures step { result ≡ call_step world.now regs.now thread }
    ensures known { IsStep world.now result }
{
    let first = regs.get(A0);
    let second = regs.get(A1);
    match regs.get(A7) {
        64 => write_call(world, regs),
        93 => Step::Exit {
            code: low_byte(first),
        },
        94 => ask(Call::ExitGroup {
            code: low_byte(first),
        }),
        98 => futex_call(world, regs),
        124 => Step::Answer { value: 0 },
        178 => Step::Answer {
            value: u64::from(thread),
        },
        214 => ask(Call::Brk { addr: first }),
        2048 => ask(Call::Spawn {
            entry: first,
            arg: second,
        }),
        2049 => ask(Call::Join { thread: first }),
        _ => Step::Answer {
            value: NO_SUCH_CALL,
        },
    }
}

/// A write of at most 4096 bytes to descriptor 1 or 2.
fn write_call(world: &World, regs: &Regs) -> Step
    ensures step { result ≡ write_call world.now regs.now }
    ensures known { IsStep world.now result }
{
    let descriptor = regs.get(A0);
    let addr = regs.get(A1);
    let len = regs.get(A2).min(MOST_WRITTEN);
    if descriptor != 1 && descriptor != 2 {
        Step::Answer {
            value: BAD_DESCRIPTOR,
        }
    } else if len == 0 {
        Step::Answer { value: 0 }
    } else if !world.may(addr, len, Right::Read) {
        Step::Answer { value: BAD_ADDRESS }
    } else {
        Step::Write { addr, len }
    }
}

/// A wait at a word or a wake of those that wait there.
fn futex_call(world: &World, regs: &Regs) -> Step
    ensures step { result ≡ futex_call world.now regs.now }
    ensures known { IsStep world.now result }
{
    let addr = regs.get(A0);
    let op = without_bit_7(regs.get(A1));
    let number = low_word(regs.get(A2));
    if op > 1 || (op == 0 && regs.get(A3) != 0) {
        Step::Answer {
            value: NO_SUCH_CALL,
        }
    } else if addr % 4 != 0 {
        Step::Answer { value: INVALID }
    } else if !world.may(addr, 4, Right::Read) {
        Step::Answer { value: BAD_ADDRESS }
    } else if op == 0 {
        ask(Call::FutexWait {
            addr,
            value: number,
        })
    } else {
        ask(Call::FutexWake {
            addr,
            count: number,
        })
    }
}

/// A call that is passed on.
fn ask(call: Call) -> Step
    ensures { result ≡ Step.Ask call }
{
    Step::Ask { call }
}

/// The number with bit 7 cleared.
fn without_bit_7(number: u64) -> u64
    ensures { result ≡ without_bit_7 number }
{
    number - number / 128 % 2 * 128
}

/// The number's remainder by 256.
fn low_byte(number: u64) -> u8
    ensures { result ≡ number % 256 }
{
    (number % 256) as u8
}

/// The number's remainder by 2^32.
fn low_word(number: u64) -> u32
    ensures { result ≡ number % 2 ^ 32 }
{
    (number % (1 << 32)) as u32
}
