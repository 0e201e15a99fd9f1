//! What a write and a call of brk are answered.

ghost use Rattle.std.specs.Prelude.{◌≡◌, IfOk, OnOk, OnErr};
ghost use Rattle.serving.specs.Serving.{write_answer, output_with, break_after};

use elf_image::World;
use sim_base::{Bytes, NoMemory};
use wire_msg::error_numbers::NO_SPACE;

/// How many threads a program may begin, in all: one number less than 32 bits have.
pub const MOST_THREADS: u32 = u32::MAX;

/// The most that a program may output, in bytes.
const MOST_OUTPUT: usize = 1_048_576;

/// The output takes the bytes of a write, unless it would pass 1,048,576 bytes. The answer is their number, or Linux's
/// "no space left". Where memory runs out, nothing changes.
pub fn write_output(output: &mut Bytes, bytes: &Bytes) -> Result<u64, NoMemory>
    ensures value { IfOk result (λ value. value ≡ write_answer output.old bytes.now) }
    ensures ok { OnOk result (output.new ≡ output_with output.old bytes.now) }
    ensures err { OnErr result (output.new ≡ output.old) }
{
    let size = bytes.len();
    if output.len() > MOST_OUTPUT || size > MOST_OUTPUT - output.len() {
        return Ok(NO_SPACE);
    }
    output.extend(bytes.as_slice())?;
    Ok(size as u64)
}

/// The break after a call of brk with an address: the address where it lies in the heap window or at its end, else the
/// old break. The call answers it.
pub fn break_after(world: &World, old: u64, addr: u64) -> u64
    ensures { result ≡ break_after world.now old addr }
{
    let layout = world.layout();
    if layout.heap_start <= addr && addr <= layout.heap_end {
        addr
    } else {
        old
    }
}
