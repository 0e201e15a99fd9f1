//! Reads cases of instructions, a line each, and prints what the decoder, the encoder and the effects make of them. A line
//! has four hexadecimal numbers: a word, what x1 and x2 hold, and what the bytes of its access hold, of which those
//! count that it has. Its answer is the word as it is encoded again, the instruction as LLVM's disassembler writes it
//! (`llvm-mc -triple=riscv64 -mattr=+m,+a -M no-aliases,numeric`; a FENCE with its numbers), its class, and what it does
//! at 0x1000. The stored answers were worked out apart: the texts by that disassembler, the rest from the RISC-V ISA
//! manual.
#![tactic(auto)]

mod answers;
mod listing;
mod texts;

use std::io;

fn main(rt: HostRuntime) -> io::Result<()> {
    for line in rt.lines(rt.alloc()) {
        let text = answers::answer(rt.alloc(), line?.as_str())?;
        println!(rt; "{text}")?;
    }
    Ok(())
}
