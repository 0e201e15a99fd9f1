//! From 32-bit words to RV64IMA instructions. The listing of the RISC-V ISA manual stands in
//! `specs/Table.antt`, and `decode` is proved to follow it, word for word.
#![tactic(auto)]

mod decoder;
mod fields;
mod instr;

pub use decoder::decode;
pub use instr::{Instr, Op};
