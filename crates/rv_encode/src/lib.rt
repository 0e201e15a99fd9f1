//! From RV64IMA instructions to 32-bit words. The listing of the RISC-V ISA manual stands in `rv_decode`;
//! `encode` is proved to read it backwards: its word, and no other, decodes to the instruction.
#![tactic(auto)]

mod codes;
mod encoder;
mod fields;

pub use encoder::{decodes_once, encode};
