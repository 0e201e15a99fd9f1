//! What an RV64IMA instruction does: the registers, the effect of each instruction on them and on the pc,
//! the accesses to memory that loads, stores and atomics ask for, and the class of each instruction by what
//! it costs. But for the classes, the rules are those of the RISC-V ISA manual.
#![tactic(auto)]

mod access;
mod atomics;
mod classes;
mod division;
mod effects;
mod meaning;
mod products;
mod registers;
mod values;

pub use access::{Access, AccessOp, AmoOp, Done, finish};
pub use classes::class;
pub use effects::effect;
pub use meaning::Meaning;
pub use registers::Regs;
