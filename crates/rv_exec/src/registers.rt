//! The 32 integer registers.

ghost use Rattle.std.specs.Prelude.{◌≡◌, ◌<◌, slice_index};
ghost use Rattle.rv_exec.specs.Registers.{register, with_register, zeros, AreRegisters};

use std::marker::Model;

/// The 32 integer registers of 64 bits, which contracts see as the list of what they hold.
/// Register 0 always holds 0, as the RISC-V ISA manual has it.
#[derive(Clone, Copy, PartialEq)]
pub struct Regs {
    numbers: [u64; 32],
}

impl Model for Regs {
    ghost use Rattle.std.specs.Prelude.{ℕ, List, ◌≡◌, slice_index};

    ghost Value = { List ℕ };

    ghost view = { λ r. r.numbers };

    ghost invariant = { λ r. slice_index r.numbers 0 ≡ 0 };

    ghost inverse = { λ l. record { numbers = l } };
}

impl Regs {
    /// Registers that all hold 0.
    #[tactic(auto, unfolding(crate::specs::Registers::zeros))]
    pub fn new() -> Regs
        ensures { result ≡ zeros }
    {
        Regs { numbers: [0; 32] }
    }

    /// What register `i` holds. The caller gives a number below 32.
    #[inline(always)]
    pub fn get(&self, i: u8) -> u64
        requires { i < 32 }
        ensures value { result ≡ register self.now i }
        ensures known { AreRegisters self.now }
    {
        self.numbers[i as usize]
    }

    /// Writes a value to register `i`, which is below 32. A write to register 0 changes nothing.
    #[inline(always)]
    pub fn set(&mut self, i: u8, value: u64)
        requires { i < 32 }
        ensures value { self.new ≡ with_register self.old i value }
        ensures known { AreRegisters self.new }
    {
        if i != 0 {
            self.numbers[i as usize] = value;
        }
    }

    /// Lends what the registers hold, by their numbers.
    pub fn numbers(&self) -> &[u64; 32]
        ensures value { result.now ≡ self.now }
        ensures zero { slice_index self.now 0 ≡ 0 }
    {
        &self.numbers
    }
}
