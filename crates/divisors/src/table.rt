//! The divisors of the numbers up to some greatest one, made beforehand.

ghost use Rattle.std.specs.Prelude.{◌≡◌, ◌<◌, ◌≤◌, ◌%◌, vec_len, IfOk};
ghost use Rattle.divisors.specs.Table.{IsTable};

use crate::divisor::Divisor;
use sim_base::NoMemory;
use std::alloc::Global;
use std::marker::Model;

/// The divisors of the numbers from 1 to some greatest one, made beforehand. Contracts see how many there are.
#[derive(Drop)]
pub struct Divisors {
    table: Vec<Divisor>,
}

impl Model for Divisors {
    ghost use Rattle.std.specs.Prelude.{ℕ, length};
    ghost use Rattle.divisors.specs.Table.{IsTable};

    ghost Value = { ℕ };

    ghost view = { λ d. length d.table.items };

    ghost invariant = { λ d. IsTable d.table.items };
}

impl Divisors {
    /// The divisors of the numbers from 1 to this one.
    pub fn up_to(alloc: Global, greatest: u32) -> Result<Divisors, NoMemory>
        ensures { IfOk result (λ divisors. divisors ≡ greatest) }
    {
        let mut table = Vec::new(alloc);
        for place in 0..greatest {
            table.push(Divisor::new(place + 1))?;
        }
        Ok(Divisors { table })
    }

    /// The remainder of a number by another one above 0, which takes no division where that one is in the table and the number
    /// is below 2^32.
    #[inline]
    pub fn remainder(&self, value: u64, number: usize) -> u64
        requires { 0 < number }
        ensures { result ≡ value % number }
    {
        match self.table.get(number - 1) {
            Some(divisor) => divisor.remainder(value),
            None => value % number as u64,
        }
    }
}
