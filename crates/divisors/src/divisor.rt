//! A divisor with its reciprocal: quotients and remainders by a multiplication.

ghost use Rattle.std.specs.Prelude.{◌≡◌, ◌<◌, ◌/◌, ◌%◌};

use std::marker::Model;

/// A number above 0 to divide by, which contracts see as that number. Beside it stands its reciprocal, rounded up to a
/// multiple of 2^-64; that of 1 stands as 0.
#[derive(Clone, Copy)]
pub struct Divisor {
    number: u32,
    reciprocal: u64,
}

impl Model for Divisor {
    ghost use Rattle.std.specs.Prelude.{ℕ};
    ghost use Rattle.divisors.specs.Reciprocal.{reciprocal_of, IsDivisor};

    ghost Value = { ℕ };

    ghost view = { λ d. d.number };

    ghost invariant = { λ d. IsDivisor d.number d.reciprocal };

    ghost inverse = { λ n. record { number = n; reciprocal = reciprocal_of n } };
}

impl Divisor {
    /// The divisor of a number above 0.
    pub fn new(number: u32) -> Divisor
        requires { 0 < number }
        ensures { result ≡ number }
    {
        let reciprocal = (u64::MAX / u64::from(number)).wrapping_add(1);
        Divisor { number, reciprocal }
    }

    /// The number to divide by.
    #[inline]
    pub fn number(&self) -> u32
        ensures value { result ≡ self.now }
        ensures some { 0 < result }
    {
        self.number
    }

    /// The quotient of a number, rounded down. Below 2^32 it takes no division.
    #[inline]
    #[tactic(auto, using(crate::proofs::ReciprocalLemmas::quotient_is, crate::proofs::ReciprocalLemmas::quotient_by_one))]
    pub fn quotient(&self, value: u64) -> u64
        ensures { result ≡ value / self.now }
    {
        if value > u64::from(u32::MAX) {
            return value / u64::from(self.number);
        }
        if self.number == 1 {
            return value;
        }
        let product = u128::from(value) * u128::from(self.reciprocal);
        (product >> 64) as u64
    }

    /// The remainder of a number. Below 2^32 it takes no division: the low 64 bits of the product with the reciprocal are
    /// the quotient's part behind the point, and the number times that part is the remainder.
    #[inline]
    #[tactic(auto, using(crate::proofs::ReciprocalLemmas::remainder_is))]
    pub fn remainder(&self, value: u64) -> u64
        ensures { result ≡ value % self.now }
    {
        if value > u64::from(u32::MAX) {
            return value % u64::from(self.number);
        }
        let part = value.wrapping_mul(self.reciprocal);
        let product = u128::from(part) * u128::from(self.number);
        (product >> 64) as u64
    }
}
