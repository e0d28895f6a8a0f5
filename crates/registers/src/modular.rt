// Sums by a modulus.
ghost use Rattle.std.specs.Prelude.{◌≡◌, ◌+◌, ◌-◌, ◌%◌, ◌^◌, ◌<◌, ◌≤◌, ℕ};
ghost use Rattle.ladder.specs.Registers.{modulus};

use std::marker::Model;

// A modulus from 1 to 2^63, or 0, which stands for 2^64. A contract sees the number.
#[derive(Clone, Copy)]
pub struct Modulus {
    number: u64,
}

impl Model for Modulus {
    ghost Value = { ℕ };

    ghost view = { λ m. m.number };

    ghost invariant = { λ m. m.number ≤ 2 ^ 63 };

    ghost inverse = { λ n. record { number = n } };
}

impl Modulus {
    // The modulus of a run that is not refused.
    pub fn new(number: u64) -> Self
        requires { number ≤ 2 ^ 63 }
        ensures { result ≡ number }
    {
        Modulus { number }
    }

    // The sum of two elements. With modulus 0 words are added with wrap on purpose. Else the sum less the modulus, wrapped, has its highest
    // bit exactly where the sum was less; there the modulus comes back. No branch, since no one can foresee which way a sum goes.
    pub fn add(self, a: u64, b: u64) -> u64
        requires { (a < modulus self) × (b < modulus self) }
        ensures { result ≡ (a + b) % modulus self }
    {
        let sum = a.wrapping_add(b);
        let t = sum.wrapping_sub(self.number);
        t.wrapping_add((t >> 63) * self.number)
    }

    // The negative of an element: the modulus less it, 0 staying 0. The wrapped difference from 0 is that of 2^64.
    pub fn negative(self, e: u64) -> u64
        requires { e < modulus self }
        ensures { result ≡ (modulus self - e) % modulus self }
    {
        if e == 0 {
            0
        } else {
            self.number.wrapping_sub(e)
        }
    }
}
