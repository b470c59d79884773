ghost use Rattle.std.specs.Prelude.{◌≡◌, ◌+◌, ◌-◌, ◌*◌, ◌^◌, ◌<◌, ◌≤◌, ◌↔◌, pos, negsuc, ◌+ℤ◌, ◌-ℤ◌, ◌*ℤ◌, ◌<ℤ◌, ◌≤ℤ◌, ℤ, neg_ℤ, IsTrue, FitsSigned};
ghost use Rattle.std.specs.Int.{w64, w128};

use std::marker::Model;

/// A whole number of up to 190 bits: a sum of numbers of 128 bits.
#[derive(Drop)]
pub(crate) struct Sum {
    low: i128,
    carry: i64,
}

impl Model for Sum {
    ghost use Rattle.std.specs.Prelude.{ℤ};
    ghost use Rattle.worlds.specs.WideNumbers.{wide_number};

    ghost Value = { ℤ };

    ghost view = { λ s. wide_number s.low s.carry };
}

impl Sum {
    pub fn zero() -> Sum
        ensures { result ≡ pos 0 }
    {
        Sum { low: 0, carry: 0 }
    }

    pub fn add(&mut self, x: i128)
        requires above { neg_ℤ (pos (2 ^ 189)) <ℤ self.old }
        requires below { self.old <ℤ pos (2 ^ 189) }
        ensures { self.new ≡ self.old +ℤ x }
    {
        match self.low.checked_add(x) {
            Some(low) => self.low = low,
            None if x < 0 => {
                self.low = low_part(self.low, x, i128::MAX, 1);
                self.carry = carry_after(self.carry, -1);
            }
            None => {
                self.low = low_part(self.low, x, -i128::MAX, -1);
                self.carry = carry_after(self.carry, 1);
            }
        }
    }

    pub fn equals(&self, x: i128) -> bool
        ensures { IsTrue result ↔ (self.now ≡ x) }
    {
        if self.carry == 0 {
            self.low == x
        } else if self.carry == 1 {
            x >= 0 && self.low == x - i128::MAX - 1
        } else if self.carry == -1 {
            x < 0 && self.low == x + i128::MAX + 1
        } else {
            false
        }
    }
}

// The sum of two numbers of one sign, brought back by a carry.
fn low_part(low: i128, x: i128, most: i128, one: i128) -> i128
    requires once { FitsSigned w128 (low +ℤ most) }
    requires twice { FitsSigned w128 ((low +ℤ most) +ℤ one) }
    requires fits_128_bits { FitsSigned w128 (((low +ℤ most) +ℤ one) +ℤ x) }
    ensures { result ≡ ((low +ℤ most) +ℤ one) +ℤ x }
{
    low + most + one + x
}

fn carry_after(carry: i64, by: i64) -> i64
    requires { FitsSigned w64 (carry +ℤ by) }
    ensures { result ≡ carry +ℤ by }
{
    carry + by
}
