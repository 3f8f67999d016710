//! Rationals in lowest terms whose parts end at 127 bits.
ghost use Rattle.std.specs.Prelude.{◌≡◌, ◌<◌, ◌≤◌, ◌^◌, ◌↔◌, ℤ, pos, ◌<ℤ◌, ◌*ℤ◌, nat_abs, IsTrue};
ghost use Rattle.calc_terms.specs.Fractions.{is_lowest, is_one_fraction, is_zero_fraction};
ghost use Rattle.calc_terms.specs.Integers.{int_is_one, int_is_zero};
ghost use Rattle.calc_terms.specs.Ratio.{IsRat, whole};
ghost use Rattle.calc_terms.specs.Short.{is_short_int};

use crate::euclid::{reduced, signed};

/// What short numbers stay below.
const SHORT: i128 = 1 << 63;

/// A rational in lowest terms: the denominator is from 1 to 2^127 - 1, the numerator's magnitude
/// at most 2^127 - 1, and zero is 0/1.
#[derive(Clone, Copy, Debug)]
pub struct Rat {
    num: i128,
    den: i128,
    ghost positive: { pos 0 <ℤ den },
    ghost fits: { nat_abs num < 2 ^ 127 },
    ghost den_fits: { nat_abs den < 2 ^ 127 },
    ghost in_lowest_terms: { IsTrue (is_lowest num (nat_abs den)) },
}

impl Rat {
    ghost use Rattle.calc_terms.specs.Rat.{ratio_of, value_of};
    ghost use Rattle.calc_terms.specs.Short.{is_short};
    ghost use Rattle.calc_terms.specs.Fractions.{lowest as lowest_of};

    /// The numerator, which carries the sign.
    pub fn num(self) -> i128
        ensures value { result ≡ (ratio_of self).num }
        ensures rat { IsRat (ratio_of self) }
    {
        self.num
    }

    /// The denominator, at least 1.
    pub fn den(self) -> i128
        ensures value { result ≡ pos (ratio_of self).den }
        ensures rat { IsRat (ratio_of self) }
    {
        self.den
    }

    /// A numerator and a denominator that are in lowest terms already.
    pub fn lowest(num: i128, den: i128) -> Rat
        requires positive { pos 0 <ℤ den }
        requires fits { nat_abs num < 2 ^ 127 }
        requires in_lowest_terms { IsTrue (is_lowest num (nat_abs den)) }
        ensures { ratio_of result ≡ record { num = num; den = nat_abs den } }
    {
        Rat { num, den }
    }

    /// The whole number n.
    pub fn whole(n: i128) -> Rat
        requires { nat_abs n < 2 ^ 127 }
        ensures { ratio_of result ≡ whole n }
    {
        Rat { num: n, den: 1 }
    }

    /// num/den in lowest terms.
    pub fn ratio(num: i128, den: i128) -> Rat
        requires num_fits { nat_abs num < 2 ^ 127 }
        requires positive { pos 0 <ℤ den }
        ensures value { value_of result ≡ lowest_of num (nat_abs den) }
        ensures rat { IsRat (ratio_of result) }
    {
        Rat::divided(num, den)
    }

    /// Whether it is 0.
    pub fn is_zero(self) -> bool
        ensures { result ≡ is_zero_fraction (value_of self) }
    {
        is_zero_int(self.num)
    }

    /// Whether it is 1.
    pub fn is_one(self) -> bool
        ensures { result ≡ is_one_fraction (value_of self) }
    {
        is_one_int(self.num) && self.is_whole()
    }

    /// Whether the denominator is 1.
    pub fn is_whole(self) -> bool
        ensures { IsTrue result ↔ ((ratio_of self).den ≡ 1) }
    {
        self.den == 1
    }

    /// Whether it is a whole number of 64 bits, one of which is the sign.
    pub fn is_short(self) -> bool
        ensures { result ≡ is_short (value_of self) }
    {
        self.is_whole() && is_short_int(self.num)
    }

    /// num/den in lowest terms, by cross products.
    fn divided(num: i128, den: i128) -> Rat
        requires num_fits { nat_abs num < 2 ^ 127 }
        requires positive { pos 0 <ℤ den }
        ensures rat { IsRat (ratio_of result) }
        ensures same { (ratio_of result).num *ℤ den ≡ num *ℤ pos (ratio_of result).den }
    {
        let (small, under) = reduced(num.unsigned_abs(), den.unsigned_abs());
        Rat {
            num: signed(num < 0, small),
            den: under as i128,
        }
    }
}

fn is_zero_int(n: i128) -> bool
    ensures { result ≡ int_is_zero n }
{
    n == 0
}

fn is_one_int(n: i128) -> bool
    ensures { result ≡ int_is_one n }
{
    n == 1
}

fn is_short_int(n: i128) -> bool
    ensures { result ≡ is_short_int n }
{
    -SHORT <= n && n < SHORT
}
