//! Rationals as a numerator and a denominator without a sign.
ghost use Rattle.std.specs.Prelude.{◌≡◌, ◌<◌, ◌^◌, nat_abs};
ghost use Rattle.std.specs.Int.{IsGcd};
ghost use Rattle.calc_terms.specs.Rat.{value_of};

use calc_terms::Rat;

/// The numerator and the denominator.
pub(crate) fn parts(a: Rat) -> (i128, u128)
    ensures num { result.0 ≡ (value_of a).num }
    ensures den { result.1 ≡ (value_of a).den }
    ensures num_fits { nat_abs result.0 < 2 ^ 127 }
    ensures den_fits { result.1 < 2 ^ 127 }
{
    (a.num(), a.den().unsigned_abs())
}

/// num/den, which are in lowest terms.
pub(crate) fn rational(num: i128, den: u128) -> Rat
    requires in_lowest_terms { IsGcd (nat_abs num) den 1 }
    requires num_fits { nat_abs num < 2 ^ 127 }
    requires positive { 0 < den }
    requires den_fits { den < 2 ^ 127 }
    ensures num { (value_of result).num ≡ num }
    ensures den { (value_of result).den ≡ den }
{
    Rat::lowest(num, den as i128)
}
