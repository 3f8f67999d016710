//! Negatives and reciprocals, which always fit.
ghost use Rattle.std.specs.Prelude.{◌≡◌, ◌≢◌, pos};
ghost use Rattle.calc_terms.specs.Rat.{value_of, ratio_of};
ghost use Rattle.calc_terms.specs.Fractions.{times, negative, inverse, one_fraction};

use crate::parts::{parts, rational};
use calc_terms::Rat;

/// -a
pub fn neg(a: Rat) -> Rat
    ensures { value_of result ≡ negative (value_of a) }
{
    let (num, den) = parts(a);
    rational(-num, den)
}

/// 1/a, where a is not 0.
pub fn invert(a: Rat) -> Rat
    requires { (ratio_of a).num ≢ pos 0 }
    ensures inverse { value_of result ≡ inverse (value_of a) }
    ensures product { times (value_of a) (value_of result) ≡ one_fraction }
{
    let (num, den) = parts(a);
    let den = den as i128;
    rational(if num < 0 { -den } else { den }, num.unsigned_abs())
}
