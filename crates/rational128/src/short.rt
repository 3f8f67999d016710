//! Sums and products of short numbers, which fit and are in lowest terms.
ghost use Rattle.std.specs.Prelude.{◌≡◌, true};
ghost use Rattle.calc_terms.specs.Fits.{fraction_fits, sum_fits};
ghost use Rattle.calc_terms.specs.Fractions.{plus, times};
ghost use Rattle.calc_terms.specs.Rat.{value_of};
ghost use Rattle.calc_terms.specs.Short.{is_short};

use calc_terms::Rat;

/// a + b
pub(crate) fn short_sum(a: Rat, b: Rat) -> Rat
    requires first { is_short (value_of a) ≡ true }
    requires second { is_short (value_of b) ≡ true }
    ensures fits { sum_fits (value_of a) (value_of b) ≡ true }
    ensures value { value_of result ≡ plus (value_of a) (value_of b) }
{
    Rat::whole(a.num() + b.num())
}

/// a * b
pub(crate) fn short_product(a: Rat, b: Rat) -> Rat
    requires first { is_short (value_of a) ≡ true }
    requires second { is_short (value_of b) ≡ true }
    ensures fits { fraction_fits (times (value_of a) (value_of b)) ≡ true }
    ensures value { value_of result ≡ times (value_of a) (value_of b) }
{
    Rat::whole(a.num() * b.num())
}
