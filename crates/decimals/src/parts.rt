//! Rationals by their signs and sizes.
ghost use Rattle.std.specs.Prelude.{◌≡◌, ◌<◌, ◌≤◌, ◌^◌, true};
ghost use Rattle.calc_terms.specs.Rat.{value_of};
ghost use Rattle.calc_terms.specs.Ratio.{with_sign};

use calc_terms::Rat;

/// A rational: its sign, the size of its numerator, and its denominator.
#[derive(Clone, Copy)]
pub(crate) struct Parts {
    pub(crate) is_negative: bool,
    pub(crate) size: u128,
    pub(crate) den: u128,
}

impl Parts {
    pub(crate) fn of(q: Rat) -> Parts
        ensures num { with_sign result.is_negative result.size ≡ (value_of q).num }
        ensures den { result.den ≡ (value_of q).den }
        ensures below_zero { result.is_negative ≡ true → 1 ≤ result.size }
        ensures positive { 1 ≤ result.den }
        ensures size_fits { result.size < 2 ^ 127 }
        ensures den_fits { result.den < 2 ^ 127 }
    {
        Parts {
            is_negative: q.num() < 0,
            size: q.num().unsigned_abs(),
            den: q.den().unsigned_abs(),
        }
    }
}
