//! One rational multiple of a square root.
ghost use Rattle.std.specs.Prelude.{◌≡◌, ◌≢◌, ◌<◌, ◌≤◌, ◌^◌};
ghost use Rattle.calc_algebra.specs.Clean.{IsClean};
ghost use Rattle.calc_terms.specs.Fractions.{zero_fraction};
ghost use Rattle.calc_terms.specs.Rat.{value_of};

use calc_terms::Rat;

/// c·√r with c not 0 and r clean, from 1 to 2^127 - 1. A rational has radicand 1.
#[derive(Clone, Copy, Debug)]
pub struct Term {
    coefficient: Rat,
    radicand: u128,
    ghost not_zero: { value_of coefficient ≢ zero_fraction },
    ghost clean: { IsClean radicand },
    ghost positive: { 1 ≤ radicand },
    ghost fits: { radicand < 2 ^ 127 },
}

impl Default for Term {
    fn default() -> Term {
        Term::rational(Rat::whole(1))
    }
}

impl Term {
    ghost use Rattle.calc_algebra.specs.Surds.{term};
    ghost use Rattle.surd_terms.specs.Terms.{coefficient_of, term_of};

    /// The rational c, with radicand 1.
    pub fn rational(c: Rat) -> Term
        requires { value_of c ≢ zero_fraction }
        ensures { term_of result ≡ term (value_of c) 1 }
    {
        Term::new(c, 1)
    }

    /// c·√radicand
    pub fn new(c: Rat, radicand: u128) -> Term
        requires not_zero { value_of c ≢ zero_fraction }
        requires clean { IsClean radicand }
        requires fits { radicand < 2 ^ 127 }
        ensures { term_of result ≡ term (value_of c) radicand }
    {
        Term {
            coefficient: c,
            radicand,
        }
    }

    /// The rational before the root.
    pub fn coefficient(self) -> Rat
        ensures rational { result ≡ coefficient_of self }
        ensures value { value_of result ≡ (term_of self).coefficient }
        ensures not_zero { (term_of self).coefficient ≢ zero_fraction }
    {
        self.coefficient
    }

    /// The number under the root.
    pub fn radicand(self) -> u128
        ensures value { result ≡ (term_of self).radicand }
        ensures clean { IsClean result }
        ensures positive { 1 ≤ result }
        ensures fits { result < 2 ^ 127 }
    {
        self.radicand
    }
}
