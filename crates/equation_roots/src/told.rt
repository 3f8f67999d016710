//! The roots that are told.
ghost use Rattle.std.specs.Prelude.{◌≡◌, [], MatchOption};
ghost use Rattle.equation_roots.specs.Factorings.{surds_of};

use crate::rationals::Rationals;
use crate::rest::{Rest, RootPair};

/// All real roots of a polynomial, each as often as it is one.
#[derive(Drop)]
pub struct Roots {
    rationals: Rationals,
    rest: Rest,
}

impl Roots {
    ghost use Rattle.equation_roots.specs.Pairs.{beside_of, middle_of, radicand_of};
    ghost use Rattle.equation_roots.specs.Rationals.{rationals_of};
    ghost use Rattle.equation_roots.specs.Rests.{pair_of, rest_of};
    ghost use Rattle.equation_roots.specs.Roots.{rationals_in, rest_in};

    pub(crate) fn new(rationals: Rationals, rest: Rest) -> Roots
        ensures rationals { rationals_in result ≡ rationals_of rationals }
        ensures rest { rest_in result ≡ rest_of rest }
    {
        Roots { rationals, rest }
    }

    /// The rational roots.
    pub fn rationals(&self) -> &Rationals
        ensures { rationals_of result.now ≡ rationals_in self.now }
    {
        &self.rationals
    }

    /// The irrational roots: two or none.
    pub fn pair(&self) -> Option<RootPair>
        ensures { MatchOption result (surds_of (rest_in self.now) ≡ [])
            (λ p. rest_in self.now ≡ pair_of (middle_of p) (beside_of p) (radicand_of p)) }
    {
        match self.rest {
            Rest::Pair(pair) => Some(pair),
            _ => None,
        }
    }
}
