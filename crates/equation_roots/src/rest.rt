//! What is left of a polynomial once linear factors are divided out.
ghost use Rattle.std.specs.Prelude.{◌≡◌, ◌<◌, ◌≤◌, ◌^◌, pos, ◌<ℤ◌};
ghost use Rattle.calc_algebra.specs.Clean.{IsClean};
ghost use Rattle.calc_terms.specs.Rat.{value_of};
ghost use Rattle.equation_roots.specs.Factorings.{IsAboveZero};

use calc_terms::Rat;

/// X^2 + 2hX + c, where h is the half.
#[derive(Clone, Copy)]
pub struct Quadratic {
    pub half: Rat,
    pub constant: Rat,
}

/// The irrational roots m - s√t and m + s√t, where m is the middle, s is above 0 and t is the radicand.
#[derive(Clone, Copy, Debug)]
pub struct RootPair {
    middle: Rat,
    beside: Rat,
    radicand: u128,
    ghost above: { pos 0 <ℤ (value_of beside).num },
    ghost clean: { IsClean radicand },
    ghost irrational: { 2 ≤ radicand },
    ghost fits: { radicand < 2 ^ 127 },
}

impl RootPair {
    ghost use Rattle.equation_roots.specs.Pairs.{beside_of, middle_of, radicand_of};

    pub(crate) fn new(middle: Rat, beside: Rat, radicand: u128) -> RootPair
        requires above { pos 0 <ℤ (value_of beside).num }
        requires clean { IsClean radicand }
        requires irrational { 2 ≤ radicand }
        requires fits { radicand < 2 ^ 127 }
        ensures middle { middle_of result ≡ value_of middle }
        ensures beside { beside_of result ≡ value_of beside }
        ensures radicand { radicand_of result ≡ radicand }
    {
        RootPair {
            middle,
            beside,
            radicand,
        }
    }

    /// What both roots are beside.
    pub fn middle(self) -> Rat
        ensures { value_of result ≡ middle_of self }
    {
        self.middle
    }

    /// The rational before the root.
    pub fn beside(self) -> Rat
        ensures value { value_of result ≡ beside_of self }
        ensures above { IsAboveZero (value_of result) }
    {
        self.beside
    }

    /// The number under the root.
    pub fn radicand(self) -> u128
        ensures value { result ≡ radicand_of self }
        ensures clean { IsClean result }
        ensures irrational { 2 ≤ result }
        ensures fits { result < 2 ^ 127 }
    {
        self.radicand
    }
}

/// Nothing is left, or a quadratic without a root, or one with two irrational roots.
#[derive(Clone, Copy)]
pub enum Rest {
    Nothing,
    Rootless(Quadratic),
    Pair(RootPair),
}
