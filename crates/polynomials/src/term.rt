//! Terms.
ghost use Rattle.std.specs.Prelude.{◌≡◌, ◌<◌, ◌+◌, ℕ, IfErr, IfOk};
ghost use Rattle.polynomials.specs.Polynomials.{HasExponents, monomial_times};
ghost use Rattle.polynomials.specs.Packed.{monomial_of};
ghost use Rattle.polynomials.specs.Unfits.{IsCaused};

use crate::unfit::Unfit;
use calc_terms::Rat;
use rational128::{add, mul};

/// A rational times a monomial. The exponent of each of at most eight names stands in eight bits of the monomial, that of
/// the first one in the lowest.
#[derive(Clone, Copy, Debug)]
pub struct Term {
    pub monomial: u64,
    pub coefficient: Rat,
}

impl Term {
    ghost use Rattle.calc_terms.specs.Fractions.{plus};
    ghost use Rattle.calc_terms.specs.Rat.{value_of};
    ghost use Rattle.polynomials.specs.Polynomials.{constant, summand_times, one_monomial, summand};
    ghost use Rattle.polynomials.specs.Terms.{summand_of};

    /// A rational.
    pub(crate) fn constant(value: Rat) -> Term
        ensures { summand_of result ≡ summand (value_of value) one_monomial }
    {
        Term {
            monomial: 0,
            coefficient: value,
        }
    }

    /// The sum of two terms with one monomial.
    pub(crate) fn plus(self, other: Term) -> Result<Term, Unfit>
        ensures monomial { IfOk result (λ t. t.monomial ≡ other.monomial) }
        ensures coefficient { IfOk result (λ t. value_of t.coefficient ≡ plus (value_of self.coefficient) (value_of other.coefficient)) }
        ensures unfit { IfErr result (IsCaused ⊥) }
    {
        match add(self.coefficient, other.coefficient) {
            Ok(coefficient) => Ok(Term {
                monomial: other.monomial,
                coefficient,
            }),
            Err(overflow) => Err(Unfit::Coefficient(overflow)),
        }
    }

    /// The product of two terms. No exponent runs over.
    pub(crate) fn times(self, other: Term) -> Result<Term, Unfit>
        requires exponents { (d : ℕ) × (e : ℕ) × (d + e < 256) × HasExponents d (monomial_of self.monomial) × HasExponents e (monomial_of other.monomial) }
        ensures product { IfOk result (λ t. summand_of t ≡ summand_times (summand_of self) (summand_of other)) }
        ensures packed { IfOk result (λ t. t.monomial ≡ self.monomial + other.monomial) }
        ensures unfit { IfErr result (IsCaused ⊥) }
    {
        let monomial = packed_product(self.monomial, other.monomial);
        if self.coefficient.is_one() {
            let coefficient = other.coefficient;
            return Ok(Term {
                monomial,
                coefficient,
            });
        }
        match mul(self.coefficient, other.coefficient) {
            Ok(coefficient) => Ok(Term {
                monomial,
                coefficient,
            }),
            Err(overflow) => Err(Unfit::Coefficient(overflow)),
        }
    }
}

/// The product of two packed monomials. No exponent runs over.
fn packed_product(a: u64, b: u64) -> u64
    requires exponents { (d : ℕ) × (e : ℕ) × (d + e < 256) × HasExponents d (monomial_of a) × HasExponents e (monomial_of b) }
    ensures packed { result ≡ a + b }
    ensures product { monomial_of result ≡ monomial_times (monomial_of a) (monomial_of b) }
{
    a + b
}
