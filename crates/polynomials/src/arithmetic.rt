//! Sums, products and powers.
ghost use Rattle.std.specs.Prelude.{◌<◌, ◌≤◌, ◌+◌, ◌*◌, ◌^◌, ◌++◌, ℕ, IfErr, OnOk, length, max, min, vec_capacity};
ghost use Rattle.calc_terms.specs.Rat.{value_of};
ghost use Rattle.polynomials.specs.Polynomials.{HaveExponents, product, raised, scaled};
ghost use Rattle.polynomials.specs.Terms.{AreTermsOf, IsNormal, polynomial_of};
ghost use Rattle.polynomials.specs.Unfits.{IsCaused};

use crate::binomials::{GREATEST_EXPONENT, binomial_power};
use crate::list::push;
use crate::merging::add_multiple;
use crate::term::Term;
use crate::unfit::Unfit;
use calc_terms::Rat;
use std::mem::swap;

/// The sum of a polynomial and a rational times another one.
pub fn add_scaled(
    sum: &[Term],
    factor: Rat,
    terms: &[Term],
    list: &mut Vec<Term>,
) -> Result<(), Unfit>
    requires sum { IsNormal sum.now }
    requires terms { IsNormal terms.now }
    ensures terms { OnOk result (AreTermsOf (polynomial_of sum.now ++ scaled (value_of factor) (polynomial_of terms.now)) list.new.items) }
    ensures exponents { (d : ℕ) → HaveExponents d (polynomial_of sum.now) → HaveExponents d (polynomial_of terms.now)
        → OnOk result (HaveExponents d (polynomial_of list.new.items)) }
    ensures few { OnOk result (length list.new.items ≤ length sum.now + length terms.now) }
    ensures unfit { IfErr result (IsCaused (vec_capacity list.old < length sum.now + length terms.now)) }
    ensures room { vec_capacity list.old ≤ vec_capacity list.new }
{
    add_multiple(sum, Term::constant(factor), terms, list)
}

/// The product of two polynomials, of which the first should be the one with fewer terms. No exponent runs over. The spare
/// list is another one.
pub fn product(
    a: &[Term],
    b: &[Term],
    list: &mut Vec<Term>,
    spare: &mut Vec<Term>,
) -> Result<(), Unfit>
    requires first { IsNormal a.now }
    requires second { IsNormal b.now }
    requires exponents { (d : ℕ) × (e : ℕ) × (d + e < 256) × HaveExponents d (polynomial_of a.now) × HaveExponents e (polynomial_of b.now) }
    ensures terms { OnOk result (AreTermsOf (product (polynomial_of a.now) (polynomial_of b.now)) list.new.items) }
    ensures exponents { (d e : ℕ) → HaveExponents d (polynomial_of a.now) → HaveExponents e (polynomial_of b.now)
        → OnOk result (HaveExponents (d + e) (polynomial_of list.new.items)) }
    ensures few { OnOk result (length list.new.items ≤ length a.now * length b.now) }
    ensures unfit { IfErr result (IsCaused (min (vec_capacity list.old) (vec_capacity spare.old) < length a.now * length b.now)) }
    ensures room { min (vec_capacity list.old) (vec_capacity spare.old) ≤ min (vec_capacity list.new) (vec_capacity spare.new) }
{
    list.clear();
    for term in a {
        add_multiple(list, *term, b, spare)?;
        swap(list, spare);
    }
    Ok(())
}

/// A polynomial to a power. No exponent runs over.
pub fn power(
    base: &[Term],
    exponent: u8,
    list: &mut Vec<Term>,
    spare: &mut Vec<Term>,
    other: &mut Vec<Term>,
) -> Result<(), Unfit>
    requires base { IsNormal base.now }
    requires exponents { (d : ℕ) × (exponent * d < 256) × HaveExponents d (polynomial_of base.now) }
    ensures terms { OnOk result (AreTermsOf (raised (polynomial_of base.now) exponent) list.new.items) }
    ensures exponents { (d : ℕ) → HaveExponents d (polynomial_of base.now) → OnOk result (HaveExponents (exponent * d) (polynomial_of list.new.items)) }
    ensures few { OnOk result (length list.new.items ≤ length base.now ^ exponent) }
    ensures unfit { IfErr result (IsCaused (min (vec_capacity list.old) (min (vec_capacity spare.old) (vec_capacity other.old)) < max 1 (length base.now ^ exponent))) }
{
    if base.len() == 2 && exponent <= GREATEST_EXPONENT {
        return binomial_power(base[0], base[1], exponent, list, spare, other);
    }
    power_by_factors(base, exponent, list, spare, other)
}

/// The same, factor by factor.
fn power_by_factors(
    base: &[Term],
    exponent: u8,
    list: &mut Vec<Term>,
    spare: &mut Vec<Term>,
    other: &mut Vec<Term>,
) -> Result<(), Unfit>
    requires base { IsNormal base.now }
    requires exponents { (d : ℕ) × (exponent * d < 256) × HaveExponents d (polynomial_of base.now) }
    ensures terms { OnOk result (AreTermsOf (raised (polynomial_of base.now) exponent) list.new.items) }
    ensures exponents { (d : ℕ) → HaveExponents d (polynomial_of base.now) → OnOk result (HaveExponents (exponent * d) (polynomial_of list.new.items)) }
    ensures few { OnOk result (length list.new.items ≤ length base.now ^ exponent) }
    ensures unfit { IfErr result (IsCaused (min (vec_capacity list.old) (min (vec_capacity spare.old) (vec_capacity other.old)) < max 1 (length base.now ^ exponent))) }
{
    list.clear();
    push(list, Term::constant(Rat::whole(1)))?;
    for turn in 0..exponent {
        product(base, list, other, spare)?;
        swap(list, other);
    }
    Ok(())
}
