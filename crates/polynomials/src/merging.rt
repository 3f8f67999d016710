//! A multiple of a polynomial added to another one, by merging two sorted lists.
ghost use Rattle.std.specs.Prelude.{◌≡◌, ◌<◌, ◌≤◌, ◌+◌, ◌∷◌, ◌++◌, ℕ, IfErr, IfOk, OnOk, length, vec_capacity};
ghost use Rattle.polynomials.specs.Polynomials.{HasExponents, HaveExponents, row};
ghost use Rattle.polynomials.specs.Rows.{AreBelow, StartsFrom};
ghost use Rattle.polynomials.specs.Packed.{monomial_of};
ghost use Rattle.polynomials.specs.Terms.{AreTermsOf, IsNormal, polynomial_of, summand_of};
ghost use Rattle.polynomials.specs.Unfits.{IsCaused};

use crate::list::{extend, push, push_nonzero};
use crate::term::Term;
use crate::unfit::Unfit;

/// The sum of a polynomial and a term times another one. No exponent runs over.
pub(crate) fn add_multiple(
    sum: &[Term],
    factor: Term,
    terms: &[Term],
    list: &mut Vec<Term>,
) -> Result<(), Unfit>
    requires sum { IsNormal sum.now }
    requires terms { IsNormal terms.now }
    requires exponents { (d : ℕ) × (e : ℕ) × (d + e < 256) × HasExponents d (monomial_of factor.monomial) × HaveExponents e (polynomial_of terms.now) }
    ensures terms { OnOk result (AreTermsOf (polynomial_of sum.now ++ row (summand_of factor) (polynomial_of terms.now)) list.new.items) }
    ensures exponents { (d : ℕ) → HaveExponents d (polynomial_of sum.now) → HaveExponents d (row (summand_of factor) (polynomial_of terms.now))
        → OnOk result (HaveExponents d (polynomial_of list.new.items)) }
    ensures few { OnOk result (length list.new.items ≤ length sum.now + length terms.now) }
    ensures unfit { IfErr result (IsCaused (vec_capacity list.old < length sum.now + length terms.now)) }
    ensures room { vec_capacity list.old ≤ vec_capacity list.new }
{
    list.clear();
    let mut rest = sum;
    for term in terms {
        let product = factor.times(*term)?;
        rest = copy_below(list, rest, product.monomial)?;
        rest = put(list, rest, product)?;
    }
    extend(list, rest)
}

/// Copies terms as far as their monomials are below one. Tells what is behind them.
fn copy_below<'a>(list: &mut Vec<Term>, terms: &'a [Term], limit: u64) -> Result<&'a [Term], Unfit>
    requires below { AreBelow limit list.old.items }
    ensures copied { IfOk result (λ rest. list.new.items ++ rest.now ≡ list.old.items ++ terms.now) }
    ensures below { OnOk result (AreBelow limit list.new.items) }
    ensures from { IfOk result (λ rest. StartsFrom limit rest.now) }
    ensures unfit { IfErr result (IsCaused (vec_capacity list.old < length list.old.items + length terms.now)) }
    ensures room { vec_capacity list.old ≤ vec_capacity list.new }
{
    for (at, term) in terms.iter().enumerate() {
        if limit <= term.monomial {
            return Ok(&terms[at..]);
        }
        push(list, *term)?;
    }
    Ok(&terms[terms.len()..])
}

/// Puts a term between a list and the terms behind it. Tells what is behind it then.
fn put<'a>(list: &mut Vec<Term>, rest: &'a [Term], term: Term) -> Result<&'a [Term], Unfit>
    requires normal { IsNormal (list.old.items ++ rest.now) }
    requires below { AreBelow term.monomial list.old.items }
    requires from { StartsFrom term.monomial rest.now }
    ensures terms { IfOk result (λ left. AreTermsOf (summand_of term ∷ polynomial_of (list.old.items ++ rest.now)) (list.new.items ++ left.now)) }
    ensures exponents { (d : ℕ) → HaveExponents d (summand_of term ∷ polynomial_of (list.old.items ++ rest.now))
        → IfOk result (λ left. HaveExponents d (polynomial_of (list.new.items ++ left.now))) }
    ensures below { (k : ℕ) → term.monomial < k → OnOk result (AreBelow k list.new.items) }
    ensures few { IfOk result (λ left. length list.new.items + length left.now ≤ length list.old.items + length rest.now + 1) }
    ensures unfit { IfErr result (IsCaused (vec_capacity list.old ≤ length list.old.items)) }
    ensures room { vec_capacity list.old ≤ vec_capacity list.new }
{
    if rest.is_empty() {
        push_nonzero(list, term)?;
        return Ok(rest);
    }
    let next = rest[0];
    if next.monomial == term.monomial {
        push_nonzero(list, next.plus(term)?)?;
        return Ok(&rest[1..]);
    }
    push_nonzero(list, term)?;
    Ok(rest)
}
