//! One more term of a sorted list.
ghost use Rattle.std.specs.Prelude.{◌≡◌, ◌≤◌, ◌⊎◌, ◌∷◌, ◌+◌, ℕ, IfErr, OnOk, drop, insert, length, take, vec_capacity, vec_len, if◌then◌else◌};
ghost use Rattle.calc_terms.specs.Fractions.{is_zero_fraction};
ghost use Rattle.calc_terms.specs.Rat.{value_of};
ghost use Rattle.polynomials.specs.Polynomials.{HaveExponents};
ghost use Rattle.polynomials.specs.Rows.{AreBelow, StartsFrom};
ghost use Rattle.polynomials.specs.Terms.{AreTermsOf, IsNormal, polynomial_of, summand_of};
ghost use Rattle.polynomials.specs.Unfits.{HasMonomial, IsCaused, OfCoefficient};

use crate::list::push_nonzero;
use crate::term::Term;
use crate::unfit::Unfit;

/// One more term, which is added to the one with its monomial.
pub fn insert(list: &mut Vec<Term>, term: Term) -> Result<(), Unfit>
    requires normal { IsNormal list.old.items }
    ensures terms { OnOk result (AreTermsOf (summand_of term ∷ polynomial_of list.old.items) list.new.items) }
    ensures exponents { (d : ℕ) → HaveExponents d (summand_of term ∷ polynomial_of list.old.items)
        → OnOk result (HaveExponents d (polynomial_of list.new.items)) }
    ensures others { (k : ℕ) → OnOk result (HasMonomial k list.new.items → (term.monomial ≡ k) ⊎ HasMonomial k list.old.items) }
    ensures few { OnOk result (length list.new.items ≤ length list.old.items + 1) }
    ensures unfit { IfErr result (IsCaused (vec_capacity list.old ≤ length list.old.items)) }
    ensures like { IfErr result (OfCoefficient (HasMonomial term.monomial list.old.items)) }
    ensures room { vec_capacity list.old ≤ vec_capacity list.new }
{
    let at = place_of(list, term.monomial);
    if at == list.len() {
        return push_nonzero(list, term);
    }
    let other = list[at];
    if other.monomial != term.monomial {
        return insert_at(list, at, term);
    }
    let total = other.plus(term)?;
    list.remove(at);
    insert_at(list, at, total)
}

/// Where a monomial stands or belongs, sought from the end.
fn place_of(terms: &[Term], monomial: u64) -> usize
    requires normal { IsNormal terms.now }
    ensures within { result ≤ length terms.now }
    ensures below { AreBelow monomial (take result terms.now) }
    ensures from { StartsFrom monomial (drop result terms.now) }
{
    let mut at = terms.len();
    while 0 < at {
        if terms[at - 1].monomial < monomial {
            return at;
        }
        at -= 1;
    }
    0
}

/// One more term at a place, where its coefficient is not 0.
fn insert_at(list: &mut Vec<Term>, at: usize, term: Term) -> Result<(), Unfit>
    requires within { at ≤ vec_len list.old }
    ensures ok { OnOk result (list.new.items ≡ (if is_zero_fraction (value_of term.coefficient) then list.old.items else insert list.old.items at term)) }
    ensures unfit { IfErr result (IsCaused (vec_capacity list.old ≤ length list.old.items)) }
    ensures like { IfErr result (OfCoefficient ⊥) }
    ensures room { vec_capacity list.old ≤ vec_capacity list.new }
{
    if term.coefficient.is_zero() {
        return Ok(());
    }
    if list.len() == list.capacity() {
        return Err(Unfit::Terms);
    }
    list.insert(at, term).unwrap();
    Ok(())
}
