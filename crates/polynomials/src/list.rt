//! Lists of terms, whose memory was taken before.
ghost use Rattle.std.specs.Prelude.{◌≡◌, ◌<◌, ◌≤◌, ◌+◌, [], ◌∷◌, ◌++◌, IfErr, OnOk, length, vec_capacity, if◌then◌else◌};
ghost use Rattle.calc_terms.specs.Fractions.{is_zero_fraction};
ghost use Rattle.calc_terms.specs.Rat.{value_of};
ghost use Rattle.polynomials.specs.Unfits.{IsCaused, OfCoefficient};

use crate::term::Term;
use crate::unfit::Unfit;

/// One more term, where there is room for it.
pub(crate) fn push(list: &mut Vec<Term>, term: Term) -> Result<(), Unfit>
    ensures ok { OnOk result (list.new.items ≡ list.old.items ++ term ∷ []) }
    ensures unfit { IfErr result (IsCaused (vec_capacity list.old ≤ length list.old.items)) }
    ensures like { IfErr result (OfCoefficient ⊥) }
    ensures room { vec_capacity list.old ≤ vec_capacity list.new }
{
    if list.len() == list.capacity() {
        return Err(Unfit::Terms);
    }
    list.push(term).unwrap();
    Ok(())
}

/// One more term, where its coefficient is not 0.
pub(crate) fn push_nonzero(list: &mut Vec<Term>, term: Term) -> Result<(), Unfit>
    ensures ok { OnOk result (list.new.items ≡ (if is_zero_fraction (value_of term.coefficient) then list.old.items else list.old.items ++ term ∷ [])) }
    ensures unfit { IfErr result (IsCaused (vec_capacity list.old ≤ length list.old.items)) }
    ensures like { IfErr result (OfCoefficient ⊥) }
    ensures room { vec_capacity list.old ≤ vec_capacity list.new }
{
    if term.coefficient.is_zero() {
        return Ok(());
    }
    push(list, term)
}

/// More terms, where there is room for all.
pub(crate) fn extend(list: &mut Vec<Term>, terms: &[Term]) -> Result<(), Unfit>
    ensures ok { OnOk result (list.new.items ≡ list.old.items ++ terms.now) }
    ensures unfit { IfErr result (IsCaused (vec_capacity list.old < length list.old.items + length terms.now)) }
    ensures room { vec_capacity list.old ≤ vec_capacity list.new }
{
    if list.capacity() - list.len() < terms.len() {
        return Err(Unfit::Terms);
    }
    list.extend_from_slice(terms).unwrap();
    Ok(())
}
