//! Powers of sums of two terms, by binomial coefficients.
ghost use Rattle.std.specs.Prelude.{◌<◌, ◌≤◌, ◌+◌, ◌*◌, [], ◌∷◌, ℕ, IfErr, OnOk, length, min, vec_capacity};
ghost use Rattle.polynomials.specs.Binomials.{ArePowers};
ghost use Rattle.polynomials.specs.Packed.{monomial_of};
ghost use Rattle.polynomials.specs.Polynomials.{HasExponents, HaveExponents, raised};
ghost use Rattle.polynomials.specs.Terms.{AreTermsOf, polynomial_of, summand_of};
ghost use Rattle.polynomials.specs.Unfits.{IsCaused};

use crate::insertion::insert;
use crate::list::push;
use crate::term::Term;
use crate::unfit::Unfit;
use calc_terms::Rat;

/// The greatest exponent whose binomial coefficients are made in 64 bits.
pub(crate) const GREATEST_EXPONENT: u8 = 32;

/// The sum of two terms to a power. No exponent runs over. The powers of each of them are listed first.
pub(crate) fn binomial_power(
    first: Term,
    second: Term,
    exponent: u8,
    list: &mut Vec<Term>,
    firsts: &mut Vec<Term>,
    seconds: &mut Vec<Term>,
) -> Result<(), Unfit>
    requires small { exponent ≤ 32 }
    requires exponents { (d : ℕ) × (exponent * d < 256) × HasExponents d (monomial_of first.monomial) × HasExponents d (monomial_of second.monomial) }
    ensures terms { OnOk result (AreTermsOf (raised (summand_of first ∷ summand_of second ∷ []) exponent) list.new.items) }
    ensures exponents { (d : ℕ) → HasExponents d (monomial_of first.monomial) → HasExponents d (monomial_of second.monomial)
        → OnOk result (HaveExponents (exponent * d) (polynomial_of list.new.items)) }
    ensures few { OnOk result (length list.new.items ≤ exponent + 1) }
    ensures unfit { IfErr result (IsCaused (min (vec_capacity list.old) (min (vec_capacity firsts.old) (vec_capacity seconds.old)) ≤ exponent)) }
{
    list_powers(first, exponent, firsts)?;
    list_powers(second, exponent, seconds)?;
    list.clear();
    let mut choices: u64 = 1;
    for k in 0..exponent + 1 {
        let product = firsts[usize::from(exponent - k)].times(seconds[usize::from(k)])?;
        let count = Term::constant(Rat::whole(i128::from(choices)));
        insert(list, count.times(product)?)?;
        choices = choices * u64::from(exponent - k) / (u64::from(k) + 1);
    }
    Ok(())
}

/// Lists the powers of a term. No exponent runs over.
fn list_powers(term: Term, greatest: u8, powers: &mut Vec<Term>) -> Result<(), Unfit>
    requires small { greatest ≤ 32 }
    requires exponents { (d : ℕ) × (greatest * d < 256) × HasExponents d (monomial_of term.monomial) }
    ensures powers { OnOk result (ArePowers (summand_of term) greatest powers.new.items) }
    ensures unfit { IfErr result (IsCaused (vec_capacity powers.old ≤ greatest)) }
{
    powers.clear();
    push(powers, Term::constant(Rat::whole(1)))?;
    for k in 0..greatest {
        let last = powers[usize::from(k)];
        push(powers, term.times(last)?)?;
    }
    Ok(())
}
