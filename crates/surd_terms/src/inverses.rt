//! Inverses of a term and of the sum of two.
ghost use Rattle.std.specs.Prelude.{◌≡◌, ◌↔◌, ◌<◌, ◌^◌, pos, IsErr, IsOk, IfOk, IfErr, [], ◌∷◌, false};
ghost use Rattle.calc_terms.specs.Fractions.{whole_fraction, inverse as inverse_of_fraction};
ghost use Rattle.calc_terms.specs.Rat.{ratio_of, value_of};
ghost use Rattle.calc_terms.specs.Ratio.{whole as whole_ratio};
ghost use Rattle.calc_algebra.specs.SquareClasses.{are_alike, Inverts};
ghost use Rattle.rational128.specs.Refusals.{DoesNotFit};
ghost use Rattle.surd_terms.specs.Calculations.{first_misfit, misfit_of, inverse_calculations, square_calculations, inverse_of_sum_calculations};
ghost use Rattle.surd_terms.specs.Inverses.{square_of, inverse_of, first_of_inverse, second_of_inverse};
ghost use Rattle.surd_terms.specs.Terms.{coefficient_of, term_of};

use crate::term::Term;
use crate::whole::whole;
use calc_terms::Rat;
use rational128::{Op, Overflow, add, invert, mul, neg};

/// 1/(c·√r), which is √r/(c·r).
pub fn inverse(a: Term) -> Result<Term, Overflow>
    ensures inverts { IfOk result (λ t. Inverts (term_of t ∷ []) (term_of a ∷ [])) }
    ensures value { IfOk result (λ t. term_of t ≡ inverse_of (term_of a)) }
    ensures refused { IsErr result ↔ DoesNotFit Op.Mul (term_of a).coefficient (whole_fraction (pos (term_of a).radicand)) }
    ensures rational { (term_of a).radicand ≡ 1 → IsOk result }
    ensures overflow { misfit_of result ≡ first_misfit (inverse_calculations (term_of a)) }
    ensures operation { IfErr result (λ e. e.op ≡ Op.Mul) }
    ensures first { IfErr result (λ e. e.a ≡ coefficient_of a) }
    ensures second { IfErr result (λ e. ratio_of e.b ≡ whole_ratio (pos (term_of a).radicand)) }
{
    let product = mul(a.coefficient(), whole(a.radicand()))?;
    Ok(Term::new(invert(product), a.radicand()))
}

/// 1/(c·√r + d·√s), which is (c·√r - d·√s)/(c·c·r - d·d·s), as its two terms.
pub fn inverse_of_sum(a: Term, b: Term) -> Result<(Term, Term), Overflow>
    requires { are_alike (term_of a).radicand (term_of b).radicand ≡ false }
    ensures inverts { IfOk result (λ p. Inverts (term_of p.0 ∷ term_of p.1 ∷ []) (term_of a ∷ term_of b ∷ [])) }
    ensures first { IfOk result (λ p. term_of p.0 ≡ first_of_inverse (term_of a) (term_of b)) }
    ensures second { IfOk result (λ p. term_of p.1 ≡ second_of_inverse (term_of a) (term_of b)) }
    ensures overflow { misfit_of result ≡ first_misfit (inverse_of_sum_calculations (term_of a) (term_of b)) }
    ensures caused { IfErr result (λ e. DoesNotFit e.op (value_of e.a) (value_of e.b)) }
{
    let difference = add(square(a)?, neg(square(b)?))?;
    let scale = invert(difference);
    let first = mul(a.coefficient(), scale)?;
    let second = mul(neg(b.coefficient()), scale)?;
    Ok((
        Term::new(first, a.radicand()),
        Term::new(second, b.radicand()),
    ))
}

/// The square of a term, which is rational.
fn square(a: Term) -> Result<Rat, Overflow>
    ensures value { IfOk result (λ q. value_of q ≡ square_of (term_of a)) }
    ensures overflow { misfit_of result ≡ first_misfit (square_calculations (term_of a)) }
    ensures caused { IfErr result (λ e. DoesNotFit e.op (value_of e.a) (value_of e.b)) }
{
    let coefficient = a.coefficient();
    mul(mul(coefficient, coefficient)?, whole(a.radicand()))
}
