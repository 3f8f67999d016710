//! Square roots of rationals.
ghost use Rattle.std.specs.Prelude.{◌≡◌, ◌↔◌, pos, ◌<ℤ◌, IsErr, IfOk, IfErr, [], ◌∷◌};
ghost use Rattle.calc_terms.specs.Fractions.{whole_fraction};
ghost use Rattle.calc_algebra.specs.Meanings.{IsRootOf};
ghost use Rattle.calc_terms.specs.Rat.{ratio_of};
ghost use Rattle.calc_terms.specs.Ratio.{whole as whole_ratio};
ghost use Rattle.rational128.specs.Refusals.{DoesNotFit};
ghost use Rattle.surd_terms.specs.Calculations.{first_misfit, misfit_of, root_calculations};
ghost use Rattle.surd_terms.specs.SquareRoots.{IsRootTerm};
ghost use Rattle.surd_terms.specs.Terms.{term_of};

use crate::term::Term;
use crate::whole::whole_product;
use calc_terms::Rat;
use rational128::{Op, Overflow};
use square_parts::split;

/// √(p/q), which is √(p·q)/q, with the square part of p·q before the root.
pub fn square_root(q: Rat) -> Result<Term, Overflow>
    requires { pos 0 <ℤ (ratio_of q).num }
    ensures root { IfOk result (λ t. IsRootOf (ratio_of q).num (ratio_of q).den (term_of t ∷ [])) }
    ensures extracted { IfOk result (λ t. IsRootTerm (term_of t) (ratio_of q)) }
    ensures refused { IsErr result ↔ DoesNotFit Op.Mul (whole_fraction (ratio_of q).num) (whole_fraction (pos (ratio_of q).den)) }
    ensures overflow { misfit_of result ≡ first_misfit (root_calculations (ratio_of q)) }
    ensures operation { IfErr result (λ e. e.op ≡ Op.Mul) }
    ensures first { IfErr result (λ e. ratio_of e.a ≡ whole_ratio (ratio_of q).num) }
    ensures second { IfErr result (λ e. ratio_of e.b ≡ whole_ratio (pos (ratio_of q).den)) }
{
    let product = whole_product(q.num().unsigned_abs(), q.den().unsigned_abs())?;
    let (root, radicand) = split(product);
    Ok(Term::new(Rat::ratio(root as i128, q.den()), radicand))
}
