//! Products of two terms.
ghost use Rattle.std.specs.Prelude.{◌≡◌, ◌≢◌, ◌↔◌, ◌*◌, ◌/◌, pos, ◌<◌, ◌≤◌, ◌^◌, ◌⊎◌, IsErr, IfOk, IfErr, MatchOption, [], ◌∷◌};
ghost use Rattle.calc_algebra.specs.Clean.{IsClean};
ghost use Rattle.calc_terms.specs.Fractions.{whole_fraction};
ghost use Rattle.calc_terms.specs.Gcd.{gcd as gcd_of};
ghost use Rattle.calc_terms.specs.Rat.{value_of};
ghost use Rattle.calc_algebra.specs.SquareClasses.{Same};
ghost use Rattle.calc_algebra.specs.Surds.{term_times};
ghost use Rattle.rational128.specs.Refusals.{DoesNotFit};
ghost use Rattle.surd_terms.specs.Calculations.{calculation, first_misfit, misfit_of, IsProductMisfit};
ghost use Rattle.surd_terms.specs.Products.{AreSquareFree, IsExtracted, HasRational, undivided};
ghost use Rattle.surd_terms.specs.Terms.{coefficient_of, term_of};

use crate::cancelling::scaled_product;
use crate::term::Term;
use crate::whole::whole_product;
use rational128::{Op, Overflow, gcd, mul};
use square_parts::split;

/// A clean number below this one is square-free.
const SQUARE_FREE_BELOW: u128 = 1_000_000_000_000;

/// The product of two terms, with the square part of the radicand before the root.
pub fn product(a: Term, b: Term) -> Result<Term, Overflow>
    ensures product { IfOk result (λ t. Same (term_of t ∷ []) (term_times (term_of a) (term_of b) ∷ [])) }
    ensures extracted { IfOk result (λ t. IsExtracted (term_of t) (term_times (term_of a) (term_of b))) }

    // With a rational factor it is the product of the coefficients.
    ensures rational { HasRational (term_of a) (term_of b)
        → IfOk result (λ t. term_of t ≡ term_times (term_of a) (term_of b)) }
    ensures refused { HasRational (term_of a) (term_of b)
        → IsErr result ↔ DoesNotFit Op.Mul (term_of a).coefficient (term_of b).coefficient }
    ensures named { HasRational (term_of a) (term_of b)
        → IfErr result (λ e. e ≡ record { op = Op.Mul; a = coefficient_of a; b = coefficient_of b }) }

    ensures overflow { IsProductMisfit (term_of a) (term_of b) (misfit_of result) }
    ensures caused { IfErr result (λ e. DoesNotFit e.op (value_of e.a) (value_of e.b)) }
{
    product_with(a, b, 1)
}

/// The same, where a number is given that is clean. If it is what is left under the root, that need not be divided.
pub fn product_with(a: Term, b: Term, clean: u128) -> Result<Term, Overflow>
    requires { IsClean clean }
    ensures product { IfOk result (λ t. Same (term_of t ∷ []) (term_times (term_of a) (term_of b) ∷ [])) }
    ensures extracted { IfOk result (λ t. IsExtracted (term_of t) (term_times (term_of a) (term_of b))) }

    // With a rational factor it is the product of the coefficients.
    ensures rational { HasRational (term_of a) (term_of b)
        → IfOk result (λ t. term_of t ≡ term_times (term_of a) (term_of b)) }
    ensures refused { HasRational (term_of a) (term_of b)
        → IsErr result ↔ DoesNotFit Op.Mul (term_of a).coefficient (term_of b).coefficient }
    ensures named { HasRational (term_of a) (term_of b)
        → IfErr result (λ e. e ≡ record { op = Op.Mul; a = coefficient_of a; b = coefficient_of b }) }

    ensures overflow { IsProductMisfit (term_of a) (term_of b) (misfit_of result) }
    ensures caused { IfErr result (λ e. DoesNotFit e.op (value_of e.a) (value_of e.b)) }
{
    if a.radicand() == 1 {
        let coefficient = mul(a.coefficient(), b.coefficient())?;
        return Ok(Term::new(coefficient, b.radicand()));
    }
    if b.radicand() == 1 {
        let coefficient = mul(a.coefficient(), b.coefficient())?;
        return Ok(Term::new(coefficient, a.radicand()));
    }
    product_of_roots(a, b, clean)
}

/// The same of two terms with a root.
fn product_of_roots(a: Term, b: Term, clean: u128) -> Result<Term, Overflow>
    requires clean { IsClean clean }
    requires first { (term_of a).radicand ≢ 1 }
    requires second { (term_of b).radicand ≢ 1 }
    ensures product { IfOk result (λ t. Same (term_of t ∷ []) (term_times (term_of a) (term_of b) ∷ [])) }
    ensures extracted { IfOk result (λ t. IsExtracted (term_of t) (term_times (term_of a) (term_of b))) }
    ensures overflow { IsProductMisfit (term_of a) (term_of b) (misfit_of result) }
    ensures caused { IfErr result (λ e. DoesNotFit e.op (value_of e.a) (value_of e.b)) }
{
    let (root, radicand) = square_part(a.radicand(), b.radicand(), clean)?;
    let coefficient = scaled_product(a.coefficient(), b.coefficient(), root)?;
    Ok(Term::new(coefficient, radicand))
}

/// What is left under the root of the product of two terms, before trial division: the product of the radicands over what
/// they share. None where that needs no division, as both are square-free, or has more than 128 bits.
pub fn undivided(a: Term, b: Term) -> Option<u128>
    ensures { let n = undivided (term_of a).radicand (term_of b).radicand in
        MatchOption result (AreSquareFree (term_of a).radicand (term_of b).radicand ⊎ (2 ^ 128 ≤ n)) (λ m. m ≡ n) }
{
    let (r, s) = (a.radicand(), b.radicand());
    if r < SQUARE_FREE_BELOW && s < SQUARE_FREE_BELOW {
        return None;
    }
    let shared = gcd(r, s);
    (r / shared).checked_mul(s / shared)
}

/// root and radicand where r * s = root * root * radicand and the radicand is clean, for clean numbers.
fn square_part(r: u128, s: u128, known: u128) -> Result<(u128, u128), Overflow>
    requires r_positive { 1 ≤ r }
    requires r_fits { r < 2 ^ 127 }
    requires r_clean { IsClean r }
    requires s_positive { 1 ≤ s }
    requires s_fits { s < 2 ^ 127 }
    requires s_clean { IsClean s }
    requires known { IsClean known }
    ensures product { IfOk result (λ p. r * s ≡ p.0 * p.0 * p.1) }
    ensures root_positive { IfOk result (λ p. 1 ≤ p.0) }
    ensures root_fits { IfOk result (λ p. p.0 < 2 ^ 127) }
    ensures clean { IfOk result (λ p. IsClean p.1) }
    ensures fits { IfOk result (λ p. p.1 < 2 ^ 127) }
    ensures overflow { misfit_of result ≡ first_misfit (calculation Op.Mul (whole_fraction (pos (r / gcd_of r s))) (whole_fraction (pos (s / gcd_of r s))) ∷ []) }
    ensures caused { IfErr result (λ e. DoesNotFit e.op (value_of e.a) (value_of e.b)) }
{
    // r * s may not fit where the product without the square of what they share does.
    let shared = gcd(r, s);
    let rest = whole_product(r / shared, s / shared)?;
    if rest == known {
        return Ok((shared, rest));
    }
    if r < SQUARE_FREE_BELOW && s < SQUARE_FREE_BELOW {
        return Ok((shared, rest));
    }
    let (root, radicand) = split(rest);
    Ok((shared * root, radicand))
}
