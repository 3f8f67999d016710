//! Sums of two terms.
ghost use Rattle.std.specs.Prelude.{◌≡◌, ◌↔◌, ◌<◌, ◌^◌, IsErr, IfOk, IfErr, false};
ghost use Rattle.calc_algebra.specs.Clean.{IsClean};
ghost use Rattle.calc_terms.specs.Rat.{value_of};
ghost use Rattle.calc_algebra.specs.SquareClasses.{are_alike};
ghost use Rattle.calc_algebra.specs.Surds.{term};
ghost use Rattle.rational128.specs.Refusals.{DoesNotFit};
ghost use Rattle.surd_terms.specs.Calculations.{first_misfit, misfit_of, joining_calculations};
ghost use Rattle.surd_terms.specs.Sums.{Joins, IfTerm, IsSum, ComesTo};
ghost use Rattle.surd_terms.specs.Terms.{coefficient_of, term_of};

use crate::term::Term;
use crate::whole::whole;
use calc_terms::Rat;
use rational128::{Op, Overflow, add, mul};
use square_parts::alike;

/// What the sum of two terms comes to.
#[derive(Clone, Copy, Debug)]
pub enum Joined {
    /// Radicands of two square classes: the terms stay as they are.
    Apart,
    /// The terms cancel.
    Zero,
    /// One term.
    Term(Term),
}

/// The sum of two terms of one square class. With r = g·α·α, s = g·β·β and g the greatest common
/// divisor, c·√r + d·√s is (c·α + d·β)·√g.
pub fn join(a: Term, b: Term) -> Result<Joined, Overflow>
    ensures joins { IfOk result (λ joined. Joins joined (term_of a) (term_of b)) }
    ensures sum { IfOk result (λ joined. IfTerm joined (λ t. IsSum t (term_of a) (term_of b))) }
    ensures apart { are_alike (term_of a).radicand (term_of b).radicand ≡ false → result ≡ Ok Joined.Apart }

    // With one radicand it is the sum of the coefficients.
    ensures refused { (term_of a).radicand ≡ (term_of b).radicand
        → IsErr result ↔ DoesNotFit Op.Add (term_of a).coefficient (term_of b).coefficient }
    ensures named { (term_of a).radicand ≡ (term_of b).radicand
        → IfErr result (λ e. e ≡ record { op = Op.Add; a = coefficient_of a; b = coefficient_of b }) }

    ensures overflow { misfit_of result ≡ first_misfit (joining_calculations (term_of a) (term_of b)) }
    ensures caused { IfErr result (λ e. DoesNotFit e.op (value_of e.a) (value_of e.b)) }
{
    if a.radicand() == b.radicand() {
        let coefficient = add(a.coefficient(), b.coefficient())?;
        return Ok(multiple(coefficient, a.radicand()));
    }
    join_two(a, b)
}

/// The same by way of what the radicands share.
fn join_two(a: Term, b: Term) -> Result<Joined, Overflow>
    ensures joins { IfOk result (λ joined. Joins joined (term_of a) (term_of b)) }
    ensures sum { IfOk result (λ joined. IfTerm joined (λ t. IsSum t (term_of a) (term_of b))) }
    ensures apart { are_alike (term_of a).radicand (term_of b).radicand ≡ false → result ≡ Ok Joined.Apart }
    ensures overflow { misfit_of result ≡ first_misfit (joining_calculations (term_of a) (term_of b)) }
    ensures caused { IfErr result (λ e. DoesNotFit e.op (value_of e.a) (value_of e.b)) }
{
    let Some((shared, first, second)) = alike(a.radicand(), b.radicand()) else {
        return Ok(Joined::Apart);
    };
    let left = mul(a.coefficient(), whole(first))?;
    let right = mul(b.coefficient(), whole(second))?;
    Ok(multiple(add(left, right)?, shared))
}

/// c·√radicand, where c may be 0.
fn multiple(c: Rat, radicand: u128) -> Joined
    requires clean { IsClean radicand }
    requires fits { radicand < 2 ^ 127 }
    ensures { ComesTo result (term (value_of c) radicand) }
{
    if c.num() == 0 {
        Joined::Zero
    } else {
        Joined::Term(Term::new(c, radicand))
    }
}
