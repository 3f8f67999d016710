//! All real roots of a polynomial.
ghost use Rattle.std.specs.Prelude.{◌≤◌, length, IfOk};
ghost use Rattle.equation_roots.specs.Coefficients.{HasLeading};
ghost use Rattle.equation_roots.specs.Factorings.{IsBeyond, IsFactoring};
ghost use Rattle.equation_roots.specs.Faults.{IfDegree, IfOverflow};
ghost use Rattle.equation_roots.specs.Refusals.{Overflows};
ghost use Rattle.equation_roots.specs.Roots.{rationals_in, rest_in};
ghost use Rattle.equation_roots.specs.Sizes.{HasFewBits};
ghost use Rattle.equation_roots.specs.Told.{dense_in};

use crate::fault::RootFault;
use crate::primitive::primitive;
use crate::quadratic::finish;
use crate::rationals::Rationals;
use crate::told::Roots;
use crate::trial::{divide_out_small, divide_out_zeros};
use calc_terms::Rat;

/// All real roots of the polynomial of these coefficients, from that of the power 0 on.
pub fn roots(coefficients: &[Rat]) -> Result<Roots, RootFault>
    requires limit { length coefficients.now ≤ 33 }
    requires leading { HasLeading (dense_in coefficients.now) }
    ensures factored { IfOk result (λ roots. IsFactoring (dense_in coefficients.now) (rationals_in roots) (rest_in roots)) }
    ensures degree { IfDegree result (IsBeyond (dense_in coefficients.now)) }
    ensures low { length coefficients.now ≤ 3 → IfDegree result ⊥ }
    ensures overflow { IfOverflow result Overflows }
    ensures bits { length coefficients.now ≤ 3 → HasFewBits (dense_in coefficients.now) → IfOverflow result (λ _. ⊥) }
{
    let mut left = primitive(coefficients)?;
    let mut rationals = Rationals::new();
    divide_out_zeros(&mut rationals, &mut left);
    if 3 < left.len() {
        divide_out_small(&mut rationals, &mut left)?;
    }
    if 3 < left.len() {
        return Err(RootFault::Degree);
    }
    let rest = finish(&mut rationals, &left)?;
    Ok(Roots::new(rationals, rest))
}
