//! How large exponents are.
ghost use Rattle.polynomials.specs.Packed.{monomial_of};
ghost use Rattle.polynomials.specs.Polynomials.{HasExponents, HaveExponents};
ghost use Rattle.polynomials.specs.Terms.{polynomial_of};

use crate::term::Term;

/// The greatest exponent.
pub fn degree(terms: &[Term]) -> u8
    ensures { HaveExponents result (polynomial_of terms.now) }
{
    let mut degree: u8 = 0;
    for term in terms {
        degree = degree.max(greatest_exponent(term.monomial));
    }
    degree
}

/// The greatest exponent of a packed monomial.
fn greatest_exponent(monomial: u64) -> u8
    ensures { HasExponents result (monomial_of monomial) }
{
    let mut greatest: u8 = 0;
    let mut rest = monomial;
    for place in 0..8u32 {
        greatest = greatest.max((rest % 256) as u8);
        rest /= 256;
    }
    greatest
}
