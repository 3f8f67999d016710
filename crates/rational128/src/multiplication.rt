//! Products.
ghost use Rattle.std.specs.Prelude.{◌≡◌, ◌↔◌, IsErr, IfOk, IfErr};
ghost use Rattle.calc_terms.specs.Rat.{value_of};
ghost use Rattle.calc_terms.specs.Fractions.{times};
ghost use Rattle.calc_terms.specs.Fits.{fraction_fits};
ghost use Rattle.rational128.specs.Refusals.{DoesNotFit, Answers};

use crate::divisor::gcd;
use crate::fitting::{divided, product, quotient, signed_product};
use crate::overflow::{Op, Overflow};
use crate::parts::{parts, rational};
use crate::short::short_product;
use calc_terms::Rat;

/// The product in lowest terms.
pub fn mul(a: Rat, b: Rat) -> Result<Rat, Overflow>
    ensures product { IfOk result (λ r. value_of r ≡ times (value_of a) (value_of b)) }
    ensures refused { IsErr result ↔ DoesNotFit Op.Mul (value_of a) (value_of b) }
    ensures named { IfErr result (λ e. e ≡ record { op = Op.Mul; a = a; b = b }) }
{
    match fitted_product(a, b) {
        Some(product) => Ok(product),
        None => Err(Overflow { op: Op::Mul, a, b }),
    }
}

fn fitted_product(a: Rat, b: Rat) -> Option<Rat>
    ensures { Answers result (fraction_fits (times (value_of a) (value_of b))) (times (value_of a) (value_of b)) }
{
    if a.is_short() && b.is_short() {
        return Some(short_product(a, b));
    }
    cancelled_product(a, b)
}

/// The product, with what the numerators share with the denominators divided out first.
fn cancelled_product(a: Rat, b: Rat) -> Option<Rat>
    ensures { Answers result (fraction_fits (times (value_of a) (value_of b))) (times (value_of a) (value_of b)) }
{
    let (a_num, a_den) = parts(a);
    let (b_num, b_den) = parts(b);
    let first = gcd(a_num.unsigned_abs(), b_den);
    let second = gcd(b_num.unsigned_abs(), a_den);
    let num = signed_product(quotient(a_num, first), quotient(b_num, second))?;
    let den = product(divided(a_den, second), divided(b_den, first))?;
    Some(rational(num, den))
}
