//! Sums.
ghost use Rattle.std.specs.Prelude.{◌≡◌, ◌↔◌, IsErr, IfOk, IfErr};
ghost use Rattle.calc_terms.specs.Rat.{value_of};
ghost use Rattle.calc_terms.specs.Fractions.{plus};
ghost use Rattle.calc_terms.specs.Fits.{sum_fits};
ghost use Rattle.rational128.specs.Refusals.{DoesNotFit, Answers};

use crate::divisor::gcd;
use crate::fitting::{divided, multiple, product, quotient, sum};
use crate::overflow::{Op, Overflow};
use crate::parts::{parts, rational};
use crate::short::short_sum;
use calc_terms::Rat;

/// The sum in lowest terms.
pub fn add(a: Rat, b: Rat) -> Result<Rat, Overflow>
    ensures sum { IfOk result (λ r. value_of r ≡ plus (value_of a) (value_of b)) }
    ensures refused { IsErr result ↔ DoesNotFit Op.Add (value_of a) (value_of b) }
    ensures named { IfErr result (λ e. e ≡ record { op = Op.Add; a = a; b = b }) }
{
    match fitted_sum(a, b) {
        Some(sum) => Ok(sum),
        None => Err(Overflow { op: Op::Add, a, b }),
    }
}

fn fitted_sum(a: Rat, b: Rat) -> Option<Rat>
    ensures { Answers result (sum_fits (value_of a) (value_of b)) (plus (value_of a) (value_of b)) }
{
    if a.is_short() && b.is_short() {
        return Some(short_sum(a, b));
    }
    common_sum(a, b)
}

/// The sum over the least common denominator.
fn common_sum(a: Rat, b: Rat) -> Option<Rat>
    ensures { Answers result (sum_fits (value_of a) (value_of b)) (plus (value_of a) (value_of b)) }
{
    let (a_num, a_den) = parts(a);
    let (b_num, b_den) = parts(b);
    let shared = gcd(a_den, b_den);
    let b_rest = divided(b_den, shared);
    let first = multiple(a_num, b_rest)?;
    let second = multiple(b_num, divided(a_den, shared))?;
    let num = sum(first, second)?;
    // What the numerator shares with the common denominator, it shares with this factor.
    let divisor = gcd(num.unsigned_abs(), shared);
    let den = product(divided(a_den, divisor), b_rest)?;
    Some(rational(quotient(num, divisor), den))
}
