//! Whole numbers as rationals.
ghost use Rattle.std.specs.Prelude.{◌≡◌, ◌↔◌, ◌*◌, ◌<◌, ◌^◌, pos, IsErr, IfOk, IfErr, [], ◌∷◌};
ghost use Rattle.calc_terms.specs.Fractions.{whole_fraction};
ghost use Rattle.calc_terms.specs.Rat.{ratio_of, value_of};
ghost use Rattle.calc_terms.specs.Ratio.{whole as whole_ratio};
ghost use Rattle.rational128.specs.Refusals.{DoesNotFit};
ghost use Rattle.surd_terms.specs.Calculations.{calculation, first_misfit, misfit_of};

use calc_terms::Rat;
use rational128::{Op, Overflow, mul};

/// The whole number n.
pub(crate) fn whole(n: u128) -> Rat
    requires { n < 2 ^ 127 }
    ensures ratio { ratio_of result ≡ whole_ratio (pos n) }
    ensures value { value_of result ≡ whole_fraction (pos n) }
{
    Rat::whole(n as i128)
}

/// m * n, as a product of rationals.
pub(crate) fn whole_product(m: u128, n: u128) -> Result<u128, Overflow>
    requires m_fits { m < 2 ^ 127 }
    requires n_fits { n < 2 ^ 127 }
    ensures product { IfOk result (λ p. p ≡ m * n) }
    ensures fits { IfOk result (λ p. p < 2 ^ 127) }
    ensures refused { IsErr result ↔ DoesNotFit Op.Mul (whole_fraction (pos m)) (whole_fraction (pos n)) }
    ensures overflow { misfit_of result ≡ first_misfit (calculation Op.Mul (whole_fraction (pos m)) (whole_fraction (pos n)) ∷ []) }
    ensures operation { IfErr result (λ e. e.op ≡ Op.Mul) }
    ensures first { IfErr result (λ e. ratio_of e.a ≡ whole_ratio (pos m)) }
    ensures second { IfErr result (λ e. ratio_of e.b ≡ whole_ratio (pos n)) }
{
    let product = mul(whole(m), whole(n))?;
    Ok(product.num().unsigned_abs())
}
