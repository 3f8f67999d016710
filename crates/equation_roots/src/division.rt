//! Exact division by a linear factor.
ghost use Rattle.std.specs.Prelude.{◌≡◌, ◌≢◌, ◌<◌, ◌≤◌, ◌^◌, ℤ, pos, ◌+ℤ◌, ◌*ℤ◌, neg_ℤ, nat_abs, List, length, IfOk, IfErr, IfSome, MatchOption, false};
ghost use Rattle.equation_roots.specs.Refusals.{Overflows};
ghost use Rattle.equation_roots.specs.Told.{wholes_of};
ghost use Rattle.equation_roots.specs.Wholes.{IsCandidate, fractions, linear_product, read};
ghost use Rattle.equation_roots.specs.Coefficients.{value};
ghost use Rattle.calc_terms.specs.Fractions.{lowest, zero_fraction};

use crate::operations::{exact_quotient, opposite, product, sum};
use crate::wholes::Wholes;
use rational128::Overflow;

/// The quotient by vX - u, begun at the end from which no entry grows above the sum of the coefficients; none where a rest comes.
pub(crate) fn divided(left: &Wholes, u: i128, v: i128) -> Result<Option<Wholes>, Overflow>
    requires some { 3 ≤ length (wholes_of left.now) }
    requires candidate { IsCandidate u v }
    ensures exact { IfOk result (λ o. MatchOption o (value (fractions (wholes_of left.now)) (lowest u (nat_abs v)) ≢ zero_fraction)
        (λ q. linear_product v (neg_ℤ u) (pos 0) (wholes_of q) (pos 0) ≡ wholes_of left.now)) }
    ensures overflow { IfErr result Overflows }
{
    if u.unsigned_abs() < v.unsigned_abs() {
        divided_from(left, true, opposite(u), v)
    } else {
        divided_from(left, false, v, opposite(u))
    }
}

/// The quotient by aX + b as it is read.
fn divided_from(p: &Wholes, backward: bool, a: i128, b: i128) -> Result<Option<Wholes>, Overflow>
    requires some { 3 ≤ length (wholes_of p.now) }
    requires first { nat_abs a < 2 ^ 127 }
    requires second { nat_abs b < 2 ^ 127 }
    requires not_zero { b ≢ pos 0 }
    ensures exact { IfOk result (λ o. MatchOption o
        ((qs : List ℤ) → linear_product a b (pos 0) qs (pos 0) ≢ read backward (wholes_of p.now))
        (λ q. linear_product a b (pos 0) (read backward (wholes_of q)) (pos 0) ≡ read backward (wholes_of p.now))) }
    ensures overflow { IfErr result Overflows }
{
    if !may_divide(p, backward, a, b)? {
        return Ok(None);
    }
    match quotient(p, backward, a, b)? {
        Some(quotient) => Ok(Some(quotient.copied(backward))),
        None => Ok(None),
    }
}

/// Whether aX + b may divide the coefficients as they are read: its second step leaves no rest.
fn may_divide(p: &Wholes, backward: bool, a: i128, b: i128) -> Result<bool, Overflow>
    requires some { 3 ≤ length (wholes_of p.now) }
    requires first { nat_abs a < 2 ^ 127 }
    requires second { nat_abs b < 2 ^ 127 }
    requires not_zero { b ≢ pos 0 }
    ensures none { IfOk result (λ d. d ≡ false → (qs : List ℤ) → linear_product a b (pos 0) qs (pos 0) ≢ read backward (wholes_of p.now)) }
    ensures overflow { IfErr result Overflows }
{
    match next_coefficient(p.entry(backward, 0), a, 0, b)? {
        Some(first) => {
            let second = next_coefficient(p.entry(backward, 1), a, first, b)?;
            Ok(second.is_some())
        }
        None => Ok(false),
    }
}

/// The quotient by aX + b of the coefficients as they are read, begun at the first, which b divides; none where a rest comes.
fn quotient(p: &Wholes, backward: bool, a: i128, b: i128) -> Result<Option<Wholes>, Overflow>
    requires some { 1 ≤ length (wholes_of p.now) }
    requires first { nat_abs a < 2 ^ 127 }
    requires second { nat_abs b < 2 ^ 127 }
    requires not_zero { b ≢ pos 0 }
    ensures exact { IfOk result (λ o. MatchOption o
        ((qs : List ℤ) → linear_product a b (pos 0) qs (pos 0) ≢ read backward (wholes_of p.now))
        (λ q. linear_product a b (pos 0) (wholes_of q) (pos 0) ≡ read backward (wholes_of p.now))) }
    ensures overflow { IfErr result Overflows }
{
    let degree = p.len() - 1;
    let mut quotient = Wholes::new();
    let mut last = 0;
    for at in 0..degree {
        match next_coefficient(p.entry(backward, at), a, last, b)? {
            Some(next) => {
                quotient.push(next);
                last = next;
            }
            None => return Ok(None),
        }
    }
    if product(a, last)? == p.entry(backward, degree) {
        Ok(Some(quotient))
    } else {
        Ok(None)
    }
}

/// What b is multiplied by, so that this and a times the last coefficient give the entry.
fn next_coefficient(entry: i128, a: i128, last: i128, b: i128) -> Result<Option<i128>, Overflow>
    requires entry { nat_abs entry < 2 ^ 127 }
    requires first { nat_abs a < 2 ^ 127 }
    requires last { nat_abs last < 2 ^ 127 }
    requires second { nat_abs b < 2 ^ 127 }
    requires not_zero { b ≢ pos 0 }
    ensures exact { IfOk result (λ o. MatchOption o ((x : ℤ) → a *ℤ last +ℤ b *ℤ x ≢ entry) (λ x. a *ℤ last +ℤ b *ℤ x ≡ entry)) }
    ensures fits { IfOk result (λ o. IfSome o (λ x. nat_abs x < 2 ^ 127)) }
    ensures overflow { IfErr result Overflows }
{
    let carried = product(a, last)?;
    let rest = sum(entry, opposite(carried))?;
    Ok(exact_quotient(rest, b))
}
