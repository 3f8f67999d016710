//! What is left of degree at most 2, by formula.
ghost use Rattle.std.specs.Prelude.{◌≡◌, ◌<◌, ◌≤◌, ◌+◌, ◌^◌, pos, ◌<ℤ◌, ◌*ℤ◌, nat_abs, length, slice_index_or, IsErr, IfOk, IfErr};
ghost use Rattle.equation_roots.specs.Rationals.{rationals_of};
ghost use Rattle.equation_roots.specs.Refusals.{Overflows};
ghost use Rattle.equation_roots.specs.Rests.{rest_of};
ghost use Rattle.equation_roots.specs.Sizes.{mass_of};
ghost use Rattle.equation_roots.specs.Squares.{Finishes, IsCompleted};
ghost use Rattle.equation_roots.specs.Told.{wholes_of};
ghost use Rattle.equation_roots.specs.Wholes.{leading};

use crate::operations::{exact_quotient, is_negative, opposite, product, sum, whole};
use crate::rationals::Rationals;
use crate::rest::{Quadratic, Rest, RootPair};
use crate::wholes::Wholes;
use calc_terms::Rat;
use rational128::Overflow;
use square_parts::split;

/// The roots of a polynomial of degree at most 2, put among the others where they are rational.
pub(crate) fn finish(found: &mut Rationals, left: &Wholes) -> Result<Rest, Overflow>
    requires some { 1 ≤ length (wholes_of left.now) }
    requires few { length (wholes_of left.now) ≤ 3 }
    requires room { length (rationals_of found.old) + length (wholes_of left.now) ≤ 33 }
    requires positive { pos 0 <ℤ leading (wholes_of left.now) }
    ensures finishes { IfOk result (λ rest. Finishes (rationals_of found.old) (wholes_of left.now) (rationals_of found.new) (rest_of rest)) }
    ensures overflow { IfErr result Overflows }
    ensures bits { IsErr result → mass_of (wholes_of left.now) ≤ 2 ^ 62 → ⊥ }
{
    if left.len() == 1 {
        return Ok(Rest::Nothing);
    }
    if left.len() == 2 {
        found.insert(Rat::ratio(opposite(left.get(0)), left.get(1)));
        return Ok(Rest::Nothing);
    }
    let square = completed(left.get(2), left.get(1), left.get(0))?;
    by_square(found, left, square)
}

/// A polynomial of degree 2 over its leading coefficient, as (X + half/den)^2 - under/den^2.
#[derive(Clone, Copy)]
struct Square {
    half: i128,
    den: i128,
    under: i128,
}

/// The square of aX^2 + bX + c completed.
fn completed(a: i128, b: i128, c: i128) -> Result<Square, Overflow>
    requires first { nat_abs a < 2 ^ 127 }
    requires second { nat_abs b < 2 ^ 127 }
    requires third { nat_abs c < 2 ^ 127 }
    requires positive { pos 0 <ℤ a }
    ensures completed { IfOk result (λ s. IsCompleted a b c s.half s.den s.under) }
    ensures overflow { IfErr result Overflows }
    ensures bits { IsErr result → nat_abs a ≤ 2 ^ 62 → nat_abs b ≤ 2 ^ 62 → nat_abs c ≤ 2 ^ 62 → ⊥ }
{
    match exact_quotient(b, 2) {
        Some(half) => {
            let square = product(half, half)?;
            let others = product(a, c)?;
            let under = sum(square, opposite(others))?;
            Ok(Square {
                half,
                den: a,
                under,
            })
        }
        None => {
            let den = product(2, a)?;
            let square = product(b, b)?;
            let others = product(a, c)?;
            let four_times = product(4, others)?;
            let under = sum(square, opposite(four_times))?;
            Ok(Square {
                half: b,
                den,
                under,
            })
        }
    }
}

/// The roots of a polynomial of degree 2 by its square.
fn by_square(found: &mut Rationals, left: &Wholes, square: Square) -> Result<Rest, Overflow>
    requires three { length (wholes_of left.now) ≡ 3 }
    requires room { length (rationals_of found.old) ≤ 30 }
    requires positive { pos 0 <ℤ slice_index_or (wholes_of left.now) 2 (pos 0) }
    requires completed { IsCompleted (slice_index_or (wholes_of left.now) 2 (pos 0)) (slice_index_or (wholes_of left.now) 1 (pos 0))
        (slice_index_or (wholes_of left.now) 0 (pos 0)) square.half square.den square.under }
    ensures finishes { IfOk result (λ rest. Finishes (rationals_of found.old) (wholes_of left.now) (rationals_of found.new) (rest_of rest)) }
    ensures overflow { IfErr result Overflows }
    ensures bits { IsErr result → mass_of (wholes_of left.now) ≤ 2 ^ 62 → ⊥ }
{
    if is_negative(square.under) {
        return Ok(Rest::Rootless(Quadratic {
            half: Rat::ratio(square.half, square.den),
            constant: Rat::ratio(left.get(0), left.get(2)),
        }));
    }
    let middle = Rat::ratio(opposite(square.half), square.den);
    if square.under == 0 {
        found.insert(middle);
        found.insert(middle);
        return Ok(Rest::Nothing);
    }
    let (outside, radicand) = split(square.under.unsigned_abs());
    if radicand == 1 {
        return two_rationals(found, left, square, whole(outside));
    }
    let beside = Rat::ratio(whole(outside), square.den);
    Ok(Rest::Pair(RootPair::new(middle, beside, radicand)))
}

/// The roots of a polynomial of degree 2 whose discriminant is the square of a whole number.
fn two_rationals(
    found: &mut Rationals,
    left: &Wholes,
    square: Square,
    outside: i128,
) -> Result<Rest, Overflow>
    requires three { length (wholes_of left.now) ≡ 3 }
    requires room { length (rationals_of found.old) ≤ 30 }
    requires positive { pos 0 <ℤ slice_index_or (wholes_of left.now) 2 (pos 0) }
    requires completed { IsCompleted (slice_index_or (wholes_of left.now) 2 (pos 0)) (slice_index_or (wholes_of left.now) 1 (pos 0))
        (slice_index_or (wholes_of left.now) 0 (pos 0)) square.half square.den square.under }
    requires outside { nat_abs outside < 2 ^ 127 }
    requires square { square.under ≡ outside *ℤ outside }
    ensures finishes { IfOk result (λ rest. Finishes (rationals_of found.old) (wholes_of left.now) (rationals_of found.new) (rest_of rest)) }
    ensures overflow { IfErr result Overflows }
    ensures bits { IsErr result → mass_of (wholes_of left.now) ≤ 2 ^ 62 → ⊥ }
{
    let middle = opposite(square.half);
    let lower = sum(middle, opposite(outside))?;
    let upper = sum(middle, outside)?;
    found.insert(Rat::ratio(lower, square.den));
    found.insert(Rat::ratio(upper, square.den));
    Ok(Rest::Nothing)
}
