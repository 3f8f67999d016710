//! Powers of Numbers.
ghost use Rattle.std.specs.Prelude.{ℕ, List, ◌+◌, ◌≡◌, ◌∷◌, ◌≤◌, ◌<◌, ◌≤ℤ◌, pos, nat_abs, [], true, false, IsTrue, IfOk, IfErr, OnOk, ◌*◌, ◌/◌};
ghost use Rattle.calc_terms.specs.Fits.{pow_op};
ghost use Rattle.calc_terms.specs.Fractions.{Fraction, whole_fraction};
ghost use Rattle.calc_algebra.specs.Numbers.{is_number, value};
ghost use Rattle.calc_bits.specs.Bounds.{IsNoLargerThanPower};
ghost use Rattle.calc_bits.specs.Masses.{IsHeld};
ghost use Rattle.calc_measures.specs.PlainValues.{calculated};
ghost use Rattle.calc_algebra.specs.Surds.{surd_times, surd_power};
ghost use Rattle.calc_room.specs.Needs.{power_need};
ghost use Rattle.calc_room.specs.Spans.{SpansTree};
ghost use Rattle.calc_terms.specs.Trees.{num, is_num, size};
ghost use Rattle.node_pool.specs.State.{free_of};
ghost use Rattle.number_forms.specs.Answers.{IsNumberOf, AnswersRationals, IsNumberOver, IsPowerOver};
ghost use Rattle.number_forms.specs.Overflows.{SquareOverflows, PowerOverflows};
ghost use Rattle.number_forms.specs.Rooms.{LacksRoom, joining_need, raising_need};
ghost use Rattle.number_forms.specs.Values.{number_tree};
ghost use Rattle.number_forms.specs.Safety.{IsSafe};
ghost use Rattle.tree_handles.specs.Causes.{IsCaused};
ghost use Rattle.tree_handles.specs.Handed.{tree_of, IsHanded, Gives, KeepsFront};
ghost use Rattle.tree_handles.specs.Faults.{Faults, OfOverflow};
ghost use Rattle.tree_handles.specs.Roots.{without_root};
ghost use Rattle.tree_handles.specs.Standing.{Stands, forest, KeepsRefusals};

use crate::multiplying::product_of;
use crate::placing::{has_room, place_terms};
use crate::rationals::take_rational;
use crate::roots;
use crate::squaring::square_of;
use crate::values::{TermList, cube_values, square_values};
use node_pool::Pool;
use rational128::pow;
use tree_handles::{Handle, NumberFault, move_last, number, release};

/// A Number, which is consumed, to a power.
pub fn power_number(pool: &mut Pool, a: Handle, n: i128) -> Result<Handle, NumberFault>
    requires stands { Stands pool.old }
    requires handed { IsHanded a (forest pool.old) }
    requires number { is_number (tree_of a pool.old) ≡ true }
    requires positive { pos 1 ≤ℤ n }
    ensures ok { IfOk result (λ h. Gives (without_root a (forest pool.old)) (forest pool.new) h (IsNumberOf (surd_power (value (tree_of a pool.old)) (nat_abs n)))) }
    ensures rational { (q : Fraction) → tree_of a pool.old ≡ num q → AnswersRationals (calculated pow_op q (whole_fraction n)) pool.new result }
    ensures front { KeepsFront (a ∷ []) (forest pool.old) (forest pool.new) }
    ensures kept { OnOk result (KeepsRefusals pool.old pool.new) }
    ensures faults { IfErr result (Faults pool.old pool.new) }
    ensures overflow { is_num (tree_of a pool.old) ≡ false → IfErr result (OfOverflow (PowerOverflows (value (tree_of a pool.old)) (nat_abs n))) }
    ensures measured { IfOk result (λ h. IsNoLargerThanPower (value (tree_of a pool.old)) (nat_abs n) (value (tree_of h pool.new))) }
    ensures bits { (h l : ℕ) → IsHeld (value (tree_of a pool.old)) h l → nat_abs n * (2 * h + 4 * l) ≤ 124 → IfErr result (OfOverflow (λ o. ⊥)) }
    ensures caused { IfErr result (IsCaused pool.new) }
    ensures room { (gs : List ℕ) → SpansTree gs (tree_of a pool.old) → IfErr result (LacksRoom power_need (free_of pool.old + size (tree_of a pool.old)) gs) }
    ensures spanned { (gs : List ℕ) → SpansTree gs (tree_of a pool.old) → IfOk result (λ h. SpansTree gs (tree_of h pool.new)) }
    ensures stands { Stands pool.new }
{
    if roots::is_rational(pool, &a) {
        power_rational(pool, a, n)
    } else if n == 1 {
        move_last(pool, &a);
        Ok(a)
    } else {
        let power = power_of(pool, &a, n.unsigned_abs())?;
        release(pool, a);
        Ok(power)
    }
}

/// A rational, which is consumed, to a power.
fn power_rational(pool: &mut Pool, a: Handle, n: i128) -> Result<Handle, NumberFault>
    requires stands { Stands pool.old }
    requires handed { IsHanded a (forest pool.old) }
    requires rational { is_num (tree_of a pool.old) ≡ true }
    requires positive { pos 1 ≤ℤ n }
    ensures ok { IfOk result (λ h. Gives (without_root a (forest pool.old)) (forest pool.new) h (IsPowerOver (value (tree_of a pool.old)) (nat_abs n))) }
    ensures rational { (q : Fraction) → tree_of a pool.old ≡ num q → AnswersRationals (calculated pow_op q (whole_fraction n)) pool.new result }
    ensures room { (gs : List ℕ) → IfErr result (LacksRoom power_need (free_of pool.old + size (tree_of a pool.old)) gs) }
    ensures safe { IsSafe (a ∷ []) pool.old pool.new result }
{
    let q = take_rational(pool, a);
    let power = pow(q, n)?;
    Ok(number(pool, power)?)
}

/// A new last tree that is a power of a Number, which stays. It calls itself for half the exponent, so
/// at most 126 times, and makes no power above the one that is asked for.
fn power_of(pool: &mut Pool, a: &Handle, n: u128) -> Result<Handle, NumberFault>
    requires stands { Stands pool.old }
    requires handed { IsHanded a.now (forest pool.old) }
    requires number { is_number (tree_of a.now pool.old) ≡ true }
    requires twice { 2 ≤ n }
    ensures ok { IfOk result (λ h. Gives (forest pool.old) (forest pool.new) h (IsPowerOver (value (tree_of a.now pool.old)) n)) }
    ensures overflow { IfErr result (OfOverflow (PowerOverflows (value (tree_of a.now pool.old)) n)) }
    ensures room { (gs : List ℕ) → SpansTree gs (tree_of a.now pool.old) → IfErr result (LacksRoom raising_need (free_of pool.old) gs) }
    ensures safe { IsSafe [] pool.old pool.new result }
{
    if n < 4 {
        return square_or_cube(pool, a, n);
    }
    let half = power_of(pool, a, n / 2)?;
    if is_longer_squared(pool, &half, a, n) {
        return multiplied(pool, half, a, n / 2, n);
    }
    let square = squared(pool, half)?;
    multiplied(pool, square, a, 2 * (n / 2), n)
}

/// Whether more products of two terms are made where the power for half an exponent is squared than where it is multiplied by
/// the Number until the exponent is reached. By then it has four times as many terms at most, or so it is guessed.
fn is_longer_squared(pool: &Pool, half: &Handle, a: &Handle, n: u128) -> bool
    requires stands { Stands pool.now }
    requires half { IsHanded half.now (forest pool.now) }
    requires half_number { is_number (tree_of half.now pool.now) ≡ true }
    requires handed { IsHanded a.now (forest pool.now) }
    requires number { is_number (tree_of a.now pool.now) ≡ true }
    ensures few { IsTrue result → n ≤ 64 }
{
    let squared = u128::from(roots::term_count(pool, half)) / 8;
    let multiplied = u128::from(roots::term_count(pool, a));
    n <= 64 && multiplied * (n - n / 2) < squared
}

/// The same for the exponents 2 and 3, as values where the terms are few.
#[inline(never)]
fn square_or_cube(pool: &mut Pool, a: &Handle, n: u128) -> Result<Handle, NumberFault>
    requires stands { Stands pool.old }
    requires handed { IsHanded a.now (forest pool.old) }
    requires number { is_number (tree_of a.now pool.old) ≡ true }
    requires twice { 2 ≤ n }
    requires few { n < 4 }
    ensures ok { IfOk result (λ h. Gives (forest pool.old) (forest pool.new) h (IsPowerOver (value (tree_of a.now pool.old)) n)) }
    ensures overflow { IfErr result (OfOverflow (PowerOverflows (value (tree_of a.now pool.old)) n)) }
    ensures room { (gs : List ℕ) → SpansTree gs (tree_of a.now pool.old) → IfErr result (LacksRoom raising_need (free_of pool.old) gs) }
    ensures safe { IsSafe [] pool.old pool.new result }
{
    let mut terms = TermList::new();
    if raise_values(pool, a, n, &mut terms) && has_room(pool, terms.as_slice()) {
        return Ok(place_terms(pool, terms.as_slice())?);
    }
    let square = square_of(pool, a)?;
    multiplied(pool, square, a, 2, n)
}

/// The power of a Number, which stays, from one for a lower exponent: the last tree, which is consumed. It calls itself
/// for each exponent between, so at most 33 times.
fn multiplied(
    pool: &mut Pool,
    power: Handle,
    a: &Handle,
    from: u128,
    n: u128,
) -> Result<Handle, NumberFault>
    requires stands { Stands pool.old }
    requires power { Gives (without_root power (forest pool.old)) (forest pool.old) power (IsPowerOver (value (tree_of a.now pool.old)) from) }
    requires handed { IsHanded a.now (without_root power (forest pool.old)) }
    requires number { is_number (tree_of a.now pool.old) ≡ true }
    requires positive { 1 ≤ from }
    requires below { from ≤ n }
    requires few { n ≤ from + 32 }
    ensures ok { IfOk result (λ h. Gives (without_root power (forest pool.old)) (forest pool.new) h (IsPowerOver (value (tree_of a.now pool.old)) n)) }
    ensures overflow { IfErr result (OfOverflow (PowerOverflows (value (tree_of a.now pool.old)) n)) }
    ensures room { (gs : List ℕ) → SpansTree gs (tree_of a.now pool.old) → IfErr result (LacksRoom raising_need (free_of pool.old + size (tree_of power pool.old)) gs) }
    ensures safe { IsSafe (power ∷ []) pool.old pool.new result }
{
    if from == n {
        return Ok(power);
    }
    let next = product_of(pool, &power, a)?;
    release(pool, power);
    multiplied(pool, next, a, from + 1, n)
}

/// Lists the terms of the square or the cube of a Number behind none, if these and those are few.
fn raise_values(pool: &Pool, a: &Handle, n: u128, list: &mut TermList) -> bool
    requires stands { Stands pool.now }
    requires handed { IsHanded a.now (forest pool.now) }
    requires number { is_number (tree_of a.now pool.now) ≡ true }
    requires twice { 2 ≤ n }
    requires few { n < 4 }
    requires none { list.old.items ≡ [] }
    ensures { IsTrue result → IsPowerOver (value (tree_of a.now pool.now)) n (number_tree list.new.items) }
{
    if n == 2 {
        square_values(pool, a, list)
    } else {
        cube_values(pool, a, list)
    }
}

/// A Number, which is consumed, times itself.
fn squared(pool: &mut Pool, a: Handle) -> Result<Handle, NumberFault>
    requires stands { Stands pool.old }
    requires handed { IsHanded a (forest pool.old) }
    requires number { is_number (tree_of a pool.old) ≡ true }
    ensures ok { IfOk result (λ h. Gives (without_root a (forest pool.old)) (forest pool.new) h (IsNumberOver (surd_times (value (tree_of a pool.old)) (value (tree_of a pool.old))))) }
    ensures overflow { IfErr result (OfOverflow (SquareOverflows (value (tree_of a pool.old)))) }
    ensures room { (gs : List ℕ) → SpansTree gs (tree_of a pool.old) → IfErr result (LacksRoom joining_need (free_of pool.old) gs) }
    ensures safe { IsSafe (a ∷ []) pool.old pool.new result }
{
    let square = square_of(pool, &a)?;
    release(pool, a);
    Ok(square)
}
