//! Sums and products of Numbers: of rationals, of a Number and a rational that leaves it as it is, of a few terms as values,
//! and of more in the pool.
ghost use Rattle.std.specs.Prelude.{ℕ, List, ◌≡◌, ◌↔◌, ◌==◌, ◌&&◌, ◌∷◌, [], true, false, IsTrue, IsErr, IfOk, IfErr};
ghost use Rattle.calc_algebra.specs.Numbers.{is_number, value};
ghost use Rattle.calc_measures.specs.PlainValues.{calculated};
ghost use Rattle.calc_room.specs.Spans.{SpansTree};
ghost use Rattle.calc_terms.specs.Fits.{result_of};
ghost use Rattle.calc_terms.specs.Fractions.{Fraction};
ghost use Rattle.calc_terms.specs.Rat.{value_of};
ghost use Rattle.calc_terms.specs.Trees.{num, is_num};
ghost use Rattle.number_forms.specs.Answers.{AnswersRationals, IsNumberOver};
ghost use Rattle.number_forms.specs.Joints.{JointOverflows, LacksJointRoom, both, is_neutral, op_of, operation};
ghost use Rattle.number_forms.specs.Kept.{AnswersItself};
ghost use Rattle.number_forms.specs.Values.{AreTermsOf};
ghost use Rattle.number_forms.specs.Safety.{IsSafe};
ghost use Rattle.rational128.specs.Refusals.{DoesNotFit};
ghost use Rattle.tree_handles.specs.Faults.{OfOverflow};
ghost use Rattle.tree_handles.specs.Handed.{tree_of, IsHanded, Gives};
ghost use Rattle.tree_handles.specs.Roots.{without_root};
ghost use Rattle.tree_handles.specs.Standing.{Stands, forest};

use crate::adding::{add_others, add_terms};
use crate::multiplying::multiply_others;
use crate::placing::{has_room, place_terms};
use crate::rationals::{keep_other, take_rationals};
use crate::roots;
use crate::values::{TermList, add_values, multiply_values};
use calc_terms::Rat;
use node_pool::Pool;
use rational128::{Overflow, add, mul};
use tree_handles::{Handle, NumberFault, number, release};

/// What two Numbers make.
#[derive(Clone, Copy)]
pub(crate) enum Joint {
    Sum,
    Product,
}

/// The sum or the product of two Numbers, which are consumed. A rational that leaves each Number as it is leaves that tree.
pub(crate) fn calculate(
    pool: &mut Pool,
    joint: Joint,
    a: Handle,
    b: Handle,
) -> Result<Handle, NumberFault>
    requires stands { Stands pool.old }
    requires first { IsHanded a (forest pool.old) }
    requires second { IsHanded b (forest pool.old) }
    requires apart { (a == b) ≡ false }
    requires first_number { is_number (tree_of a pool.old) ≡ true }
    requires second_number { is_number (tree_of b pool.old) ≡ true }
    ensures ok { IfOk result (λ h. Gives (without_root b (without_root a (forest pool.old))) (forest pool.new) h (IsNumberOver (both joint (value (tree_of a pool.old)) (value (tree_of b pool.old))))) }
    ensures rationals { (p q : Fraction) → tree_of a pool.old ≡ num p → tree_of b pool.old ≡ num q → AnswersRationals (calculated (operation joint) p q) pool.new result }
    ensures overflow { (is_num (tree_of a pool.old) && is_num (tree_of b pool.old)) ≡ false → IfErr result (OfOverflow (JointOverflows joint (value (tree_of a pool.old)) (value (tree_of b pool.old)))) }
    ensures first_neutral { is_neutral joint (tree_of a pool.old) ≡ true → is_num (tree_of b pool.old) ≡ false → AnswersItself b pool.old pool.new result }
    ensures second_neutral { is_neutral joint (tree_of b pool.old) ≡ true → is_num (tree_of a pool.old) ≡ false → AnswersItself a pool.old pool.new result }
    ensures room { (gs : List ℕ) → SpansTree gs (tree_of a pool.old) → SpansTree gs (tree_of b pool.old) → IfErr result (LacksJointRoom joint a b pool.old gs) }
    ensures safe { IsSafe (a ∷ b ∷ []) pool.old pool.new result }
{
    if roots::is_rational(pool, &a) && roots::is_rational(pool, &b) {
        calculate_rationals(pool, joint, a, b)
    } else {
        calculate_terms(pool, joint, a, b)
    }
}

/// That of two rationals, which are consumed.
fn calculate_rationals(
    pool: &mut Pool,
    joint: Joint,
    a: Handle,
    b: Handle,
) -> Result<Handle, NumberFault>
    requires stands { Stands pool.old }
    requires first { IsHanded a (forest pool.old) }
    requires second { IsHanded b (forest pool.old) }
    requires apart { (a == b) ≡ false }
    requires first_rational { is_num (tree_of a pool.old) ≡ true }
    requires second_rational { is_num (tree_of b pool.old) ≡ true }
    ensures ok { IfOk result (λ h. Gives (without_root b (without_root a (forest pool.old))) (forest pool.new) h (IsNumberOver (both joint (value (tree_of a pool.old)) (value (tree_of b pool.old))))) }
    ensures rationals { (p q : Fraction) → tree_of a pool.old ≡ num p → tree_of b pool.old ≡ num q → AnswersRationals (calculated (operation joint) p q) pool.new result }
    ensures room { (gs : List ℕ) → IfErr result (LacksJointRoom joint a b pool.old gs) }
    ensures safe { IsSafe (a ∷ b ∷ []) pool.old pool.new result }
{
    let (p, q) = take_rationals(pool, a, b);
    let answer = of_rationals(joint, p, q)?;
    Ok(number(pool, answer)?)
}

/// That of two rationals.
fn of_rationals(joint: Joint, p: Rat, q: Rat) -> Result<Rat, Overflow>
    ensures ok { IfOk result (λ r. value_of r ≡ result_of (operation joint) (value_of p) (value_of q)) }
    ensures refused { IsErr result ↔ DoesNotFit (op_of joint) (value_of p) (value_of q) }
    ensures named { IfErr result (λ e. e ≡ record { op = op_of joint; a = p; b = q }) }
{
    match joint {
        Joint::Sum => add(p, q),
        Joint::Product => mul(p, q),
    }
}

/// The same where one is no rational: a rational that leaves each Number as it is leaves that tree.
fn calculate_terms(
    pool: &mut Pool,
    joint: Joint,
    a: Handle,
    b: Handle,
) -> Result<Handle, NumberFault>
    requires stands { Stands pool.old }
    requires first { IsHanded a (forest pool.old) }
    requires second { IsHanded b (forest pool.old) }
    requires apart { (a == b) ≡ false }
    requires first_number { is_number (tree_of a pool.old) ≡ true }
    requires second_number { is_number (tree_of b pool.old) ≡ true }
    ensures ok { IfOk result (λ h. Gives (without_root b (without_root a (forest pool.old))) (forest pool.new) h (IsNumberOver (both joint (value (tree_of a pool.old)) (value (tree_of b pool.old))))) }
    ensures overflow { IfErr result (OfOverflow (JointOverflows joint (value (tree_of a pool.old)) (value (tree_of b pool.old)))) }
    ensures room { (gs : List ℕ) → SpansTree gs (tree_of a pool.old) → SpansTree gs (tree_of b pool.old) → IfErr result (LacksJointRoom joint a b pool.old gs) }
    ensures first_neutral { is_neutral joint (tree_of a pool.old) ≡ true → AnswersItself b pool.old pool.new result }
    ensures second_neutral { is_neutral joint (tree_of a pool.old) ≡ false → is_neutral joint (tree_of b pool.old) ≡ true → AnswersItself a pool.old pool.new result }
    ensures safe { IsSafe (a ∷ b ∷ []) pool.old pool.new result }
{
    if is_neutral(pool, joint, &a) {
        keep_other(pool, a, &b);
        Ok(b)
    } else if is_neutral(pool, joint, &b) {
        keep_other(pool, b, &a);
        Ok(a)
    } else {
        match joint {
            Joint::Sum => add_terms(pool, a, b),
            Joint::Product => calculate_others(pool, joint, a, b),
        }
    }
}

/// Whether a rational leaves each Number as it is.
fn is_neutral(pool: &Pool, joint: Joint, a: &Handle) -> bool
    requires stands { Stands pool.now }
    requires handed { IsHanded a.now (forest pool.now) }
    ensures { result ≡ is_neutral joint (tree_of a.now pool.now) }
{
    match joint {
        Joint::Sum => roots::is_zero(pool, a),
        Joint::Product => roots::is_num_one(pool, a),
    }
}

/// The same by their terms, as values where they are few.
pub(crate) fn calculate_others(
    pool: &mut Pool,
    joint: Joint,
    a: Handle,
    b: Handle,
) -> Result<Handle, NumberFault>
    requires stands { Stands pool.old }
    requires first { IsHanded a (forest pool.old) }
    requires second { IsHanded b (forest pool.old) }
    requires apart { (a == b) ≡ false }
    requires first_number { is_number (tree_of a pool.old) ≡ true }
    requires second_number { is_number (tree_of b pool.old) ≡ true }
    ensures ok { IfOk result (λ h. Gives (without_root b (without_root a (forest pool.old))) (forest pool.new) h (IsNumberOver (both joint (value (tree_of a pool.old)) (value (tree_of b pool.old))))) }
    ensures overflow { IfErr result (OfOverflow (JointOverflows joint (value (tree_of a pool.old)) (value (tree_of b pool.old)))) }
    ensures room { (gs : List ℕ) → SpansTree gs (tree_of a pool.old) → SpansTree gs (tree_of b pool.old) → IfErr result (LacksJointRoom joint a b pool.old gs) }
    ensures safe { IsSafe (a ∷ b ∷ []) pool.old pool.new result }
{
    let mut terms = TermList::new();
    if calculate_values(pool, joint, &a, &b, &mut terms) && has_room(pool, terms.as_slice()) {
        release(pool, b);
        release(pool, a);
        return Ok(place_terms(pool, terms.as_slice())?);
    }
    match joint {
        Joint::Sum => add_others(pool, a, b),
        Joint::Product => multiply_others(pool, a, b),
    }
}

/// Lists the terms of the sum or the product of two Numbers behind none, if these and those are few.
#[inline(never)]
fn calculate_values(pool: &Pool, joint: Joint, a: &Handle, b: &Handle, list: &mut TermList) -> bool
    requires stands { Stands pool.now }
    requires first { IsHanded a.now (forest pool.now) }
    requires second { IsHanded b.now (forest pool.now) }
    requires first_number { is_number (tree_of a.now pool.now) ≡ true }
    requires second_number { is_number (tree_of b.now pool.now) ≡ true }
    requires none { list.old.items ≡ [] }
    ensures { IsTrue result → AreTermsOf (both joint (value (tree_of a.now pool.now)) (value (tree_of b.now pool.now))) list.new.items }
{
    match joint {
        Joint::Sum => add_values(pool, a, b, list),
        Joint::Product => multiply_values(pool, a, b, list),
    }
}
