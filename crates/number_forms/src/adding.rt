//! Sums of Numbers.
ghost use Rattle.std.specs.Prelude.{ℕ, List, ◌+◌, ◌≡◌, ◌<◌, ◌^◌, ◌==◌, ◌&&◌, ◌∷◌, ◌++◌, [], true, false, IfOk, IfErr, OnOk};
ghost use Rattle.calc_terms.specs.Fits.{add_op};
ghost use Rattle.calc_terms.specs.Fractions.{Fraction};
ghost use Rattle.calc_algebra.specs.Numbers.{is_number, value};
ghost use Rattle.calc_bits.specs.Bounds.{HasFewBits, IsNoLarger};
ghost use Rattle.calc_measures.specs.PlainValues.{calculated};
ghost use Rattle.calc_room.specs.Needs.{sum_need};
ghost use Rattle.calc_room.specs.Spans.{Spans, SpansTree};
ghost use Rattle.calc_terms.specs.Trees.{num, is_num, is_add, size};
ghost use Rattle.node_pool.specs.State.{free_of};
ghost use Rattle.child_lists.specs.Lists.{Lists};
ghost use Rattle.number_forms.specs.Answers.{IsNumberOf, AnswersRationals, IsNumberOver};
ghost use Rattle.number_forms.specs.Kept.{AnswersItself};
ghost use Rattle.number_forms.specs.Overflows.{SumOverflows};
ghost use Rattle.number_forms.specs.Readers.{is_zero};
ghost use Rattle.number_forms.specs.Rooms.{LacksRoom, joining_need};
ghost use Rattle.number_forms.specs.Sums.{IsSum, IsSumOf, Ranks, RanksTerms};
ghost use Rattle.number_forms.specs.Safety.{IsSafe, IsSafePlacing};
ghost use Rattle.surd_terms.specs.Terms.{term_of};
ghost use Rattle.tree_handles.specs.Standing.{Stands, forest, KeepsRefusals};
ghost use Rattle.tree_handles.specs.Causes.{IsCaused};
ghost use Rattle.tree_handles.specs.Handed.{tree_of, IsHanded, Gives, KeepsFront};
ghost use Rattle.tree_handles.specs.Faults.{Faults, OfOverflow};
ghost use Rattle.tree_handles.specs.Roots.{without_root};

use crate::calculating::{Joint, calculate, calculate_others};
use crate::joining::{NOWHERE, SQUARE_FREE_BELOW, join_term};
use crate::read::term_count;
use crate::roots;
use crate::term::listed_term;
use calc_terms::{Kind, Rat};
use child_lists::{ChildList, FEW, MANY, MOST, NONE};
use node_pool::{Full, Id, Pool};
use std::cmp::Ordering;
use surd_terms::Term;
use tree_handles::{
    Handle, NumberFault, children, kind, move_last, node, node_over, node_over_two, number,
    release, take_child,
};

/// The sum of two Numbers, which are consumed. 0 and a Number that is no rational are that tree as it stands.
pub fn add_numbers(pool: &mut Pool, a: Handle, b: Handle) -> Result<Handle, NumberFault>
    requires stands { Stands pool.old }
    requires first { IsHanded a (forest pool.old) }
    requires second { IsHanded b (forest pool.old) }
    requires apart { (a == b) ≡ false }
    requires first_number { is_number (tree_of a pool.old) ≡ true }
    requires second_number { is_number (tree_of b pool.old) ≡ true }
    ensures ok { IfOk result (λ h. Gives (without_root b (without_root a (forest pool.old))) (forest pool.new) h (IsNumberOf (value (tree_of a pool.old) ++ value (tree_of b pool.old)))) }
    ensures rationals { (p q : Fraction) → tree_of a pool.old ≡ num p → tree_of b pool.old ≡ num q → AnswersRationals (calculated add_op p q) pool.new result }
    ensures front { KeepsFront (a ∷ b ∷ []) (forest pool.old) (forest pool.new) }
    ensures kept { OnOk result (KeepsRefusals pool.old pool.new) }
    ensures faults { IfErr result (Faults pool.old pool.new) }
    ensures overflow { (is_num (tree_of a pool.old) && is_num (tree_of b pool.old)) ≡ false → IfErr result (OfOverflow (SumOverflows (value (tree_of a pool.old)) (value (tree_of b pool.old)))) }
    ensures first_zero { is_zero (tree_of a pool.old) ≡ true → is_num (tree_of b pool.old) ≡ false → AnswersItself b pool.old pool.new result }
    ensures second_zero { is_zero (tree_of b pool.old) ≡ true → is_num (tree_of a pool.old) ≡ false → AnswersItself a pool.old pool.new result }
    ensures measured { IfOk result (λ h. IsNoLarger (value (tree_of a pool.old) ++ value (tree_of b pool.old)) (value (tree_of h pool.new))) }
    ensures bits { HasFewBits (value (tree_of a pool.old) ++ value (tree_of b pool.old)) → IfErr result (OfOverflow (λ o. ⊥)) }
    ensures caused { IfErr result (IsCaused pool.new) }
    ensures room { (gs : List ℕ) → SpansTree gs (tree_of a pool.old) → SpansTree gs (tree_of b pool.old) → IfErr result (LacksRoom sum_need (free_of pool.old + size (tree_of a pool.old) + size (tree_of b pool.old)) gs) }
    ensures spanned { (gs : List ℕ) → SpansTree gs (tree_of a pool.old) → SpansTree gs (tree_of b pool.old) → IfOk result (λ h. SpansTree gs (tree_of h pool.new)) }
    ensures stands { Stands pool.new }
{
    calculate(pool, Joint::Sum, a, b)
}

/// The sum of two Numbers, which are consumed. Two terms that stay apart are its terms as they stand.
pub(crate) fn add_terms(pool: &mut Pool, a: Handle, b: Handle) -> Result<Handle, NumberFault>
    requires stands { Stands pool.old }
    requires first { IsHanded a (forest pool.old) }
    requires second { IsHanded b (forest pool.old) }
    requires apart { (a == b) ≡ false }
    requires first_number { is_number (tree_of a pool.old) ≡ true }
    requires second_number { is_number (tree_of b pool.old) ≡ true }
    ensures ok { IfOk result (λ h. Gives (without_root b (without_root a (forest pool.old))) (forest pool.new) h (IsNumberOver (value (tree_of a pool.old) ++ value (tree_of b pool.old)))) }
    ensures overflow { IfErr result (OfOverflow (SumOverflows (value (tree_of a pool.old)) (value (tree_of b pool.old)))) }
    ensures room { (gs : List ℕ) → SpansTree gs (tree_of a pool.old) → SpansTree gs (tree_of b pool.old) → IfErr result (LacksRoom sum_need (free_of pool.old + size (tree_of a pool.old) + size (tree_of b pool.old)) gs) }
    ensures safe { IsSafe (a ∷ b ∷ []) pool.old pool.new result }
{
    match order_of_terms(pool, &a, &b) {
        Ordering::Less => Ok(node_over_two(pool, Kind::Add, a, b)?),
        Ordering::Greater => Ok(node_over_two(pool, Kind::Add, b, a)?),
        Ordering::Equal => calculate_others(pool, Joint::Sum, a, b),
    }
}

/// The order of two Numbers that are terms which stay apart, and Equal of others.
fn order_of_terms(pool: &Pool, a: &Handle, b: &Handle) -> Ordering
    requires stands { Stands pool.now }
    requires first { IsHanded a.now (forest pool.now) }
    requires second { IsHanded b.now (forest pool.now) }
    requires first_number { is_number (tree_of a.now pool.now) ≡ true }
    requires second_number { is_number (tree_of b.now pool.now) ≡ true }
    ensures { Ranks result (tree_of a.now pool.now) (tree_of b.now pool.now) }
{
    if roots::term_count(pool, a) != 1 || roots::term_count(pool, b) != 1 {
        return Ordering::Equal;
    }
    order_of(roots::nth_term(pool, a, 0), roots::nth_term(pool, b, 0))
}

/// The order of two terms by radicands that are so small that they are square-free.
fn order_of(a: Term, b: Term) -> Ordering
    ensures { RanksTerms result (term_of a) (term_of b) }
{
    if SQUARE_FREE_BELOW <= a.radicand() || SQUARE_FREE_BELOW <= b.radicand() {
        return Ordering::Equal;
    }
    if a.radicand() < b.radicand() {
        Ordering::Less
    } else if b.radicand() < a.radicand() {
        Ordering::Greater
    } else {
        Ordering::Equal
    }
}

/// The sum of two Numbers, which are consumed, by their terms.
pub(crate) fn add_others(pool: &mut Pool, a: Handle, b: Handle) -> Result<Handle, NumberFault>
    requires stands { Stands pool.old }
    requires first { IsHanded a (forest pool.old) }
    requires second { IsHanded b (forest pool.old) }
    requires apart { (a == b) ≡ false }
    requires first_number { is_number (tree_of a pool.old) ≡ true }
    requires second_number { is_number (tree_of b pool.old) ≡ true }
    ensures ok { IfOk result (λ h. Gives (without_root b (without_root a (forest pool.old))) (forest pool.new) h (IsNumberOver (value (tree_of a pool.old) ++ value (tree_of b pool.old)))) }
    ensures overflow { IfErr result (OfOverflow (SumOverflows (value (tree_of a pool.old)) (value (tree_of b pool.old)))) }
    ensures room { (gs : List ℕ) → SpansTree gs (tree_of a pool.old) → SpansTree gs (tree_of b pool.old) → IfErr result (LacksRoom sum_need (free_of pool.old + size (tree_of a pool.old) + size (tree_of b pool.old)) gs) }
    ensures safe { IsSafe (a ∷ b ∷ []) pool.old pool.new result }
{
    let terms = roots::term_count(pool, &a).saturating_add(roots::term_count(pool, &b));
    let terms = usize::from(terms);
    if terms <= 2 {
        add_within::<NONE>(pool, a, b)
    } else if terms <= FEW {
        add_within::<FEW>(pool, a, b)
    } else if terms <= MANY {
        add_within::<MANY>(pool, a, b)
    } else {
        add_within::<MOST>(pool, a, b)
    }
}

/// The same with lists that have room for so many terms.
#[inline(never)]
fn add_within<const N: usize>(pool: &mut Pool, a: Handle, b: Handle) -> Result<Handle, NumberFault>
    requires few { N < 2 ^ 16 }
    requires stands { Stands pool.old }
    requires first { IsHanded a (forest pool.old) }
    requires second { IsHanded b (forest pool.old) }
    requires apart { (a == b) ≡ false }
    requires first_number { is_number (tree_of a pool.old) ≡ true }
    requires second_number { is_number (tree_of b pool.old) ≡ true }
    ensures ok { IfOk result (λ h. Gives (without_root b (without_root a (forest pool.old))) (forest pool.new) h (IsNumberOver (value (tree_of a pool.old) ++ value (tree_of b pool.old)))) }
    ensures overflow { IfErr result (OfOverflow (SumOverflows (value (tree_of a pool.old)) (value (tree_of b pool.old)))) }
    ensures room { (gs : List ℕ) → SpansTree gs (tree_of a pool.old) → SpansTree gs (tree_of b pool.old) → IfErr result (LacksRoom sum_need (free_of pool.old + size (tree_of a pool.old) + size (tree_of b pool.old)) gs) }
    ensures safe { IsSafe (a ∷ b ∷ []) pool.old pool.new result }
{
    let sum = sum_over(pool, a)?;
    let mut list: ChildList<N> = ChildList::of(pool, sum.id());
    join_terms(pool, &sum, &mut list, b.id())?;
    release(pool, b);
    Ok(number_of(pool, sum)?)
}

/// A Number as a sum of its terms, the last tree.
fn sum_over(pool: &mut Pool, a: Handle) -> Result<Handle, Full>
    requires stands { Stands pool.old }
    requires handed { IsHanded a (forest pool.old) }
    requires number { is_number (tree_of a pool.old) ≡ true }
    ensures ok { IfOk result (λ h. Gives (without_root a (forest pool.old)) (forest pool.new) h (IsSumOf (value (tree_of a pool.old)))) }
    ensures room { IfErr result (λ full. free_of pool.old < 8) }
    ensures safe { IsSafePlacing (a ∷ []) pool.old pool.new result }
{
    match kind(pool, a.id()) {
        Kind::Add => {
            move_last(pool, &a);
            Ok(a)
        }
        _ => sum_over_term(pool, a),
    }
}

/// The same of a Number that is no sum.
fn sum_over_term(pool: &mut Pool, a: Handle) -> Result<Handle, Full>
    requires stands { Stands pool.old }
    requires handed { IsHanded a (forest pool.old) }
    requires number { is_number (tree_of a pool.old) ≡ true }
    requires no_sum { is_add (tree_of a pool.old) ≡ false }
    ensures ok { IfOk result (λ h. Gives (without_root a (forest pool.old)) (forest pool.new) h (IsSumOf (value (tree_of a pool.old)))) }
    ensures room { IfErr result (λ full. free_of pool.old < 8) }
    ensures safe { IsSafePlacing (a ∷ []) pool.old pool.new result }
{
    if roots::is_zero(pool, &a) {
        release(pool, a);
        node(pool, Kind::Add)
    } else {
        node_over(pool, Kind::Add, a)
    }
}

/// Joins each term of a Number, another root, to a sum.
pub(crate) fn join_terms<const N: usize>(
    pool: &mut Pool,
    sum: &Handle,
    list: &mut ChildList<N>,
    number: Id,
) -> Result<(), NumberFault>
    requires stands { Stands pool.old }
    requires sum { Gives (without_root sum.now (forest pool.old)) (forest pool.old) sum.now IsSum }
    requires lists { Lists list.old sum.now (forest pool.old) }
    requires handed { IsHanded number (without_root sum.now (forest pool.old)) }
    requires number { is_number (tree_of number pool.old) ≡ true }
    ensures ok { OnOk result (Gives (without_root sum.now (forest pool.old)) (forest pool.new) sum.now (IsSumOf (value (tree_of sum.now pool.old) ++ value (tree_of number pool.old)))) }
    ensures lists { OnOk result (Lists list.new sum.now (forest pool.new)) }
    ensures overflow { IfErr result (OfOverflow (SumOverflows (value (tree_of sum.now pool.old)) (value (tree_of number pool.old)))) }
    ensures room { (gs : List ℕ) → Spans gs (value (tree_of sum.now pool.old)) → Spans gs (value (tree_of number pool.old)) → IfErr result (LacksRoom joining_need (free_of pool.old + size (tree_of sum.now pool.old)) gs) }
    ensures safe { IsSafe (sum.now ∷ []) pool.old pool.new result }
{
    let terms: ChildList<N> = ChildList::of(pool, number);
    for at in 0..term_count(pool, number) {
        let term = listed_term(pool, number, &terms, at);
        join_term(pool, sum, list, term, NOWHERE)?;
    }
    Ok(())
}

/// The Number that a sum of terms is, which stands last: none is 0, and one stands alone.
pub(crate) fn number_of(pool: &mut Pool, sum: Handle) -> Result<Handle, Full>
    requires stands { Stands pool.old }
    requires sum { Gives (without_root sum (forest pool.old)) (forest pool.old) sum IsSum }
    ensures ok { IfOk result (λ h. Gives (without_root sum (forest pool.old)) (forest pool.new) h (IsNumberOver (value (tree_of sum pool.old)))) }
    ensures room { IfErr result (λ full. free_of pool.old + size (tree_of sum pool.old) < 40) }
    ensures safe { IsSafePlacing (sum ∷ []) pool.old pool.new result }
{
    let terms = children(pool, sum.id());
    if terms == 0 {
        release(pool, sum);
        number(pool, Rat::whole(0))
    } else if terms == 1 {
        let term = take_child(pool, &sum, 0);
        release(pool, sum);
        Ok(term)
    } else {
        Ok(sum)
    }
}
