//! Products of Numbers.
ghost use Rattle.std.specs.Prelude.{ℕ, List, ◌+◌, ◌≡◌, ◌<◌, ◌^◌, ◌==◌, ◌&&◌, ◌∷◌, ◌++◌, [], true, false, map, IfOk, IfErr, OnOk};
ghost use Rattle.calc_terms.specs.Fits.{mul_op};
ghost use Rattle.calc_terms.specs.Fractions.{Fraction};
ghost use Rattle.calc_algebra.specs.Numbers.{is_number, value};
ghost use Rattle.calc_bits.specs.Bounds.{HasFewBits, IsNoLarger};
ghost use Rattle.calc_measures.specs.PlainValues.{calculated};
ghost use Rattle.calc_algebra.specs.Reduced.{is_num_one};
ghost use Rattle.calc_algebra.specs.Surds.{term_times, surd_times};
ghost use Rattle.calc_room.specs.Needs.{product_need};
ghost use Rattle.calc_room.specs.Spans.{IsSpanned, Spans, SpansTree};
ghost use Rattle.calc_terms.specs.Trees.{num, is_num, size};
ghost use Rattle.node_pool.specs.State.{free_of};
ghost use Rattle.child_lists.specs.Lists.{Lists};
ghost use Rattle.number_forms.specs.Answers.{IsNumberOf, AnswersRationals, IsNumberOver};
ghost use Rattle.number_forms.specs.Kept.{AnswersItself};
ghost use Rattle.number_forms.specs.Overflows.{terms_from, RowOverflows, ProductOverflows};
ghost use Rattle.number_forms.specs.Rooms.{LacksRoom, joining_need};
ghost use Rattle.number_forms.specs.Sums.{IsSum, IsSumOf};
ghost use Rattle.number_forms.specs.Safety.{IsSafe};
ghost use Rattle.tree_handles.specs.Causes.{IsCaused};
ghost use Rattle.tree_handles.specs.Handed.{tree_of, IsHanded, Gives, KeepsFront};
ghost use Rattle.surd_terms.specs.Terms.{term_of};
ghost use Rattle.tree_handles.specs.Faults.{Faults, OfOverflow};
ghost use Rattle.tree_handles.specs.Roots.{without_root};
ghost use Rattle.tree_handles.specs.Standing.{Stands, forest, KeepsRefusals};

use crate::adding::number_of;
use crate::calculating::{Joint, calculate};
use crate::joining::{clean_radicand, join_term};
use crate::read::term_count;
use crate::roots;
use crate::term::{listed_term, nth_term};
use calc_terms::Kind;
use child_lists::{ChildList, FEW, MANY, MOST, NONE};
use node_pool::{Id, Pool};
use surd_terms::{Term, product_with};
use tree_handles::{Handle, NumberFault, node, release};

/// The product of two Numbers, which are consumed. 1 times a Number that is no rational is that tree as it stands.
pub fn multiply_numbers(pool: &mut Pool, a: Handle, b: Handle) -> Result<Handle, NumberFault>
    requires stands { Stands pool.old }
    requires first { IsHanded a (forest pool.old) }
    requires second { IsHanded b (forest pool.old) }
    requires apart { (a == b) ≡ false }
    requires first_number { is_number (tree_of a pool.old) ≡ true }
    requires second_number { is_number (tree_of b pool.old) ≡ true }
    ensures ok { IfOk result (λ h. Gives (without_root b (without_root a (forest pool.old))) (forest pool.new) h (IsNumberOf (surd_times (value (tree_of a pool.old)) (value (tree_of b pool.old))))) }
    ensures rationals { (p q : Fraction) → tree_of a pool.old ≡ num p → tree_of b pool.old ≡ num q → AnswersRationals (calculated mul_op p q) pool.new result }
    ensures front { KeepsFront (a ∷ b ∷ []) (forest pool.old) (forest pool.new) }
    ensures kept { OnOk result (KeepsRefusals pool.old pool.new) }
    ensures faults { IfErr result (Faults pool.old pool.new) }
    ensures overflow { (is_num (tree_of a pool.old) && is_num (tree_of b pool.old)) ≡ false → IfErr result (OfOverflow (ProductOverflows (value (tree_of a pool.old)) (value (tree_of b pool.old)))) }
    ensures first_one { is_num_one (tree_of a pool.old) ≡ true → is_num (tree_of b pool.old) ≡ false → AnswersItself b pool.old pool.new result }
    ensures second_one { is_num_one (tree_of b pool.old) ≡ true → is_num (tree_of a pool.old) ≡ false → AnswersItself a pool.old pool.new result }
    ensures measured { IfOk result (λ h. IsNoLarger (surd_times (value (tree_of a pool.old)) (value (tree_of b pool.old))) (value (tree_of h pool.new))) }
    ensures bits { HasFewBits (surd_times (value (tree_of a pool.old)) (value (tree_of b pool.old))) → IfErr result (OfOverflow (λ o. ⊥)) }
    ensures caused { IfErr result (IsCaused pool.new) }
    ensures room { (gs : List ℕ) → SpansTree gs (tree_of a pool.old) → SpansTree gs (tree_of b pool.old) → IfErr result (LacksRoom product_need (free_of pool.old + size (tree_of a pool.old) + size (tree_of b pool.old)) gs) }
    ensures spanned { (gs : List ℕ) → SpansTree gs (tree_of a pool.old) → SpansTree gs (tree_of b pool.old) → IfOk result (λ h. SpansTree gs (tree_of h pool.new)) }
    ensures stands { Stands pool.new }
{
    calculate(pool, Joint::Product, a, b)
}

/// The product of two Numbers, which are consumed, by their terms.
pub(crate) fn multiply_others(pool: &mut Pool, a: Handle, b: Handle) -> Result<Handle, NumberFault>
    requires stands { Stands pool.old }
    requires first { IsHanded a (forest pool.old) }
    requires second { IsHanded b (forest pool.old) }
    requires apart { (a == b) ≡ false }
    requires first_number { is_number (tree_of a pool.old) ≡ true }
    requires second_number { is_number (tree_of b pool.old) ≡ true }
    ensures ok { IfOk result (λ h. Gives (without_root b (without_root a (forest pool.old))) (forest pool.new) h (IsNumberOver (surd_times (value (tree_of a pool.old)) (value (tree_of b pool.old))))) }
    ensures overflow { IfErr result (OfOverflow (ProductOverflows (value (tree_of a pool.old)) (value (tree_of b pool.old)))) }
    ensures room { (gs : List ℕ) → SpansTree gs (tree_of a pool.old) → SpansTree gs (tree_of b pool.old) → IfErr result (LacksRoom product_need (free_of pool.old + size (tree_of a pool.old) + size (tree_of b pool.old)) gs) }
    ensures safe { IsSafe (a ∷ b ∷ []) pool.old pool.new result }
{
    let product = product_of(pool, &a, &b)?;
    release(pool, a);
    release(pool, b);
    Ok(product)
}

/// A new last tree that is the product of two Numbers, which stay.
pub(crate) fn product_of(pool: &mut Pool, a: &Handle, b: &Handle) -> Result<Handle, NumberFault>
    requires stands { Stands pool.old }
    requires first { IsHanded a.now (forest pool.old) }
    requires second { IsHanded b.now (forest pool.old) }
    requires first_number { is_number (tree_of a.now pool.old) ≡ true }
    requires second_number { is_number (tree_of b.now pool.old) ≡ true }
    ensures ok { IfOk result (λ h. Gives (forest pool.old) (forest pool.new) h (IsNumberOver (surd_times (value (tree_of a.now pool.old)) (value (tree_of b.now pool.old))))) }
    ensures overflow { IfErr result (OfOverflow (ProductOverflows (value (tree_of a.now pool.old)) (value (tree_of b.now pool.old)))) }
    ensures room { (gs : List ℕ) → SpansTree gs (tree_of a.now pool.old) → SpansTree gs (tree_of b.now pool.old) → IfErr result (LacksRoom joining_need (free_of pool.old) gs) }
    ensures safe { IsSafe [] pool.old pool.new result }
{
    let terms = roots::term_count(pool, a).saturating_mul(roots::term_count(pool, b));
    let terms = usize::from(terms);
    if terms <= 1 {
        product_within::<NONE>(pool, a, b)
    } else if terms <= FEW {
        product_within::<FEW>(pool, a, b)
    } else if terms <= MANY {
        product_within::<MANY>(pool, a, b)
    } else {
        product_within::<MOST>(pool, a, b)
    }
}

/// The same with lists that have room for so many terms.
#[inline(never)]
fn product_within<const N: usize>(
    pool: &mut Pool,
    a: &Handle,
    b: &Handle,
) -> Result<Handle, NumberFault>
    requires few { N < 2 ^ 16 }
    requires stands { Stands pool.old }
    requires first { IsHanded a.now (forest pool.old) }
    requires second { IsHanded b.now (forest pool.old) }
    requires first_number { is_number (tree_of a.now pool.old) ≡ true }
    requires second_number { is_number (tree_of b.now pool.old) ≡ true }
    ensures ok { IfOk result (λ h. Gives (forest pool.old) (forest pool.new) h (IsNumberOver (surd_times (value (tree_of a.now pool.old)) (value (tree_of b.now pool.old))))) }
    ensures overflow { IfErr result (OfOverflow (ProductOverflows (value (tree_of a.now pool.old)) (value (tree_of b.now pool.old)))) }
    ensures room { (gs : List ℕ) → SpansTree gs (tree_of a.now pool.old) → SpansTree gs (tree_of b.now pool.old) → IfErr result (LacksRoom joining_need (free_of pool.old) gs) }
    ensures safe { IsSafe [] pool.old pool.new result }
{
    let sum = node(pool, Kind::Add)?;
    let mut list: ChildList<N> = ChildList::new();
    let terms: ChildList<N> = ChildList::of(pool, b.id());
    join_rows(pool, &sum, &mut list, a.id(), b.id(), &terms)?;
    Ok(number_of(pool, sum)?)
}

/// Joins the product of each term of a Number and each of another to a sum, beside which both are
/// roots.
fn join_rows<const N: usize>(
    pool: &mut Pool,
    sum: &Handle,
    list: &mut ChildList<N>,
    a: Id,
    b: Id,
    terms: &ChildList<N>,
) -> Result<(), NumberFault>
    requires stands { Stands pool.old }
    requires sum { Gives (without_root sum.now (forest pool.old)) (forest pool.old) sum.now IsSum }
    requires lists { Lists list.old sum.now (forest pool.old) }
    requires first { IsHanded a (without_root sum.now (forest pool.old)) }
    requires second { IsHanded b (without_root sum.now (forest pool.old)) }
    requires first_number { is_number (tree_of a pool.old) ≡ true }
    requires second_number { is_number (tree_of b pool.old) ≡ true }
    requires terms { Lists terms.now b (forest pool.old) }
    ensures ok { OnOk result (Gives (without_root sum.now (forest pool.old)) (forest pool.new) sum.now (IsSumOf (value (tree_of sum.now pool.old) ++ surd_times (value (tree_of a pool.old)) (value (tree_of b pool.old))))) }
    ensures lists { OnOk result (Lists list.new sum.now (forest pool.new)) }
    ensures overflow { value (tree_of sum.now pool.old) ≡ [] → IfErr result (OfOverflow (ProductOverflows (value (tree_of a pool.old)) (value (tree_of b pool.old)))) }
    ensures room { (gs : List ℕ) → Spans gs (value (tree_of sum.now pool.old)) → Spans gs (value (tree_of a pool.old)) → Spans gs (value (tree_of b pool.old)) → IfErr result (LacksRoom joining_need (free_of pool.old + size (tree_of sum.now pool.old)) gs) }
    ensures safe { IsSafe (sum.now ∷ []) pool.old pool.new result }
{
    for at in 0..term_count(pool, a) {
        let term = nth_term(pool, a, at);
        join_products(pool, sum, list, term, b, terms, 0)?;
    }
    Ok(())
}

/// Joins the product of a term and each term of a Number, another root, from a place on to a sum.
pub(crate) fn join_products<const N: usize>(
    pool: &mut Pool,
    sum: &Handle,
    list: &mut ChildList<N>,
    term: Term,
    number: Id,
    terms: &ChildList<N>,
    from: u16,
) -> Result<(), NumberFault>
    requires stands { Stands pool.old }
    requires sum { Gives (without_root sum.now (forest pool.old)) (forest pool.old) sum.now IsSum }
    requires lists { Lists list.old sum.now (forest pool.old) }
    requires handed { IsHanded number (without_root sum.now (forest pool.old)) }
    requires number { is_number (tree_of number pool.old) ≡ true }
    requires terms { Lists terms.now number (forest pool.old) }
    ensures ok { OnOk result (Gives (without_root sum.now (forest pool.old)) (forest pool.new) sum.now (IsSumOf (value (tree_of sum.now pool.old) ++ map (term_times (term_of term)) (terms_from from (value (tree_of number pool.old)))))) }
    ensures lists { OnOk result (Lists list.new sum.now (forest pool.new)) }
    ensures overflow { IfErr result (OfOverflow (RowOverflows (value (tree_of sum.now pool.old)) (term_of term) (terms_from from (value (tree_of number pool.old))))) }
    ensures room { (gs : List ℕ) → Spans gs (value (tree_of sum.now pool.old)) → IsSpanned gs (term_of term).radicand → Spans gs (value (tree_of number pool.old)) → IfErr result (LacksRoom joining_need (free_of pool.old + size (tree_of sum.now pool.old)) gs) }
    ensures safe { IsSafe (sum.now ∷ []) pool.old pool.new result }
{
    for at in from..term_count(pool, number) {
        let other = listed_term(pool, number, terms, at);
        let (clean, seen) = clean_radicand(pool, sum.id(), list, term, other);
        let product = product_with(term, other, clean)?;
        join_term(pool, sum, list, product, seen)?;
    }
    Ok(())
}
