//! One step on a product of reduced factors, by itself: what only it needs stands here.
ghost use Rattle.std.specs.Prelude.{ℕ, List, length, ◌≡◌, ◌==◌, ◌≤◌, ◌+◌, ◌*◌, ◌^◌, true, false, IfOk, IfErr, OnOk, [], ◌∷◌, ◌<◌, MatchOption};
ghost use Rattle.tree_bits.specs.Rows.{AreFewBits};
ghost use Rattle.calc_algebra.specs.Numbers.{is_number};
ghost use Rattle.calc_measures.specs.PlainValues.{plain_value};
ghost use Rattle.calc_room.specs.Counts.{counted};
ghost use Rattle.calc_room.specs.Spans.{SpansTree, SpansTrees};
ghost use Rattle.calc_terms.specs.Trees.{count, is_mult, mult, none, are_rationals, has_undef, size};
ghost use Rattle.coefficients.specs.Rooms.{put_room, LacksRoom};
ghost use Rattle.node_pool.specs.State.{free_of};
ghost use Rattle.tree_handles.specs.Lacking.{LacksBelow};
ghost use Rattle.product_reduce.specs.Answers.{AreOthers, IsFinished, IsJoined, IsStop, IsEnding};
ghost use Rattle.product_reduce.specs.Bits.{AreFactorsHeld};
ghost use Rattle.product_reduce.specs.Bounds.{KeepsProductBounds};
ghost use Rattle.product_reduce.specs.Products.{IsProduct, factors_in};
ghost use Rattle.tree_handles.specs.Faults.{OfOverflow, Faults};
ghost use Rattle.product_reduce.specs.Misfits.{IsFactorMisfit, SpreadingOverflows};
ghost use Rattle.tree_handles.specs.Causes.{IsCaused};
ghost use Rattle.calc_algebra.specs.Reduced.{are_reduced};
ghost use Rattle.tree_handles.specs.Handed.{tree_of, IsHanded, Gives, KeepsFront};
ghost use Rattle.reduce_port.specs.Steps.{IfDone, IfAgain, AnswersRationalStep};
ghost use Rattle.tree_handles.specs.Expressions.{children_of, nth};
ghost use Rattle.tree_room.specs.Handed.{product_count};
ghost use Rattle.tree_room.specs.Needs.{product_step_room};
ghost use Rattle.tree_handles.specs.Roots.{without_root};
ghost use Rattle.tree_handles.specs.Standing.{Stands, forest, KeepsRefusals};
ghost use Rattle.product_reduce.specs.Joining.{have_partners, is_partner, joined};
ghost use Rattle.product_reduce.specs.FirstPairs.{HasNoPartner, IsFirstPair, IsNearest, IsRejoined};
ghost use Rattle.product_reduce.specs.Factors.{coefficient_before};
ghost use Rattle.product_reduce.specs.Pools.{LeavesFull, LeavesPool};
ghost use Rattle.number_forms.specs.Readers.{is_zero};

use crate::endings::{alone, finished};
use crate::factors::{factor, factor_count, has_undef_factor, open_products};
use crate::fronting::put_in_front;
use crate::joining::join_pair;
use crate::numbers::take_coefficient;
use crate::partners::base;
use crate::sorting::sort_factors;
use node_order::compare;
use node_pool::{Full, Pool};
use number_forms::is_zero;
use reduce_port::Step;
use std::cmp::Ordering;
use tree_handles::{Handle, NumberFault, move_last, undefined};

/// One step on a product of reduced factors: the reduced tree, or the product with the first factor
/// that has a partner joined with the first of its partners.
#[tactic(auto, using(crate::proofs::Stepped::handed_product, tree_handles::proofs::Given::given_told))]
pub fn product_step(pool: &mut Pool, product: Handle) -> Result<Step, NumberFault>
    requires stands { Stands pool.old }
    requires handed { IsHanded product (forest pool.old) }
    requires product { is_mult (tree_of product pool.old) ≡ true }
    requires some { 1 ≤ count (children_of (tree_of product pool.old)) }
    requires reduced { are_reduced (children_of (tree_of product pool.old)) ≡ true }
    ensures done { IfOk result (λ s. IfDone s (λ h. Gives (without_root product (forest pool.old)) (forest pool.new) h
        (IsFinished (children_of (tree_of product pool.old))))) }
    ensures again { IfOk result (λ s. IfAgain s (λ h. Gives (without_root product (forest pool.old)) (forest pool.new) h
        (IsJoined (children_of (tree_of product pool.old))))) }
    ensures rationals { are_rationals (children_of (tree_of product pool.old)) ≡ true
        → AnswersRationalStep (plain_value (tree_of product pool.old)) pool.new result }
    ensures overflow { IfErr result (OfOverflow (IsFactorMisfit (children_of (tree_of product pool.old)))) }
    ensures defined { IfErr result (OfOverflow (λ o. has_undef (children_of (tree_of product pool.old)) ≡ false)) }
    ensures front { KeepsFront (product ∷ []) (forest pool.old) (forest pool.new) }
    ensures kept { OnOk result (KeepsRefusals pool.old pool.new) }
    ensures faults { IfErr result (Faults pool.old pool.new) }
    ensures caused { IfErr result (IsCaused pool.new) }

    // Bytes are lacking only where fewer are free or in the product than the step needs, for each choice of radicands.
    ensures room { let t = tree_of product pool.old in (gs : List ℕ) → SpansTree gs t
        → IfErr result (LacksBelow (product_step_room (product_count (children_of t)) (2 ^ length gs)) (free_of pool.old + size t)) }

    // A reduced tree counts no more than the product, has no new powers, and is spanned and held by what spans and holds the factors. A
    // product in which a pair was joined counts one more at most, and is spanned by what spans the product.
    ensures bounds { IfOk result (λ s. IfDone s (λ h. KeepsProductBounds (children_of (tree_of product pool.old)) (tree_of h pool.new))) }
    ensures again_counted { IfOk result (λ s. IfAgain s (λ h. counted (tree_of h pool.new) ≤ counted (tree_of product pool.old) + 1)) }
    ensures again_spanned { (gs : List ℕ) → SpansTree gs (tree_of product pool.old) → IfOk result (λ s. IfAgain s (λ h. SpansTree gs (tree_of h pool.new))) }

    // Where the bits that hold the factors one by one are few, nothing overflows.
    ensures bits { (h l : ℕ) → AreFactorsHeld (children_of (tree_of product pool.old)) h l → AreFewBits h l → IfErr result (OfOverflow (λ o. ⊥)) }

    ensures stands { Stands pool.new }
{
    if has_undef_factor(pool, &product) {
        return Ok(Step::Done(undefined(pool, product)));
    }
    open_products(pool, &product);
    let coefficient = take_coefficient(pool, &product)?;
    join_or_end(pool, product, coefficient)
}

/// A step on a coefficient and the other factors.
#[tactic(auto, using(crate::proofs::Misfits::none_named, calc_terms::proofs::SmallLaws::passed_on, coefficients::proofs::Lacks::refusal_lacks, crate::proofs::Rejoined::pair_lacks))]
fn join_or_end(pool: &mut Pool, product: Handle, coefficient: Handle) -> Result<Step, NumberFault>
    requires stands { Stands pool.old }
    requires product { IsProduct product (forest pool.old) (factors_in product (forest pool.old)) }
    requires others { AreOthers (factors_in product (forest pool.old)) }
    requires coefficient { IsHanded coefficient (forest pool.old) }
    requires number { is_number (tree_of coefficient pool.old) ≡ true }
    requires apart { (coefficient == product) ≡ false }
    ensures done { IfOk result (λ s. IfDone s (λ h. Gives (without_root product (without_root coefficient (forest pool.old))) (forest pool.new) h
        (IsStop (tree_of coefficient pool.old) (factors_in product (forest pool.old))))) }
    ensures again { IfOk result (λ s. IfAgain s (λ h. Gives (without_root product (without_root coefficient (forest pool.old))) (forest pool.new) h
        (IsRejoined (tree_of coefficient pool.old) (factors_in product (forest pool.old))))) }
    ensures alone { factors_in product (forest pool.old) ≡ none → IfErr result (λ f. ⊥) }
    ensures overflow { IfErr result (OfOverflow (SpreadingOverflows (tree_of coefficient pool.old) (factors_in product (forest pool.old)))) }
    ensures front { KeepsFront (product ∷ coefficient ∷ []) (forest pool.old) (forest pool.new) }
    ensures room { let ts = factors_in product (forest pool.old) in
        (gs : List ℕ) → SpansTree gs (tree_of coefficient pool.old) → SpansTrees gs ts
        → IfErr result (LacksBelow (put_room (counted (mult ts)) (2 ^ length gs) + 56)
        (free_of pool.old + size (tree_of coefficient pool.old) + size (mult ts))) }
    ensures leaves { LeavesPool result pool.old pool.new }
{
    if is_zero(pool, coefficient.id()) {
        return Ok(Step::Done(alone(pool, product, coefficient)));
    }
    match first_pair(pool, &product) {
        Some((first, second)) => {
            let joined = joined(pool, product, coefficient, first, second)?;
            Ok(Step::Again(joined))
        }
        None => Ok(Step::Done(sorted(pool, product, coefficient)?)),
    }
}

/// Whether the factors at two places have identical bases.
#[tactic(auto, using(crate::proofs::Finished::reduced_nth))]
fn are_partners(pool: &Pool, product: &Handle, first: u16, second: u16) -> bool
    requires stands { Stands pool.now }
    requires product { IsProduct product.now (forest pool.now) (factors_in product.now (forest pool.now)) }
    requires reduced { are_reduced (factors_in product.now (forest pool.now)) ≡ true }
    requires first { first < count (factors_in product.now (forest pool.now)) }
    requires second { second < count (factors_in product.now (forest pool.now)) }
    ensures { let ts = factors_in product.now (forest pool.now) in result ≡ is_partner (nth first ts) (nth second ts) }
{
    let left = base(pool, factor(pool, product, first));
    let right = base(pool, factor(pool, product, second));
    matches!(compare(pool, left, right), Ordering::Equal)
}

/// The first factor behind a place that has the base of the one there.
#[tactic(auto, using(crate::proofs::Pairs::no_partner_more))]
fn partner_of(pool: &Pool, product: &Handle, first: u16) -> Option<u16>
    requires stands { Stands pool.now }
    requires product { IsProduct product.now (forest pool.now) (factors_in product.now (forest pool.now)) }
    requires reduced { are_reduced (factors_in product.now (forest pool.now)) ≡ true }
    requires within { first < count (factors_in product.now (forest pool.now)) }
    ensures { let ts = factors_in product.now (forest pool.now) in
        MatchOption result (HasNoPartner first (count ts) ts) (λ second. IsNearest first second ts) }
{
    let count = factor_count(pool, product);
    for second in first + 1..count {
        if are_partners(pool, product, first, second) {
            return Some(second);
        }
    }
    None
}

/// The first factor that has a partner, and the first of its partners.
fn first_pair(pool: &Pool, product: &Handle) -> Option<(u16, u16)>
    requires stands { Stands pool.now }
    requires product { IsProduct product.now (forest pool.now) (factors_in product.now (forest pool.now)) }
    requires reduced { are_reduced (factors_in product.now (forest pool.now)) ≡ true }
    ensures { let ts = factors_in product.now (forest pool.now) in
        MatchOption result (have_partners ts ≡ false) (λ pair. IsFirstPair pair.0 pair.1 ts) }
{
    for first in 0..factor_count(pool, product) {
        if let Some(second) = partner_of(pool, product, first) {
            return Some((first, second));
        }
    }
    None
}

/// The first pair joined with the coefficient in front.
#[tactic(auto, using(tree_handles::proofs::Fronts::front_after_one, tree_handles::proofs::Fronts::behind_first, tree_handles::proofs::Fronts::front_same))]
fn joined(
    pool: &mut Pool,
    product: Handle,
    coefficient: Handle,
    first: u16,
    second: u16,
) -> Result<Handle, Full>
    requires stands { Stands pool.old }
    requires product { IsProduct product (forest pool.old) (factors_in product (forest pool.old)) }
    requires reduced { are_reduced (factors_in product (forest pool.old)) ≡ true }
    requires pair { IsFirstPair first second (factors_in product (forest pool.old)) }
    requires coefficient { IsHanded coefficient (forest pool.old) }
    requires apart { (coefficient == product) ≡ false }
    ensures ok { IfOk result (λ h. Gives (without_root product (without_root coefficient (forest pool.old))) (forest pool.new) h
        (λ t. t ≡ mult (coefficient_before (tree_of coefficient pool.old) (joined (factors_in product (forest pool.old)))))) }
    ensures front { KeepsFront (product ∷ coefficient ∷ []) (forest pool.old) (forest pool.new) }
    ensures room { IfErr result (λ full. free_of pool.old < 96) }
    ensures leaves { LeavesFull result pool.old pool.new }
{
    join_pair(pool, &product, first, second)?;
    put_in_front(pool, &product, coefficient);
    move_last(pool, &product);
    Ok(product)
}

/// Factors whose bases differ, sorted behind a coefficient.
fn sorted(pool: &mut Pool, product: Handle, coefficient: Handle) -> Result<Handle, NumberFault>
    requires stands { Stands pool.old }
    requires product { IsProduct product (forest pool.old) (factors_in product (forest pool.old)) }
    requires others { AreOthers (factors_in product (forest pool.old)) }
    requires differ { have_partners (factors_in product (forest pool.old)) ≡ false }
    requires coefficient { IsHanded coefficient (forest pool.old) }
    requires number { is_number (tree_of coefficient pool.old) ≡ true }
    requires not_zero { is_zero (tree_of coefficient pool.old) ≡ false }
    requires apart { (coefficient == product) ≡ false }
    ensures ok { IfOk result (λ h. Gives (without_root product (without_root coefficient (forest pool.old))) (forest pool.new) h
        (IsEnding (tree_of coefficient pool.old) (factors_in product (forest pool.old)))) }
    ensures alone { factors_in product (forest pool.old) ≡ none → IfErr result (λ f. ⊥) }
    ensures overflow { IfErr result (OfOverflow (SpreadingOverflows (tree_of coefficient pool.old) (factors_in product (forest pool.old)))) }
    ensures front { KeepsFront (product ∷ coefficient ∷ []) (forest pool.old) (forest pool.new) }
    ensures room { let ts = factors_in product (forest pool.old) in
        (gs : List ℕ) → SpansTree gs (tree_of coefficient pool.old) → SpansTrees gs ts
        → IfErr result (LacksRoom (counted (mult ts)) (free_of pool.old + size (tree_of coefficient pool.old) + size (mult ts)) gs) }
    ensures leaves { LeavesPool result pool.old pool.new }
{
    sort_factors(pool, &product, 0);
    finished(pool, product, coefficient)
}
