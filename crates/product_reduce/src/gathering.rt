//! Numbers of a product gathered, its other factors put in order, and neighbours of one base joined.
ghost use Rattle.std.specs.Prelude.{ℕ, List, length, ◌≡◌, ◌==◌, ◌≤◌, ◌<◌, ◌+◌, ◌*◌, ◌^◌, true, false, IfOk, IfErr, IfSome, MatchOption, OnOk, [], ◌∷◌};
ghost use Rattle.tree_bits.specs.Rows.{AreFewBits};
ghost use Rattle.calc_algebra.specs.Numbers.{is_number};
ghost use Rattle.calc_algebra.specs.Reduced.{are_reduced};
ghost use Rattle.calc_measures.specs.PlainValues.{plain_value};
ghost use Rattle.calc_room.specs.Counts.{counted};
ghost use Rattle.calc_room.specs.Spans.{SpansTree, SpansTrees};
ghost use Rattle.calc_terms.specs.Trees.{Tree, count, is_mult, mult, none, are_rationals, has_undef, size};
ghost use Rattle.coefficients.specs.Rooms.{LacksRoom};
ghost use Rattle.node_pool.specs.State.{free_of};
ghost use Rattle.tree_handles.specs.Lacking.{LacksBelow};
ghost use Rattle.product_reduce.specs.Answers.{AreOthers, IfFinished, IfJoined, IsFinished, IsStop, AnswersRationalFactors};
ghost use Rattle.product_reduce.specs.Bits.{AreFactorsHeld};
ghost use Rattle.product_reduce.specs.Bounds.{KeepsFactorBounds, KeepsProductBounds};
ghost use Rattle.product_reduce.specs.Factors.{others_in, coefficient_before};
ghost use Rattle.product_reduce.specs.Gathering.{IsGathered, IsLead, IsOrdered};
ghost use Rattle.product_reduce.specs.Misfits.{IsFactorMisfit, SpreadingOverflows};
ghost use Rattle.product_reduce.specs.Neighbours.{IsPairAt, IsNextPair, NoPairBetween, joined_pair};
ghost use Rattle.product_reduce.specs.Products.{IsProduct, factors_in};
ghost use Rattle.product_reduce.specs.Pools.{LeavesPool};
ghost use Rattle.tree_handles.specs.Causes.{IsCaused};
ghost use Rattle.tree_handles.specs.Expressions.{children_of};
ghost use Rattle.tree_handles.specs.Faults.{OfOverflow, Faults};
ghost use Rattle.tree_handles.specs.Handed.{tree_of, IsHanded, Gives, KeepsFront};
ghost use Rattle.tree_handles.specs.Roots.{without_root};
ghost use Rattle.tree_handles.specs.Standing.{LacksBytes, Stands, forest, KeepsRefusals, Refuses};
ghost use Rattle.tree_room.specs.Handed.{product_count};
ghost use Rattle.tree_room.specs.Needs.{product_step_room};

use crate::endings::{alone, finished};
use crate::factors::{factor_count, has_undef_factor, open_products};
use crate::fronting::put_in_front;
use crate::joining::join_pair;
use crate::leading::written_lead;
use crate::numbers::take_coefficient;
use crate::sorting::{Bases, sort_factors};
use coefficients::unwrapped;
use node_pool::{Full, Pool};
use number_forms::is_zero;
use tree_handles::{Handle, NumberFault, move_last, undefined};

/// What is made of a product whose factors are gathered.
#[derive(Drop)]
pub enum Joining {
    /// A reduced tree.
    Done(Handle),
    /// The product, in which neighbours are to be joined, and the place of the first that has the base of the next one,
    /// counted from 0.
    Joined { product: Handle, at: u16 },
}

/// A product of reduced factors with its Numbers as one coefficient and its other factors in the order of their bases,
/// and the place of the first that has the base of the next one; where there is none, the reduced tree.
#[tactic(auto, using(crate::proofs::Stepped::handed_product, tree_handles::proofs::Given::given_told))]
pub fn gather_factors(pool: &mut Pool, product: Handle) -> Result<Joining, NumberFault>
    requires stands { Stands pool.old }
    requires handed { IsHanded product (forest pool.old) }
    requires product { is_mult (tree_of product pool.old) ≡ true }
    requires some { 1 ≤ count (children_of (tree_of product pool.old)) }
    requires reduced { are_reduced (children_of (tree_of product pool.old)) ≡ true }
    ensures done { IfOk result (λ s. IfFinished s (λ h. Gives (without_root product (forest pool.old)) (forest pool.new) h
        (IsFinished (children_of (tree_of product pool.old))))) }
    ensures gathered { IfOk result (λ s. IfJoined s (λ h _. Gives (without_root product (forest pool.old)) (forest pool.new) h
        (IsGathered (children_of (tree_of product pool.old))))) }
    ensures pair { IfOk result (λ s. IfJoined s (λ h at. IsPairAt at (children_of (tree_of h pool.new)))) }
    ensures fits { IfOk result (λ s. IfJoined s (λ h at. at + 1 < 2 ^ 16)) }
    ensures rationals { are_rationals (children_of (tree_of product pool.old)) ≡ true
        → AnswersRationalFactors (plain_value (tree_of product pool.old)) pool.new result }
    ensures overflow { IfErr result (OfOverflow (IsFactorMisfit (children_of (tree_of product pool.old)))) }
    ensures defined { IfErr result (OfOverflow (λ o. has_undef (children_of (tree_of product pool.old)) ≡ false)) }
    ensures front { KeepsFront (product ∷ []) (forest pool.old) (forest pool.new) }
    ensures kept { OnOk result (KeepsRefusals pool.old pool.new) }
    ensures faults { IfErr result (Faults pool.old pool.new) }
    ensures caused { IfErr result (IsCaused pool.new) }

    // Bytes are lacking only where fewer are free or in the product than the step needs, for each choice of radicands.
    ensures room { let t = tree_of product pool.old in (gs : List ℕ) → SpansTree gs t
        → IfErr result (LacksBelow (product_step_room (product_count (children_of t)) (2 ^ length gs)) (free_of pool.old + size t)) }

    // A reduced tree counts no more than the product, has no new powers, and is spanned and held by what spans and holds the factors.
    // So do factors in order, of which two at most are Numbers.
    ensures bounds { IfOk result (λ s. IfFinished s (λ h. KeepsProductBounds (children_of (tree_of product pool.old)) (tree_of h pool.new))) }
    ensures joined_bounds { IfOk result (λ s. IfJoined s (λ h _. KeepsFactorBounds (children_of (tree_of product pool.old)) (tree_of h pool.new))) }

    // Where the bits that hold the factors one by one are few, nothing overflows.
    ensures bits { (h l : ℕ) → AreFactorsHeld (children_of (tree_of product pool.old)) h l → AreFewBits h l → IfErr result (OfOverflow (λ o. ⊥)) }

    ensures stands { Stands pool.new }
{
    if has_undef_factor(pool, &product) {
        return Ok(Joining::Done(undefined(pool, product)));
    }
    open_products(pool, &product);
    if let Some(lead) = written_lead(pool, &product) {
        return Ok(order_behind(pool, product, lead));
    }
    let coefficient = take_coefficient(pool, &product)?;
    order_or_end(pool, product, coefficient)
}

/// The factors behind a coefficient that stands first as it is written, put in order.
#[tactic(auto, using(crate::proofs::Leads::lead_within, tree_handles::proofs::Lasts::last_tree, tree_handles::proofs::Fronts::front_end, tree_handles::proofs::Fronts::front_without, tree_handles::proofs::Fronts::behind_first, tree_handles::proofs::Fronts::front_after_one, tree_handles::proofs::Fronts::front_same))]
fn order_behind(pool: &mut Pool, product: Handle, lead: u16) -> Joining
    requires stands { Stands pool.old }
    requires product { IsProduct product (forest pool.old) (factors_in product (forest pool.old)) }
    requires reduced { are_reduced (factors_in product (forest pool.old)) ≡ true }
    requires others { AreOthers (others_in (factors_in product (forest pool.old))) }
    requires lead { (c : Tree) × IsLead lead c (factors_in product (forest pool.old)) }
    ensures done { let ts = factors_in product (forest pool.old) in (c : Tree) → IsLead lead c ts
        → IfFinished result (λ h. Gives (without_root product (forest pool.old)) (forest pool.new) h (IsStop c (others_in ts))) }
    ensures ordered { let ts = factors_in product (forest pool.old) in (c : Tree) → IsLead lead c ts
        → IfJoined result (λ h _. Gives (without_root product (forest pool.old)) (forest pool.new) h (IsOrdered c (others_in ts))) }
    ensures pair { IfJoined result (λ h at. IsPairAt at (children_of (tree_of h pool.new))) }
    ensures fits { IfJoined result (λ h at. at + 1 < 2 ^ 16) }
    ensures front { KeepsFront (product ∷ []) (forest pool.old) (forest pool.new) }
    ensures kept { KeepsRefusals pool.old pool.new }
    ensures stands { Stands pool.new }
{
    sort_factors(pool, &product, lead);
    match like_children::next_pair(pool, &product, lead, &Bases) {
        Some(at) => {
            move_last(pool, &product);
            Joining::Joined { product, at }
        }
        None => Joining::Done(unwrapped(pool, product)),
    }
}

/// A coefficient and the other factors, put in order.
fn order_or_end(
    pool: &mut Pool,
    product: Handle,
    coefficient: Handle,
) -> Result<Joining, NumberFault>
    requires stands { Stands pool.old }
    requires product { IsProduct product (forest pool.old) (factors_in product (forest pool.old)) }
    requires others { AreOthers (factors_in product (forest pool.old)) }
    requires coefficient { IsHanded coefficient (forest pool.old) }
    requires number { is_number (tree_of coefficient pool.old) ≡ true }
    requires apart { (coefficient == product) ≡ false }
    ensures done { IfOk result (λ s. IfFinished s (λ h. Gives (without_root product (without_root coefficient (forest pool.old))) (forest pool.new) h
        (IsStop (tree_of coefficient pool.old) (factors_in product (forest pool.old))))) }
    ensures ordered { IfOk result (λ s. IfJoined s (λ h _. Gives (without_root product (without_root coefficient (forest pool.old))) (forest pool.new) h
        (IsOrdered (tree_of coefficient pool.old) (factors_in product (forest pool.old))))) }
    ensures pair { IfOk result (λ s. IfJoined s (λ h at. IsPairAt at (children_of (tree_of h pool.new)))) }
    ensures fits { IfOk result (λ s. IfJoined s (λ h at. at + 1 < 2 ^ 16)) }
    ensures alone { factors_in product (forest pool.old) ≡ none → IfErr result (λ f. ⊥) }
    ensures overflow { IfErr result (OfOverflow (SpreadingOverflows (tree_of coefficient pool.old) (factors_in product (forest pool.old)))) }
    ensures front { KeepsFront (product ∷ coefficient ∷ []) (forest pool.old) (forest pool.new) }
    ensures room { let ts = factors_in product (forest pool.old) in
        (gs : List ℕ) → SpansTree gs (tree_of coefficient pool.old) → SpansTrees gs ts
        → IfErr result (LacksRoom (counted (mult ts)) (free_of pool.old + size (tree_of coefficient pool.old) + size (mult ts)) gs) }
    ensures leaves { LeavesPool result pool.old pool.new }
{
    if is_zero(pool, coefficient.id()) {
        return Ok(Joining::Done(alone(pool, product, coefficient)));
    }
    sort_factors(pool, &product, 0);
    match like_children::next_pair(pool, &product, 0, &Bases) {
        Some(first) => {
            let (product, at) = behind(pool, product, coefficient, first);
            Ok(Joining::Joined { product, at })
        }
        None => Ok(Joining::Done(finished(pool, product, coefficient)?)),
    }
}

/// The factors of a product behind a coefficient, and where a pair of them stands then.
#[tactic(auto, using(crate::proofs::Products::factors_are, crate::proofs::JointPlaces::count_before, tree_handles::proofs::Lasts::last_tree, crate::proofs::Neighbours::pair_before))]
fn behind(pool: &mut Pool, product: Handle, coefficient: Handle, first: u16) -> (Handle, u16)
    requires stands { Stands pool.old }
    requires product { IsProduct product (forest pool.old) (factors_in product (forest pool.old)) }
    requires pair { IsPairAt first (factors_in product (forest pool.old)) }
    requires coefficient { IsHanded coefficient (forest pool.old) }
    requires apart { (coefficient == product) ≡ false }
    ensures ok { Gives (without_root product (without_root coefficient (forest pool.old))) (forest pool.new) result.0
        (λ t. t ≡ mult (coefficient_before (tree_of coefficient pool.old) (factors_in product (forest pool.old)))) }
    ensures pair { IsPairAt result.1 (children_of (tree_of result.0 pool.new)) }
    ensures fits { result.1 + 1 < 2 ^ 16 }
    ensures front { KeepsFront (product ∷ coefficient ∷ []) (forest pool.old) (forest pool.new) }
    ensures kept { KeepsRefusals pool.old pool.new }
    ensures stands { Stands pool.new }
{
    let others = factor_count(pool, &product);
    put_in_front(pool, &product, coefficient);
    let in_front = factor_count(pool, &product) - others;
    move_last(pool, &product);
    (product, in_front + first)
}

/// The pair at a place joined: its base to the sum of the two exponents stands there. That power alone is not reduced yet.
#[tactic(auto, using(crate::proofs::Stepped::handed_product, tree_handles::proofs::Lasts::ends_as, tree_handles::proofs::Given::represents_handed, tree_handles::proofs::Fronts::front_end, tree_handles::proofs::Fronts::front_without, tree_handles::proofs::Fronts::behind_first))]
pub fn join_neighbours(pool: &mut Pool, product: Handle, at: u16) -> Result<Handle, Full>
    requires stands { Stands pool.old }
    requires handed { IsHanded product (forest pool.old) }
    requires product { is_mult (tree_of product pool.old) ≡ true }
    requires reduced { are_reduced (children_of (tree_of product pool.old)) ≡ true }
    requires pair { IsPairAt at (children_of (tree_of product pool.old)) }
    requires fits { at + 1 < 2 ^ 16 }
    ensures ok { IfOk result (λ h. Gives (without_root product (forest pool.old)) (forest pool.new) h
        (λ t. t ≡ mult (joined_pair at (at + 1) (children_of (tree_of product pool.old))))) }
    ensures front { KeepsFront (product ∷ []) (forest pool.old) (forest pool.new) }
    ensures kept { OnOk result (KeepsRefusals pool.old pool.new) }
    ensures full { IfErr result (Refuses pool.old pool.new) }
    ensures caused { IfErr result (LacksBytes pool.new) }

    // Two exponents 1, a sum and a power are placed at most.
    ensures room { IfErr result (λ full. free_of pool.old < 96) }

    ensures stands { Stands pool.new }
{
    join_pair(pool, &product, at, at + 1)?;
    move_last(pool, &product);
    Ok(product)
}

/// The first place from one on where a product of reduced factors has a pair.
#[tactic(auto, using(crate::proofs::Finished::reduced_nth))]
pub fn next_pair(pool: &Pool, product: &Handle, from: u16) -> Option<u16>
    requires stands { Stands pool.now }
    requires handed { IsHanded product.now (forest pool.now) }
    requires product { is_mult (tree_of product.now pool.now) ≡ true }
    requires reduced { are_reduced (children_of (tree_of product.now pool.now)) ≡ true }
    requires within { from ≤ count (children_of (tree_of product.now pool.now)) }
    ensures pair { let ts = children_of (tree_of product.now pool.now) in
        MatchOption result (NoPairBetween from (count ts) ts) (λ at. IsNextPair from at ts) }
    ensures fits { IfSome result (λ at. at + 1 < 2 ^ 16) }
{
    like_children::next_pair(pool, product, from, &Bases)
}
