//! Products and powers of reduced trees: steps are taken, and the new powers of each are reduced,
//! until nothing is left to reduce.
ghost use Rattle.std.specs.Prelude.{ℕ, ℤ, List, length, IsOk, ◌≡◌, ◌≤◌, ◌<◌, ◌+◌, ◌^◌, IfOk, IfErr, OnOk, [], ◌∷◌, true, false};
ghost use Rattle.calc_measures.specs.PlainValues.{plain_value};
ghost use Rattle.calc_algebra.specs.Reduced.{is_half_num, is_whole_num, is_reduced, are_reduced};
ghost use Rattle.calc_terms.specs.Trees.{Tree, Trees, mult, count, is_mult, is_num, num, size, has_undef, power as power_tree, are_rationals};
ghost use Rattle.calc_room.specs.Counts.{counted};
ghost use Rattle.calc_room.specs.Spans.{SpansTree};
ghost use Rattle.calc_terms.specs.Fractions.{whole_fraction};
ghost use Rattle.tree_bits.specs.Rows.{AreFewBits};
ghost use Rattle.number_forms.specs.Readers.{numerator};
ghost use Rattle.power_reduce.specs.Bits.{HasFewBitsRaised};
ghost use Rattle.product_reduce.specs.Bits.{IsFactorHeld, AreFactorsHeld};
ghost use Rattle.node_bounds.specs.Rooms.{IsCalmAtZero, IsJoinedFrom, IsRewritten, SpansRootOf, whole_power_room};
ghost use Rattle.tree_handles.specs.Lacking.{LacksBelow};
ghost use Rattle.node_pool.specs.State.{free_of};
ghost use Rattle.tree_room.specs.Handed.{product_count};
ghost use Rattle.tree_room.specs.Needs.{power_room, product_room};
ghost use Rattle.node_bounds.specs.Answers.{IsReducedProduct, IsWrittenApart, IsReducedPower};
ghost use Rattle.deep_reduce.specs.Unfinished.{AreTransparent, Finishes, IsJoinedProduct, IsLess, IsSettled, IsUnfinished};
ghost use Rattle.node_bounds.specs.HandedOn.{IsLifted, IsProductOfPowers};
ghost use Rattle.number_forms.specs.Answers.{AnswersRationals};
ghost use Rattle.power_reduce.specs.PowerAnswers.{base_in, exponent_in};
ghost use Rattle.product_reduce.specs.Joining.{IsJointAt};
ghost use Rattle.product_reduce.specs.Neighbours.{IsPairAt};
ghost use Rattle.tree_handles.specs.Causes.{IsCaused};
ghost use Rattle.tree_handles.specs.Handed.{tree_of, IsHanded, Gives, KeepsFront};
ghost use Rattle.tree_handles.specs.Expressions.{children_of};
ghost use Rattle.tree_handles.specs.Faults.{Faults, OfOverflow};
ghost use Rattle.tree_handles.specs.Roots.{without_root};
ghost use Rattle.product_reduce.specs.Pools.{LeavesPool};
ghost use Rattle.tree_handles.specs.Standing.{Stands, forest, KeepsRefusals};

use crate::exponents::sum_exponent;
use crate::halves::{has_half_exponent, reduce_half_power};
use calc_terms::Kind;
use node_pool::Pool;
use power_reduce::power_step;
use product_reduce::{Joining, gather_factors, join_neighbours, next_pair};
use reduce_port::Step;
use tree_handles::{Handle, NumberFault, child_id, children, fill, kind, move_last, open_child};

/// The product of reduced factors, as a reduced tree. Its Numbers become one coefficient, and the others are put in the
/// order of their bases; neighbours of one base are joined from left to right, each joint reduced before the next pair
/// is sought; and so again until no two have one base.
#[cycle(reduction)]
#[tactic(auto, using(crate::proofs::Arms::is_finished, tree_handles::proofs::Given::given_told))]
pub fn reduce_product(pool: &mut Pool, product: Handle) -> Result<Handle, NumberFault>
    requires stands { Stands pool.old }
    requires handed { IsHanded product (forest pool.old) }
    requires product { is_mult (tree_of product pool.old) ≡ true }
    requires some { 1 ≤ count (children_of (tree_of product pool.old)) }
    requires reduced { are_reduced (children_of (tree_of product pool.old)) ≡ true }
    ensures ok { IfOk result (λ h. Gives (without_root product (forest pool.old)) (forest pool.new) h
        (IsReducedProduct (children_of (tree_of product pool.old)))) }

    // The answer is the factors joined, and then finished. Where there are none to join, they are written as they are.
    ensures joined { IfOk result (λ h. IsJoinedProduct (children_of (tree_of product pool.old)) (tree_of h pool.new)) }
    ensures written { IfOk result (λ h. IsWrittenApart (children_of (tree_of product pool.old)) (tree_of h pool.new)) }

    ensures rationals { are_rationals (children_of (tree_of product pool.old)) ≡ true
        → AnswersRationals (plain_value (tree_of product pool.old)) pool.new result }
    ensures defined { IfErr result (OfOverflow (λ o. has_undef (children_of (tree_of product pool.old)) ≡ false)) }
    ensures front { KeepsFront (product ∷ []) (forest pool.old) (forest pool.new) }
    ensures kept { OnOk result (KeepsRefusals pool.old pool.new) }
    ensures faults { IfErr result (Faults pool.old pool.new) }
    ensures caused { IfErr result (IsCaused pool.new) }

    // Of calm factors bytes are lacking only where fewer are at hand than the product needs.
    ensures room { (gs : List ℕ) (ns : List (List ℕ)) → IsCalmAtZero ns (tree_of product pool.old) → SpansTree gs (tree_of product pool.old)
        → IfErr result (LacksBelow (product_room (product_count (children_of (tree_of product pool.old))) (2 ^ length gs)) (free_of pool.old + size (tree_of product pool.old))) }

    // Where few bits hold the factors one by one, nothing overflows.
    ensures bits { (h l : ℕ) → AreFactorsHeld (children_of (tree_of product pool.old)) h l → AreFewBits h l → IfErr result (OfOverflow (λ o. ⊥)) }

    ensures stands { Stands pool.new }
{
    match gather_factors(pool, product)? {
        Joining::Done(answer) => Ok(answer),
        Joining::Joined { product, at } => {
            let joined = join_pairs(pool, product, at)?;
            reduce_product(pool, joined)
        }
    }
}

/// From a pair on, two neighbours of one base become one factor, until there is no pair behind.
#[cycle(reduction)]
#[tactic(auto, using(tree_handles::proofs::Given::given_handed, tree_handles::proofs::Given::given_told))]
fn join_pairs(pool: &mut Pool, product: Handle, first: u16) -> Result<Handle, NumberFault>
    requires stands { Stands pool.old }
    requires handed { IsHanded product (forest pool.old) }
    requires product { is_mult (tree_of product pool.old) ≡ true }
    requires reduced { are_reduced (children_of (tree_of product pool.old)) ≡ true }
    requires pair { IsPairAt first (children_of (tree_of product pool.old)) }
    requires fits { first + 1 < 2 ^ 16 }
    ensures ok { IfOk result (λ h. Gives (without_root product (forest pool.old)) (forest pool.new) h
        (IsLess (children_of (tree_of product pool.old)))) }
    ensures front { KeepsFront (product ∷ []) (forest pool.old) (forest pool.new) }
    ensures room { (gs : List ℕ) (ns : List (List ℕ)) → IsCalmAtZero ns (tree_of product pool.old) → SpansTree gs (tree_of product pool.old)
        → IfErr result (LacksBelow (product_room (product_count (children_of (tree_of product pool.old))) (2 ^ length gs)) (free_of pool.old + size (tree_of product pool.old))) }
    ensures bits { (h l : ℕ) → AreFactorsHeld (children_of (tree_of product pool.old)) h l → AreFewBits h l → IfErr result (OfOverflow (λ o. ⊥)) }
    ensures leaves { LeavesPool result pool.old pool.new }
{
    let mut joined = join_two(pool, product, first)?;
    let mut next = next_pair(pool, &joined, first);
    while let Some(at) = next {
        match join_two(pool, joined, at) {
            Ok(product) => joined = product,
            Err(fault) => return Err(fault),
        }
        next = next_pair(pool, &joined, at);
    }
    Ok(joined)
}

/// Two neighbours of one base become one factor, which is reduced.
#[cycle(reduction)]
fn join_two(pool: &mut Pool, product: Handle, at: u16) -> Result<Handle, NumberFault>
    requires stands { Stands pool.old }
    requires handed { IsHanded product (forest pool.old) }
    requires product { is_mult (tree_of product pool.old) ≡ true }
    requires reduced { are_reduced (children_of (tree_of product pool.old)) ≡ true }
    requires pair { IsPairAt at (children_of (tree_of product pool.old)) }
    requires fits { at + 1 < 2 ^ 16 }
    ensures ok { IfOk result (λ h. Gives (without_root product (forest pool.old)) (forest pool.new) h
        (IsLess (children_of (tree_of product pool.old)))) }
    ensures within { IfOk result (λ h. at < count (children_of (tree_of h pool.new))) }
    ensures front { KeepsFront (product ∷ []) (forest pool.old) (forest pool.new) }
    ensures room { (gs : List ℕ) (ns : List (List ℕ)) → IsCalmAtZero ns (tree_of product pool.old) → SpansTree gs (tree_of product pool.old)
        → IfErr result (LacksBelow (product_room (product_count (children_of (tree_of product pool.old))) (2 ^ length gs)) (free_of pool.old + size (tree_of product pool.old))) }
    ensures bits { (h l : ℕ) → AreFactorsHeld (children_of (tree_of product pool.old)) h l → AreFewBits h l → IfErr result (OfOverflow (λ o. ⊥)) }
    ensures leaves { LeavesPool result pool.old pool.new }
{
    let joined = join_neighbours(pool, product, at)?;
    reduce_joint(pool, joined, at)
}

/// The joint of two factors, reduced in its place: first the sum of the exponents, then the power.
#[cycle(reduction)]
fn reduce_joint(pool: &mut Pool, product: Handle, at: u16) -> Result<Handle, NumberFault>
    requires stands { Stands pool.old }
    requires handed { IsHanded product (forest pool.old) }
    requires product { is_mult (tree_of product pool.old) ≡ true }
    requires joint { IsJointAt at (children_of (tree_of product pool.old)) }
    ensures ok { IfOk result (λ h. Gives (without_root product (forest pool.old)) (forest pool.new) h
        (IsSettled at (children_of (tree_of product pool.old)))) }
    ensures front { KeepsFront (product ∷ []) (forest pool.old) (forest pool.new) }
    ensures room { (gs : List ℕ) (ns : List (List ℕ)) (ts : Trees) → IsJoinedFrom at ts (children_of (tree_of product pool.old)) → IsCalmAtZero ns (mult ts) → SpansTree gs (mult ts)
        → IfErr result (LacksBelow (product_room (product_count ts) (2 ^ length gs)) (free_of pool.old + size (tree_of product pool.old))) }
    ensures bits { (h l : ℕ) (ts : Trees) → IsJoinedFrom at ts (children_of (tree_of product pool.old)) → AreFactorsHeld ts h l → AreFewBits h l → IfErr result (OfOverflow (λ o. ⊥)) }
    ensures leaves { LeavesPool result pool.old pool.new }
{
    let (hole, joint) = open_child(pool, &product, at);
    let power = sum_exponent(pool, joint)?;
    let factor = reduce_power(pool, power)?;
    fill(pool, hole, factor);
    move_last(pool, &product);
    Ok(product)
}

/// A power of reduced trees, as a reduced tree.
#[cycle(reduction)]
pub fn reduce_power(pool: &mut Pool, power: Handle) -> Result<Handle, NumberFault>
    requires stands { Stands pool.old }
    requires handed { IsHanded power (forest pool.old) }
    requires power { let t = tree_of power pool.old in t ≡ power_tree (base_in t) (exponent_in t) }
    requires base { is_reduced (base_in (tree_of power pool.old)) ≡ true }
    requires exponent { is_reduced (exponent_in (tree_of power pool.old)) ≡ true }
    ensures ok { let t = tree_of power pool.old in
        IfOk result (λ h. Gives (without_root power (forest pool.old)) (forest pool.new) h
        (IsReducedPower (base_in t) (exponent_in t))) }
    ensures rationals { let t = tree_of power pool.old in
        is_num (base_in t) ≡ true → is_num (exponent_in t) ≡ true → is_half_num (exponent_in t) ≡ false
        → AnswersRationals (plain_value t) pool.new result }
    ensures defined { IfErr result (OfOverflow (λ o. has_undef (children_of (tree_of power pool.old)) ≡ false)) }
    ensures front { KeepsFront (power ∷ []) (forest pool.old) (forest pool.new) }
    ensures kept { OnOk result (KeepsRefusals pool.old pool.new) }
    ensures faults { IfErr result (Faults pool.old pool.new) }
    ensures caused { IfErr result (IsCaused pool.new) }

    // For a calm whole power bytes are lacking only where fewer are at hand than it needs, and for half of an odd number only where
    // fewer are than the power of the root needs. Any other power is answered.
    ensures room { (gs : List ℕ) (ns : List (List ℕ)) → IsCalmAtZero ns (tree_of power pool.old) → SpansTree gs (tree_of power pool.old)
        → is_whole_num (exponent_in (tree_of power pool.old)) ≡ true
        → IfErr result (LacksBelow (whole_power_room (base_in (tree_of power pool.old)) (2 ^ length gs)) (free_of pool.old + size (tree_of power pool.old))) }
    ensures root_room { (gs : List ℕ) → is_half_num (exponent_in (tree_of power pool.old)) ≡ true → SpansRootOf gs (base_in (tree_of power pool.old))
        → IfErr result (LacksBelow (power_room (1 + counted (base_in (tree_of power pool.old))) (2 ^ length gs)) (free_of pool.old + size (tree_of power pool.old))) }
    ensures others { is_whole_num (exponent_in (tree_of power pool.old)) ≡ false → is_half_num (exponent_in (tree_of power pool.old)) ≡ false → IsOk result }

    // Where the power n of what holds the base has few bits, nothing overflows; for n/2 as the exponent, where the base has few bits too.
    ensures bits { (n : ℤ) (h l : ℕ) → exponent_in (tree_of power pool.old) ≡ num (whole_fraction n) → IsFactorHeld (base_in (tree_of power pool.old)) h l → HasFewBitsRaised n h l
        → IfErr result (OfOverflow (λ o. ⊥)) }
    ensures root_bits { (h l : ℕ) → is_half_num (exponent_in (tree_of power pool.old)) ≡ true → (h ≡ 0 → l ≡ 0) → IsFactorHeld (base_in (tree_of power pool.old)) h l → AreFewBits h l
        → HasFewBitsRaised (numerator (exponent_in (tree_of power pool.old))) h l → IfErr result (OfOverflow (λ o. ⊥)) }

    ensures stands { Stands pool.new }
{
    if has_half_exponent(pool, &power) {
        return reduce_half_power(pool, power);
    }
    match power_step(pool, power)? {
        Step::Done(answer) => Ok(answer),
        Step::Again(tree) => reduce_rewritten(pool, tree),
    }
}

/// A power after one rewriting: its powers are reduced where it is a product, and else its exponent,
/// and then it is reduced itself.
#[cycle(reduction)]
#[tactic(auto, using(tree_handles::proofs::Seen::live))]
fn reduce_rewritten(pool: &mut Pool, tree: Handle) -> Result<Handle, NumberFault>
    requires stands { Stands pool.old }
    requires handed { IsHanded tree (forest pool.old) }
    requires unfinished { IsUnfinished (tree_of tree pool.old) }
    ensures ok { IfOk result (λ h. Gives (without_root tree (forest pool.old)) (forest pool.new) h
        (Finishes (tree_of tree pool.old))) }
    ensures front { KeepsFront (tree ∷ []) (forest pool.old) (forest pool.new) }
    ensures room { (gs : List ℕ) (ns : List (List ℕ)) (b e : Tree) → IsRewritten b e (tree_of tree pool.old) → IsCalmAtZero ns (power_tree b e) → SpansTree gs (power_tree b e)
        → IfErr result (LacksBelow (whole_power_room b (2 ^ length gs)) (free_of pool.old + size (tree_of tree pool.old))) }
    ensures bits { (b e : Tree) (n : ℤ) (h l : ℕ) → IsRewritten b e (tree_of tree pool.old) → e ≡ num (whole_fraction n) → IsFactorHeld b h l → HasFewBitsRaised n h l
        → IfErr result (OfOverflow (λ o. ⊥)) }
    ensures leaves { LeavesPool result pool.old pool.new }
{
    match kind(pool, tree.id()) {
        Kind::Mult => {
            let product = reduce_powers(pool, tree)?;
            reduce_product(pool, product)
        }
        _ => {
            let power = reduce_exponent(pool, tree)?;
            reduce_power(pool, power)
        }
    }
}

/// Each power of a product, reduced in its place, from left to right.
#[cycle(reduction)]
#[tactic(auto, using(tree_handles::proofs::Seen::live))]
fn reduce_powers(pool: &mut Pool, product: Handle) -> Result<Handle, NumberFault>
    requires stands { Stands pool.old }
    requires handed { IsHanded product (forest pool.old) }
    requires product { is_mult (tree_of product pool.old) ≡ true }
    requires powers { AreTransparent (children_of (tree_of product pool.old)) }
    ensures ok { IfOk result (λ h. Gives (without_root product (forest pool.old)) (forest pool.new) h
        (IsProductOfPowers (children_of (tree_of product pool.old)))) }
    ensures front { KeepsFront (product ∷ []) (forest pool.old) (forest pool.new) }
    ensures room { (gs : List ℕ) (ns : List (List ℕ)) (b e : Tree) → IsRewritten b e (tree_of product pool.old) → IsCalmAtZero ns (power_tree b e) → SpansTree gs (power_tree b e)
        → IfErr result (LacksBelow (whole_power_room b (2 ^ length gs)) (free_of pool.old + size (tree_of product pool.old))) }
    ensures bits { (b e : Tree) (n : ℤ) (h l : ℕ) → IsRewritten b e (tree_of product pool.old) → e ≡ num (whole_fraction n) → IsFactorHeld b h l → HasFewBitsRaised n h l
        → IfErr result (OfOverflow (λ o. ⊥)) }
    ensures leaves { LeavesPool result pool.old pool.new }
{
    let powers = children(pool, product.id());
    for at in 0..powers {
        let (hole, power) = open_child(pool, &product, at);
        let reduced = reduce_power(pool, power)?;
        fill(pool, hole, reduced);
    }
    move_last(pool, &product);
    Ok(product)
}

/// The exponent of a power, reduced in its place where it is a product.
#[cycle(reduction)]
fn reduce_exponent(pool: &mut Pool, power: Handle) -> Result<Handle, NumberFault>
    requires stands { Stands pool.old }
    requires handed { IsHanded power (forest pool.old) }
    requires power { let t = tree_of power pool.old in t ≡ power_tree (base_in t) (exponent_in t) }
    requires unfinished { IsUnfinished (tree_of power pool.old) }
    ensures ok { IfOk result (λ h. Gives (without_root power (forest pool.old)) (forest pool.new) h
        (IsLifted (tree_of power pool.old))) }
    ensures front { KeepsFront (power ∷ []) (forest pool.old) (forest pool.new) }
    ensures room { (gs : List ℕ) (ns : List (List ℕ)) (b e : Tree) → IsRewritten b e (tree_of power pool.old) → IsCalmAtZero ns (power_tree b e) → SpansTree gs (power_tree b e)
        → IfErr result (LacksBelow (whole_power_room b (2 ^ length gs)) (free_of pool.old + size (tree_of power pool.old))) }
    ensures bits { (b e : Tree) (n : ℤ) (h l : ℕ) → IsRewritten b e (tree_of power pool.old) → e ≡ num (whole_fraction n) → IsFactorHeld b h l → HasFewBitsRaised n h l
        → IfErr result (OfOverflow (λ o. ⊥)) }
    ensures leaves { LeavesPool result pool.old pool.new }
{
    let exponent = child_id(pool, power.id(), 1);
    match kind(pool, exponent) {
        Kind::Mult => {
            let (hole, exponent) = open_child(pool, &power, 1);
            let product = reduce_product(pool, exponent)?;
            fill(pool, hole, product);
            move_last(pool, &power);
            Ok(power)
        }
        _ => {
            move_last(pool, &power);
            Ok(power)
        }
    }
}
