//! Terms with identical parts become one.
ghost use Rattle.std.specs.Prelude.{ℕ, List, length, ◌≡◌, ◌==◌, ◌<◌, ◌≤◌, ◌+◌, ◌*◌, ◌^◌, ◌++◌, true, false, IfOk, IfErr, OnOk, [], ◌∷◌};
ghost use Rattle.calc_algebra.specs.Numbers.{is_number, value};
ghost use Rattle.calc_algebra.specs.Reduced.{is_reduced, part_of, NoneIs};
ghost use Rattle.calc_bits.specs.Bounds.{HasFewBits};
ghost use Rattle.calc_room.specs.Counts.{counted};
ghost use Rattle.calc_room.specs.Needs.{sum_need};
ghost use Rattle.calc_room.specs.Spans.{SpansTree, SpansTrees};
ghost use Rattle.calc_terms.specs.Trees.{Trees, add, count, is_undef, none, more, size};
ghost use Rattle.coefficients.specs.Coefficients.{coefficient_of, factors_of, with_coefficient, IsMonic};
ghost use Rattle.coefficients.specs.Overflows.{NamesPut};
ghost use Rattle.coefficients.specs.Rooms.{LacksRoom};
ghost use Rattle.like_children.specs.Neighbours.{IsPairAt};
ghost use Rattle.node_pool.specs.State.{free_of};
ghost use Rattle.number_forms.specs.Answers.{IsNumberOver};
ghost use Rattle.tree_handles.specs.Lacking.{LacksBelow};
ghost use Rattle.number_forms.specs.Sums.{removed};
ghost use Rattle.sum_reduce.specs.Bits.{HaveFewBits};
ghost use Rattle.sum_reduce.specs.Joining.{IsJoining};
ghost use Rattle.sum_reduce.specs.Overflows.{NamesSum, Overflows};
ghost use Rattle.sum_reduce.specs.Rooms.{LacksTerms};
ghost use Rattle.sum_reduce.specs.Stages.{IsStage, widths};
ghost use Rattle.sum_reduce.specs.Sums.{IsSum, Changes, Takes, terms_in};
ghost use Rattle.sum_reduce.specs.Terms.{AreFormed, is_loose, is_partner};
ghost use Rattle.tree_bits.specs.Children.{addends_of_each};
ghost use Rattle.tree_bits.specs.HeldTrees.{Addend, addend};
ghost use Rattle.tree_handles.specs.Causes.{IsCaused};
ghost use Rattle.tree_handles.specs.Expressions.{nth, inserted};
ghost use Rattle.tree_handles.specs.Faults.{Faults, OfOverflow};
ghost use Rattle.tree_handles.specs.Forest.{Forest};
ghost use Rattle.tree_handles.specs.Handed.{tree_of, IsHanded, Gives, KeepsFront};
ghost use Rattle.tree_handles.specs.Roots.{without_root};
ghost use Rattle.tree_handles.specs.Standing.{LacksBytes, Stands, forest, KeepsRefusals, Refuses};
ghost use Rattle.tree_room.specs.Handed.{counted_in_all};

use crate::partners::Parts;
use coefficients::{put_coefficient, take_coefficient};
use like_children::is_pair;
use node_pool::{Full, Pool};
use number_forms::add_numbers;
use tree_handles::{Handle, NumberFault, fill, open_child, release, take_child};

/// The coefficient of the term at a place; the part of the term stays there.
fn take_coefficient_at(pool: &mut Pool, sum: &Handle, at: u16) -> Result<Handle, Full>
    requires stands { Stands pool.old }
    requires sum { IsSum sum.now (forest pool.old) }
    requires within { at < count (terms_in sum.now (forest pool.old)) }
    requires reduced { is_reduced (nth at (terms_in sum.now (forest pool.old))) ≡ true }
    requires defined { is_undef (nth at (terms_in sum.now (forest pool.old))) ≡ false }
    requires no_number { is_number (nth at (terms_in sum.now (forest pool.old))) ≡ false }
    ensures ok { IfOk result (λ h. Takes sum.now (forest pool.old) (forest pool.new) h) }
    ensures terms { let ts = terms_in sum.now (forest pool.old) in
        IfOk result (λ _. terms_in sum.now (forest pool.new) ≡ inserted at (more (part_of (nth at ts)) none) (removed at ts)) }
    ensures coefficient { IfOk result (λ h. tree_of h pool.new ≡ coefficient_of (nth at (terms_in sum.now (forest pool.old)))) }
    ensures front { KeepsFront (sum.now ∷ []) (forest pool.old) (forest pool.new) }
    ensures kept { OnOk result (KeepsRefusals pool.old pool.new) }
    ensures full { IfErr result (Refuses pool.old pool.new) }
    ensures caused { IfErr result (LacksBytes pool.new) }
    ensures room { IfErr result (λ full. free_of pool.old < 40) }
    ensures stands { Stands pool.new }
{
    let (hole, term) = open_child(pool, sum, at);
    let (coefficient, part) = take_coefficient(pool, term)?;
    fill(pool, hole, part);
    Ok(coefficient)
}

/// The coefficient of a term, which is released.
#[tactic(auto, using(tree_handles::proofs::Given::given_root, tree_handles::proofs::Outcomes::passed_result, crate::proofs::Rooms::taking_lacks))]
fn coefficient_alone(pool: &mut Pool, term: Handle) -> Result<Handle, Full>
    requires stands { Stands pool.old }
    requires handed { IsHanded term (forest pool.old) }
    requires reduced { is_reduced (tree_of term pool.old) ≡ true }
    requires defined { is_undef (tree_of term pool.old) ≡ false }
    requires no_number { is_number (tree_of term pool.old) ≡ false }
    ensures ok { IfOk result (λ h. Gives (without_root term (forest pool.old)) (forest pool.new) h (λ t. t ≡ coefficient_of (tree_of term pool.old))) }
    ensures front { KeepsFront (term ∷ []) (forest pool.old) (forest pool.new) }
    ensures kept { OnOk result (KeepsRefusals pool.old pool.new) }
    ensures full { IfErr result (Refuses pool.old pool.new) }
    ensures caused { IfErr result (LacksBytes pool.new) }
    ensures room { IfErr result (λ full. free_of pool.old < 40) }
    ensures stands { Stands pool.new }
{
    let (coefficient, part) = take_coefficient(pool, term)?;
    release(pool, part);
    Ok(coefficient)
}

/// The coefficient of the term at a place, which is released, is added to those before it.
fn add_partner(
    pool: &mut Pool,
    sum: &Handle,
    at: u16,
    so_far: Handle,
) -> Result<Handle, NumberFault>
    requires stands { Stands pool.old }
    requires sum { IsSum sum.now (forest pool.old) }
    requires within { at < count (terms_in sum.now (forest pool.old)) }
    requires reduced { is_reduced (nth at (terms_in sum.now (forest pool.old))) ≡ true }
    requires defined { is_undef (nth at (terms_in sum.now (forest pool.old))) ≡ false }
    requires no_number { is_number (nth at (terms_in sum.now (forest pool.old))) ≡ false }
    requires handed { IsHanded so_far (forest pool.old) }
    requires apart { (so_far == sum.now) ≡ false }
    requires so_far { is_number (tree_of so_far pool.old) ≡ true }
    ensures ok { IfOk result (λ h. Takes sum.now (without_root so_far (forest pool.old)) (forest pool.new) h) }
    ensures terms { IfOk result (λ _. terms_in sum.now (forest pool.new) ≡ removed at (terms_in sum.now (forest pool.old))) }
    ensures number { let ts = terms_in sum.now (forest pool.old) in
        IfOk result (λ h. IsNumberOver (value (tree_of so_far pool.old) ++ value (coefficient_of (nth at ts))) (tree_of h pool.new)) }
    ensures front { KeepsFront (sum.now ∷ so_far ∷ []) (forest pool.old) (forest pool.new) }
    ensures kept { OnOk result (KeepsRefusals pool.old pool.new) }
    ensures faults { IfErr result (Faults pool.old pool.new) }
    ensures caused { IfErr result (IsCaused pool.new) }
    ensures overflow { IfErr result (OfOverflow (NamesSum (tree_of so_far pool.old) (coefficient_of (nth at (terms_in sum.now (forest pool.old)))))) }
    ensures bits { HasFewBits (value (tree_of so_far pool.old) ++ value (coefficient_of (nth at (terms_in sum.now (forest pool.old))))) → IfErr result (OfOverflow (λ o. ⊥)) }
    ensures room { (gs : List ℕ) → SpansTree gs (tree_of so_far pool.old) → SpansTree gs (nth at (terms_in sum.now (forest pool.old)))
        → IfErr result (LacksBelow (sum_need * 2 ^ length gs) (free_of pool.old + size (tree_of so_far pool.old))) }
    ensures stands { Stands pool.new }
{
    let term = take_child(pool, sum, at);
    let coefficient = coefficient_alone(pool, term)?;
    add_numbers(pool, so_far, coefficient)
}

/// The coefficients of the partners behind a part are added to a coefficient, and the partners are released.
fn add_partners(
    pool: &mut Pool,
    sum: &Handle,
    at: u16,
    coefficient: Handle,
) -> Result<Handle, NumberFault>
    requires stands { Stands pool.old }
    requires sum { IsSum sum.now (forest pool.old) }
    requires taken { (f : Forest) × Takes sum.now f (forest pool.old) coefficient }
    requires within { at < count (terms_in sum.now (forest pool.old)) }
    requires joining { let us = terms_in sum.now (forest pool.old) in (ts : Trees) × (less : ℕ) × IsJoining ts (tree_of coefficient pool.old) (nth at us) (removed at us) less }
    ensures ok { (f : Forest) → Takes sum.now f (forest pool.old) coefficient → IfOk result (λ h. Takes sum.now f (forest pool.new) h) }
    ensures within { IfOk result (λ _. at < count (terms_in sum.now (forest pool.new))) }
    ensures joining { let us = terms_in sum.now (forest pool.old) in (ts : Trees) (less : ℕ) → IsJoining ts (tree_of coefficient pool.old) (nth at us) (removed at us) less
        → IfOk result (λ h. IsJoining ts (tree_of h pool.new) (nth at (terms_in sum.now (forest pool.new))) (removed at (terms_in sum.now (forest pool.new))) less) }
    ensures front { KeepsFront (sum.now ∷ coefficient ∷ []) (forest pool.old) (forest pool.new) }
    ensures kept { OnOk result (KeepsRefusals pool.old pool.new) }
    ensures faults { IfErr result (Faults pool.old pool.new) }
    ensures caused { IfErr result (IsCaused pool.new) }
    ensures overflow { let us = terms_in sum.now (forest pool.old) in (ts : Trees) (less : ℕ) → IsJoining ts (tree_of coefficient pool.old) (nth at us) (removed at us) less
        → IfErr result (OfOverflow (Overflows ts)) }
    ensures bits { let us = terms_in sum.now (forest pool.old) in (ts : Trees) (less : ℕ) → IsJoining ts (tree_of coefficient pool.old) (nth at us) (removed at us) less
        → HaveFewBits (addends_of_each ts) → IfErr result (OfOverflow (λ o. ⊥)) }
    ensures room { let us = terms_in sum.now (forest pool.old) in (ts : Trees) (less : ℕ) → IsJoining ts (tree_of coefficient pool.old) (nth at us) (removed at us) less
        → (gs : List ℕ) → SpansTrees gs ts → IfErr result (LacksTerms gs ts (free_of pool.old + size (add us) + size (tree_of coefficient pool.old))) }
    ensures stands { Stands pool.new }
{
    let mut total = coefficient;
    while is_pair(pool, sum, at, &Parts) {
        match add_partner(pool, sum, at + 1, total) {
            Ok(sum) => total = sum,
            Err(fault) => return Err(fault),
        }
    }
    Ok(total)
}

/// A coefficient is put back before the part at a place.
#[tactic(auto, using(tree_handles::proofs::Filling::front_swapped))]
fn put_back(pool: &mut Pool, sum: &Handle, at: u16, coefficient: Handle) -> Result<(), NumberFault>
    requires stands { Stands pool.old }
    requires sum { IsSum sum.now (forest pool.old) }
    requires within { at < count (terms_in sum.now (forest pool.old)) }
    requires reduced { is_reduced (nth at (terms_in sum.now (forest pool.old))) ≡ true }
    requires handed { IsHanded coefficient (forest pool.old) }
    requires apart { (coefficient == sum.now) ≡ false }
    ensures ok { OnOk result (Changes sum.now (without_root coefficient (forest pool.old)) (forest pool.new)) }
    ensures terms { let ts = terms_in sum.now (forest pool.old) in
        OnOk result (terms_in sum.now (forest pool.new) ≡ inserted at (more (with_coefficient (tree_of coefficient pool.old) (nth at ts)) none) (removed at ts)) }
    ensures front { KeepsFront (sum.now ∷ coefficient ∷ []) (forest pool.old) (forest pool.new) }
    ensures kept { OnOk result (KeepsRefusals pool.old pool.new) }
    ensures faults { IfErr result (Faults pool.old pool.new) }
    ensures caused { IfErr result (IsCaused pool.new) }
    ensures overflow { IfErr result (OfOverflow (NamesPut (tree_of coefficient pool.old) (nth at (terms_in sum.now (forest pool.old))))) }
    ensures bits { let p = nth at (terms_in sum.now (forest pool.old)) in
        (xs : List Addend) → IsMonic p → HaveFewBits (addend (value (tree_of coefficient pool.old)) (factors_of p) ∷ xs) → IfErr result (OfOverflow (λ o. ⊥)) }
    ensures room { let p = nth at (terms_in sum.now (forest pool.old)) in
        (gs : List ℕ) → is_number (tree_of coefficient pool.old) ≡ true → SpansTree gs (tree_of coefficient pool.old) → SpansTree gs p
        → IfErr result (LacksRoom (counted p) (free_of pool.old + size (tree_of coefficient pool.old) + size p) gs) }
    ensures stands { Stands pool.new }
{
    let (hole, part) = open_child(pool, sum, at);
    let term = put_coefficient(pool, coefficient, part)?;
    fill(pool, hole, term);
    Ok(())
}

/// A term and its partners become one: all coefficients are added before their sum is put back.
#[tactic(auto, using(crate::proofs::Joins::pair_here, crate::proofs::Joins::here_reduced, crate::proofs::Joins::here_defined, crate::proofs::Results::on_ok_map, crate::proofs::Joins::joined_within))]
pub fn join_terms(pool: &mut Pool, sum: &Handle, at: u16) -> Result<(), NumberFault>
    requires stands { Stands pool.old }
    requires sum { IsSum sum.now (forest pool.old) }
    requires formed { AreFormed (terms_in sum.now (forest pool.old)) }
    requires flat { NoneIs is_loose (terms_in sum.now (forest pool.old)) }
    requires pair { IsPairAt is_partner at (terms_in sum.now (forest pool.old)) }
    requires fits { at + 1 < 2 ^ 16 }
    ensures ok { OnOk result (Changes sum.now (forest pool.old) (forest pool.new)) }
    ensures stage { OnOk result (IsStage (terms_in sum.now (forest pool.old)) (terms_in sum.now (forest pool.new))) }
    ensures fewer { OnOk result (widths (terms_in sum.now (forest pool.new)) < widths (terms_in sum.now (forest pool.old))) }
    ensures counts { OnOk result (counted_in_all (terms_in sum.now (forest pool.new)) ≤ counted_in_all (terms_in sum.now (forest pool.old))) }
    ensures within { OnOk result (at < count (terms_in sum.now (forest pool.new))) }
    ensures others { OnOk result (NoneIs is_loose (removed at (terms_in sum.now (forest pool.new)))) }
    ensures front { KeepsFront (sum.now ∷ []) (forest pool.old) (forest pool.new) }
    ensures kept { OnOk result (KeepsRefusals pool.old pool.new) }
    ensures faults { IfErr result (Faults pool.old pool.new) }
    ensures caused { IfErr result (IsCaused pool.new) }
    ensures overflow { IfErr result (OfOverflow (Overflows (terms_in sum.now (forest pool.old)))) }
    ensures bits { HaveFewBits (addends_of_each (terms_in sum.now (forest pool.old))) → IfErr result (OfOverflow (λ o. ⊥)) }
    ensures room { let ts = terms_in sum.now (forest pool.old) in
        (gs : List ℕ) → SpansTrees gs ts → IfErr result (LacksTerms gs ts (free_of pool.old + size (add ts))) }
    ensures stands { Stands pool.new }
{
    let coefficient = take_coefficient_at(pool, sum, at)?;
    let both = add_partner(pool, sum, at + 1, coefficient)?;
    let total = add_partners(pool, sum, at, both)?;
    put_back(pool, sum, at, total)
}
