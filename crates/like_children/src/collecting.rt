//! The Numbers among children, joined to one.
ghost use Rattle.std.specs.Prelude.{ℕ, List, length, ◌≡◌, ◌<◌, ◌+◌, ◌*◌, ◌^◌, true, IfOk, IfErr, OnOk, [], ◌∷◌};
ghost use Rattle.calc_algebra.specs.Numbers.{is_number, value};
ghost use Rattle.calc_algebra.specs.Reduced.{is_reduced};
ghost use Rattle.calc_bits.specs.Bounds.{HasFewBits};
ghost use Rattle.calc_measures.specs.PlainValues.{fold_values};
ghost use Rattle.calc_room.specs.Spans.{SpansTree, SpansTrees};
ghost use Rattle.calc_terms.specs.Trees.{is_num, are_rationals, count, size};
ghost use Rattle.like_children.specs.Children.{IsSumOrProduct, LeavesChildren};
ghost use Rattle.like_children.specs.Folds.{rational_of, rationals_of, AnswersTotal};
ghost use Rattle.like_children.specs.Joining.{AreJoined, IsNextOf};
ghost use Rattle.like_children.specs.Numbers.{numbers_in, others_in};
ghost use Rattle.node_pool.specs.State.{free_of};
ghost use Rattle.tree_handles.specs.Lacking.{LacksBelow};
ghost use Rattle.tree_handles.specs.Causes.{IsCaused};
ghost use Rattle.tree_handles.specs.Expressions.{nth, children_of};
ghost use Rattle.tree_handles.specs.Faults.{Faults, OfOverflow};
ghost use Rattle.tree_handles.specs.Handed.{tree_of, IsHanded, Gives, KeepsFront};
ghost use Rattle.tree_handles.specs.Roots.{without_root};
ghost use Rattle.tree_handles.specs.Standing.{Stands, forest, KeepsRefusals};

use crate::numbers::next_number;
use node_pool::Pool;
use tree_handles::{Handle, NumberFault, take_child};

/// How two Numbers become one.
pub trait Joins {
    ghost use Rattle.std.specs.Prelude.{ℕ, List, length, ◌≡◌, ◌==◌, ◌+◌, ◌*◌, ◌^◌, true, false, IfOk, IfErr, OnOk, [], ◌∷◌};
    ghost use Rattle.calc_algebra.specs.Numbers.{is_number, value};
    ghost use Rattle.calc_algebra.specs.Surds.{Surd};
    ghost use Rattle.calc_bits.specs.Bounds.{HasFewBits};
    ghost use Rattle.calc_measures.specs.PlainValues.{calculated};
    ghost use Rattle.calc_room.specs.Spans.{SpansTree};
    ghost use Rattle.calc_terms.specs.Fits.{Operation};
    ghost use Rattle.calc_terms.specs.Fractions.{Fraction};
    ghost use Rattle.calc_terms.specs.Trees.{Tree, num, size};
    ghost use Rattle.like_children.specs.Joining.{IsJoint};
    ghost use Rattle.node_pool.specs.State.{free_of};
    ghost use Rattle.number_forms.specs.Answers.{AnswersRationals};
    ghost use Rattle.tree_handles.specs.Lacking.{LacksBelow};
    ghost use Rattle.rational128.specs.declared.overflow.Overflow.{Overflow};
    ghost use Rattle.tree_handles.specs.Causes.{IsCaused};
    ghost use Rattle.tree_handles.specs.Faults.{Faults, OfOverflow};
    ghost use Rattle.tree_handles.specs.Handed.{tree_of, IsHanded, Gives, KeepsFront};
    ghost use Rattle.tree_handles.specs.Roots.{without_root};
    ghost use Rattle.tree_handles.specs.Standing.{Stands, forest, KeepsRefusals};

    // What is calculated with rationals, and what two Numbers are worth together.
    ghost operation: { Operation };

    ghost both: { Surd → Surd → Surd };

    // Which operation does not fit, and the bytes that are needed for each choice of radicands.
    ghost misfit: { Tree → Tree → Overflow → Type 0 };

    ghost need: { ℕ };

    /// The Number that two handed ones are together.
    fn join(&self, pool: &mut Pool, a: Handle, b: Handle) -> Result<Handle, NumberFault>
        requires stands { Stands pool.old }
        requires first { IsHanded a (forest pool.old) }
        requires second { IsHanded b (forest pool.old) }
        requires apart { (a == b) ≡ false }
        requires first_number { is_number (tree_of a pool.old) ≡ true }
        requires second_number { is_number (tree_of b pool.old) ≡ true }
        ensures ok { IfOk result (λ h. Gives (without_root b (without_root a (forest pool.old))) (forest pool.new) h (IsJoint both (tree_of a pool.old) (tree_of b pool.old))) }
        ensures rationals { (p q : Fraction) → tree_of a pool.old ≡ num p → tree_of b pool.old ≡ num q → AnswersRationals (calculated operation p q) pool.new result }
        ensures overflow { IfErr result (OfOverflow (misfit (tree_of a pool.old) (tree_of b pool.old))) }
        ensures bits { HasFewBits (both (value (tree_of a pool.old)) (value (tree_of b pool.old))) → IfErr result (OfOverflow (λ o. ⊥)) }
        ensures room { (gs : List ℕ) → SpansTree gs (tree_of a pool.old) → SpansTree gs (tree_of b pool.old)
            → IfErr result (LacksBelow (need * 2 ^ length gs) (free_of pool.old + size (tree_of a pool.old) + size (tree_of b pool.old))) }
        ensures spanned { (gs : List ℕ) → SpansTree gs (tree_of a pool.old) → SpansTree gs (tree_of b pool.old) → IfOk result (λ h. SpansTree gs (tree_of h pool.new)) }
        ensures front { KeepsFront (a ∷ b ∷ []) (forest pool.old) (forest pool.new) }
        ensures kept { OnOk result (KeepsRefusals pool.old pool.new) }
        ensures faults { IfErr result (Faults pool.old pool.new) }
        ensures caused { IfErr result (IsCaused pool.new) }
        ensures stands { Stands pool.new };
}

/// The Numbers among the children of a sum or a product are taken out, and joined to another one from left to right.
pub fn collect_numbers<J: Joins>(
    pool: &mut Pool,
    parent: &Handle,
    number: Handle,
    joins: &J,
) -> Result<Handle, NumberFault>
    requires stands { Stands pool.old }
    requires parent { IsHanded parent.now (without_root number (forest pool.old)) }
    requires many { IsSumOrProduct (tree_of parent.now pool.old) }
    requires reduced { let ts = children_of (tree_of parent.now pool.old) in (n : ℕ) → n < count ts → is_reduced (nth n ts) ≡ true }
    requires number { Gives (without_root number (forest pool.old)) (forest pool.old) number (λ t. is_number t ≡ true) }
    ensures ok { IfOk result (LeavesChildren parent.now (others_in (children_of (tree_of parent.now pool.old))) (without_root number (forest pool.old)) (forest pool.new)) }
    ensures number { IfOk result (λ h. is_number (tree_of h pool.new) ≡ true) }
    ensures joined { IfOk result (λ h. AreJoined J.both (tree_of number pool.old) (numbers_in (children_of (tree_of parent.now pool.old))) (tree_of h pool.new)) }
    ensures rationals { let ts = children_of (tree_of parent.now pool.old) in is_num (tree_of number pool.old) ≡ true → are_rationals ts ≡ true
        → AnswersTotal (fold_values J.operation (rational_of (tree_of number pool.old)) (rationals_of ts)) pool.new result }

    // Where an operation does not fit, it joins one of the Numbers to what those before it have become.
    ensures overflow { let ns = numbers_in (children_of (tree_of parent.now pool.old)) in
        IfErr result (OfOverflow (λ o. (s : IsNextOf J.both (tree_of number pool.old) ns) × J.misfit s.so_far s.next o)) }
    ensures bits { let ns = numbers_in (children_of (tree_of parent.now pool.old)) in
        ((s : IsNextOf J.both (tree_of number pool.old) ns) → HasFewBits (J.both (value s.so_far) (value s.next))) → IfErr result (OfOverflow (λ o. ⊥)) }

    ensures room { (gs : List ℕ) → SpansTree gs (tree_of number pool.old) → SpansTrees gs (children_of (tree_of parent.now pool.old))
        → IfErr result (LacksBelow (J.need * 2 ^ length gs) (free_of pool.old + size (tree_of number pool.old))) }
    ensures front { KeepsFront (parent.now ∷ number ∷ []) (forest pool.old) (forest pool.new) }
    ensures kept { OnOk result (KeepsRefusals pool.old pool.new) }
    ensures faults { IfErr result (Faults pool.old pool.new) }
    ensures caused { IfErr result (IsCaused pool.new) }
    ensures stands { Stands pool.new }
{
    let mut so_far = number;
    while let Some(at) = next_number(pool, parent, 0) {
        let next = take_child(pool, parent, at);
        match joins.join(pool, so_far, next) {
            Ok(joined) => so_far = joined,
            Err(fault) => return Err(fault),
        }
    }
    Ok(so_far)
}
