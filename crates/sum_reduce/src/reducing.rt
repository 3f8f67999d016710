//! A sum becomes one reduced tree.
ghost use Rattle.std.specs.Prelude.{ℕ, List, length, ◌+◌, ◌*◌, ◌^◌, ◌≡◌, ◌≤◌, true, false, IfOk, IfErr, OnOk, [], ◌∷◌};
ghost use Rattle.tree_bits.specs.Rows.{AreFewBits};
ghost use Rattle.calc_algebra.specs.Reduced.{are_reduced};
ghost use Rattle.calc_measures.specs.PlainValues.{plain_value};
ghost use Rattle.calc_room.specs.Spans.{SpansTree};
ghost use Rattle.calc_terms.specs.Trees.{count, is_add, are_rationals, has_undef, size};
ghost use Rattle.node_pool.specs.State.{free_of};
ghost use Rattle.number_forms.specs.Answers.{AnswersRationals};
ghost use Rattle.tree_handles.specs.Lacking.{LacksBelow};
ghost use Rattle.sum_reduce.specs.Bounds.{KeepsSumBounds};
ghost use Rattle.sum_reduce.specs.Collected.{others_in, AreUnlike, IsWrittenSum};
ghost use Rattle.sum_reduce.specs.Overflows.{Overflows};
ghost use Rattle.sum_reduce.specs.SumAnswers.{IsSumAnswer, IsCollected};
ghost use Rattle.sum_reduce.specs.Terms.{opened};
ghost use Rattle.tree_bits.specs.Children.{IsSumHeld, addends_of_each};
ghost use Rattle.tree_handles.specs.Causes.{IsCaused};
ghost use Rattle.tree_handles.specs.Expressions.{children_of};
ghost use Rattle.tree_handles.specs.Faults.{Faults, OfOverflow};
ghost use Rattle.tree_handles.specs.Handed.{tree_of, IsHanded, Gives, KeepsFront};
ghost use Rattle.tree_handles.specs.Roots.{without_root};
ghost use Rattle.tree_handles.specs.Standing.{Stands, forest, KeepsRefusals};
ghost use Rattle.tree_room.specs.Handed.{sum_count};
ghost use Rattle.tree_room.specs.Needs.{sum_room};

use crate::arranging::settle;
use crate::endings::written;
use crate::terms::has_undef_term;
use node_pool::Pool;
use tree_handles::{Handle, NumberFault, undefined};

/// A sum of reduced terms, at least one, becomes one reduced tree. Sums in it are opened, Numbers are
/// added from left to right, and the coefficients of terms with identical parts, all before their sum
/// is put back; a term whose coefficient is 0 is dropped. The Number's terms come first, then the others in
/// the order of their parts. A sum with Undef in it is Undef.
#[tactic(auto, using(like_children::proofs::Parts::reduced_formed))]
pub fn reduce_sum(pool: &mut Pool, sum: Handle) -> Result<Handle, NumberFault>
    requires stands { Stands pool.old }
    requires handed { IsHanded sum (forest pool.old) }
    requires sum { is_add (tree_of sum pool.old) ≡ true }
    requires some { 1 ≤ count (children_of (tree_of sum pool.old)) }
    requires reduced { are_reduced (children_of (tree_of sum pool.old)) ≡ true }
    ensures ok { IfOk result (λ h. Gives (without_root sum (forest pool.old)) (forest pool.new) h (IsSumAnswer (children_of (tree_of sum pool.old)))) }

    // The answer is the terms collected. Where no two terms have identical parts, they are written as they are.
    ensures collected { let ts = children_of (tree_of sum pool.old) in
        has_undef ts ≡ false → IfOk result (λ h. IsCollected ts (tree_of h pool.new)) }
    ensures written { let ts = children_of (tree_of sum pool.old) in
        has_undef ts ≡ false → AreUnlike (others_in (opened ts)) → IfOk result (λ h. IsWrittenSum ts (tree_of h pool.new)) }

    ensures rationals { are_rationals (children_of (tree_of sum pool.old)) ≡ true → AnswersRationals (plain_value (tree_of sum pool.old)) pool.new result }
    ensures front { KeepsFront (sum ∷ []) (forest pool.old) (forest pool.new) }
    ensures kept { OnOk result (KeepsRefusals pool.old pool.new) }
    ensures faults { IfErr result (Faults pool.old pool.new) }
    ensures caused { IfErr result (IsCaused pool.new) }
    ensures overflow { IfErr result (OfOverflow (Overflows (children_of (tree_of sum pool.old)))) }
    ensures defined { IfErr result (OfOverflow (λ o. has_undef (children_of (tree_of sum pool.old)) ≡ false)) }

    // Bytes are lacking only where fewer are at hand, free or in the sum, than a sum of so many nodes that count needs.
    ensures room { let ts = children_of (tree_of sum pool.old) in
        (gs : List ℕ) → SpansTree gs (tree_of sum pool.old)
        → IfErr result (LacksBelow (sum_room (sum_count ts) (2 ^ length gs)) (free_of pool.old + size (tree_of sum pool.old))) }

    // The answer counts 1 more at most than the terms that are no Numbers, has no new powers, is spanned by what spans the sum, and
    // held by what holds the sum of the terms. A sum of exponents counts a base no more often than they do together.
    ensures bounds { IfOk result (λ h. KeepsSumBounds (children_of (tree_of sum pool.old)) (tree_of h pool.new)) }

    // Where what holds the sum of the terms are few bits, nothing overflows.
    ensures bits { let ts = children_of (tree_of sum pool.old) in
        (h l : ℕ) → IsSumHeld (addends_of_each ts) h l → AreFewBits h l → IfErr result (OfOverflow (λ o. ⊥)) }

    ensures stands { Stands pool.new }
{
    if has_undef_term(pool, &sum) {
        return Ok(undefined(pool, sum));
    }
    settle(pool, &sum)?;
    Ok(written(pool, sum))
}
