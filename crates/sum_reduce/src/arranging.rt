//! The terms of a sum are opened, joined and put in order.
ghost use Rattle.std.specs.Prelude.{ℕ, List, length, ◌≡◌, ◌<◌, ◌≤◌, ◌+◌, ◌*◌, ◌^◌, true, false, IfErr, IfSome, MatchOption, OnOk, [], ◌∷◌};
ghost use Rattle.calc_algebra.specs.Reduced.{NoneIs};
ghost use Rattle.calc_measures.specs.PlainValues.{plain_value};
ghost use Rattle.calc_room.specs.Needs.{sum_need};
ghost use Rattle.calc_room.specs.Spans.{SpansTrees};
ghost use Rattle.calc_terms.specs.Trees.{add, count, are_rationals, size};
ghost use Rattle.like_children.specs.Neighbours.{IsPairAt, IsNextPair, NoPairBetween};
ghost use Rattle.node_pool.specs.State.{free_of};
ghost use Rattle.tree_handles.specs.Lacking.{LacksBelow};
ghost use Rattle.number_forms.specs.Sums.{removed};
ghost use Rattle.sum_reduce.specs.Arranging.{IsLed, IsArranged, IsSettled, AnswersFold};
ghost use Rattle.sum_reduce.specs.Bits.{HaveFewBits};
ghost use Rattle.sum_reduce.specs.Overflows.{Overflows};
ghost use Rattle.sum_reduce.specs.Rooms.{terms_room, LacksTerms};
ghost use Rattle.sum_reduce.specs.Stages.{IsStage, widths};
ghost use Rattle.sum_reduce.specs.Sums.{IsSum, Changes, terms_in};
ghost use Rattle.sum_reduce.specs.Terms.{AreFormed, is_loose, is_partner};
ghost use Rattle.tree_bits.specs.Children.{addends_of_each};
ghost use Rattle.tree_handles.specs.Causes.{IsCaused};
ghost use Rattle.tree_handles.specs.Expressions.{nth};
ghost use Rattle.tree_handles.specs.Faults.{Faults, OfOverflow};
ghost use Rattle.tree_handles.specs.Handed.{KeepsFront};
ghost use Rattle.tree_handles.specs.Standing.{Stands, forest, KeepsRefusals};
ghost use Rattle.tree_room.specs.Handed.{counted_in_all, sum_count};

use crate::joining::join_terms;
use crate::numbers::join_numbers;
use crate::partners::Parts;
use crate::terms::{is_loose, open_sums, term};
use like_children::next_pair;
use node_order::sort_children;
use node_pool::Pool;
use number_forms::is_reduced_number;
use tree_handles::{Handle, NumberFault};

/// How many Numbers stand first: one or none.
#[tactic(auto, using(crate::proofs::Sorted::formed_nth, crate::proofs::Sorted::one_leads, crate::proofs::Sorted::none_leads))]
fn lead_count(pool: &Pool, sum: &Handle) -> u16
    requires stands { Stands pool.now }
    requires sum { IsSum sum.now (forest pool.now) }
    requires formed { AreFormed (terms_in sum.now (forest pool.now)) }
    requires some { 1 ≤ count (terms_in sum.now (forest pool.now)) }
    ensures { (h : IsLed (terms_in sum.now (forest pool.now))) → result ≡ count h.lead }
{
    if is_reduced_number(pool, term(pool, sum, 0)) {
        1
    } else {
        0
    }
}

/// The terms behind a leading Number are put in the order of their parts.
fn sort_terms(pool: &mut Pool, sum: &Handle)
    requires stands { Stands pool.old }
    requires sum { IsSum sum.now (forest pool.old) }
    requires formed { AreFormed (terms_in sum.now (forest pool.old)) }
    requires some { 1 ≤ count (terms_in sum.now (forest pool.old)) }
    requires led { IsLed (terms_in sum.now (forest pool.old)) }
    requires flat { NoneIs is_loose (terms_in sum.now (forest pool.old)) }
    ensures changes { Changes sum.now (forest pool.old) (forest pool.new) }
    ensures stage { IsStage (terms_in sum.now (forest pool.old)) (terms_in sum.now (forest pool.new)) }
    ensures arranged { IsArranged (terms_in sum.now (forest pool.new)) }
    ensures alone { count (terms_in sum.now (forest pool.old)) ≡ 1 → terms_in sum.now (forest pool.new) ≡ terms_in sum.now (forest pool.old) }
    ensures kept { KeepsRefusals pool.old pool.new }
    ensures stands { Stands pool.new }
{
    let lead = lead_count(pool, sum);
    sort_children(pool, sum, lead, &Parts);
}

/// Sums among the terms are opened, the Numbers become one, and the other terms are put in order.
#[tactic(auto, using(crate::proofs::Opened::opened_formed, crate::proofs::Opened::opened_some, crate::proofs::Opened::opened_tight, crate::proofs::Sums::changes_after))]
fn arrange(pool: &mut Pool, sum: &Handle) -> Result<(), NumberFault>
    requires stands { Stands pool.old }
    requires sum { IsSum sum.now (forest pool.old) }
    requires formed { AreFormed (terms_in sum.now (forest pool.old)) }
    requires some { 1 ≤ count (terms_in sum.now (forest pool.old)) }
    ensures ok { OnOk result (Changes sum.now (forest pool.old) (forest pool.new)) }
    ensures stage { OnOk result (IsStage (terms_in sum.now (forest pool.old)) (terms_in sum.now (forest pool.new))) }
    ensures arranged { OnOk result (IsArranged (terms_in sum.now (forest pool.new))) }
    ensures rationals { let ts = terms_in sum.now (forest pool.old) in
        are_rationals ts ≡ true → AnswersFold (plain_value (add ts)) (terms_in sum.now (forest pool.new)) result }
    ensures front { KeepsFront (sum.now ∷ []) (forest pool.old) (forest pool.new) }
    ensures kept { OnOk result (KeepsRefusals pool.old pool.new) }
    ensures faults { IfErr result (Faults pool.old pool.new) }
    ensures caused { IfErr result (IsCaused pool.new) }
    ensures overflow { IfErr result (OfOverflow (Overflows (terms_in sum.now (forest pool.old)))) }
    ensures bits { HaveFewBits (addends_of_each (terms_in sum.now (forest pool.old))) → IfErr result (OfOverflow (λ o. ⊥)) }
    ensures room { (gs : List ℕ) → SpansTrees gs (terms_in sum.now (forest pool.old))
        → IfErr result (LacksBelow (sum_need * 2 ^ length gs) (free_of pool.old)) }
    ensures stands { Stands pool.new }
{
    open_sums(pool, sum);
    join_numbers(pool, sum)?;
    sort_terms(pool, sum);
    Ok(())
}

/// The first pair behind a joined term. None where that term is a sum, which has to be opened first.
#[tactic(auto, using(crate::proofs::Sorted::formed_nth, crate::proofs::Results::if_some_given, crate::proofs::Joins::none_anywhere))]
fn pair_behind(pool: &Pool, sum: &Handle, at: u16) -> Option<u16>
    requires stands { Stands pool.now }
    requires sum { IsSum sum.now (forest pool.now) }
    requires formed { AreFormed (terms_in sum.now (forest pool.now)) }
    requires within { at < count (terms_in sum.now (forest pool.now)) }
    requires others { NoneIs is_loose (removed at (terms_in sum.now (forest pool.now))) }
    requires fits { at + 1 < 2 ^ 16 }
    ensures pair { let ts = terms_in sum.now (forest pool.now) in
        MatchOption result (is_loose (nth at ts) ≡ false → NoPairBetween is_partner (at + 1) (count ts) ts) (λ next. IsNextPair is_partner (at + 1) next ts) }
    ensures flat { IfSome result (λ _. NoneIs is_loose (terms_in sum.now (forest pool.now))) }
    ensures fits { IfSome result (λ next. next + 1 < 2 ^ 16) }
{
    if is_loose(pool, term(pool, sum, at)) {
        return None;
    }
    next_pair(pool, sum, at + 1, &Parts)
}

/// From a pair on, each term and its partners become one, up to the first that becomes a sum.
#[tactic(auto, using(crate::proofs::Sums::changes_same, crate::proofs::Stages::stage_same, tree_handles::proofs::Fronts::front_same, tree_handles::proofs::Refused::kept_same))]
fn join_pairs(pool: &mut Pool, sum: &Handle, first: u16) -> Result<(), NumberFault>
    requires stands { Stands pool.old }
    requires sum { IsSum sum.now (forest pool.old) }
    requires formed { AreFormed (terms_in sum.now (forest pool.old)) }
    requires flat { NoneIs is_loose (terms_in sum.now (forest pool.old)) }
    requires pair { IsPairAt is_partner first (terms_in sum.now (forest pool.old)) }
    requires fits { first + 1 < 2 ^ 16 }
    ensures ok { OnOk result (Changes sum.now (forest pool.old) (forest pool.new)) }
    ensures stage { OnOk result (IsStage (terms_in sum.now (forest pool.old)) (terms_in sum.now (forest pool.new))) }
    ensures fewer { OnOk result (widths (terms_in sum.now (forest pool.new)) < widths (terms_in sum.now (forest pool.old))) }
    ensures counts { OnOk result (counted_in_all (terms_in sum.now (forest pool.new)) ≤ counted_in_all (terms_in sum.now (forest pool.old))) }
    ensures front { KeepsFront (sum.now ∷ []) (forest pool.old) (forest pool.new) }
    ensures kept { OnOk result (KeepsRefusals pool.old pool.new) }
    ensures faults { IfErr result (Faults pool.old pool.new) }
    ensures caused { IfErr result (IsCaused pool.new) }
    ensures overflow { IfErr result (OfOverflow (Overflows (terms_in sum.now (forest pool.old)))) }
    ensures bits { HaveFewBits (addends_of_each (terms_in sum.now (forest pool.old))) → IfErr result (OfOverflow (λ o. ⊥)) }
    ensures room { let ts = terms_in sum.now (forest pool.old) in
        (gs : List ℕ) → SpansTrees gs ts → IfErr result (LacksTerms gs ts (free_of pool.old + size (add ts))) }
    ensures stands { Stands pool.new }
{
    let mut next = Some(first);
    while let Some(at) = next {
        join_terms(pool, sum, at)?;
        next = pair_behind(pool, sum, at);
    }
    Ok(())
}

/// Terms with identical parts are joined until there are none. A joined term that is a sum is opened again.
#[tactic(auto, using(crate::proofs::Sorted::formed_nth))]
pub fn settle(pool: &mut Pool, sum: &Handle) -> Result<(), NumberFault>
    requires stands { Stands pool.old }
    requires sum { IsSum sum.now (forest pool.old) }
    requires formed { AreFormed (terms_in sum.now (forest pool.old)) }
    requires some { 1 ≤ count (terms_in sum.now (forest pool.old)) }
    ensures ok { OnOk result (Changes sum.now (forest pool.old) (forest pool.new)) }
    ensures stage { OnOk result (IsStage (terms_in sum.now (forest pool.old)) (terms_in sum.now (forest pool.new))) }
    ensures settled { OnOk result (IsSettled (terms_in sum.now (forest pool.new))) }
    ensures rationals { let ts = terms_in sum.now (forest pool.old) in
        are_rationals ts ≡ true → AnswersFold (plain_value (add ts)) (terms_in sum.now (forest pool.new)) result }
    ensures front { KeepsFront (sum.now ∷ []) (forest pool.old) (forest pool.new) }
    ensures kept { OnOk result (KeepsRefusals pool.old pool.new) }
    ensures faults { IfErr result (Faults pool.old pool.new) }
    ensures caused { IfErr result (IsCaused pool.new) }
    ensures overflow { IfErr result (OfOverflow (Overflows (terms_in sum.now (forest pool.old)))) }
    ensures bits { HaveFewBits (addends_of_each (terms_in sum.now (forest pool.old))) → IfErr result (OfOverflow (λ o. ⊥)) }
    ensures room { let ts = terms_in sum.now (forest pool.old) in
        (gs : List ℕ) → SpansTrees gs ts → IfErr result (LacksBelow (terms_room (1 + sum_count ts) (2 ^ length gs)) (free_of pool.old + size (add ts))) }
    ensures stands { Stands pool.new }
{
    arrange(pool, sum)?;
    while let Some(at) = next_pair(pool, sum, 0, &Parts) {
        join_pairs(pool, sum, at)?;
        arrange(pool, sum)?;
    }
    Ok(())
}
