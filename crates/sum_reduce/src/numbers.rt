//! The Numbers among the terms become one.
ghost use Rattle.std.specs.Prelude.{ℕ, List, length, ◌≡◌, ◌==◌, ◌<◌, ◌≤◌, ◌+◌, ◌*◌, ◌^◌, ◌++◌, true, false, MatchOption, IfOk, IfErr, OnOk, [], ◌∷◌};
ghost use Rattle.calc_measures.specs.PlainValues.{plain_value};
ghost use Rattle.calc_room.specs.Needs.{sum_need};
ghost use Rattle.calc_room.specs.Spans.{SpansTrees};
ghost use Rattle.calc_terms.specs.Trees.{add, count, are_rationals};
ghost use Rattle.like_children.specs.Numbers.{IsNextNumber};
ghost use Rattle.node_pool.specs.State.{free_of};
ghost use Rattle.tree_handles.specs.Lacking.{LacksBelow};
ghost use Rattle.sum_reduce.specs.Arranging.{IsLed, IsNumbered, AnswersFold};
ghost use Rattle.sum_reduce.specs.Bits.{HaveFewBits};
ghost use Rattle.sum_reduce.specs.Overflows.{Overflows};
ghost use Rattle.sum_reduce.specs.Sums.{IsSum, Changes, terms_in};
ghost use Rattle.sum_reduce.specs.Terms.{AreFormed};
ghost use Rattle.tree_bits.specs.Children.{addends_of_each};
ghost use Rattle.tree_handles.specs.Causes.{IsCaused};
ghost use Rattle.tree_handles.specs.Faults.{Faults, OfOverflow};
ghost use Rattle.tree_handles.specs.Handed.{KeepsFront};
ghost use Rattle.tree_handles.specs.Standing.{Stands, forest, KeepsRefusals};

use like_children::{Joins, collect_numbers, next_number};
use node_pool::Pool;
use number_forms::add_numbers;
use tree_handles::{Handle, NumberFault, add_child, take_child};

/// Numbers are added.
struct Adding;

impl Joins for Adding {
    ghost use Rattle.std.specs.Prelude.{◌++◌};
    ghost use Rattle.calc_room.specs.Needs.{sum_need};
    ghost use Rattle.calc_terms.specs.Fits.{add_op};
    ghost use Rattle.sum_reduce.specs.Overflows.{NamesSum};

    ghost operation = { add_op };

    ghost both = { λ v w. v ++ w };

    ghost misfit = { NamesSum };

    ghost need = { sum_need };

    fn join(&self, pool: &mut Pool, a: Handle, b: Handle) -> Result<Handle, NumberFault> {
        add_numbers(pool, a, b)
    }
}

/// The place of the first Number, unless it stands first and is the only one.
#[tactic(auto, using(crate::proofs::Sorted::formed_nth, crate::proofs::Numbered::led_alone))]
fn number_to_move(pool: &Pool, sum: &Handle) -> Option<u16>
    requires stands { Stands pool.now }
    requires sum { IsSum sum.now (forest pool.now) }
    requires formed { AreFormed (terms_in sum.now (forest pool.now)) }
    ensures { let ts = terms_in sum.now (forest pool.now) in MatchOption result (IsLed ts) (λ at. IsNextNumber 0 at ts) }
{
    let first = next_number(pool, sum, 0)?;
    if first == 0 && next_number(pool, sum, 1).is_none() {
        return None;
    }
    Some(first)
}

/// The Numbers among the terms become one, which stands first. An only one that stands there is left where it is.
pub fn join_numbers(pool: &mut Pool, sum: &Handle) -> Result<(), NumberFault>
    requires stands { Stands pool.old }
    requires sum { IsSum sum.now (forest pool.old) }
    requires formed { AreFormed (terms_in sum.now (forest pool.old)) }
    requires some { 1 ≤ count (terms_in sum.now (forest pool.old)) }
    ensures ok { OnOk result (Changes sum.now (forest pool.old) (forest pool.new)) }
    ensures joined { OnOk result (IsNumbered (terms_in sum.now (forest pool.old)) (terms_in sum.now (forest pool.new))) }
    ensures rationals { let ts = terms_in sum.now (forest pool.old) in
        are_rationals ts ≡ true → AnswersFold (plain_value (add ts)) (terms_in sum.now (forest pool.new)) result }
    ensures front { KeepsFront (sum.now ∷ []) (forest pool.old) (forest pool.new) }
    ensures kept { OnOk result (KeepsRefusals pool.old pool.new) }
    ensures faults { IfErr result (Faults pool.old pool.new) }
    ensures caused { IfErr result (IsCaused pool.new) }
    ensures overflow { IfErr result (OfOverflow (Overflows (terms_in sum.now (forest pool.old)))) }
    ensures bits { HaveFewBits (addends_of_each (terms_in sum.now (forest pool.old))) → IfErr result (OfOverflow (λ o. ⊥)) }
    ensures room { (gs : List ℕ) → SpansTrees gs (terms_in sum.now (forest pool.old))
        → IfErr result (LacksBelow (sum_need * 2 ^ length gs) (free_of pool.old)) }
    ensures stands { Stands pool.new }
{
    match number_to_move(pool, sum) {
        Some(at) => {
            let number = take_child(pool, sum, at);
            let total = collect_numbers(pool, sum, number, &Adding)?;
            add_child(pool, sum, 0, total);
            Ok(())
        }
        None => Ok(()),
    }
}
