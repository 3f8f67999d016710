//! The Numbers among the factors, multiplied from left to right.
ghost use Rattle.std.specs.Prelude.{ℕ, List, length, ◌≡◌, ◌<◌, ◌≤◌, ◌+◌, ◌*◌, ◌^◌, true, IfOk, IfErr, [], ◌∷◌};
ghost use Rattle.tree_bits.specs.Rows.{AreFewBits};
ghost use Rattle.calc_algebra.specs.Reduced.{are_reduced};
ghost use Rattle.calc_terms.specs.Trees.{are_rationals, mult, count};
ghost use Rattle.calc_measures.specs.PlainValues.{plain_value};
ghost use Rattle.calc_room.specs.Needs.{product_need};
ghost use Rattle.calc_room.specs.Spans.{SpansTrees};
ghost use Rattle.node_pool.specs.State.{free_of};
ghost use Rattle.tree_handles.specs.Lacking.{LacksBelow};
ghost use Rattle.product_reduce.specs.Bits.{AreFactorsHeld};
ghost use Rattle.like_children.specs.Numbers.{NoNumberBetween};
ghost use Rattle.product_reduce.specs.Factors.{numbers_in, others_in, IsCoefficient};
ghost use Rattle.product_reduce.specs.Multiplying.{IsUnderway};
ghost use Rattle.product_reduce.specs.Products.{IsProduct, IsTakenOut, factors_in};
ghost use Rattle.number_forms.specs.Answers.{AnswersRationals};
ghost use Rattle.tree_handles.specs.Faults.{OfOverflow};
ghost use Rattle.product_reduce.specs.Misfits.{MultiplyingOverflows};
ghost use Rattle.product_reduce.specs.Pools.{LeavesFull, LeavesPool};
ghost use Rattle.tree_handles.specs.Standing.{Stands, forest};
ghost use Rattle.tree_handles.specs.Handed.{tree_of, KeepsFront};

use crate::nodes::one;
use like_children::{Joins, collect_numbers, next_number};
use node_pool::{Full, Pool};
use number_forms::multiply_numbers;
use tree_handles::{Handle, NumberFault, take_child};

/// Takes the first Number among the factors out of a product; 1 where there is none.
#[tactic(auto, using(like_children::proofs::Many::child_within, like_children::proofs::Many::many, tree_handles::proofs::Fronts::front_end, tree_handles::proofs::Fronts::front_put, tree_handles::proofs::Fronts::behind_first, tree_handles::proofs::Fronts::front_same, crate::proofs::Finished::reduced_nth))]
fn take_first_number(pool: &mut Pool, product: &Handle) -> Result<Handle, Full>
    requires stands { Stands pool.old }
    requires product { IsProduct product.now (forest pool.old) (factors_in product.now (forest pool.old)) }
    requires reduced { are_reduced (factors_in product.now (forest pool.old)) ≡ true }
    ensures ok { IfOk result (λ h. IsUnderway product.now (factors_in product.now (forest pool.old)) (forest pool.old) (forest pool.new) h) }
    ensures front { KeepsFront (product.now ∷ []) (forest pool.old) (forest pool.new) }
    ensures room { IfErr result (λ full. free_of pool.old < 40) }
    ensures some { let ts = factors_in product.now (forest pool.old) in IfErr result (λ _. NoNumberBetween 0 (count ts) ts) }
    ensures leaves { LeavesFull result pool.old pool.new }
{
    match next_number(pool, product, 0) {
        Some(at) => Ok(take_child(pool, product, at)),
        None => one(pool),
    }
}

/// Numbers are multiplied.
struct Multiplying;

impl Joins for Multiplying {
    ghost use Rattle.calc_algebra.specs.Surds.{surd_times};
    ghost use Rattle.calc_room.specs.Needs.{product_need};
    ghost use Rattle.calc_terms.specs.Fits.{mul_op};
    ghost use Rattle.product_reduce.specs.Misfits.{NamesProduct};

    ghost operation = { mul_op };

    ghost both = { surd_times };

    ghost misfit = { NamesProduct };

    ghost need = { product_need };

    #[tactic(auto, using(like_children::proofs::SoFar::joint_given, crate::proofs::Misfits::product_named))]
    fn join(&self, pool: &mut Pool, a: Handle, b: Handle) -> Result<Handle, NumberFault> {
        multiply_numbers(pool, a, b)
    }
}

/// Takes the Numbers among the factors out of a product, multiplied from left to right; 1 where there is none.
#[tactic(auto, using(crate::proofs::Misfits::none_named))]
pub fn take_coefficient(pool: &mut Pool, product: &Handle) -> Result<Handle, NumberFault>
    requires stands { Stands pool.old }
    requires product { IsProduct product.now (forest pool.old) (factors_in product.now (forest pool.old)) }
    requires reduced { are_reduced (factors_in product.now (forest pool.old)) ≡ true }
    ensures taken { let ts = factors_in product.now (forest pool.old) in
        IfOk result (λ h. IsTakenOut product.now (others_in ts) (forest pool.old) (forest pool.new) h (tree_of h pool.new)) }
    ensures coefficient { IfOk result (λ h. IsCoefficient (tree_of h pool.new) (factors_in product.now (forest pool.old))) }
    ensures rationals { let ts = factors_in product.now (forest pool.old) in
        are_rationals ts ≡ true → 1 ≤ count ts → AnswersRationals (plain_value (mult ts)) pool.new result }
    ensures overflow { IfErr result (OfOverflow (MultiplyingOverflows (numbers_in (factors_in product.now (forest pool.old))))) }
    ensures bits { (h l : ℕ) → AreFactorsHeld (numbers_in (factors_in product.now (forest pool.old))) h l → AreFewBits h l → IfErr result (OfOverflow (λ o. ⊥)) }
    ensures room { (gs : List ℕ) → SpansTrees gs (factors_in product.now (forest pool.old))
        → IfErr result (LacksBelow (product_need * 2 ^ length gs) (free_of pool.old)) }
    ensures front { KeepsFront (product.now ∷ []) (forest pool.old) (forest pool.new) }
    ensures leaves { LeavesPool result pool.old pool.new }
{
    let first = take_first_number(pool, product)?;
    collect_numbers(pool, product, first, &Multiplying)
}
