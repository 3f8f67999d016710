//! The last part of a step: a reduced tree.
ghost use Rattle.std.specs.Prelude.{ℕ, List, ◌≡◌, ◌==◌, ◌+◌, true, false, IfOk, IfErr, IsSortedByKey, [], ◌∷◌};
ghost use Rattle.calc_algebra.specs.Numbers.{is_number};
ghost use Rattle.calc_room.specs.Counts.{counted};
ghost use Rattle.calc_room.specs.Spans.{SpansTree, SpansTrees};
ghost use Rattle.calc_terms.specs.Trees.{mult, none, size};
ghost use Rattle.coefficients.specs.Rooms.{LacksRoom};
ghost use Rattle.node_pool.specs.State.{free_of};
ghost use Rattle.number_forms.specs.Readers.{is_zero};
ghost use Rattle.product_reduce.specs.Answers.{AreOthers, IsEnding};
ghost use Rattle.product_reduce.specs.Misfits.{SpreadingOverflows};
ghost use Rattle.tree_handles.specs.Faults.{OfOverflow};
ghost use Rattle.product_reduce.specs.Joining.{have_partners};
ghost use Rattle.product_reduce.specs.Products.{IsProduct, factors_in};
ghost use Rattle.product_reduce.specs.Pools.{LeavesPool};
ghost use Rattle.tree_handles.specs.Standing.{Stands, forest, KeepsRefusals};
ghost use Rattle.calc_algebra.specs.Reduced.{base_of};
ghost use Rattle.calc_algebra.specs.TreeOrder.{tree_cmp};
ghost use Rattle.node_order.specs.Sorting.{list_of};
ghost use Rattle.tree_handles.specs.Handed.{tree_of, IsHanded, Gives, KeepsFront};
ghost use Rattle.tree_handles.specs.Roots.{without_root};

use crate::factors::factor_count;
use coefficients::{put_coefficient, unwrapped};
use node_pool::Pool;
use tree_handles::{Handle, NumberFault, move_last, release};

/// Factors in the order of their bases, which differ, behind a coefficient.
pub fn finished(
    pool: &mut Pool,
    product: Handle,
    coefficient: Handle,
) -> Result<Handle, NumberFault>
    requires stands { Stands pool.old }
    requires product { IsProduct product (forest pool.old) (factors_in product (forest pool.old)) }
    requires others { AreOthers (factors_in product (forest pool.old)) }
    requires order { IsSortedByKey base_of tree_cmp (list_of (factors_in product (forest pool.old))) }
    requires differ { have_partners (factors_in product (forest pool.old)) ≡ false }
    requires coefficient { IsHanded coefficient (forest pool.old) }
    requires number { is_number (tree_of coefficient pool.old) ≡ true }
    requires not_zero { is_zero (tree_of coefficient pool.old) ≡ false }
    requires apart { (coefficient == product) ≡ false }
    ensures ok { IfOk result (λ h. Gives (without_root product (without_root coefficient (forest pool.old))) (forest pool.new) h
        (IsEnding (tree_of coefficient pool.old) (factors_in product (forest pool.old)))) }
    ensures alone { factors_in product (forest pool.old) ≡ none → IfErr result (λ f. ⊥) }
    ensures overflow { IfErr result (OfOverflow (SpreadingOverflows (tree_of coefficient pool.old) (factors_in product (forest pool.old)))) }
    ensures front { KeepsFront (product ∷ coefficient ∷ []) (forest pool.old) (forest pool.new) }
    ensures room { let ts = factors_in product (forest pool.old) in
        (gs : List ℕ) → SpansTree gs (tree_of coefficient pool.old) → SpansTrees gs ts
        → IfErr result (LacksRoom (counted (mult ts)) (free_of pool.old + size (tree_of coefficient pool.old) + size (mult ts)) gs) }
    ensures leaves { LeavesPool result pool.old pool.new }
{
    if factor_count(pool, &product) == 0 {
        return Ok(alone(pool, product, coefficient));
    }
    let part = unwrapped(pool, product);
    put_coefficient(pool, coefficient, part)
}

/// The coefficient alone, which goes last. The product is released.
pub fn alone(pool: &mut Pool, product: Handle, coefficient: Handle) -> Handle
    requires stands { Stands pool.old }
    requires product { IsHanded product (forest pool.old) }
    requires coefficient { IsHanded coefficient (forest pool.old) }
    requires apart { (coefficient == product) ≡ false }
    ensures ok { Gives (without_root product (without_root coefficient (forest pool.old))) (forest pool.new) result (λ t. t ≡ tree_of coefficient pool.old) }
    ensures front { KeepsFront (product ∷ coefficient ∷ []) (forest pool.old) (forest pool.new) }
    ensures kept { KeepsRefusals pool.old pool.new }
    ensures stands { Stands pool.new }
{
    release(pool, product);
    move_last(pool, &coefficient);
    coefficient
}
