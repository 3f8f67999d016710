//! A coefficient that stands before the other factors as it is written.
ghost use Rattle.std.specs.Prelude.{◌≡◌, ◌≤◌, true, false, IfSome};
ghost use Rattle.calc_algebra.specs.Reduced.{are_reduced, is_num_one, is_one_add, NoneIs};
ghost use Rattle.calc_terms.specs.Trees.{Tree, count, is_mult};
ghost use Rattle.like_children.specs.Numbers.{IsNextNumber};
ghost use Rattle.number_forms.specs.Readers.{is_zero};
ghost use Rattle.number_forms.specs.Sums.{removed};
ghost use Rattle.product_reduce.specs.Gathering.{IsLead};
ghost use Rattle.product_reduce.specs.Products.{IsProduct, factors_in};
ghost use Rattle.tree_handles.specs.Expressions.{IsExpression, plain, nth};
ghost use Rattle.tree_handles.specs.Inside.{tree_at};
ghost use Rattle.tree_handles.specs.Standing.{Stands, forest};

use crate::factors::{factor, factor_count, is_sum};
use crate::fronting::is_one;
use like_children::next_number;
use node_pool::{Id, Pool};
use number_forms::is_zero;
use tree_handles::Handle;

fn is_zero_or_one(pool: &Pool, id: Id) -> bool
    requires stands { Stands pool.now }
    requires expression { IsExpression id (forest pool.now) }
    ensures zero { result ≡ false → is_zero (plain (tree_at id (forest pool.now))) ≡ false }
    ensures one { result ≡ false → is_num_one (plain (tree_at id (forest pool.now))) ≡ false }
{
    is_zero(pool, id) || is_one(pool, id)
}

/// Whether a sum is the only factor behind the first.
#[tactic(auto, using(crate::proofs::Leads::one_add_behind, crate::proofs::Leads::more_behind))]
fn leads_only_a_sum(pool: &Pool, product: &Handle) -> bool
    requires stands { Stands pool.now }
    requires product { IsProduct product.now (forest pool.now) (factors_in product.now (forest pool.now)) }
    ensures { result ≡ is_one_add (removed 0 (factors_in product.now (forest pool.now))) }
{
    factor_count(pool, product) == 2 && is_sum(pool, factor(pool, product, 1))
}

/// Whether a Number that stands first is the coefficient of all factors as it is written before the others: these have none,
/// it is neither 0 nor 1, and it is not spread over a sum.
#[tactic(auto, using(crate::proofs::Finished::reduced_nth, crate::proofs::Leads::lead_one, crate::proofs::Leads::none_found, crate::proofs::Leads::off))]
fn is_written_first(pool: &Pool, product: &Handle) -> bool
    requires stands { Stands pool.now }
    requires product { IsProduct product.now (forest pool.now) (factors_in product.now (forest pool.now)) }
    requires reduced { are_reduced (factors_in product.now (forest pool.now)) ≡ true }
    requires flat { NoneIs is_mult (factors_in product.now (forest pool.now)) }
    requires first { IsNextNumber 0 0 (factors_in product.now (forest pool.now)) }
    ensures { let ts = factors_in product.now (forest pool.now) in result ≡ true → IsLead 1 (nth 0 ts) ts }
{
    if next_number(pool, product, 1).is_some() {
        return false;
    }
    if is_zero_or_one(pool, factor(pool, product, 0)) {
        return false;
    }
    factor_count(pool, product) > 1 && !leads_only_a_sum(pool, product)
}

/// How many of the first factors are the coefficient of all as it is written before the others: none where no factor is a
/// Number, or one that stands there already. None where Numbers have to be moved or multiplied.
#[tactic(auto, using(crate::proofs::Finished::reduced_nth, crate::proofs::Leads::lead_none))]
pub fn written_lead(pool: &Pool, product: &Handle) -> Option<u16>
    requires stands { Stands pool.now }
    requires product { IsProduct product.now (forest pool.now) (factors_in product.now (forest pool.now)) }
    requires reduced { are_reduced (factors_in product.now (forest pool.now)) ≡ true }
    requires flat { NoneIs is_mult (factors_in product.now (forest pool.now)) }
    requires some { 1 ≤ count (factors_in product.now (forest pool.now)) }
    ensures { IfSome result (λ n. (c : Tree) × IsLead n c (factors_in product.now (forest pool.now))) }
{
    let Some(first) = next_number(pool, product, 0) else {
        return Some(0);
    };
    if first == 0 && is_written_first(pool, product) {
        Some(1)
    } else {
        None
    }
}
