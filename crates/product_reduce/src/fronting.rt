//! The coefficient in front of the other factors.
ghost use Rattle.std.specs.Prelude.{◌≡◌, ◌==◌, true, false};
ghost use Rattle.calc_algebra.specs.Numbers.{is_number};
ghost use Rattle.calc_algebra.specs.Reduced.{is_num_one};
ghost use Rattle.product_reduce.specs.Factors.{coefficient_before};
ghost use Rattle.product_reduce.specs.Products.{IsProduct, Becomes, factors_in};
ghost use Rattle.tree_handles.specs.Handed.{tree_of, IsHanded};
ghost use Rattle.tree_handles.specs.Expressions.{IsExpression, plain};
ghost use Rattle.tree_handles.specs.Inside.{tree_at};
ghost use Rattle.tree_handles.specs.Roots.{without_root};
ghost use Rattle.tree_handles.specs.Standing.{Stands, forest, KeepsRefusals};

use crate::factors::is_product;
use calc_terms::Kind;
use node_pool::{Id, Pool};
use tree_handles::{Handle, add_child, kind, merge_children, rational, release};

/// Whether the tree is the rational 1.
#[tactic(auto, using(rational128::proofs::LowestTerms::ratio_parts, crate::proofs::Ones::one_over_one, crate::proofs::Ones::whole_over_one, crate::proofs::Ones::not_over_one))]
pub fn is_one(pool: &Pool, id: Id) -> bool
    requires stands { Stands pool.now }
    requires expression { IsExpression id (forest pool.now) }
    ensures { result ≡ is_num_one (plain (tree_at id (forest pool.now))) }
{
    match kind(pool, id) {
        Kind::Num => {
            let value = rational(pool, id);
            value.is_whole() && value.num() == 1
        }
        _ => false,
    }
}

/// Puts a coefficient before the factors of a product: 1 is left out, and one of a single class is spliced.
#[tactic(auto, using(crate::proofs::Products::product_live))]
pub fn put_in_front(pool: &mut Pool, product: &Handle, coefficient: Handle)
    requires stands { Stands pool.old }
    requires product { IsProduct product.now (forest pool.old) (factors_in product.now (forest pool.old)) }
    requires handed { IsHanded coefficient (forest pool.old) }
    requires apart { (coefficient == product.now) ≡ false }
    ensures becomes { Becomes product.now (without_root coefficient (forest pool.old)) (forest pool.new)
        (coefficient_before (tree_of coefficient pool.old) (factors_in product.now (forest pool.old))) }
    ensures kept { KeepsRefusals pool.old pool.new }
    ensures stands { Stands pool.new }
{
    if is_one(pool, coefficient.id()) {
        release(pool, coefficient);
    } else {
        let opens = is_product(pool, coefficient.id());
        add_child(pool, product, 0, coefficient);
        if opens {
            merge_children(pool, product, 0);
        }
    }
}
