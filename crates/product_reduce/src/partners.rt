//! The bases of factors.
ghost use Rattle.std.specs.Prelude.{◌≡◌, true, not};
ghost use Rattle.calc_algebra.specs.Reduced.{is_reduced, is_opaque_exponent, is_transparent_power, base_of};
ghost use Rattle.product_reduce.specs.Neighbours.{is_single};
ghost use Rattle.tree_handles.specs.Expressions.{IsExpression, plain};
ghost use Rattle.tree_handles.specs.Inside.{tree_at};
ghost use Rattle.tree_handles.specs.Standing.{Stands, forest};

use crate::factors::is_product;
use calc_terms::Kind;
use node_pool::{Id, Pool};
use number_forms::{is_reduced_number, whole};
use tree_handles::{child_id, kind};

/// Whether the tree is a power whose exponent is no Number, or is whole.
#[tactic(auto, using(crate::proofs::Finished::reduced_exponent))]
pub fn is_transparent_power(pool: &Pool, id: Id) -> bool
    requires stands { Stands pool.now }
    requires expression { IsExpression id (forest pool.now) }
    requires reduced { is_reduced (plain (tree_at id (forest pool.now))) ≡ true }
    ensures { result ≡ is_transparent_power (plain (tree_at id (forest pool.now))) }
{
    match kind(pool, id) {
        Kind::Pow => is_transparent_exponent(pool, child_id(pool, id, 1)),
        _ => false,
    }
}

/// Whether the tree is no Number, or is whole.
#[tactic(auto, using(crate::proofs::Finished::opaque_unless_whole))]
fn is_transparent_exponent(pool: &Pool, id: Id) -> bool
    requires stands { Stands pool.now }
    requires expression { IsExpression id (forest pool.now) }
    requires reduced { is_reduced (plain (tree_at id (forest pool.now))) ≡ true }
    ensures { is_opaque_exponent (plain (tree_at id (forest pool.now))) ≡ not result }
{
    !is_reduced_number(pool, id) || whole(pool, id).is_some()
}

/// The base of a factor: that of a power which is not opaque, and any other factor itself.
pub fn base(pool: &Pool, id: Id) -> Id
    requires stands { Stands pool.now }
    requires expression { IsExpression id (forest pool.now) }
    requires reduced { is_reduced (plain (tree_at id (forest pool.now))) ≡ true }
    ensures expression { IsExpression result (forest pool.now) }
    ensures tree { plain (tree_at result (forest pool.now)) ≡ base_of (plain (tree_at id (forest pool.now))) }
{
    if is_transparent_power(pool, id) {
        child_id(pool, id, 0)
    } else {
        id
    }
}

/// Whether a factor is neither a Number nor a product.
pub fn is_single(pool: &Pool, id: Id) -> bool
    requires stands { Stands pool.now }
    requires expression { IsExpression id (forest pool.now) }
    requires reduced { is_reduced (plain (tree_at id (forest pool.now))) ≡ true }
    ensures { result ≡ is_single (plain (tree_at id (forest pool.now))) }
{
    !is_reduced_number(pool, id) && !is_product(pool, id)
}
