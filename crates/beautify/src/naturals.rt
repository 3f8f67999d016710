//! Whether a tree is written as it is.
ghost use Rattle.std.specs.Prelude.{◌≡◌, true};
ghost use Rattle.beautify.specs.OwnFaces.{is_natural as is_natural_tree, has_natural_numbers as naturals_in, holds_natural as natural_payload};
ghost use Rattle.calc_terms.specs.Rat.{value_of};
ghost use Rattle.calc_terms.specs.Trees.{num};
ghost use Rattle.tree_handles.specs.Expressions.{IsExpression, plain};
ghost use Rattle.tree_handles.specs.Inside.{holds, payload_in, tree_at};
ghost use Rattle.tree_handles.specs.Standing.{Stands, forest};
ghost use Rattle.tree_handles.specs.Visits.{visit_at};

use crate::reading::is_below_zero;
use calc_terms::{Kind, Rat};
use node_pool::{Id, Pool};
use tree_handles::{Visit, nodes_of, rational};

/// Whether all rationals in a tree, exponents among them, are whole and at least 0.
pub(crate) fn has_natural_numbers(pool: &Pool, tree: Id) -> bool
    requires stands { Stands pool.now }
    requires expression { IsExpression tree (forest pool.now) }
    ensures { result ≡ naturals_in (plain (tree_at tree (forest pool.now))) }
{
    for node in nodes_of(pool, tree) {
        if !holds_natural(pool, &node) {
            return false;
        }
    }
    true
}

/// Whether a node holds no rational, or one that is whole and at least 0.
#[tactic(auto, using(tree_handles::proofs::Readings::number_seen, crate::proofs::NaturalNodes::no_rational))]
fn holds_natural(pool: &Pool, node: &Visit) -> bool
    requires stands { Stands pool.now }
    requires live { holds node.now.id (forest pool.now) ≡ true }
    requires node { node.now ≡ visit_at node.now.id (forest pool.now) }
    ensures { result ≡ natural_payload (payload_in node.now.id (forest pool.now)) }
{
    match node.kind {
        Kind::Num => is_natural(rational(pool, node.id)),
        _ => true,
    }
}

/// Whether a rational is whole and at least 0.
#[tactic(auto, using(rational128::proofs::LowestTerms::ratio_parts, crate::proofs::NaturalNodes::natural_fraction, crate::proofs::NaturalNodes::natural_whole))]
fn is_natural(value: Rat) -> bool
    ensures { result ≡ is_natural_tree (num (value_of value)) }
{
    if !value.is_whole() {
        return false;
    }
    !is_below_zero(value)
}
