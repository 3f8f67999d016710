//! The shape of a term: a rational, the root of one, or a rational times the root of one.
ghost use Rattle.std.specs.Prelude.{◌≡◌, drop, true, false, MatchOption};
ghost use Rattle.calc_terms.specs.Rat.{value_of};
ghost use Rattle.calc_terms.specs.Trees.{num, root, is_num, is_mult};
ghost use Rattle.number_forms.specs.Shapes.{IsShape, first_kind, has_term_shape, is_multiple_next, is_number_next, is_root_of_num};
ghost use Rattle.tree_handles.specs.Expressions.{IsExpression, plain};
ghost use Rattle.tree_handles.specs.Inside.{tree_at};
ghost use Rattle.tree_handles.specs.Standing.{Stands, forest};

use calc_terms::{Kind, Rat};
use node_pool::{Id, Pool};
use tree_handles::{Nodes, child_id, children, kind, nodes_of, rational};

/// A term's shape, with its rationals as they stand. Whether they make a term is not looked at.
#[derive(Clone, Copy)]
pub(crate) enum Shape {
    Rational(Rat),
    Root(Rat),
    Multiple(Rat, Rat),
    Other,
}

/// Whether a tree has a term's shape, which the kinds of its first nodes tell.
#[inline(always)]
pub(crate) fn has_term_shape(pool: &Pool, id: Id) -> bool
    requires stands { Stands pool.now }
    requires expression { IsExpression id (forest pool.now) }
    ensures { result ≡ has_term_shape (plain (tree_at id (forest pool.now))) }
{
    let mut nodes = nodes_of(pool, id);
    match next_kind(&mut nodes) {
        Kind::Num => true,
        Kind::Root => is_number_next(&mut nodes),
        Kind::Mult => children(pool, id) == 2 && is_multiple_next(&mut nodes),
        _ => false,
    }
}

/// Whether a number comes next.
#[inline(always)]
fn is_number_next(nodes: &mut Nodes<'_>) -> bool
    ensures { result ≡ is_number_next nodes.old }
{
    match next_kind(nodes) {
        Kind::Num => true,
        _ => false,
    }
}

/// Whether a number comes next, and then a root over a number.
#[inline(always)]
fn is_multiple_next(nodes: &mut Nodes<'_>) -> bool
    ensures { result ≡ is_multiple_next nodes.old }
{
    match (next_kind(nodes), next_kind(nodes)) {
        (Kind::Num, Kind::Root) => is_number_next(nodes),
        _ => false,
    }
}

/// The kind of the next node, and Undef behind the last one.
#[inline(always)]
fn next_kind(nodes: &mut Nodes<'_>) -> Kind
    ensures kind { result ≡ first_kind nodes.old }
    ensures rest { nodes.new ≡ drop 1 nodes.old }
{
    match nodes.next() {
        Some(node) => node.kind,
        None => Kind::Undef,
    }
}

/// The shape of a tree.
pub(crate) fn shape_of(pool: &Pool, id: Id) -> Shape
    requires stands { Stands pool.now }
    requires expression { IsExpression id (forest pool.now) }
    ensures { IsShape result (plain (tree_at id (forest pool.now))) }
{
    match kind(pool, id) {
        Kind::Num => Shape::Rational(rational(pool, id)),
        Kind::Root => match rational_at(pool, child_id(pool, id, 0)) {
            Some(radicand) => Shape::Root(radicand),
            None => Shape::Other,
        },
        Kind::Mult => shape_of_product(pool, id),
        _ => Shape::Other,
    }
}

/// The rational of a tree that is one.
pub(crate) fn rational_at(pool: &Pool, id: Id) -> Option<Rat>
    requires stands { Stands pool.now }
    requires expression { IsExpression id (forest pool.now) }
    ensures { MatchOption result (is_num (plain (tree_at id (forest pool.now))) ≡ false) (λ q. plain (tree_at id (forest pool.now)) ≡ num (value_of q)) }
{
    match kind(pool, id) {
        Kind::Num => Some(rational(pool, id)),
        _ => None,
    }
}

/// The rational under the root of a tree that is the root of one.
fn root_at(pool: &Pool, id: Id) -> Option<Rat>
    requires stands { Stands pool.now }
    requires expression { IsExpression id (forest pool.now) }
    ensures { MatchOption result (is_root_of_num (plain (tree_at id (forest pool.now))) ≡ false) (λ r. plain (tree_at id (forest pool.now)) ≡ root (num (value_of r))) }
{
    match kind(pool, id) {
        Kind::Root => rational_at(pool, child_id(pool, id, 0)),
        _ => None,
    }
}

/// The shape of a product.
fn shape_of_product(pool: &Pool, id: Id) -> Shape
    requires stands { Stands pool.now }
    requires expression { IsExpression id (forest pool.now) }
    requires product { is_mult (plain (tree_at id (forest pool.now))) ≡ true }
    ensures { IsShape result (plain (tree_at id (forest pool.now))) }
{
    if children(pool, id) != 2 {
        return Shape::Other;
    }
    let Some(coefficient) = rational_at(pool, child_id(pool, id, 0)) else {
        return Shape::Other;
    };
    match root_at(pool, child_id(pool, id, 1)) {
        Some(radicand) => Shape::Multiple(coefficient, radicand),
        None => Shape::Other,
    }
}
