//! Which trees are polynomials.
ghost use Rattle.std.specs.Prelude.{◌≡◌, ◌<◌, ◌^◌, Some, nat_abs};
ghost use Rattle.calc_measures.specs.Literals.{whole_literal, whole_value};
ghost use Rattle.calc_terms.specs.Rat.{value_of};
ghost use Rattle.calc_terms.specs.Trees.{neg as neg_of};
ghost use Rattle.expansions.specs.PolynomialTrees.{has_polynomial_root, is_divisor, is_exponent, is_nonzero, is_polynomial, is_small};
ghost use Rattle.tree_handles.specs.Expressions.{IsExpression, plain};
ghost use Rattle.tree_handles.specs.Inside.{tree_at};
ghost use Rattle.tree_handles.specs.Standing.{Stands, forest};

use calc_terms::{Kind, Rat};
use node_pool::{Id, Pool};
use rational128::neg;
use tree_handles::{child_id, child_ids, kind, rational};

/// The greatest exponent of a power that is a polynomial.
const EXPONENT_LIMIT: i128 = 32;

/// Whether a tree is a polynomial.
///
/// A child is asked by a call within its parent's, so the machine's stack that it takes grows with the tree's depth.
pub fn is_polynomial(pool: &Pool, tree: Id) -> bool
    requires stands { Stands pool.now }
    requires expression { IsExpression tree (forest pool.now) }
    ensures { result ≡ is_polynomial (plain (tree_at tree (forest pool.now))) }
{
    if !has_polynomial_root(pool, tree) {
        return false;
    }
    for child in child_ids(pool, tree, 0) {
        if !is_polynomial(pool, child) {
            return false;
        }
    }
    true
}

/// Whether the root of a tree may be that of a polynomial.
fn has_polynomial_root(pool: &Pool, tree: Id) -> bool
    requires stands { Stands pool.now }
    requires expression { IsExpression tree (forest pool.now) }
    ensures { result ≡ has_polynomial_root (plain (tree_at tree (forest pool.now))) }
{
    match kind(pool, tree) {
        Kind::Num | Kind::Sym | Kind::Add | Kind::Mult | Kind::Neg | Kind::Sub => true,
        Kind::Pow => is_exponent(pool, child_id(pool, tree, 1)),
        Kind::Div => is_divisor(pool, child_id(pool, tree, 1)),
        _ => false,
    }
}

/// Whether a tree is a whole literal from 1 to `EXPONENT_LIMIT`.
fn is_exponent(pool: &Pool, tree: Id) -> bool
    requires stands { Stands pool.now }
    requires expression { IsExpression tree (forest pool.now) }
    ensures { result ≡ is_exponent (plain (tree_at tree (forest pool.now))) }
{
    match kind(pool, tree) {
        Kind::Num => is_small(rational(pool, tree)),
        Kind::Neg => is_opposite_exponent(pool, child_id(pool, tree, 0)),
        _ => false,
    }
}

/// Whether the opposite of a tree is an exponent.
fn is_opposite_exponent(pool: &Pool, tree: Id) -> bool
    requires stands { Stands pool.now }
    requires expression { IsExpression tree (forest pool.now) }
    ensures { result ≡ is_exponent (neg_of (plain (tree_at tree (forest pool.now)))) }
{
    match kind(pool, tree) {
        Kind::Num => is_small(neg(rational(pool, tree))),
        _ => false,
    }
}

/// Whether a rational is a whole number from 1 to `EXPONENT_LIMIT`.
fn is_small(value: Rat) -> bool
    ensures { result ≡ is_small (whole_value (value_of value)) }
{
    if value.is_whole() {
        return is_within_limit(value.num());
    }
    false
}

fn is_within_limit(number: i128) -> bool
    requires { nat_abs number < 2 ^ 127 }
    ensures { result ≡ is_small (Some number) }
{
    1 <= number && number <= EXPONENT_LIMIT
}

/// Whether a tree is a rational other than 0, or the opposite of one.
fn is_divisor(pool: &Pool, tree: Id) -> bool
    requires stands { Stands pool.now }
    requires expression { IsExpression tree (forest pool.now) }
    ensures { result ≡ is_divisor (plain (tree_at tree (forest pool.now))) }
{
    match kind(pool, tree) {
        Kind::Neg => is_nonzero(pool, child_id(pool, tree, 0)),
        _ => is_nonzero(pool, tree),
    }
}

/// Whether a tree is a rational other than 0.
fn is_nonzero(pool: &Pool, tree: Id) -> bool
    requires stands { Stands pool.now }
    requires expression { IsExpression tree (forest pool.now) }
    ensures { result ≡ is_nonzero (plain (tree_at tree (forest pool.now))) }
{
    match kind(pool, tree) {
        Kind::Num => !rational(pool, tree).is_zero(),
        _ => false,
    }
}
