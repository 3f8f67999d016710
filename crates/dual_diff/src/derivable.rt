//! Which trees have a derivative, and the exponents that are whole literals.
ghost use Rattle.std.specs.Prelude.{◌≡◌, ◌≤◌, ◌<◌, ◌↔◌, ◌^◌, IsTrue, IfSome, Some, nat_abs};
ghost use Rattle.calc_measures.specs.Literals.{whole_literal, whole_value};
ghost use Rattle.calc_terms.specs.declared.kind.Kind.TheVariants as kinds;
ghost use Rattle.calc_terms.specs.Integers.{int_is_one, int_is_zero};
ghost use Rattle.calc_terms.specs.Leaf.{name_of};
ghost use Rattle.calc_terms.specs.Rat.{value_of};
ghost use Rattle.calc_terms.specs.Trees.{root_kind, neg as neg_of};
ghost use Rattle.dual_diff.specs.Derivatives.{HasDerivative, IsDerivable, IsDerivableExponent, exponent_limit};
ghost use Rattle.tree_handles.specs.Expressions.{IsExpression, plain};
ghost use Rattle.tree_handles.specs.Inside.{tree_at};
ghost use Rattle.tree_handles.specs.Standing.{Stands, forest};

use crate::reading::{child_of, holds};
use calc_terms::{Kind, Name, Rat};
use node_pool::{Id, Pool};
use rational128::neg;
use tree_handles::{child_ids, kind, rational};

/// The largest magnitude of the exponent of a power that is derived.
const EXPONENT_LIMIT: u128 = 1_000_000;

/// Whether a tree has a derivative: not where a power that holds the name has an exponent that is no whole literal, or
/// one of a magnitude above `EXPONENT_LIMIT`.
///
/// A child is asked by a call within its parent's, so the machine's stack that it takes grows with the depth.
pub fn has_derivative(pool: &Pool, tree: Id, name: Name) -> bool
    requires stands { Stands pool.now }
    requires expression { IsExpression tree (forest pool.now) }
    ensures { IsTrue result ↔ HasDerivative (name_of name) (plain (tree_at tree (forest pool.now))) }
{
    all_derivable(pool, tree, name)
}

/// Whether a node and all nodes below it are derivable.
fn all_derivable(pool: &Pool, node: Id, name: Name) -> bool
    requires stands { Stands pool.now }
    requires expression { IsExpression node (forest pool.now) }
    ensures { IsTrue result ↔ HasDerivative (name_of name) (plain (tree_at node (forest pool.now))) }
{
    if !is_derivable(pool, node, name) {
        return false;
    }
    for child in child_ids(pool, node, 0) {
        if !all_derivable(pool, child, name) {
            return false;
        }
    }
    true
}

/// Whether a node is no power that holds the name, or one with a derivable exponent.
fn is_derivable(pool: &Pool, node: Id, name: Name) -> bool
    requires stands { Stands pool.now }
    requires expression { IsExpression node (forest pool.now) }
    ensures { IsTrue result ↔ IsDerivable (name_of name) (plain (tree_at node (forest pool.now))) }
{
    match kind(pool, node) {
        Kind::Pow => is_derivable_power(pool, node, name),
        _ => true,
    }
}

fn is_derivable_power(pool: &Pool, power: Id, name: Name) -> bool
    requires stands { Stands pool.now }
    requires expression { IsExpression power (forest pool.now) }
    requires power { root_kind (plain (tree_at power (forest pool.now))) ≡ kinds.Pow }
    ensures { IsTrue result ↔ IsDerivable (name_of name) (plain (tree_at power (forest pool.now))) }
{
    if holds(pool, power, name) {
        return is_derivable_exponent(pool, child_of(pool, power, 1));
    }
    true
}

fn is_derivable_exponent(pool: &Pool, exponent: Id) -> bool
    requires stands { Stands pool.now }
    requires expression { IsExpression exponent (forest pool.now) }
    ensures { IsTrue result ↔ IsDerivableExponent (plain (tree_at exponent (forest pool.now))) }
{
    match whole_exponent(pool, exponent) {
        Some(number) => number.unsigned_abs() <= EXPONENT_LIMIT,
        None => false,
    }
}

/// The whole literal that the exponent of a derivable power is.
pub(crate) fn literal_exponent(pool: &Pool, exponent: Id) -> i128
    requires stands { Stands pool.now }
    requires expression { IsExpression exponent (forest pool.now) }
    requires derivable { IsDerivableExponent (plain (tree_at exponent (forest pool.now))) }
    ensures value { Some result ≡ whole_literal (plain (tree_at exponent (forest pool.now))) }
    ensures small { nat_abs result ≤ exponent_limit }
{
    match whole_exponent(pool, exponent) {
        Some(number) => number,
        None => unreachable!(),
    }
}

/// The whole number that an exponent is as a literal.
fn whole_exponent(pool: &Pool, exponent: Id) -> Option<i128>
    requires stands { Stands pool.now }
    requires expression { IsExpression exponent (forest pool.now) }
    ensures value { result ≡ whole_literal (plain (tree_at exponent (forest pool.now))) }
    ensures fits { IfSome result (λ n. nat_abs n < 2 ^ 127) }
{
    match kind(pool, exponent) {
        Kind::Num => whole_number(rational(pool, exponent)),
        Kind::Neg => opposite_number(pool, child_of(pool, exponent, 0)),
        _ => None,
    }
}

/// The opposite of a number that is whole.
fn opposite_number(pool: &Pool, id: Id) -> Option<i128>
    requires stands { Stands pool.now }
    requires expression { IsExpression id (forest pool.now) }
    ensures value { result ≡ whole_literal (neg_of (plain (tree_at id (forest pool.now)))) }
    ensures fits { IfSome result (λ n. nat_abs n < 2 ^ 127) }
{
    match kind(pool, id) {
        Kind::Num => whole_number(neg(rational(pool, id))),
        _ => None,
    }
}

/// The whole number that a rational is.
fn whole_number(value: Rat) -> Option<i128>
    ensures value { result ≡ whole_value (value_of value) }
    ensures fits { IfSome result (λ n. nat_abs n < 2 ^ 127) }
{
    if value.is_whole() {
        Some(value.num())
    } else {
        None
    }
}

pub(crate) fn is_zero(number: i128) -> bool
    requires { nat_abs number < 2 ^ 127 }
    ensures { result ≡ int_is_zero number }
{
    number == 0
}

pub(crate) fn is_one(number: i128) -> bool
    requires { nat_abs number < 2 ^ 127 }
    ensures { result ≡ int_is_one number }
{
    number == 1
}
