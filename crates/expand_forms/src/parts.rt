//! A node over expanded children as a sum of trees times rationals, or as a product of trees.
ghost use Rattle.std.specs.Prelude.{◌≡◌, ◌<◌, ◌+◌, ◌∷◌, drop, false, length, true};
ghost use Rattle.calc_terms.specs.Fractions.{inverse, is_zero_fraction, minus_one_fraction, one_fraction};
ghost use Rattle.calc_terms.specs.Rat.{value_of};
ghost use Rattle.calc_terms.specs.Trees.{count};
ghost use Rattle.expand_forms.specs.Parts.{has_factors, has_parts, multiplied, part, part_factor, parts_of};
ghost use Rattle.expansions.specs.PolynomialTrees.{divisor_of, exponent_of as natural_exponent, has_polynomial_root, is_divisor, is_exponent};
ghost use Rattle.expand_forms.specs.PowersOfSums.{AreReady, IsReady};
ghost use Rattle.expansions.specs.Sums.{AreExpanded, IsExpanded};
ghost use Rattle.tree_handles.specs.Expressions.{IsExpression, children_of, nth, plain};
ghost use Rattle.tree_handles.specs.Inside.{holds, tree_at};
ghost use Rattle.tree_handles.specs.Standing.{Stands, forest};

use calc_terms::{Kind, Rat};
use node_pool::{Id, Pool};
use rational128::invert;
use tree_handles::{child_id, children, kind, rational};

/// A tree, and by what it is multiplied.
#[derive(Clone, Copy)]
pub(crate) struct Part {
    pub factor: Rat,
    pub tree: Id,
}

/// Whether a node is a sum, an opposite, a difference or a quotient.
pub(crate) fn has_parts(pool: &Pool, id: Id) -> bool
    requires stands { Stands pool.now }
    requires expression { IsExpression id (forest pool.now) }
    ensures { result ≡ has_parts (plain (tree_at id (forest pool.now))) }
{
    matches!(
        kind(pool, id),
        Kind::Add | Kind::Neg | Kind::Sub | Kind::Div
    )
}

/// Whether a node is a product or a power.
pub(crate) fn has_factors(pool: &Pool, id: Id) -> bool
    requires stands { Stands pool.now }
    requires expression { IsExpression id (forest pool.now) }
    ensures { result ≡ has_factors (plain (tree_at id (forest pool.now))) }
{
    matches!(kind(pool, id), Kind::Mult | Kind::Pow)
}

/// How many trees times rationals a node is the sum of.
pub(crate) fn part_count(pool: &Pool, id: Id) -> u16
    requires stands { Stands pool.now }
    requires expression { IsExpression id (forest pool.now) }
    requires parts { has_parts (plain (tree_at id (forest pool.now))) ≡ true }
    ensures { result ≡ length (parts_of (plain (tree_at id (forest pool.now)))) }
{
    match kind(pool, id) {
        Kind::Div => 1,
        _ => children(pool, id),
    }
}

/// The part of a node at a place, counted from 0.
pub(crate) fn part_at(pool: &Pool, id: Id, at: u16) -> Part
    requires stands { Stands pool.now }
    requires expression { IsExpression id (forest pool.now) }
    requires polynomial { has_polynomial_root (plain (tree_at id (forest pool.now))) ≡ true }
    requires children { AreReady (children_of (plain (tree_at id (forest pool.now)))) }
    requires within { at < length (parts_of (plain (tree_at id (forest pool.now)))) }
    ensures part { let ps = parts_of (plain (tree_at id (forest pool.now))) in
        drop at ps ≡ part (value_of result.factor) (plain (tree_at result.tree (forest pool.now))) ∷ drop (at + 1) ps }
    ensures nonzero { is_zero_fraction (value_of result.factor) ≡ false }
    ensures expression { IsExpression result.tree (forest pool.now) }
    ensures inside { holds result.tree (tree_at id (forest pool.now)) ≡ true }
    ensures child { plain (tree_at result.tree (forest pool.now)) ≡ nth at (children_of (plain (tree_at id (forest pool.now)))) }
    ensures ready { IsReady (plain (tree_at result.tree (forest pool.now))) }
    ensures expanded { AreExpanded (children_of (plain (tree_at id (forest pool.now)))) → IsExpanded (plain (tree_at result.tree (forest pool.now))) }
{
    Part {
        factor: factor_at(pool, id, at),
        tree: child_id(pool, id, at),
    }
}

/// By what the child of a node at a place is multiplied.
fn factor_at(pool: &Pool, id: Id, at: u16) -> Rat
    requires stands { Stands pool.now }
    requires expression { IsExpression id (forest pool.now) }
    requires polynomial { has_polynomial_root (plain (tree_at id (forest pool.now))) ≡ true }
    requires children { AreReady (children_of (plain (tree_at id (forest pool.now)))) }
    ensures value { value_of result ≡ part_factor (plain (tree_at id (forest pool.now))) at }
    ensures nonzero { is_zero_fraction (value_of result) ≡ false }
{
    match kind(pool, id) {
        Kind::Neg => Rat::whole(-1),
        Kind::Sub => sign_at(at),
        Kind::Div => inverse_divisor(pool, child_id(pool, id, 1)),
        _ => Rat::whole(1),
    }
}

/// By what the child of a difference at a place is multiplied.
fn sign_at(at: u16) -> Rat
    ensures first { at ≡ 0 → value_of result ≡ one_fraction }
    ensures second { (at ≡ 0 → ⊥) → value_of result ≡ minus_one_fraction }
    ensures nonzero { is_zero_fraction (value_of result) ≡ false }
{
    if at == 0 {
        Rat::whole(1)
    } else {
        Rat::whole(-1)
    }
}

/// By what a quotient of an expanded tree and a divisor multiplies it.
fn inverse_divisor(pool: &Pool, divisor: Id) -> Rat
    requires stands { Stands pool.now }
    requires expression { IsExpression divisor (forest pool.now) }
    requires expanded { IsExpanded (plain (tree_at divisor (forest pool.now))) }
    requires divisor { is_divisor (plain (tree_at divisor (forest pool.now))) ≡ true }
    ensures value { value_of result ≡ inverse (divisor_of (plain (tree_at divisor (forest pool.now)))) }
    ensures nonzero { is_zero_fraction (value_of result) ≡ false }
{
    invert(rational(pool, divisor))
}

/// How many trees a node is the product of.
pub(crate) fn factor_number(pool: &Pool, id: Id) -> u16
    requires stands { Stands pool.now }
    requires expression { IsExpression id (forest pool.now) }
    requires polynomial { has_polynomial_root (plain (tree_at id (forest pool.now))) ≡ true }
    requires children { AreExpanded (children_of (plain (tree_at id (forest pool.now)))) }
    requires factors { has_factors (plain (tree_at id (forest pool.now))) ≡ true }
    ensures { result ≡ count (multiplied (plain (tree_at id (forest pool.now)))) }
{
    match kind(pool, id) {
        Kind::Pow => u16::from(exponent_of(pool, child_id(pool, id, 1))),
        _ => children(pool, id),
    }
}

/// The factor of a node at a place, counted from 0.
pub(crate) fn factor_id(pool: &Pool, id: Id, at: u16) -> Id
    requires stands { Stands pool.now }
    requires expression { IsExpression id (forest pool.now) }
    requires within { at < count (multiplied (plain (tree_at id (forest pool.now)))) }
    ensures expression { IsExpression result (forest pool.now) }
    ensures inside { holds result (tree_at id (forest pool.now)) ≡ true }
    ensures factor { plain (tree_at result (forest pool.now)) ≡ nth at (multiplied (plain (tree_at id (forest pool.now)))) }
{
    match kind(pool, id) {
        Kind::Pow => child_id(pool, id, 0),
        _ => child_id(pool, id, at),
    }
}

/// The exponent of a power of an expanded tree.
pub(crate) fn exponent_of(pool: &Pool, exponent: Id) -> u8
    requires stands { Stands pool.now }
    requires expression { IsExpression exponent (forest pool.now) }
    requires expanded { IsExpanded (plain (tree_at exponent (forest pool.now))) }
    requires small { is_exponent (plain (tree_at exponent (forest pool.now))) ≡ true }
    ensures { result ≡ natural_exponent (plain (tree_at exponent (forest pool.now))) }
{
    let number = rational(pool, exponent).num();
    number as u8
}
