//! Signs and exponents, as the face of a tree needs them.
ghost use Rattle.std.specs.Prelude.{◌≡◌, ◌<◌, ◌^◌, true, nat_abs};
ghost use Rattle.beautify.specs.Showing.{is_negative_num, stands_below};
ghost use Rattle.calc_language.specs.Faces.{has_minus, exponent_below, below_zero};
ghost use Rattle.calc_terms.specs.Integers.{int_is_negative};
ghost use Rattle.calc_terms.specs.Rat.{value_of};
ghost use Rattle.tree_handles.specs.Expressions.{IsExpression, plain};
ghost use Rattle.tree_handles.specs.Inside.{tree_at};
ghost use Rattle.tree_handles.specs.Standing.{Stands, forest};

use calc_terms::{Kind, Rat};
use node_pool::{Id, Pool};
use tree_handles::{child_id, children, kind, rational};

/// Whether a minus sign stands before the face: the leading rational is negative.
#[inline(always)]
pub(crate) fn is_negative(pool: &Pool, id: Id) -> bool
    requires stands { Stands pool.now }
    requires expression { IsExpression id (forest pool.now) }
    ensures { result ≡ has_minus (plain (tree_at id (forest pool.now))) }
{
    match kind(pool, id) {
        Kind::Mult if children(pool, id) > 0 => is_negative_number(pool, child_id(pool, id, 0)),
        _ => is_negative_number(pool, id),
    }
}

/// Whether the tree is a rational below 0.
#[inline(always)]
fn is_negative_number(pool: &Pool, id: Id) -> bool
    requires stands { Stands pool.now }
    requires expression { IsExpression id (forest pool.now) }
    ensures { result ≡ is_negative_num (plain (tree_at id (forest pool.now))) }
{
    match kind(pool, id) {
        Kind::Num => is_below_zero(rational(pool, id)),
        _ => false,
    }
}

/// n where a power with this exponent stands below the line as the power n, and 0 where it stands
/// above.
#[inline(always)]
pub(crate) fn below_the_line(pool: &Pool, exponent: Id) -> u128
    requires stands { Stands pool.now }
    requires expression { IsExpression exponent (forest pool.now) }
    ensures { result ≡ exponent_below (plain (tree_at exponent (forest pool.now))) }
{
    match kind(pool, exponent) {
        Kind::Num => whole_below_zero(rational(pool, exponent)),
        _ => 0,
    }
}

#[inline(always)]
pub(crate) fn is_below_zero(value: Rat) -> bool
    ensures { result ≡ int_is_negative (value_of value).num }
{
    value.num() < 0
}

/// n for the whole number -n, and 0 for any other rational.
#[inline(always)]
fn whole_below_zero(value: Rat) -> u128
    ensures { result ≡ below_zero (value_of value).num (value_of value).den }
{
    if !value.is_whole() {
        return 0;
    }
    if !is_below_zero(value) {
        return 0;
    }
    value.num().unsigned_abs()
}

/// Whether the tree is a power that stands below the line of a fraction.
#[inline(always)]
pub(crate) fn is_below(pool: &Pool, id: Id) -> bool
    requires stands { Stands pool.now }
    requires expression { IsExpression id (forest pool.now) }
    ensures { result ≡ stands_below (plain (tree_at id (forest pool.now))) }
{
    match kind(pool, id) {
        Kind::Pow => below_the_line(pool, child_id(pool, id, 1)) > 0,
        _ => false,
    }
}

/// The magnitude of the numerator.
#[inline(always)]
pub(crate) fn numerator(value: Rat) -> u128
    ensures value { result ≡ nat_abs (value_of value).num }
    ensures fits { result < 2 ^ 127 }
{
    value.num().unsigned_abs()
}

#[inline(always)]
pub(crate) fn denominator(value: Rat) -> u128
    ensures value { result ≡ (value_of value).den }
    ensures fits { result < 2 ^ 127 }
{
    value.den().unsigned_abs()
}
