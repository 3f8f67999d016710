//! What a tree tells of the Number that it is.
ghost use Rattle.std.specs.Prelude.{◌≡◌, ◌==◌, ◌<◌, ◌^◌, true, false, MatchOption, IfSome, nat_abs};
ghost use Rattle.calc_terms.specs.Fractions.{whole_fraction};
ghost use Rattle.calc_algebra.specs.Numbers.{is_number, classes};
ghost use Rattle.calc_terms.specs.Rat.{value_of};
ghost use Rattle.calc_algebra.specs.Reduced.{is_reduced, is_half_num, is_num_one, is_whole_num};
ghost use Rattle.calc_terms.specs.Trees.{num};
ghost use Rattle.number_forms.specs.Readers.{is_zero, numerator};
ghost use Rattle.tree_handles.specs.Expressions.{IsExpression, plain};
ghost use Rattle.tree_handles.specs.Inside.{tree_at};
ghost use Rattle.tree_handles.specs.Standing.{Stands, forest};

use crate::shape::has_term_shape;
use calc_terms::{Kind, Rat};
use node_pool::{Id, Pool};
use tree_handles::{child_id, children, kind, rational};

/// Whether the tree is the rational 0.
pub fn is_zero(pool: &Pool, id: Id) -> bool
    requires stands { Stands pool.now }
    requires expression { IsExpression id (forest pool.now) }
    ensures { result ≡ is_zero (plain (tree_at id (forest pool.now))) }
{
    match kind(pool, id) {
        Kind::Num => rational(pool, id).is_zero(),
        _ => false,
    }
}

/// Whether the tree is the rational 1.
pub(crate) fn is_num_one(pool: &Pool, id: Id) -> bool
    requires stands { Stands pool.now }
    requires expression { IsExpression id (forest pool.now) }
    ensures { result ≡ is_num_one (plain (tree_at id (forest pool.now))) }
{
    match kind(pool, id) {
        Kind::Num => rational(pool, id).is_one(),
        _ => false,
    }
}

/// The whole number that the tree is, if it is one.
pub fn whole(pool: &Pool, id: Id) -> Option<i128>
    requires stands { Stands pool.now }
    requires expression { IsExpression id (forest pool.now) }
    ensures value { MatchOption result (is_whole_num (plain (tree_at id (forest pool.now))) ≡ false) (λ n. plain (tree_at id (forest pool.now)) ≡ num (whole_fraction n)) }
    ensures fits { IfSome result (λ n. nat_abs n < 2 ^ 127) }
{
    match kind(pool, id) {
        Kind::Num => whole_of(rational(pool, id)),
        _ => None,
    }
}

/// The whole number that a rational is, if it is one.
#[tactic(auto, using(crate::proofs::CodeTests::test_fails, rational128::proofs::LowestTerms::ratio_parts))]
pub(crate) fn whole_of(q: Rat) -> Option<i128>
    ensures value { MatchOption result ((value_of q).den == 1 ≡ false) (λ n. value_of q ≡ whole_fraction n) }
    ensures fits { IfSome result (λ n. nat_abs n < 2 ^ 127) }
{
    if q.is_whole() { Some(q.num()) } else { None }
}

/// The odd number n where the tree is n/2.
pub fn half(pool: &Pool, id: Id) -> Option<i128>
    requires stands { Stands pool.now }
    requires expression { IsExpression id (forest pool.now) }
    ensures value { let t = plain (tree_at id (forest pool.now)) in MatchOption result (is_half_num t ≡ false) (λ n. (is_half_num t ≡ true) × (numerator t ≡ n)) }
    ensures fits { IfSome result (λ n. nat_abs n < 2 ^ 127) }
{
    match kind(pool, id) {
        Kind::Num => half_of(rational(pool, id)),
        _ => None,
    }
}

/// The odd number n where a rational is n/2.
fn half_of(q: Rat) -> Option<i128>
    ensures value { MatchOption result ((value_of q).den == 2 ≡ false) (λ n. ((value_of q).den == 2 ≡ true) × ((value_of q).num ≡ n)) }
    ensures fits { IfSome result (λ n. nat_abs n < 2 ^ 127) }
{
    if q.den() == 2 { Some(q.num()) } else { None }
}

/// The number of square classes of a Number: none for 0.
pub fn classes(pool: &Pool, id: Id) -> u32
    requires stands { Stands pool.now }
    requires expression { IsExpression id (forest pool.now) }
    requires number { is_number (plain (tree_at id (forest pool.now))) ≡ true }
    ensures { result ≡ classes (plain (tree_at id (forest pool.now))) }
{
    u32::from(term_count(pool, id))
}

/// The number of terms of a Number, which is that of its classes.
#[tactic(auto, using(crate::proofs::ByKind::sum_classes))]
pub(crate) fn term_count(pool: &Pool, id: Id) -> u16
    requires stands { Stands pool.now }
    requires expression { IsExpression id (forest pool.now) }
    requires number { is_number (plain (tree_at id (forest pool.now))) ≡ true }
    ensures { result ≡ classes (plain (tree_at id (forest pool.now))) }
{
    match kind(pool, id) {
        Kind::Num => { if is_zero(pool, id) { 0 } else { 1 } }
        Kind::Add => children(pool, id),
        _ => 1,
    }
}

/// Whether a reduced tree is a Number, by its shape: its last term tells it of a sum.
#[inline(always)]
#[tactic(auto, using(crate::proofs::ReducedNumbers::reduced_other))]
pub fn is_reduced_number(pool: &Pool, id: Id) -> bool
    requires stands { Stands pool.now }
    requires expression { IsExpression id (forest pool.now) }
    requires reduced { is_reduced (plain (tree_at id (forest pool.now))) ≡ true }
    ensures { result ≡ is_number (plain (tree_at id (forest pool.now))) }
{
    match kind(pool, id) {
        Kind::Add => {
            let last = children(pool, id) - 1;
            has_term_shape(pool, child_id(pool, id, last))
        }
        _ => has_term_shape(pool, id),
    }
}
