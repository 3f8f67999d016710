//! The terms of a Number.
ghost use Rattle.child_lists.specs.Lists.{Lists};
ghost use Rattle.std.specs.Prelude.{◌≡◌, ◌<◌, ◌^◌, true, Some, slice_get};
ghost use Rattle.calc_algebra.specs.Clean.{IsClean};
ghost use Rattle.calc_algebra.specs.Numbers.{is_term, is_number, IsRadicand, natural_of, classes, value, term_of as term_of_tree};
ghost use Rattle.calc_terms.specs.Rat.{value_of};
ghost use Rattle.surd_terms.specs.Terms.{term_of};
ghost use Rattle.tree_handles.specs.Expressions.{IsExpression, plain};
ghost use Rattle.tree_handles.specs.Inside.{tree_at};
ghost use Rattle.tree_handles.specs.Standing.{Stands, forest};

use crate::shape::{Shape, shape_of};
use calc_terms::{Kind, Rat};
use child_lists::ChildList;
use node_pool::{Id, Pool};
use surd_terms::Term;
use tree_handles::{child_id, kind};

/// A term of a Number, by its place among them.
pub fn nth_term(pool: &Pool, id: Id, at: u16) -> Term
    requires stands { Stands pool.now }
    requires expression { IsExpression id (forest pool.now) }
    requires number { is_number (plain (tree_at id (forest pool.now))) ≡ true }
    requires within { at < classes (plain (tree_at id (forest pool.now))) }
    ensures { slice_get (value (plain (tree_at id (forest pool.now)))) at ≡ Some (term_of result) }
{
    match kind(pool, id) {
        Kind::Add => term_at(pool, child_id(pool, id, at)),
        _ => term_at(pool, id),
    }
}

/// The same from a list of the terms.
pub(crate) fn listed_term<const N: usize>(
    pool: &Pool,
    id: Id,
    terms: &ChildList<N>,
    at: u16,
) -> Term
    requires stands { Stands pool.now }
    requires expression { IsExpression id (forest pool.now) }
    requires number { is_number (plain (tree_at id (forest pool.now))) ≡ true }
    requires lists { Lists terms.now id (forest pool.now) }
    requires within { at < classes (plain (tree_at id (forest pool.now))) }
    ensures { slice_get (value (plain (tree_at id (forest pool.now)))) at ≡ Some (term_of result) }
{
    match kind(pool, id) {
        Kind::Add => term_at(pool, terms.child(pool, id, at)),
        _ => term_at(pool, id),
    }
}

/// The term that a tree is: a rational has radicand 1.
#[tactic(auto, using(calc_algebra::proofs::NumberClasses::one_not_zero, calc_terms::proofs::SmallFractions::one_value))]
pub(crate) fn term_at(pool: &Pool, id: Id) -> Term
    requires stands { Stands pool.now }
    requires expression { IsExpression id (forest pool.now) }
    requires term { is_term (plain (tree_at id (forest pool.now))) ≡ true }
    ensures { term_of result ≡ term_of_tree (plain (tree_at id (forest pool.now))) }
{
    match shape_of(pool, id) {
        Shape::Rational(q) => Term::rational(q),
        Shape::Root(radicand) => Term::new(Rat::whole(1), radicand_of(radicand)),
        Shape::Multiple(q, radicand) => Term::new(q, radicand_of(radicand)),
        Shape::Other => unreachable!(),
    }
}

/// The radicand that a rational is.
fn radicand_of(r: Rat) -> u128
    requires { IsRadicand (value_of r) }
    ensures value { result ≡ natural_of (value_of r).num }
    ensures clean { IsClean result }
    ensures fits { result < 2 ^ 127 }
{
    r.num().unsigned_abs()
}
