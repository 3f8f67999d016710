//! Numbers of a few terms, as values.
ghost use Rattle.std.specs.Prelude.{◌≡◌, ◌<◌, ◌^◌, ◌∷◌, ◌++◌, [], IsTrue, false, length, map, slice_index_or, true};
ghost use Rattle.arrayvec.specs.ArrayVec.{array_vec_len};
ghost use Rattle.calc_algebra.specs.Numbers.{is_number, value};
ghost use Rattle.calc_algebra.specs.Surds.{surd_times, term_times};
ghost use Rattle.number_forms.specs.Sums.{IsPlace};
ghost use Rattle.number_forms.specs.Answers.{IsPowerOver};
ghost use Rattle.number_forms.specs.Values.{AreListed, AreTermsOf, number_tree, surd_of, trees_of};
ghost use Rattle.surd_terms.specs.Terms.{term_of};
ghost use Rattle.tree_handles.specs.Handed.{tree_of, IsHanded};
ghost use Rattle.tree_handles.specs.Standing.{Stands, forest};

use crate::joining::SQUARE_FREE_BELOW;
use crate::roots;
use arrayvec::ArrayVec;
use node_pool::Pool;
use surd_terms::{Joined, Term, join, product};
use tree_handles::Handle;

/// So many terms of a Number are listed at most.
pub(crate) const LISTED: usize = 8;

/// Terms whose radicands rise, each so small that it is square-free.
pub(crate) type TermList = ArrayVec<Term, LISTED>;

/// Lists the terms of the sum of two Numbers behind none, if they are few and their radicands small.
pub(crate) fn add_values(pool: &Pool, a: &Handle, b: &Handle, list: &mut TermList) -> bool
    requires stands { Stands pool.now }
    requires first { IsHanded a.now (forest pool.now) }
    requires second { IsHanded b.now (forest pool.now) }
    requires first_number { is_number (tree_of a.now pool.now) ≡ true }
    requires second_number { is_number (tree_of b.now pool.now) ≡ true }
    requires none { list.old.items ≡ [] }
    ensures { IsTrue result → AreTermsOf (value (tree_of a.now pool.now) ++ value (tree_of b.now pool.now)) list.new.items }
{
    if !join_terms(pool, a, list) {
        return false;
    }
    join_terms(pool, b, list)
}

/// The same of their product.
pub(crate) fn multiply_values(pool: &Pool, a: &Handle, b: &Handle, list: &mut TermList) -> bool
    requires stands { Stands pool.now }
    requires first { IsHanded a.now (forest pool.now) }
    requires second { IsHanded b.now (forest pool.now) }
    requires first_number { is_number (tree_of a.now pool.now) ≡ true }
    requires second_number { is_number (tree_of b.now pool.now) ≡ true }
    requires none { list.old.items ≡ [] }
    ensures { IsTrue result → AreTermsOf (surd_times (value (tree_of a.now pool.now)) (value (tree_of b.now pool.now))) list.new.items }
{
    for at in 0..roots::term_count(pool, a) {
        if !join_products(pool, roots::nth_term(pool, a, at), b, list) {
            return false;
        }
    }
    true
}

/// The same of the square of a Number.
pub(crate) fn square_values(pool: &Pool, a: &Handle, list: &mut TermList) -> bool
    requires stands { Stands pool.now }
    requires handed { IsHanded a.now (forest pool.now) }
    requires number { is_number (tree_of a.now pool.now) ≡ true }
    requires none { list.old.items ≡ [] }
    ensures { IsTrue result → IsPowerOver (value (tree_of a.now pool.now)) 2 (number_tree list.new.items) }
{
    multiply_values(pool, a, a, list)
}

/// The same of its cube.
pub(crate) fn cube_values(pool: &Pool, a: &Handle, list: &mut TermList) -> bool
    requires stands { Stands pool.now }
    requires handed { IsHanded a.now (forest pool.now) }
    requires number { is_number (tree_of a.now pool.now) ≡ true }
    requires none { list.old.items ≡ [] }
    ensures { IsTrue result → IsPowerOver (value (tree_of a.now pool.now)) 3 (number_tree list.new.items) }
{
    let mut square = TermList::new();
    if !multiply_values(pool, a, a, &mut square) {
        return false;
    }
    multiply_terms(pool, square.as_slice(), a, list)
}

/// The same of the product of terms and a Number.
fn multiply_terms(pool: &Pool, terms: &[Term], a: &Handle, list: &mut TermList) -> bool
    requires stands { Stands pool.now }
    requires handed { IsHanded a.now (forest pool.now) }
    requires number { is_number (tree_of a.now pool.now) ≡ true }
    requires none { list.old.items ≡ [] }
    ensures { IsTrue result → AreTermsOf (surd_times (surd_of terms.now) (value (tree_of a.now pool.now))) list.new.items }
{
    for term in terms {
        if !join_products(pool, *term, a, list) {
            return false;
        }
    }
    true
}

/// Joins the terms of a Number to others.
fn join_terms(pool: &Pool, a: &Handle, list: &mut TermList) -> bool
    requires stands { Stands pool.now }
    requires handed { IsHanded a.now (forest pool.now) }
    requires number { is_number (tree_of a.now pool.now) ≡ true }
    requires listed { AreListed list.old.items }
    ensures { IsTrue result → AreTermsOf (surd_of list.old.items ++ value (tree_of a.now pool.now)) list.new.items }
{
    for at in 0..roots::term_count(pool, a) {
        if !join_one(list, roots::nth_term(pool, a, at)) {
            return false;
        }
    }
    true
}

/// Joins the products of a term and those of a Number to others.
fn join_products(pool: &Pool, factor: Term, a: &Handle, list: &mut TermList) -> bool
    requires stands { Stands pool.now }
    requires handed { IsHanded a.now (forest pool.now) }
    requires number { is_number (tree_of a.now pool.now) ≡ true }
    requires listed { AreListed list.old.items }
    ensures { IsTrue result → AreTermsOf (surd_of list.old.items ++ map (term_times (term_of factor)) (value (tree_of a.now pool.now))) list.new.items }
{
    for at in 0..roots::term_count(pool, a) {
        if !join_product(list, factor, roots::nth_term(pool, a, at)) {
            return false;
        }
    }
    true
}

/// Joins the product of two terms to others.
fn join_product(list: &mut TermList, a: Term, b: Term) -> bool
    requires listed { AreListed list.old.items }
    ensures { IsTrue result → AreTermsOf (term_times (term_of a) (term_of b) ∷ surd_of list.old.items) list.new.items }
{
    match product(a, b) {
        Ok(product) => join_one(list, product),
        Err(_) => false,
    }
}

/// Joins a term to others: with the one of its radicand, which may leave none, or at its place. Not where there is no room
/// for it, an operation does not fit, or its radicand is great.
fn join_one(list: &mut TermList, term: Term) -> bool
    requires listed { AreListed list.old.items }
    ensures { IsTrue result → AreTermsOf (term_of term ∷ surd_of list.old.items) list.new.items }
{
    if SQUARE_FREE_BELOW <= term.radicand() {
        return false;
    }
    let at = place_in(list.as_slice(), term.radicand());
    if at < list.len() && list.as_slice()[at].radicand() == term.radicand() {
        meet(list, at, term)
    } else {
        insert(list, at, term)
    }
}

/// Where a radicand stands or belongs.
fn place_in(terms: &[Term], radicand: u128) -> usize
    requires listed { AreListed terms.now }
    ensures { IsPlace result radicand (trees_of terms.now) }
{
    for (at, term) in terms.iter().enumerate() {
        if radicand <= term.radicand() {
            return at;
        }
    }
    terms.len()
}

/// Puts a term at its place.
fn insert(list: &mut TermList, at: usize, term: Term) -> bool
    requires listed { AreListed list.old.items }
    requires small { (term_of term).radicand < 10 ^ 12 }
    requires place { IsPlace at (term_of term).radicand (trees_of list.old.items) }
    requires other { at < array_vec_len list.old → (slice_index_or list.old.items at term).radicand ≡ term.radicand → ⊥ }
    ensures ok { IsTrue result → AreTermsOf (term_of term ∷ surd_of list.old.items) list.new.items }
    ensures full { result ≡ false → array_vec_len list.old ≡ 8 }
{
    if list.is_full() {
        return false;
    }
    list.insert(at, term);
    true
}

/// Joins a term to the one at a place, which has its radicand.
fn meet(list: &mut TermList, at: usize, term: Term) -> bool
    requires listed { AreListed list.old.items }
    requires small { (term_of term).radicand < 10 ^ 12 }
    requires within { at < array_vec_len list.old }
    requires like { (slice_index_or list.old.items at term).radicand ≡ term.radicand }
    ensures { IsTrue result → AreTermsOf (term_of term ∷ surd_of list.old.items) list.new.items }
{
    match join(list.as_slice()[at], term) {
        Ok(Joined::Term(joined)) => {
            list.as_mut_slice()[at] = joined;
            true
        }
        Ok(Joined::Zero) => {
            list.remove(at);
            true
        }
        _ => false,
    }
}
