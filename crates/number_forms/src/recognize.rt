//! Whether an expression is a Number.
ghost use Rattle.std.specs.Prelude.{◌≡◌, ◌<◌, ◌≤◌, ◌&&◌, true, not, nat_lt};
ghost use Rattle.calc_terms.specs.Fractions.{is_one_fraction, is_zero_fraction};
ghost use Rattle.calc_algebra.specs.Numbers.{is_number, is_term, is_radicand, is_below_all, are_terms, rises, terms_of, term_of as term_of_tree};
ghost use Rattle.calc_terms.specs.Rat.{value_of};
ghost use Rattle.calc_algebra.specs.SquareClasses.{are_alike};
ghost use Rattle.calc_terms.specs.Trees.{count, is_add};
ghost use Rattle.number_forms.specs.Sums.{trees_from};
ghost use Rattle.surd_terms.specs.Terms.{term_of};
ghost use Rattle.tree_handles.specs.Expressions.{IsExpression, children_of, nth, plain};
ghost use Rattle.tree_handles.specs.Inside.{tree_at};
ghost use Rattle.tree_handles.specs.Standing.{Stands, forest};

use crate::radicand::is_clean;
use crate::read::whole_of;
use crate::shape::{Shape, shape_of};
use crate::term::term_at;
use calc_terms::{Kind, Rat};
use node_pool::{Id, Pool};
use square_parts::alike;
use surd_terms::Term;
use tree_handles::{child_id, child_ids, children, kind};

/// Whether an expression is a Number: a rational, a rational multiple of a root whose radicand is clean, or a
/// sum of two terms or more whose radicands rise, no two alike. Of a sum of n terms each two are compared.
#[tactic(auto, using(crate::proofs::ByKind::add_by_kind, crate::proofs::Recognized::rational_by_kind))]
pub fn is_number(pool: &Pool, id: Id) -> bool
    requires stands { Stands pool.now }
    requires expression { IsExpression id (forest pool.now) }
    ensures { result ≡ is_number (plain (tree_at id (forest pool.now))) }
{
    match kind(pool, id) {
        Kind::Num => true,
        Kind::Add => is_number_sum(pool, id),
        _ => is_term(pool, id),
    }
}

/// Whether a sum is a Number.
#[tactic(auto, using(crate::proofs::Recognized::other_sum))]
fn is_number_sum(pool: &Pool, id: Id) -> bool
    requires stands { Stands pool.now }
    requires expression { IsExpression id (forest pool.now) }
    requires sum { is_add (plain (tree_at id (forest pool.now))) ≡ true }
    ensures { result ≡ is_number (plain (tree_at id (forest pool.now))) }
{
    if children(pool, id) < 2 {
        return false;
    }
    if !are_terms(pool, id) {
        return false;
    }
    rises(pool, id)
}

/// Whether all trees below a root are terms.
fn are_terms(pool: &Pool, id: Id) -> bool
    requires stands { Stands pool.now }
    requires expression { IsExpression id (forest pool.now) }
    ensures { result ≡ are_terms (children_of (plain (tree_at id (forest pool.now)))) }
{
    for child in child_ids(pool, id, 0) {
        if !is_term(pool, child) {
            return false;
        }
    }
    true
}

/// Whether a tree is a term other than 0.
#[tactic(auto, using(crate::proofs::ReducedNumbers::unshaped_term))]
fn is_term(pool: &Pool, id: Id) -> bool
    requires stands { Stands pool.now }
    requires expression { IsExpression id (forest pool.now) }
    ensures { result ≡ is_term (plain (tree_at id (forest pool.now))) }
{
    match shape_of(pool, id) {
        Shape::Rational(q) => !q.is_zero(),
        Shape::Root(radicand) => is_radicand(radicand),
        Shape::Multiple(q, radicand) => is_multiple(q, radicand),
        Shape::Other => false,
    }
}

/// Whether a rational times the root of another makes a term other than 0 and other than a root.
#[tactic(auto, using(crate::proofs::Recognized::zero_multiple, crate::proofs::Recognized::one_multiple, crate::proofs::Recognized::other_multiple))]
fn is_multiple(q: Rat, radicand: Rat) -> bool
    ensures { result ≡ (not (is_zero_fraction (value_of q)) && not (is_one_fraction (value_of q)) && is_radicand (value_of radicand)) }
{
    if q.is_zero() {
        return false;
    }
    if q.is_one() {
        return false;
    }
    is_radicand(radicand)
}

/// Whether a rational is a clean whole number of at least 2.
fn is_radicand(r: Rat) -> bool
    ensures { result ≡ is_radicand (value_of r) }
{
    let Some(n) = whole_of(r) else {
        return false;
    };
    if n < 2 {
        return false;
    }
    is_clean(n.unsigned_abs())
}

/// Whether the radicands of terms rise, no two alike.
fn rises(pool: &Pool, id: Id) -> bool
    requires stands { Stands pool.now }
    requires expression { IsExpression id (forest pool.now) }
    requires terms { are_terms (children_of (plain (tree_at id (forest pool.now)))) ≡ true }
    ensures { result ≡ rises (terms_of (children_of (plain (tree_at id (forest pool.now))))) }
{
    for at in 0..children(pool, id) {
        let term = child_term(pool, id, at);
        if !is_below_rest(pool, term, id, at + 1) {
            return false;
        }
    }
    true
}

/// Whether a term's radicand is below those of the terms below a root from a place on, and alike with none.
fn is_below_rest(pool: &Pool, term: Term, id: Id, from: u16) -> bool
    requires stands { Stands pool.now }
    requires expression { IsExpression id (forest pool.now) }
    requires terms { are_terms (children_of (plain (tree_at id (forest pool.now)))) ≡ true }
    requires within { from ≤ count (children_of (plain (tree_at id (forest pool.now)))) }
    ensures { result ≡ is_below_all (term_of term) (terms_of (trees_from from (children_of (plain (tree_at id (forest pool.now)))))) }
{
    for child in child_ids(pool, id, from) {
        if !is_below(term, term_at(pool, child)) {
            return false;
        }
    }
    true
}

/// The term at a place below a root.
#[tactic(auto, using(child_lists::proofs::ListedChildren::children_number, crate::proofs::Rising::nth_term))]
fn child_term(pool: &Pool, id: Id, at: u16) -> Term
    requires stands { Stands pool.now }
    requires expression { IsExpression id (forest pool.now) }
    requires terms { are_terms (children_of (plain (tree_at id (forest pool.now)))) ≡ true }
    requires within { at < count (children_of (plain (tree_at id (forest pool.now)))) }
    ensures { term_of result ≡ term_of_tree (nth at (children_of (plain (tree_at id (forest pool.now))))) }
{
    term_at(pool, child_id(pool, id, at))
}

/// Whether a term's radicand is below that of another, and not alike with it.
fn is_below(a: Term, b: Term) -> bool
    ensures { result ≡ (nat_lt (term_of a).radicand (term_of b).radicand && not (are_alike (term_of a).radicand (term_of b).radicand)) }
{
    if b.radicand() <= a.radicand() {
        return false;
    }
    match alike(a.radicand(), b.radicand()) {
        Some(_) => false,
        None => true,
    }
}
