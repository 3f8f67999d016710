//! A node over expanded children, expanded as a value in lists.
ghost use Rattle.std.specs.Prelude.{◌≡◌, ◌<◌, ◌+◌, ◌^◌, ◌++◌, ℕ, List, OnOk, length, true};
ghost use Rattle.calc_terms.specs.Rat.{value_of};
ghost use Rattle.calc_terms.specs.declared.kind.Kind.TheVariants as kinds;
ghost use Rattle.calc_terms.specs.Trees.{is_mult, root_kind};
ghost use Rattle.expansions.specs.Named.{IsListOf, names_of};
ghost use Rattle.expand_forms.specs.ByValues.{CanName};
ghost use Rattle.expansions.specs.Polynomials.{Polynomial, product, scaled};
ghost use Rattle.expand_forms.specs.Parts.{has_parts};
ghost use Rattle.expansions.specs.PolynomialTrees.{has_polynomial_root, polynomial_of};
ghost use Rattle.expand_forms.specs.PowersOfSums.{AreReady, IsReady, is_power_of_sum};
ghost use Rattle.polynomials.specs.Polynomials.{HaveExponents};
ghost use Rattle.polynomials.specs.Terms.{IsNormal, polynomial_of as polynomial_in};
ghost use Rattle.tree_handles.specs.Expressions.{IsExpression, children_of, plain};
ghost use Rattle.tree_handles.specs.Inside.{tree_at};
ghost use Rattle.tree_handles.specs.Standing.{Stands, forest};

use crate::naming::collect_names;
use crate::parts::{exponent_of, has_parts, part_at, part_count};
use crate::powers_of_sums::is_power_of_sum;
use crate::reading::read_terms;
use crate::term_lists::TermLists;
use calc_terms::{Kind, Rat};
use node_pool::{Id, Pool};
use polynomials::{Term, Unfit, add_scaled, degree, power, product};
use std::mem::swap;
use tree_handles::{child_id, children, kind};

/// The greatest exponent of a packed monomial.
const GREATEST_EXPONENT: u16 = 255;

/// Whether the expanded polynomial of a node fits into lists, whose children are expanded but for powers of sums. Its terms are
/// the answer then.
pub(crate) fn expand_values(pool: &Pool, id: Id, lists: &mut TermLists) -> bool
    requires stands { Stands pool.now }
    requires expression { IsExpression id (forest pool.now) }
    requires polynomial { has_polynomial_root (plain (tree_at id (forest pool.now))) ≡ true }
    requires children { AreReady (children_of (plain (tree_at id (forest pool.now)))) }
    ensures list { result ≡ true → IsListOf (names_of lists.new.names.items) lists.new.answer.items (polynomial_of (plain (tree_at id (forest pool.now)))) }
    ensures few { result ≡ true → length lists.new.answer.items < 2 ^ 16 }
{
    if collect_names(pool, id, &mut lists.names).is_err() {
        return false;
    }
    list_node(pool, id, lists) && lists.answer.len() <= usize::from(u16::MAX)
}

/// The same of a node whose names are listed.
fn list_node(pool: &Pool, id: Id, lists: &mut TermLists) -> bool
    requires stands { Stands pool.now }
    requires expression { IsExpression id (forest pool.now) }
    requires polynomial { has_polynomial_root (plain (tree_at id (forest pool.now))) ≡ true }
    requires children { AreReady (children_of (plain (tree_at id (forest pool.now)))) }
    requires names { CanName (names_of lists.old.names.items) (plain (tree_at id (forest pool.now))) }
    ensures list { result ≡ true → IsListOf (names_of lists.old.names.items) lists.new.answer.items (polynomial_of (plain (tree_at id (forest pool.now)))) }
    ensures names { lists.new.names ≡ lists.old.names }
{
    if has_parts(pool, id) {
        return list_sum(pool, id, lists);
    }
    match kind(pool, id) {
        Kind::Mult => list_products(pool, id, lists),
        Kind::Pow => list_power(pool, id, lists),
        _ => false,
    }
}

/// The sum of a node's parts.
fn list_sum(pool: &Pool, id: Id, lists: &mut TermLists) -> bool
    requires stands { Stands pool.now }
    requires expression { IsExpression id (forest pool.now) }
    requires polynomial { has_polynomial_root (plain (tree_at id (forest pool.now))) ≡ true }
    requires parts { has_parts (plain (tree_at id (forest pool.now))) ≡ true }
    requires children { AreReady (children_of (plain (tree_at id (forest pool.now)))) }
    requires names { CanName (names_of lists.old.names.items) (plain (tree_at id (forest pool.now))) }
    ensures list { result ≡ true → IsListOf (names_of lists.old.names.items) lists.new.answer.items (polynomial_of (plain (tree_at id (forest pool.now)))) }
    ensures names { lists.new.names ≡ lists.old.names }
{
    lists.answer.clear();
    for at in 0..part_count(pool, id) {
        let part = part_at(pool, id, at);
        if !add_child(pool, part.factor, part.tree, lists) {
            return false;
        }
    }
    true
}

/// Adds a rational times an expanded tree to the answer.
fn add_child(pool: &Pool, factor: Rat, child: Id, lists: &mut TermLists) -> bool
    requires stands { Stands pool.now }
    requires expression { IsExpression child (forest pool.now) }
    requires ready { IsReady (plain (tree_at child (forest pool.now))) }
    requires names { CanName (names_of lists.old.names.items) (plain (tree_at child (forest pool.now))) }
    requires answer { (v : Polynomial) × IsListOf (names_of lists.old.names.items) lists.old.answer.items v }
    ensures list { (v : Polynomial) → IsListOf (names_of lists.old.names.items) lists.old.answer.items v
        → result ≡ true → IsListOf (names_of lists.old.names.items) lists.new.answer.items (v ++ scaled (value_of factor) (polynomial_of (plain (tree_at child (forest pool.now))))) }
    ensures names { lists.new.names ≡ lists.old.names }
{
    if !list_child(pool, child, lists) {
        return false;
    }
    if add_scaled(&lists.answer, factor, &lists.child, &mut lists.next).is_err() {
        return false;
    }
    swap(&mut lists.answer, &mut lists.next);
    true
}

/// The product of a node's expanded children, multiplied from the last one on.
fn list_products(pool: &Pool, id: Id, lists: &mut TermLists) -> bool
    requires stands { Stands pool.now }
    requires expression { IsExpression id (forest pool.now) }
    requires product { is_mult (plain (tree_at id (forest pool.now))) ≡ true }
    requires children { AreReady (children_of (plain (tree_at id (forest pool.now)))) }
    requires names { CanName (names_of lists.old.names.items) (plain (tree_at id (forest pool.now))) }
    ensures list { result ≡ true → IsListOf (names_of lists.old.names.items) lists.new.answer.items (polynomial_of (plain (tree_at id (forest pool.now)))) }
    ensures names { lists.new.names ≡ lists.old.names }
{
    if power(&[], 0, &mut lists.answer, &mut lists.next, &mut lists.spare).is_err() {
        return false;
    }
    let mut left = children(pool, id);
    while left > 0 {
        left -= 1;
        if !multiply_child(pool, child_id(pool, id, left), lists) {
            return false;
        }
    }
    true
}

/// Multiplies the answer by an expanded tree.
fn multiply_child(pool: &Pool, child: Id, lists: &mut TermLists) -> bool
    requires stands { Stands pool.now }
    requires expression { IsExpression child (forest pool.now) }
    requires ready { IsReady (plain (tree_at child (forest pool.now))) }
    requires names { CanName (names_of lists.old.names.items) (plain (tree_at child (forest pool.now))) }
    requires answer { (v : Polynomial) × IsListOf (names_of lists.old.names.items) lists.old.answer.items v }
    ensures list { (v : Polynomial) → IsListOf (names_of lists.old.names.items) lists.old.answer.items v
        → result ≡ true → IsListOf (names_of lists.old.names.items) lists.new.answer.items (product (polynomial_of (plain (tree_at child (forest pool.now)))) v) }
    ensures names { lists.new.names ≡ lists.old.names }
{
    if !list_child(pool, child, lists) {
        return false;
    }
    if u16::from(degree(&lists.child)) + u16::from(degree(&lists.answer)) > GREATEST_EXPONENT {
        return false;
    }
    if multiply(
        &lists.child,
        &lists.answer,
        &mut lists.next,
        &mut lists.spare,
    )
    .is_err()
    {
        return false;
    }
    swap(&mut lists.answer, &mut lists.next);
    true
}

/// Lists the terms of a child: an expanded tree, or a power of an expanded sum.
fn list_child(pool: &Pool, child: Id, lists: &mut TermLists) -> bool
    requires stands { Stands pool.now }
    requires expression { IsExpression child (forest pool.now) }
    requires ready { IsReady (plain (tree_at child (forest pool.now))) }
    requires names { CanName (names_of lists.old.names.items) (plain (tree_at child (forest pool.now))) }
    ensures list { result ≡ true → IsListOf (names_of lists.old.names.items) lists.new.child.items (polynomial_of (plain (tree_at child (forest pool.now)))) }
    ensures names { lists.new.names ≡ lists.old.names }
    ensures answer { lists.new.answer.items ≡ lists.old.answer.items }
{
    if is_power_of_sum(pool, child) {
        return list_raised(pool, child, lists);
    }
    read_terms(pool, child, &lists.names, &mut lists.child).is_ok()
}

/// The same of a power of an expanded sum.
fn list_raised(pool: &Pool, child: Id, lists: &mut TermLists) -> bool
    requires stands { Stands pool.now }
    requires expression { IsExpression child (forest pool.now) }
    requires power { is_power_of_sum (plain (tree_at child (forest pool.now))) ≡ true }
    requires ready { IsReady (plain (tree_at child (forest pool.now))) }
    requires names { CanName (names_of lists.old.names.items) (plain (tree_at child (forest pool.now))) }
    ensures list { result ≡ true → IsListOf (names_of lists.old.names.items) lists.new.child.items (polynomial_of (plain (tree_at child (forest pool.now)))) }
    ensures names { lists.new.names ≡ lists.old.names }
    ensures answer { lists.new.answer.items ≡ lists.old.answer.items }
{
    let base = child_id(pool, child, 0);
    if read_terms(pool, base, &lists.names, &mut lists.base).is_err() {
        return false;
    }
    let exponent = exponent_of(pool, child_id(pool, child, 1));
    if u16::from(exponent) * u16::from(degree(&lists.base)) > GREATEST_EXPONENT {
        return false;
    }
    power(
        &lists.base,
        exponent,
        &mut lists.child,
        &mut lists.next,
        &mut lists.spare,
    )
    .is_ok()
}

/// The product of two lists, of which rows run over the one with fewer terms.
#[tactic(auto, using(calc_terms::proofs::SmallLaws::if_ok_map, expansions::proofs::ListLaws::list_product))]
fn multiply(
    a: &[Term],
    b: &[Term],
    list: &mut Vec<Term>,
    spare: &mut Vec<Term>,
) -> Result<(), Unfit>
    requires first { IsNormal a.now }
    requires second { IsNormal b.now }
    requires exponents { (d : ℕ) × (e : ℕ) × (d + e < 256) × HaveExponents d (polynomial_in a.now) × HaveExponents e (polynomial_in b.now) }
    ensures { (ns : List (List ℕ)) (v w : Polynomial) → IsListOf ns a.now v → IsListOf ns b.now w → OnOk result (IsListOf ns list.new.items (product v w)) }
{
    if a.len() <= b.len() {
        product(a, b, list, spare)
    } else {
        product(b, a, list, spare)
    }
}

/// A power.
fn list_power(pool: &Pool, id: Id, lists: &mut TermLists) -> bool
    requires stands { Stands pool.now }
    requires expression { IsExpression id (forest pool.now) }
    requires polynomial { has_polynomial_root (plain (tree_at id (forest pool.now))) ≡ true }
    requires power { kinds.Pow ≡ root_kind (plain (tree_at id (forest pool.now))) }
    requires children { AreReady (children_of (plain (tree_at id (forest pool.now)))) }
    requires names { CanName (names_of lists.old.names.items) (plain (tree_at id (forest pool.now))) }
    ensures list { result ≡ true → IsListOf (names_of lists.old.names.items) lists.new.answer.items (polynomial_of (plain (tree_at id (forest pool.now)))) }
    ensures names { lists.new.names ≡ lists.old.names }
{
    let exponent = exponent_of(pool, child_id(pool, id, 1));
    if !list_child(pool, child_id(pool, id, 0), lists) {
        return false;
    }
    if u16::from(exponent) * u16::from(degree(&lists.child)) > GREATEST_EXPONENT {
        return false;
    }
    power(
        &lists.child,
        exponent,
        &mut lists.answer,
        &mut lists.next,
        &mut lists.spare,
    )
    .is_ok()
}
