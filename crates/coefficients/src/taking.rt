//! The coefficient of a reduced tree is taken off.
ghost use Rattle.std.specs.Prelude.{◌≡◌, ◌≤◌, ◌↔◌, IfOk, IfErr, IsOk, OnOk, [], ◌∷◌, true, false};
ghost use Rattle.calc_algebra.specs.Numbers.{is_number};
ghost use Rattle.calc_algebra.specs.Reduced.{is_reduced, part_of, split_product as split_of};
ghost use Rattle.calc_terms.specs.Trees.{mult, is_mult, is_undef};
ghost use Rattle.coefficients.specs.Bytes.{bytes_of_coefficient, bytes_of_taking, IsShort};
ghost use Rattle.coefficients.specs.Coefficients.{coefficient_of, coefficient_length as length_of};
ghost use Rattle.coefficients.specs.Pairs.{GivesTwo, LeavesRest};
ghost use Rattle.node_pool.specs.State.{free_of};
ghost use Rattle.tree_handles.specs.Standing.{Stands, forest, KeepsRefusals};
ghost use Rattle.tree_handles.specs.Handed.{tree_of, IsHanded, KeepsFront};
ghost use Rattle.tree_handles.specs.Expressions.{IsExpression, plain, children_of};
ghost use Rattle.tree_handles.specs.Inside.{tree_at};
ghost use Rattle.tree_handles.specs.Roots.{without_root};

use crate::products::unwrapped;
use calc_terms::{Kind, Rat};
use node_pool::{Full, Id, Pool};
use number_forms::is_reduced_number;
use tree_handles::{Handle, child_id, kind, move_last, node_over_two, number, take_child};

/// How many leading children of a reduced product make its coefficient: none, 1, or 2 where it is a
/// rational times a root.
#[tactic(auto, using(crate::proofs::Places::two_children))]
pub fn coefficient_length(pool: &Pool, product: Id) -> u16
    requires stands { Stands pool.now }
    requires expression { IsExpression product (forest pool.now) }
    requires product { is_mult (plain (tree_at product (forest pool.now))) ≡ true }
    requires reduced { is_reduced (plain (tree_at product (forest pool.now))) ≡ true }
    ensures { result ≡ length_of (children_of (plain (tree_at product (forest pool.now)))) }
{
    if !is_reduced_number(pool, child_id(pool, product, 0)) {
        0
    } else if !is_reduced_number(pool, child_id(pool, product, 1)) {
        1
    } else {
        2
    }
}

/// The coefficient of a reduced term, 1 where none is written, and the term without it.
pub fn take_coefficient(pool: &mut Pool, term: Handle) -> Result<(Handle, Handle), Full>
    requires stands { Stands pool.old }
    requires handed { IsHanded term (forest pool.old) }
    requires reduced { is_reduced (tree_of term pool.old) ≡ true }
    requires defined { is_undef (tree_of term pool.old) ≡ false }
    requires no_number { is_number (tree_of term pool.old) ≡ false }
    ensures ok { let t = tree_of term pool.old in
        IfOk result (λ r. GivesTwo (without_root term (forest pool.old)) (forest pool.new) r.0 r.1 (λ c. c ≡ coefficient_of t) (λ p. p ≡ part_of t)) }
    ensures front { KeepsFront (term ∷ []) (forest pool.old) (forest pool.new) }
    ensures kept { OnOk result (KeepsRefusals pool.old pool.new) }
    ensures full { IfErr result (IsShort (bytes_of_taking (tree_of term pool.old)) pool.old pool.new) }
    ensures exactly { IsOk result ↔ (bytes_of_taking (tree_of term pool.old) ≤ free_of pool.old) }
    ensures stands { Stands pool.new }
{
    match kind(pool, term.id()) {
        Kind::Mult => {
            let (coefficient, factors) = split_product(pool, term)?;
            let part = unwrapped(pool, factors);
            Ok((coefficient, part))
        }
        _ => {
            let one = number(pool, Rat::whole(1))?;
            move_last(pool, &term);
            Ok((one, term))
        }
    }
}

/// The coefficient of a reduced product as one Number, 1 where none is written, and the product of
/// the factors behind it, which stays a product where it has one factor.
pub fn split_product(pool: &mut Pool, product: Handle) -> Result<(Handle, Handle), Full>
    requires stands { Stands pool.old }
    requires handed { IsHanded product (forest pool.old) }
    requires product { is_mult (tree_of product pool.old) ≡ true }
    requires reduced { is_reduced (tree_of product pool.old) ≡ true }
    ensures ok { let s = split_of (children_of (tree_of product pool.old)) in
        IfOk result (λ r. GivesTwo (without_root product (forest pool.old)) (forest pool.new) r.0 r.1 (λ c. c ≡ s.coefficient) (λ p. p ≡ mult s.factors)) }
    ensures front { KeepsFront (product ∷ []) (forest pool.old) (forest pool.new) }
    ensures kept { OnOk result (KeepsRefusals pool.old pool.new) }
    ensures full { IfErr result (IsShort (bytes_of_coefficient (children_of (tree_of product pool.old))) pool.old pool.new) }
    ensures exactly { IsOk result ↔ (bytes_of_coefficient (children_of (tree_of product pool.old)) ≤ free_of pool.old) }
    ensures stands { Stands pool.new }
{
    let coefficient = take_leading(pool, &product)?;
    move_last(pool, &product);
    Ok((coefficient, product))
}

/// The coefficient of a reduced product as one Number, and the other factors left where they are.
fn take_leading(pool: &mut Pool, product: &Handle) -> Result<Handle, Full>
    requires stands { Stands pool.old }
    requires handed { IsHanded product.now (forest pool.old) }
    requires product { is_mult (tree_of product.now pool.old) ≡ true }
    requires reduced { is_reduced (tree_of product.now pool.old) ≡ true }
    ensures ok { let s = split_of (children_of (tree_of product.now pool.old)) in
        IfOk result (λ h. LeavesRest product.now (forest pool.old) (forest pool.new) h s.coefficient s.factors) }
    ensures front { KeepsFront (product.now ∷ []) (forest pool.old) (forest pool.new) }
    ensures kept { OnOk result (KeepsRefusals pool.old pool.new) }
    ensures full { IfErr result (IsShort (bytes_of_coefficient (children_of (tree_of product.now pool.old))) pool.old pool.new) }
    ensures exactly { IsOk result ↔ (bytes_of_coefficient (children_of (tree_of product.now pool.old)) ≤ free_of pool.old) }
    ensures stands { Stands pool.new }
{
    let length = coefficient_length(pool, product.id());
    if length == 0 {
        return number(pool, Rat::whole(1));
    }
    if length == 1 {
        return Ok(take_child(pool, product, 0));
    }
    let rational = take_child(pool, product, 0);
    let root = take_child(pool, product, 0);
    node_over_two(pool, Kind::Mult, rational, root)
}
