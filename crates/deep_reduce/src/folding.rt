//! Nodes over one or two rationals, calculated in values.
ghost use Rattle.std.specs.Prelude.{◌≡◌, IfSome};
ghost use Rattle.calc_terms.specs.Rat.{value_of};
ghost use Rattle.calc_terms.specs.Trees.{num, div, none, more};
ghost use Rattle.deep_reduce.specs.Nodes.{IsNodeAnswer};
ghost use Rattle.tree_handles.specs.Expressions.{IsExpression, children_of, plain};
ghost use Rattle.tree_handles.specs.Handed.{IsHanded, tree_of};
ghost use Rattle.tree_handles.specs.Inside.{tree_at};
ghost use Rattle.tree_handles.specs.Standing.{Stands, forest};

use calc_terms::{Kind, Rat};
use node_pool::{Id, Pool};
use rational128::{add, invert, mul, neg};
use tree_handles::{Handle, child_id, children, kind, rational};

/// The rational that a node over one or two rationals reduces to, where its value fits. It is no part of its caller, of
/// which each level of a tree has one on the machine's stack.
#[inline(never)]
#[tactic(auto, using(tree_handles::proofs::Seen::expression, tree_handles::proofs::Seen::live))]
pub(crate) fn folded(pool: &Pool, tree: &Handle) -> Option<Rat>
    requires stands { Stands pool.now }
    requires handed { IsHanded tree.now (forest pool.now) }
    ensures { IfSome result (λ r. IsNodeAnswer (tree_of tree.now pool.now) (num (value_of r))) }
{
    let id = tree.id();
    match kind(pool, id) {
        Kind::Add => {
            let (left, right) = both(pool, id)?;
            add(left, right).ok()
        }
        Kind::Mult => {
            let (left, right) = both(pool, id)?;
            mul(left, right).ok()
        }
        Kind::Sub => {
            let (left, right) = both(pool, id)?;
            let opposite = neg(right);
            add(left, opposite).ok()
        }
        Kind::Div => {
            let (left, right) = both(pool, id)?;
            quotient(left, right)
        }
        Kind::Neg => {
            let argument = only(pool, id)?;
            Some(neg(argument))
        }
        _ => None,
    }
}

/// The rational that a quotient of two reduces to, where it fits.
#[tactic(auto, using(calc_measures::proofs::Inverses::zero_num, rational128::proofs::LowestTerms::ratio_parts))]
fn quotient(dividend: Rat, divisor: Rat) -> Option<Rat>
    ensures { IfSome result (λ r. IsNodeAnswer (div (num (value_of dividend)) (num (value_of divisor))) (num (value_of r))) }
{
    if divisor.is_zero() {
        return None;
    }
    let inverse = invert(divisor);
    mul(dividend, inverse).ok()
}

/// The children of a node, where they are two rationals.
fn both(pool: &Pool, id: Id) -> Option<(Rat, Rat)>
    requires stands { Stands pool.now }
    requires expression { IsExpression id (forest pool.now) }
    ensures { IfSome result (λ sides. children_of (plain (tree_at id (forest pool.now))) ≡ more (num (value_of sides.0)) (more (num (value_of sides.1)) none)) }
{
    if children(pool, id) != 2 {
        return None;
    }
    let left = child_id(pool, id, 0);
    match kind(pool, left) {
        Kind::Num => {
            let right = rational_at(pool, child_id(pool, id, 1))?;
            Some((rational(pool, left), right))
        }
        _ => None,
    }
}

/// The child of a node, where it is the only one, and a rational.
fn only(pool: &Pool, id: Id) -> Option<Rat>
    requires stands { Stands pool.now }
    requires expression { IsExpression id (forest pool.now) }
    ensures { IfSome result (λ q. children_of (plain (tree_at id (forest pool.now))) ≡ more (num (value_of q)) none) }
{
    if children(pool, id) != 1 {
        return None;
    }
    rational_at(pool, child_id(pool, id, 0))
}

/// The rational of a tree that is one.
fn rational_at(pool: &Pool, id: Id) -> Option<Rat>
    requires stands { Stands pool.now }
    requires expression { IsExpression id (forest pool.now) }
    ensures { IfSome result (λ q. plain (tree_at id (forest pool.now)) ≡ num (value_of q)) }
{
    match kind(pool, id) {
        Kind::Num => Some(rational(pool, id)),
        _ => None,
    }
}
