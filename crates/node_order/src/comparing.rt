//! Trees are compared in one walk over their nodes in prefix order.
ghost use Rattle.std.specs.Prelude.{◌≡◌, ◌≢◌, ◌-◌, ◌+◌, ◌<◌, ◌^◌, min};
ghost use Rattle.std.specs.Ordering.{nat_cmp};
ghost use Rattle.calc_algebra.specs.TreeOrder.{tree_cmp};
ghost use Rattle.calc_terms.specs.Trees.{Tree};
ghost use Rattle.node_order.specs.Fronts.{Shows};
ghost use Rattle.tree_handles.specs.Expressions.{IsExpression, plain};
ghost use Rattle.tree_handles.specs.Inside.{tree_at};
ghost use Rattle.tree_handles.specs.Standing.{Stands, forest};

use crate::fronts::{Front, compare_roots};
use node_pool::{Id, Pool};
use std::cmp::Ordering;

/// The order of trees: by kind; of one kind rationals by value, symbols by their bytes, and other trees by their
/// children from left to right, and then fewer children first. Equal exactly for identical trees.
pub fn compare(pool: &Pool, a: Id, b: Id) -> Ordering
    requires stands { Stands pool.now }
    requires first { IsExpression a (forest pool.now) }
    requires second { IsExpression b (forest pool.now) }
    ensures { result ≡ tree_cmp (plain (tree_at a (forest pool.now))) (plain (tree_at b (forest pool.now))) }
{
    let left = Front::of(pool, a);
    let right = Front::of(pool, b);
    compare_fronts(pool, left, right)
}

/// The pairs of trees that are still to be compared.
#[derive(Clone, Copy)]
pub struct Pairs {
    /// How many there are.
    owed: u64,
    /// The order if all of them are equal.
    undecided: Ordering,
}

impl Pairs {
    /// The pairs behind one whose roots are equal, by the numbers of their children.
    fn behind(self, left: u16, right: u16) -> Pairs
        requires some { 0 < self.owed }
        requires few { self.owed < 2 ^ 32 }
        ensures same { left ≡ right → result ≡ record { owed = self.owed - 1 + left; undecided = self.undecided } }
        ensures fewer { left ≢ right → result ≡ record { owed = min left right; undecided = nat_cmp left right } }
    {
        if left == right {
            Pairs {
                owed: self.owed - 1 + u64::from(left),
                undecided: self.undecided,
            }
        } else {
            Pairs {
                owed: u64::from(left.min(right)),
                undecided: left.cmp(&right),
            }
        }
    }
}

/// The order of two trees by their fronts.
pub fn compare_fronts(pool: &Pool, left: Front<'_>, right: Front<'_>) -> Ordering
    requires stands { Stands pool.now }
    requires first { (t : Tree) × Shows left t (forest pool.now) }
    requires second { (u : Tree) × Shows right u (forest pool.now) }
    ensures { (t u : Tree) → Shows left.entry t (forest pool.now) → Shows right.entry u (forest pool.now) → result ≡ tree_cmp t u }
{
    let mut left = left;
    let mut right = right;
    let mut pairs = Pairs {
        owed: 1,
        undecided: Ordering::Equal,
    };
    loop {
        let roots = compare_roots(pool, &left.root, &right.root);
        if roots != Ordering::Equal {
            return roots;
        }
        pairs = pairs.behind(left.root.children, right.root.children);
        if pairs.owed == 0 {
            return pairs.undecided;
        }
        left.advance();
        right.advance();
    }
}
