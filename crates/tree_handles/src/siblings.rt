//! Children one after another.
ghost use Rattle.std.specs.Prelude.{◌≡◌, ◌<◌, ◌≤◌, length, true};
ghost use Rattle.std.specs.Iterator.{YieldsFirst, at_most};
ghost use Rattle.node_pool.specs.Places.{since, IsBoundary};
ghost use Rattle.tree_handles.specs.Children.{root_ids};
ghost use Rattle.tree_handles.specs.Forest.{arity, rest_trees};
ghost use Rattle.tree_handles.specs.Inside.{holds, kids_of};
ghost use Rattle.tree_handles.specs.Standing.{Stands, forest};
ghost use Rattle.tree_handles.specs.Walks.{skip};

use crate::read::children;
use crate::walk::{behind, child_place};
use node_pool::{Id, Pool};
use std::marker::Model;

/// The identifiers of children that stand one after another, in their order.
#[derive(Drop)]
pub struct ChildIds<'a> {
    pool: &'a Pool,
    place: u32,
    left: u16,
}

impl<'a> Model for ChildIds<'a> {
    ghost use Rattle.std.specs.Prelude.{◌≤◌, ℕ, List};
    ghost use Rattle.node_pool.specs.Places.{since, IsBoundary};
    ghost use Rattle.tree_handles.specs.Children.{root_ids};
    ghost use Rattle.tree_handles.specs.Forest.{arity, first_trees, forest_of};

    ghost Value = { List ℕ };

    ghost view = { λ c. root_ids (first_trees c.left (forest_of (since c.place c.pool.now.nodes))) };

    ghost invariant = { λ c. IsBoundary c.place c.pool.now.nodes × (c.left ≤ arity (forest_of (since c.place c.pool.now.nodes))) };
}

/// The identifiers of a node's children from a place on, the first child having place 0. The first of them is found
/// by steps over the children before it, and each other by one step. No step is made over the last one.
pub fn child_ids(pool: &Pool, parent: Id, from: u16) -> ChildIds<'_>
    requires stands { Stands pool.now }
    requires live { holds parent (forest pool.now) ≡ true }
    requires within { from ≤ arity (kids_of parent (forest pool.now)) }
    ensures { result ≡ root_ids (rest_trees from (kids_of parent (forest pool.now))) }
{
    ChildIds {
        pool,
        place: child_place(pool, parent, from),
        left: children(pool, parent) - from,
    }
}

impl<'a> Iterator for ChildIds<'a> {
    type Item = Id;

    ghost next_gives = { YieldsFirst (λ left. left) };

    ghost remaining = { λ left. at_most (length left) };

    fn next(&mut self) -> Option<Id> {
        if self.left == 0 {
            return None;
        }
        let header = self.pool.header(self.place);
        self.left -= 1;
        self.place = next_place(self.pool, self.place, self.left);
        Some(Id::of(header.id))
    }
}

/// Where the next of so many trees begins. No step is made where none is left.
#[inline(always)]
fn next_place(pool: &Pool, at: u32, left: u16) -> u32
    requires { IsBoundary at pool.now.nodes }
    ensures boundary { IsBoundary result pool.now.nodes }
    ensures rest { 0 < left → since result pool.now.nodes ≡ skip 1 (since at pool.now.nodes) }
{
    if left == 0 {
        return at;
    }
    behind(pool, at, 1)
}
