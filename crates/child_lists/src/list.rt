//! The list of a node's children.
ghost use Rattle.std.specs.Prelude.{◌≡◌, ◌<◌, Some, []};
ghost use Rattle.calc_terms.specs.Trees.{count};
ghost use Rattle.child_lists.specs.Lists.{Lists, listed, with_child, with_other, without_child};
ghost use Rattle.tree_handles.specs.Children.{IsChildAt, root_ids};
ghost use Rattle.tree_handles.specs.Expressions.{IsExpression, nth, plain, children_of};
ghost use Rattle.tree_handles.specs.Inside.{kids_of, tree_at};
ghost use Rattle.tree_handles.specs.Standing.{Stands, forest};

use arrayvec::ArrayVec;
use node_pool::{Id, Pool};
use std::marker::Model;
use tree_handles::{child_id, child_ids};

/// No child is listed: a few are soon found by steps.
pub const NONE: usize = 0;

/// So many children are listed in a small list. A list is cleared when it is made.
pub const FEW: usize = 64;

/// So many children are listed in a large list.
pub const MANY: usize = 4_096;

/// So many are listed at most: no sum of different roots has more children, even in the greatest pool.
pub const MOST: usize = 32_768;

/// The identifiers of a node's children in their order, where there is room for all of them; else they are found by
/// steps from the first.
#[derive(Drop)]
pub struct ChildList<const N: usize> {
    ids: ArrayVec<Id, N>,
    whole: bool,
}

impl<const N: usize> Model for ChildList<N> {
    ghost use Rattle.std.specs.Prelude.{ℕ, List, Option};
    ghost use Rattle.child_lists.specs.Lists.{told};

    ghost Value = { Option (List ℕ) };

    ghost view = { λ l. told l.whole l.ids.items };
}

impl<const N: usize> ChildList<N> {
    /// The list of a node without children.
    pub fn new() -> ChildList<N>
        ensures { result ≡ Some [] }
    {
        ChildList {
            ids: ArrayVec::new(),
            whole: true,
        }
    }

    /// The list of the children of a node.
    pub fn of(pool: &Pool, parent: Id) -> ChildList<N>
        requires stands { Stands pool.now }
        requires expression { IsExpression parent (forest pool.now) }
        ensures { result ≡ listed N (root_ids (kids_of parent (forest pool.now))) }
    {
        let mut ids = ArrayVec::new();
        for id in child_ids(pool, parent, 0) {
            if ids.is_full() {
                return ChildList { ids, whole: false };
            }
            ids.push(id);
        }
        ChildList { ids, whole: true }
    }

    /// The child at a place of a node.
    pub fn child(&self, pool: &Pool, parent: Id, at: u16) -> Id
        requires stands { Stands pool.now }
        requires expression { IsExpression parent (forest pool.now) }
        requires lists { Lists self.now parent (forest pool.now) }
        requires within { at < count (children_of (plain (tree_at parent (forest pool.now)))) }
        ensures child { IsChildAt at parent result (forest pool.now) }
        ensures expression { IsExpression result (forest pool.now) }
        ensures plain { plain (tree_at result (forest pool.now)) ≡ nth at (children_of (plain (tree_at parent (forest pool.now)))) }
    {
        let ids = self.ids.as_slice();
        let place = usize::from(at);
        if self.whole && place < ids.len() {
            ids[place]
        } else {
            child_id(pool, parent, at)
        }
    }

    /// A child came to a place.
    pub fn insert(&mut self, at: u16, id: Id)
        ensures { self.new ≡ with_child N at id self.old }
    {
        let place = usize::from(at);
        if self.whole && place <= self.ids.len() && !self.ids.is_full() {
            self.ids.insert(place, id);
        } else {
            self.whole = false;
        }
    }

    /// Another child came in the place of one.
    pub fn set(&mut self, at: u16, id: Id)
        ensures { self.new ≡ with_other at id self.old }
    {
        let ids = self.ids.as_mut_slice();
        let place = usize::from(at);
        if self.whole && place < ids.len() {
            ids[place] = id;
        } else {
            self.whole = false;
        }
    }

    /// The child at a place was taken out.
    pub fn remove(&mut self, at: u16)
        ensures { self.new ≡ without_child at self.old }
    {
        let place = usize::from(at);
        if self.whole && place < self.ids.len() {
            self.ids.remove(place);
        } else {
            self.whole = false;
        }
    }
}
