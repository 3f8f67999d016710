//! Walks over the nodes of trees, each parent before its children.
ghost use Rattle.std.specs.Prelude.{◌≡◌, ◌≤◌, length, true};
ghost use Rattle.std.specs.Iterator.{YieldsFirst, at_most};
ghost use Rattle.tree_handles.specs.Forest.{arity, rest_trees};
ghost use Rattle.tree_handles.specs.Inside.{holds, kids_of, tree_at};
ghost use Rattle.tree_handles.specs.Standing.{Stands, forest};
ghost use Rattle.tree_handles.specs.Visits.{visits_of};

use crate::read::children;
use crate::walk::{child_place, step};
use calc_terms::Kind;
use node_pool::{Id, Pool};
use std::marker::Model;

/// A node that a walk comes to.
#[derive(Clone, Copy, Debug, PartialEq, Eq)]
pub struct Visit {
    pub kind: Kind,
    pub id: Id,
    pub children: u16,
}

impl Default for Visit {
    fn default() -> Visit {
        Visit {
            kind: Kind::Undef,
            id: Id::default(),
            children: 0,
        }
    }
}

/// The nodes of trees that stand side by side, in prefix order.
#[derive(Drop)]
pub struct Nodes<'a> {
    pool: &'a Pool,
    place: u32,
    /// How many trees are left, those aside that stand below them.
    owed: u32,
}

impl<'a> Model for Nodes<'a> {
    ghost use Rattle.std.specs.Prelude.{List};
    ghost use Rattle.node_pool.specs.Places.{since, IsBoundary};
    ghost use Rattle.tree_handles.specs.Forest.{first_trees, forest_of};
    ghost use Rattle.tree_handles.specs.Visits.{visits_of};
    ghost use Rattle.tree_handles.specs.Walks.{BeginsTrees};
    ghost use Rattle.tree_handles.specs.declared.visits.Visit.{Visit};

    ghost Value = { List Visit };

    ghost view = { λ n. visits_of (first_trees n.owed (forest_of (since n.place n.pool.now.nodes))) };

    ghost invariant = { λ n. IsBoundary n.place n.pool.now.nodes × BeginsTrees n.owed (since n.place n.pool.now.nodes) };
}

/// The nodes of a tree.
pub fn nodes_of(pool: &Pool, id: Id) -> Nodes<'_>
    requires stands { Stands pool.now }
    requires live { holds id (forest pool.now) ≡ true }
    ensures { result ≡ visits_of (tree_at id (forest pool.now)) }
{
    Nodes {
        pool,
        place: pool.locate(id),
        owed: 1,
    }
}

/// The nodes of a node's children from a place on, the first child having place 0, and all nodes below these.
pub fn nodes_below(pool: &Pool, parent: Id, from: u16) -> Nodes<'_>
    requires stands { Stands pool.now }
    requires live { holds parent (forest pool.now) ≡ true }
    requires within { from ≤ arity (kids_of parent (forest pool.now)) }
    ensures { result ≡ visits_of (rest_trees from (kids_of parent (forest pool.now))) }
{
    Nodes {
        pool,
        place: child_place(pool, parent, from),
        owed: u32::from(children(pool, parent) - from),
    }
}

impl<'a> Iterator for Nodes<'a> {
    type Item = Visit;

    ghost next_gives = { YieldsFirst (λ left. left) };

    ghost remaining = { λ left. at_most (length left) };

    #[inline(always)]
    fn next(&mut self) -> Option<Visit> {
        if self.owed == 0 {
            return None;
        }
        let (header, next) = step(self.pool, self.place);
        self.place = next;
        self.owed = self.owed - 1 + u32::from(header.children);
        Some(Visit {
            kind: header.kind,
            id: Id::of(header.id),
            children: header.children,
        })
    }
}
