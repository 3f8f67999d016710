//! What is written, placed in the pool.
ghost use Rattle.std.specs.Prelude.{◌≤◌};
ghost use Rattle.dual_diff.specs.WritingLaws.{places_joined, places_keeps, places_less, places_nothing, places_room};
ghost use Rattle.dual_diff.specs.Writing.{Places};
ghost use Rattle.node_pool.specs.State.{free_of};

use crate::reading::child_of;
use crate::writer::Writer;
use calc_terms::{Kind, Rat};
use node_pool::{Id, Pool};
use tree_handles::{Handle, copy_tree, node_over_last, number};

/// Places what is written behind all trees of the pool, where room was made sure of.
#[derive(Drop)]
pub(crate) struct Placer {
    /// The tree that was written last.
    pub(crate) last: Option<Handle>,
}

impl Writer for Placer {
    ghost writes = { λ w s v t ts. Places s t w.last v.last ts };

    ghost has_room = { λ s n. n ≤ free_of s };

    fn number(&mut self, pool: &mut Pool, value: i128) {
        match number(pool, Rat::whole(value)) {
            Ok(handle) => self.last = Some(handle),
            Err(_) => unreachable!(),
        }
    }

    fn copy(&mut self, pool: &mut Pool, source: Id) {
        match copy_tree(pool, source) {
            Ok(handle) => self.last = Some(handle),
            Err(_) => unreachable!(),
        }
    }

    fn copies(&mut self, pool: &mut Pool, parent: Id, from: u16, to: u16, _bytes: u32) {
        for at in from..to {
            let child = child_of(pool, parent, at);
            self.copy(pool, child);
        }
    }

    fn over(&mut self, pool: &mut Pool, kind: Kind, trees: u16, begin: u32) {
        match node_over_last(pool, kind, trees, begin) {
            Ok(handle) => self.last = Some(handle),
            Err(_) => unreachable!(),
        }
    }

    ghost laws = { record {
      nothing = λ s. places_nothing s;
      joined = λ a b. places_joined a b;
      keeps = λ a. places_keeps a;
      less = λ r l. places_less r l;
      room = λ a r l. places_room a r l;
    } };
}
