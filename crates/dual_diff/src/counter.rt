//! The bytes of what is written.
ghost use Rattle.std.specs.Prelude.{◌≡◌, ◌+◌, ◌<◌, ◌^◌, ⊤, nat_abs};
ghost use Rattle.calc_terms.specs.Fractions.{whole_fraction};
ghost use Rattle.calc_terms.specs.Payload.{bare, size_of_payload};
ghost use Rattle.calc_terms.specs.Trees.{num, size};
ghost use Rattle.dual_diff.specs.WritingLaws.{counts_joined, counts_keeps, counts_nothing};
ghost use Rattle.dual_diff.specs.Placing.{capped};
ghost use Rattle.dual_diff.specs.Writing.{Counts};

use crate::writer::Writer;
use calc_terms::{Kind, Leaf, Rat};
use node_pool::{Id, Pool};
use tree_handles::tree_bytes;

/// Counts the bytes of what is written, up to the largest number. The pool stays as it is.
#[derive(Drop)]
pub(crate) struct Counter {
    pub(crate) bytes: u32,
}

impl Counter {
    /// The bytes that were counted.
    pub(crate) fn total(&self) -> u32
        ensures { result ≡ self.now.bytes }
    {
        self.bytes
    }

    fn add(&mut self, bytes: u32)
        ensures { self.new.bytes ≡ capped (self.old.bytes + bytes) }
    {
        self.bytes = self.bytes.saturating_add(bytes);
    }
}

impl Writer for Counter {
    ghost writes = { λ w s v t ts. Counts s t w.bytes v.bytes ts };

    ghost has_room = { λ s n. ⊤ };

    fn number(&mut self, _pool: &mut Pool, value: i128) {
        self.add(number_bytes(value));
    }

    fn copy(&mut self, pool: &mut Pool, source: Id) {
        self.add(tree_bytes(pool, source));
    }

    fn copies(&mut self, _pool: &mut Pool, _parent: Id, _from: u16, _to: u16, bytes: u32) {
        self.add(bytes);
    }

    fn over(&mut self, _pool: &mut Pool, kind: Kind, _trees: u16, _begin: u32) {
        self.add(node_bytes(kind));
    }

    ghost laws = { record {
      nothing = λ s. counts_nothing s;
      joined = λ a b. counts_joined a b;
      keeps = λ a. counts_keeps a;
      less = λ r l. tt;
      room = λ a r l. tt;
    } };
}

/// The bytes of a whole number.
fn number_bytes(value: i128) -> u32
    requires fits { nat_abs value < 2 ^ 127 }
    ensures { result ≡ size (num (whole_fraction value)) }
{
    Leaf::Num(Rat::whole(value)).size()
}

/// The bytes of a node without its children.
pub(crate) fn node_bytes(kind: Kind) -> u32
    ensures { result ≡ size_of_payload (bare kind) }
{
    Leaf::Plain(kind).size()
}
