//! What is still to be written of a face.
ghost use Rattle.std.specs.Prelude.{◌≡◌, ◌<◌, ◌≤◌, ◌+◌, ◌∷◌, ◌++◌, [], ℕ, length, true, vec_capacity};
ghost use Rattle.beautify.specs.Lists.{first, behind};
ghost use Rattle.beautify.specs.Owed.{IsReady, Owes, next_room, with_next};
ghost use Rattle.calc_terms.specs.Trees.{Trees, count, more};
ghost use Rattle.tree_handles.specs.Expressions.{compound, takes_kind};
ghost use Rattle.tree_handles.specs.Forest.{Forest};

use calc_terms::Kind;
use node_pool::Id;

/// How a tree is written.
#[derive(Clone, Copy)]
pub(crate) enum Form {
    /// As its face.
    Face,
    /// As its face without its minus sign.
    Unsigned,
    /// As what a power with an exponent below zero has below the line.
    Divisor,
}

/// What comes next: one node, or a tree in some form.
#[derive(Clone, Copy)]
pub(crate) enum Pending {
    /// A node over so many trees that follow it.
    Over { kind: Kind, children: u16 },
    /// The number 1.
    One,
    /// The name that a node holds.
    Name(Id),
    /// The magnitude of a rational's numerator.
    Numerator(Id),
    /// A rational's denominator.
    Denominator(Id),
    Part(Form, Id),
}

/// One more comes first.
pub(crate) fn push(pending: &mut Vec<Pending>, next: Pending)
    requires room { length pending.old.items < vec_capacity pending.old }
    ensures owed { (f : Forest) (us : Trees) (r : ℕ) → Owes pending.old.items f us r → IsReady next f us → Owes pending.new.items f (with_next next f us) (r + next_room next f) }
    ensures items { pending.new.items ≡ pending.old.items ++ next ∷ [] }
    ensures length { length pending.new.items ≡ length pending.old.items + 1 }
    ensures capacity { vec_capacity pending.old ≤ vec_capacity pending.new }
{
    pending.push(next).unwrap();
}

/// A node over the first trees comes first.
pub(crate) fn push_over(pending: &mut Vec<Pending>, kind: Kind, children: u16)
    requires room { length pending.old.items < vec_capacity pending.old }
    requires takes { takes_kind kind children ≡ true }
    ensures owed { (f : Forest) (us : Trees) (r : ℕ) → Owes pending.old.items f us r → children ≤ count us → Owes pending.new.items f (more (compound kind (first children us)) (behind children us)) (r + 8) }
    ensures length { length pending.new.items ≡ length pending.old.items + 1 }
    ensures capacity { vec_capacity pending.old ≤ vec_capacity pending.new }
{
    push(pending, Pending::Over { kind, children });
}
