//! Products, split at the line of a fraction.
ghost use Rattle.std.specs.Prelude.{◌≡◌, ◌<◌, ◌≤◌, ◌+◌, ◌-◌, ◌*◌, ℕ, length, vec_capacity};
ghost use Rattle.beautify.specs.Lists.{first, behind};
ghost use Rattle.beautify.specs.Owed.{IsReadyPart, Owes, form_room};
ghost use Rattle.beautify.specs.Shares.{share_room};
ghost use Rattle.beautify.specs.declared.shares.Share.TheVariants.{Above};
ghost use Rattle.beautify.specs.declared.pending.Form.TheVariants.{Unsigned};
ghost use Rattle.calc_language.specs.Faces.{factors_above, product_of, unsigned_face};
ghost use Rattle.calc_terms.specs.Trees.{Trees, count, more, root_kind};
ghost use Rattle.calc_terms.specs.declared.kind.Kind.TheVariants.{Mult};
ghost use Rattle.tree_handles.specs.Expressions.{plain, children_of};
ghost use Rattle.tree_handles.specs.Forest.{Forest};
ghost use Rattle.tree_handles.specs.Inside.{tree_at};
ghost use Rattle.tree_handles.specs.Standing.{Stands, forest};

use crate::pending::{Pending, push, push_over};
use crate::shares::{Share, push_shares};
use calc_terms::Kind;
use node_pool::{Id, Pool};

/// The face of a product without its minus sign comes first.
pub(crate) fn push_product(pool: &Pool, product: Id, pending: &mut Vec<Pending>)
    requires stands { Stands pool.now }
    requires ready { IsReadyPart Unsigned product (forest pool.now) }
    requires product { root_kind (plain (tree_at product (forest pool.now))) ≡ Mult }
    requires room { 8 * length pending.old.items + form_room Unsigned (plain (tree_at product (forest pool.now))) ≤ 8 * vec_capacity pending.old }
    ensures owed { let t = plain (tree_at product (forest pool.now)) in
        (us : Trees) (r : ℕ) → Owes pending.old.items (forest pool.now) us r → Owes pending.new.items (forest pool.now) (more (unsigned_face t) us) (r + form_room Unsigned t - 1) }
    ensures length { 8 * length pending.new.items ≤ 8 * length pending.old.items + form_room Unsigned (plain (tree_at product (forest pool.now))) }
    ensures capacity { vec_capacity pending.old ≤ vec_capacity pending.new }
{
    let below = push_shares(pool, Share::Below, product, 0, pending);
    if below == 0 {
        push_above(pool, product, pending);
        return;
    }
    push_multiplied(pending, below);
    push_above(pool, product, pending);
    push_over(pending, Kind::Div, 2);
}

/// The product of what stands above the line comes first.
#[tactic(auto, using(crate::proofs::Resolving::product))]
fn push_above(pool: &Pool, product: Id, pending: &mut Vec<Pending>)
    requires stands { Stands pool.now }
    requires ready { IsReadyPart Unsigned product (forest pool.now) }
    requires product { root_kind (plain (tree_at product (forest pool.now))) ≡ Mult }
    requires room { length pending.old.items + count (children_of (plain (tree_at product (forest pool.now)))) < vec_capacity pending.old }
    ensures owed { let ts = children_of (plain (tree_at product (forest pool.now))) in
        (us : Trees) (r : ℕ) → Owes pending.old.items (forest pool.now) us r → Owes pending.new.items (forest pool.now) (more (product_of (factors_above ts)) us) (r + share_room Above ts + 16) }
    ensures length { length pending.new.items ≤ length pending.old.items + count (children_of (plain (tree_at product (forest pool.now)))) + 1 }
    ensures capacity { vec_capacity pending.old ≤ vec_capacity pending.new }
{
    let above = push_shares(pool, Share::Above, product, 0, pending);
    push_multiplied(pending, above);
}

/// The first trees become a product: 1 where there is none, and a single one stays.
fn push_multiplied(pending: &mut Vec<Pending>, factors: u16)
    requires room { length pending.old.items < vec_capacity pending.old }
    ensures owed { (f : Forest) (us : Trees) (r : ℕ) → Owes pending.old.items f us r → factors ≤ count us → Owes pending.new.items f (more (product_of (first factors us)) (behind factors us)) (r + 16) }
    ensures some { (f : Forest) (us : Trees) (r : ℕ) → Owes pending.old.items f us r → 0 < factors → factors ≤ count us → Owes pending.new.items f (more (product_of (first factors us)) (behind factors us)) (r + 8) }
    ensures length { length pending.new.items ≤ length pending.old.items + 1 }
    ensures capacity { vec_capacity pending.old ≤ vec_capacity pending.new }
{
    if factors == 0 {
        push(pending, Pending::One);
        return;
    }
    if factors > 1 {
        push_over(pending, Kind::Mult, factors);
    }
}
