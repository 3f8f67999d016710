//! What the children of a node put into its face.
ghost use Rattle.std.specs.Prelude.{◌≡◌, ◌≤◌, ◌+◌, ◌-◌, ℕ, length, vec_capacity};
ghost use Rattle.beautify.specs.Lists.{behind};
ghost use Rattle.beautify.specs.Owed.{Owes};
ghost use Rattle.beautify.specs.Shares.{AreSharing, part_above as above_of, part_below as below_of, part_of as share_of, share_room, shared};
ghost use Rattle.beautify.specs.Showing.{IsShowable};
ghost use Rattle.calc_terms.specs.Trees.{AllParts, Trees, append, count};
ghost use Rattle.tree_handles.specs.Expressions.{IsExpression, plain, children_of};
ghost use Rattle.tree_handles.specs.Inside.{tree_at};
ghost use Rattle.tree_handles.specs.Standing.{Stands, forest};

use crate::pending::{Form, Pending, push};
use crate::reading::{denominator, is_below, numerator};
use calc_terms::Kind;
use node_pool::{Id, Pool};
use tree_handles::{child_ids, kind, rational};

/// Of a sum its terms without their signs; of a product what stands on a side of the line.
#[derive(Clone, Copy)]
pub(crate) enum Share {
    Terms,
    Above,
    Below,
}

/// What the children of a node from a place on put there comes first. Tells how many trees came.
#[tactic(auto, using(tree_handles::proofs::Readings::expression_children))]
pub(crate) fn push_shares(
    pool: &Pool,
    share: Share,
    parent: Id,
    from: u16,
    pending: &mut Vec<Pending>,
) -> u16
    requires stands { Stands pool.now }
    requires expression { IsExpression parent (forest pool.now) }
    requires showable { AllParts IsShowable (plain (tree_at parent (forest pool.now))) }
    requires within { from ≤ count (children_of (plain (tree_at parent (forest pool.now)))) }
    requires sharing { AreSharing share (behind from (children_of (plain (tree_at parent (forest pool.now))))) }
    requires room { length pending.old.items + count (children_of (plain (tree_at parent (forest pool.now)))) ≤ vec_capacity pending.old + from }
    ensures owed { let ts = behind from (children_of (plain (tree_at parent (forest pool.now)))) in
        (us : Trees) (r : ℕ) → Owes pending.old.items (forest pool.now) us r → Owes pending.new.items (forest pool.now) (append (shared share ts) us) (r + share_room share ts) }
    ensures came { result ≡ count (shared share (behind from (children_of (plain (tree_at parent (forest pool.now)))))) }
    ensures length { length pending.new.items ≡ length pending.old.items + result }
    ensures capacity { vec_capacity pending.old ≤ vec_capacity pending.new }
{
    let start = pending.len();
    let mut came = 0;
    for child in child_ids(pool, parent, from) {
        if let Some(next) = part_of(pool, share, child) {
            push(pending, next);
            came += 1;
        }
    }
    pending[start..].reverse();
    came
}

/// What a child puts there.
fn part_of(pool: &Pool, share: Share, child: Id) -> Option<Pending>
    requires stands { Stands pool.now }
    requires expression { IsExpression child (forest pool.now) }
    ensures { result ≡ share_of share child (plain (tree_at child (forest pool.now))) }
{
    match share {
        Share::Terms => Some(Pending::Part(Form::Unsigned, child)),
        Share::Above => part_above(pool, child),
        Share::Below => part_below(pool, child),
    }
}

fn part_above(pool: &Pool, factor: Id) -> Option<Pending>
    requires stands { Stands pool.now }
    requires expression { IsExpression factor (forest pool.now) }
    ensures { result ≡ above_of factor (plain (tree_at factor (forest pool.now))) }
{
    match kind(pool, factor) {
        Kind::Num => {
            if numerator(rational(pool, factor)) == 1 {
                None
            } else {
                Some(Pending::Numerator(factor))
            }
        }
        _ => {
            if is_below(pool, factor) {
                None
            } else {
                Some(Pending::Part(Form::Unsigned, factor))
            }
        }
    }
}

fn part_below(pool: &Pool, factor: Id) -> Option<Pending>
    requires stands { Stands pool.now }
    requires expression { IsExpression factor (forest pool.now) }
    ensures { result ≡ below_of factor (plain (tree_at factor (forest pool.now))) }
{
    match kind(pool, factor) {
        Kind::Num => {
            if denominator(rational(pool, factor)) == 1 {
                None
            } else {
                Some(Pending::Denominator(factor))
            }
        }
        _ => {
            if is_below(pool, factor) {
                Some(Pending::Part(Form::Divisor, factor))
            } else {
                None
            }
        }
    }
}
