//! Sums, read from left to right.
ghost use Rattle.std.specs.Prelude.{◌≡◌, ◌<◌, ◌≤◌, ◌+◌, ◌-◌, ◌*◌, ℕ, length, vec_capacity};
ghost use Rattle.beautify.specs.Lists.{first, behind};
ghost use Rattle.beautify.specs.Owed.{IsReadyPart, Owes, form_room};
ghost use Rattle.beautify.specs.Showing.{unsigned_faces};
ghost use Rattle.beautify.specs.declared.pending.Form.TheVariants.{Unsigned};
ghost use Rattle.calc_language.specs.Faces.{face, face_of_sum, unsigned_face};
ghost use Rattle.calc_terms.specs.Trees.{Trees, add, append, count, more, root_kind};
ghost use Rattle.calc_terms.specs.declared.kind.Kind.TheVariants.{Add};
ghost use Rattle.tree_handles.specs.Expressions.{IsExpression, plain, nth, children_of};
ghost use Rattle.tree_handles.specs.Forest.{Forest};
ghost use Rattle.tree_handles.specs.Inside.{tree_at};
ghost use Rattle.tree_handles.specs.Standing.{Stands, forest};

use crate::pending::{Form, Pending, push, push_over};
use crate::reading::is_negative;
use crate::shares::{Share, push_shares};
use calc_terms::Kind;
use node_pool::{Id, Pool};
use tree_handles::{child_id, child_ids};

/// The face of a sum comes first.
#[tactic(auto, using(crate::proofs::Resolving::sum, crate::proofs::Sharing::count_faces, crate::proofs::Trees::count_behind, tree_handles::proofs::Readings::expression_children))]
pub(crate) fn push_sum(pool: &Pool, sum: Id, pending: &mut Vec<Pending>)
    requires stands { Stands pool.now }
    requires ready { IsReadyPart Unsigned sum (forest pool.now) }
    requires sum { root_kind (plain (tree_at sum (forest pool.now))) ≡ Add }
    requires room { 8 * length pending.old.items + form_room Unsigned (plain (tree_at sum (forest pool.now))) ≤ 8 * vec_capacity pending.old }
    ensures owed { let t = plain (tree_at sum (forest pool.now)) in
        (us : Trees) (r : ℕ) → Owes pending.old.items (forest pool.now) us r → Owes pending.new.items (forest pool.now) (more (unsigned_face t) us) (r + form_room Unsigned t - 1) }
    ensures length { 8 * length pending.new.items ≤ 8 * length pending.old.items + form_room Unsigned (plain (tree_at sum (forest pool.now))) }
    ensures capacity { vec_capacity pending.old ≤ vec_capacity pending.new }
{
    push_shares(pool, Share::Terms, sum, 1, pending);
    push(pending, Pending::Part(Form::Face, child_id(pool, sum, 0)));
    push_signs(pool, sum, pending);
}

/// The first trees, the faces of a sum's terms without the later ones' signs, are joined by the sum's rule.
#[tactic(auto, using(tree_handles::proofs::Readings::expression_children))]
fn push_signs(pool: &Pool, sum: Id, pending: &mut Vec<Pending>)
    requires stands { Stands pool.now }
    requires expression { IsExpression sum (forest pool.now) }
    requires some { 1 ≤ count (children_of (plain (tree_at sum (forest pool.now)))) }
    requires room { length pending.old.items + count (children_of (plain (tree_at sum (forest pool.now)))) ≤ vec_capacity pending.old + 1 }
    ensures owed { let ts = children_of (plain (tree_at sum (forest pool.now))) in
        (us : Trees) (r : ℕ) → Owes pending.old.items (forest pool.now) (more (face (nth 0 ts)) (append (unsigned_faces (behind 1 ts)) us)) r
        → Owes pending.new.items (forest pool.now) (more (face_of_sum ts) us) (r + 8 * count (behind 1 ts)) }
    ensures length { length pending.new.items + 1 ≤ length pending.old.items + count (children_of (plain (tree_at sum (forest pool.now)))) }
    ensures capacity { vec_capacity pending.old ≤ vec_capacity pending.new }
{
    let mut terms = 1;
    for term in child_ids(pool, sum, 1) {
        if is_negative(pool, term) {
            push_added(pending, terms);
            push_over(pending, Kind::Sub, 2);
            terms = 1;
        } else {
            terms += 1;
        }
    }
    push_added(pending, terms);
}

/// The first trees become a sum, where there are some. A single one stays.
fn push_added(pending: &mut Vec<Pending>, terms: u16)
    requires room { 1 < terms → length pending.old.items < vec_capacity pending.old }
    ensures one { terms ≤ 1 → pending.new.items ≡ pending.old.items }
    ensures some { 1 < terms → (f : Forest) (us : Trees) (r : ℕ) → Owes pending.old.items f us r → terms ≤ count us → Owes pending.new.items f (more (add (first terms us)) (behind terms us)) (r + 8) }
    ensures length { 1 < terms → length pending.new.items ≡ length pending.old.items + 1 }
    ensures capacity { vec_capacity pending.old ≤ vec_capacity pending.new }
{
    if terms > 1 {
        push_over(pending, Kind::Add, terms);
    }
}
