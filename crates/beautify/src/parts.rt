//! Trees resolved into nodes and smaller trees. What is pushed last is written first.
ghost use Rattle.std.specs.Prelude.{◌≡◌, ◌<◌, ◌≤◌, ◌+◌, ◌-◌, ◌*◌, ℕ, length, true, vec_capacity};
ghost use Rattle.beautify.specs.Owed.{IsReadyPart, Owes, form_room, in_form, divisor_of};
ghost use Rattle.beautify.specs.Showing.{IsShowable, stands_below};
ghost use Rattle.beautify.specs.declared.pending.Form.TheVariants.{Face, Unsigned, Divisor};
ghost use Rattle.calc_language.specs.Faces.{face, unsigned_face};
ghost use Rattle.calc_terms.specs.Trees.{AllParts, Trees, is_num, more, root_kind};
ghost use Rattle.calc_terms.specs.declared.kind.Kind.TheVariants.{Pow, Root};
ghost use Rattle.tree_handles.specs.Expressions.{IsExpression, plain};
ghost use Rattle.tree_handles.specs.Inside.{tree_at};
ghost use Rattle.tree_handles.specs.Standing.{Stands, forest};

use crate::pending::{Form, Pending, push, push_over};
use crate::products::push_product;
use crate::reading::{below_the_line, denominator, is_below, is_negative};
use crate::sums::push_sum;
use calc_terms::Kind;
use node_pool::{Id, Pool};
use tree_handles::{child_id, kind, rational};

/// A tree in a form comes first, resolved.
pub(crate) fn push_part(pool: &Pool, form: Form, tree: Id, pending: &mut Vec<Pending>)
    requires stands { Stands pool.now }
    requires ready { IsReadyPart form tree (forest pool.now) }
    requires room { 8 * length pending.old.items + form_room form (plain (tree_at tree (forest pool.now))) ≤ 8 * vec_capacity pending.old }
    ensures owed { let t = plain (tree_at tree (forest pool.now)) in
        (us : Trees) (r : ℕ) → Owes pending.old.items (forest pool.now) us r → Owes pending.new.items (forest pool.now) (more (in_form form t) us) (r + form_room form t - 1) }
    ensures capacity { vec_capacity pending.old ≤ vec_capacity pending.new }
{
    match form {
        Form::Face => push_face(pool, tree, pending),
        Form::Unsigned => push_unsigned(pool, tree, pending),
        Form::Divisor => push_divisor(pool, tree, pending),
    }
}

fn push_face(pool: &Pool, tree: Id, pending: &mut Vec<Pending>)
    requires stands { Stands pool.now }
    requires ready { IsReadyPart Face tree (forest pool.now) }
    requires room { 8 * length pending.old.items + form_room Face (plain (tree_at tree (forest pool.now))) ≤ 8 * vec_capacity pending.old }
    ensures owed { let t = plain (tree_at tree (forest pool.now)) in
        (us : Trees) (r : ℕ) → Owes pending.old.items (forest pool.now) us r → Owes pending.new.items (forest pool.now) (more (face t) us) (r + form_room Face t - 1) }
    ensures capacity { vec_capacity pending.old ≤ vec_capacity pending.new }
{
    push_unsigned(pool, tree, pending);
    if is_negative(pool, tree) {
        push_over(pending, Kind::Neg, 1);
    }
}

fn push_unsigned(pool: &Pool, tree: Id, pending: &mut Vec<Pending>)
    requires stands { Stands pool.now }
    requires ready { IsReadyPart Unsigned tree (forest pool.now) }
    requires room { 8 * length pending.old.items + form_room Unsigned (plain (tree_at tree (forest pool.now))) ≤ 8 * vec_capacity pending.old }
    ensures owed { let t = plain (tree_at tree (forest pool.now)) in
        (us : Trees) (r : ℕ) → Owes pending.old.items (forest pool.now) us r → Owes pending.new.items (forest pool.now) (more (unsigned_face t) us) (r + form_room Unsigned t - 1) }
    ensures length { 8 * length pending.new.items ≤ 8 * length pending.old.items + form_room Unsigned (plain (tree_at tree (forest pool.now))) }
    ensures capacity { vec_capacity pending.old ≤ vec_capacity pending.new }
{
    match kind(pool, tree) {
        Kind::Num => push_number(pool, tree, pending),
        Kind::Sym => push(pending, Pending::Name(tree)),
        Kind::Add => push_sum(pool, tree, pending),
        Kind::Mult => push_product(pool, tree, pending),
        Kind::Pow => push_power(pool, tree, pending),
        Kind::Root => push_root(pool, tree, pending),
        _ => unreachable!(),
    }
}

fn push_number(pool: &Pool, number: Id, pending: &mut Vec<Pending>)
    requires stands { Stands pool.now }
    requires ready { IsReadyPart Unsigned number (forest pool.now) }
    requires number { is_num (plain (tree_at number (forest pool.now))) ≡ true }
    requires room { 8 * length pending.old.items + form_room Unsigned (plain (tree_at number (forest pool.now))) ≤ 8 * vec_capacity pending.old }
    ensures owed { let t = plain (tree_at number (forest pool.now)) in
        (us : Trees) (r : ℕ) → Owes pending.old.items (forest pool.now) us r → Owes pending.new.items (forest pool.now) (more (unsigned_face t) us) (r + form_room Unsigned t - 1) }
    ensures length { 8 * length pending.new.items ≤ 8 * length pending.old.items + form_room Unsigned (plain (tree_at number (forest pool.now))) }
    ensures capacity { vec_capacity pending.old ≤ vec_capacity pending.new }
{
    if denominator(rational(pool, number)) == 1 {
        push(pending, Pending::Numerator(number));
        return;
    }
    push(pending, Pending::Denominator(number));
    push(pending, Pending::Numerator(number));
    push_over(pending, Kind::Div, 2);
}

fn push_root(pool: &Pool, root: Id, pending: &mut Vec<Pending>)
    requires stands { Stands pool.now }
    requires ready { IsReadyPart Unsigned root (forest pool.now) }
    requires root { root_kind (plain (tree_at root (forest pool.now))) ≡ Root }
    requires room { 8 * length pending.old.items + form_room Unsigned (plain (tree_at root (forest pool.now))) ≤ 8 * vec_capacity pending.old }
    ensures owed { let t = plain (tree_at root (forest pool.now)) in
        (us : Trees) (r : ℕ) → Owes pending.old.items (forest pool.now) us r → Owes pending.new.items (forest pool.now) (more (unsigned_face t) us) (r + form_room Unsigned t - 1) }
    ensures length { 8 * length pending.new.items ≤ 8 * length pending.old.items + form_room Unsigned (plain (tree_at root (forest pool.now))) }
    ensures capacity { vec_capacity pending.old ≤ vec_capacity pending.new }
{
    push(pending, Pending::Part(Form::Face, child_id(pool, root, 0)));
    push_over(pending, Kind::Root, 1);
}

fn push_power(pool: &Pool, power: Id, pending: &mut Vec<Pending>)
    requires stands { Stands pool.now }
    requires ready { IsReadyPart Unsigned power (forest pool.now) }
    requires power { root_kind (plain (tree_at power (forest pool.now))) ≡ Pow }
    requires room { 8 * length pending.old.items + form_room Unsigned (plain (tree_at power (forest pool.now))) ≤ 8 * vec_capacity pending.old }
    ensures owed { let t = plain (tree_at power (forest pool.now)) in
        (us : Trees) (r : ℕ) → Owes pending.old.items (forest pool.now) us r → Owes pending.new.items (forest pool.now) (more (unsigned_face t) us) (r + form_room Unsigned t - 1) }
    ensures length { 8 * length pending.new.items ≤ 8 * length pending.old.items + form_room Unsigned (plain (tree_at power (forest pool.now))) }
    ensures capacity { vec_capacity pending.old ≤ vec_capacity pending.new }
{
    if is_below(pool, power) {
        push(pending, Pending::Part(Form::Divisor, power));
        push(pending, Pending::One);
        push_over(pending, Kind::Div, 2);
        return;
    }
    push(pending, Pending::Part(Form::Face, child_id(pool, power, 1)));
    push(pending, Pending::Part(Form::Face, child_id(pool, power, 0)));
    push_over(pending, Kind::Pow, 2);
}

/// What a power has below the line.
fn push_divisor(pool: &Pool, power: Id, pending: &mut Vec<Pending>)
    requires stands { Stands pool.now }
    requires ready { IsReadyPart Divisor power (forest pool.now) }
    requires room { 8 * length pending.old.items + form_room Divisor (plain (tree_at power (forest pool.now))) ≤ 8 * vec_capacity pending.old }
    ensures owed { let t = plain (tree_at power (forest pool.now)) in
        (us : Trees) (r : ℕ) → Owes pending.old.items (forest pool.now) us r → Owes pending.new.items (forest pool.now) (more (divisor_of t) us) (r + form_room Divisor t - 1) }
    ensures capacity { vec_capacity pending.old ≤ vec_capacity pending.new }
{
    let base = child_id(pool, power, 0);
    let exponent = child_id(pool, power, 1);
    if below_the_line(pool, exponent) == 1 {
        push(pending, Pending::Part(Form::Face, base));
        return;
    }
    push(pending, Pending::Numerator(exponent));
    push(pending, Pending::Part(Form::Face, base));
    push_over(pending, Kind::Pow, 2);
}
