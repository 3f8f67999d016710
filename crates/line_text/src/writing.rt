//! Trees written as texts, in one walk over their nodes.
ghost use Rattle.std.specs.Prelude.{◌≡◌, ◌*◌, ◌<◌, ◌≤◌, length, nat_abs, true, vec_capacity};
ghost use Rattle.calc_terms.specs.Payload.{kind_of_payload};
ghost use Rattle.calc_terms.specs.Rat.{ratio_of};
ghost use Rattle.calc_terms.specs.Trees.{size};
ghost use Rattle.calc_language.specs.Texts.{decimal, text as text_of, IsWritable};
ghost use Rattle.tree_handles.specs.Expressions.{IsExpression, plain};
ghost use Rattle.tree_handles.specs.Forest.{bytes_in};
ghost use Rattle.tree_handles.specs.Inside.{holds, tree_at, payload_in};
ghost use Rattle.tree_handles.specs.Standing.{Stands, forest};
ghost use Rattle.tree_handles.specs.Visits.{visit_at, visits_of};
ghost use Rattle.line_text.specs.Content.{spare_of, extended};
ghost use Rattle.line_text.specs.Places.{sign_before};
ghost use Rattle.line_text.specs.Writing.{written, front_of, leaf_bytes, is_admitted, pending_below, parentheses, deciding, first_kind};

use crate::page::Page;
use crate::place::{Pending, Place};
use crate::text::Text;
use calc_terms::{Kind, Rat};
use itoa::Buffer;
use node_pool::{Id, Pool};
use tree_handles::{Visit, kind, name, nodes_of, rational};

/// Appends the text of a face.
pub fn write_text(pool: &Pool, face: Id, text: &mut Text)
    requires stands { Stands pool.now }
    requires expression { IsExpression face (forest pool.now) }
    requires writable { IsWritable (plain (tree_at face (forest pool.now))) }
    requires room { 2 * size (plain (tree_at face (forest pool.now))) ≤ spare_of text.old }
    ensures { text.new ≡ extended text.old (text_of (plain (tree_at face (forest pool.now)))) }
{
    write_tree(pool, face, text);
}

/// Appends what is written of a tree, be it a face or a layout.
pub fn write_tree(pool: &Pool, root: Id, text: &mut Text)
    requires stands { Stands pool.now }
    requires live { holds root (forest pool.now) ≡ true }
    requires room { 2 * bytes_in (tree_at root (forest pool.now)) ≤ spare_of text.old }
    ensures { text.new ≡ extended text.old (written Place.WholeText (tree_at root (forest pool.now))) }
{
    write_nodes(pool, root, &mut text.page, &mut text.pending);
}

/// The same to a page. What is still to be written of the nodes around those of `rest` stands in `outer`,
/// the innermost last.
fn write_nodes(pool: &Pool, root: Id, page: &mut Page, outer: &mut Vec<Pending>)
    requires stands { Stands pool.now }
    requires live { holds root (forest pool.now) ≡ true }
    requires room { 2 * bytes_in (tree_at root (forest pool.now)) ≤ spare_of page.old }
    requires deep { page.old.capacity < 16 * vec_capacity outer.old }
    ensures appended { page.new ≡ extended page.old (written Place.WholeText (tree_at root (forest pool.now))) }
    ensures deep { vec_capacity outer.old ≤ vec_capacity outer.new }
{
    let mut nodes = nodes_of(pool, root);
    outer.clear();
    let mut rest = Pending::whole_text();
    loop {
        if rest.left > 0 {
            let node = nodes.next().unwrap();
            let below = write_node(pool, &node, rest.place, page);
            rest = rest.without_first();
            if below.owes() {
                outer.push(rest).unwrap();
                rest = below;
            }
        } else {
            write_closing(rest.closing, page);
            match outer.pop() {
                Some(around) => rest = around,
                None => return,
            }
        }
    }
}

/// Appends what stands before the children of a node, and answers what is still to be written of it.
fn write_node(pool: &Pool, node: &Visit, place: Place, page: &mut Page) -> Pending
    requires stands { Stands pool.now }
    requires live { holds node.now.id (forest pool.now) ≡ true }
    requires node { node.now ≡ visit_at node.now.id (forest pool.now) }
    requires room { length (front_of place (tree_at node.now.id (forest pool.now))) ≤ spare_of page.old }
    ensures front { page.new ≡ extended page.old (front_of place (tree_at node.now.id (forest pool.now))) }
    ensures below { result ≡ pending_below node.now.kind node.now.children (is_admitted place (tree_at node.now.id (forest pool.now))) }
{
    let admitted = place.admits(deciding_kind(pool, node, place));
    write_sign(place, page);
    if !admitted {
        page.push_byte(b'(');
    }
    write_payload(pool, node.kind, node.id, page);
    Pending::below(node.kind, node.children, admitted)
}

/// Appends the sign before a tree.
fn write_sign(place: Place, page: &mut Page)
    requires { length (sign_before place) ≤ spare_of page.old }
    ensures { page.new ≡ extended page.old (sign_before place) }
{
    match place {
        Place::LaterOfSum => page.push_byte(b'+'),
        Place::RightOfDifference | Place::UnderSign => page.push_byte(b'-'),
        Place::LaterOfProduct => page.push(b"\xC3\x97"),
        Place::RightOfQuotient => page.push_byte(b'/'),
        Place::Exponent => page.push_byte(b'^'),
        Place::UnderRoot => page.push(b"\xE2\x88\x9A("),
        Place::AboveBar => page.push(b"(("),
        Place::BelowBar => page.push(b")/("),
        Place::Raised => page.push(b"^("),
        Place::InParentheses => page.push_byte(b'('),
        _ => {}
    }
}

/// Appends so many closing parentheses.
fn write_closing(count: u8, page: &mut Page)
    requires few { count ≤ 3 }
    requires room { count ≤ spare_of page.old }
    ensures { page.new ≡ extended page.old (parentheses count) }
{
    match count {
        0 => {}
        1 => page.push_byte(b')'),
        2 => page.push(b"))"),
        _ => page.push(b")))"),
    }
}

/// The kind on which it depends whether the tree of a node needs parentheses.
pub fn deciding_kind(pool: &Pool, node: &Visit, place: Place) -> Kind
    requires stands { Stands pool.now }
    requires live { holds node.now.id (forest pool.now) ≡ true }
    requires node { node.now ≡ visit_at node.now.id (forest pool.now) }
    ensures { result ≡ deciding place (tree_at node.now.id (forest pool.now)) }
{
    match node.kind {
        Kind::Neg => kind_of_opposite(pool, node.id, place),
        kind => kind,
    }
}

/// That of an opposite.
fn kind_of_opposite(pool: &Pool, id: Id, place: Place) -> Kind
    requires stands { Stands pool.now }
    requires live { holds id (forest pool.now) ≡ true }
    requires opposite { kind_of_payload (payload_in id (forest pool.now)) ≡ Kind.Neg }
    ensures { result ≡ deciding place (tree_at id (forest pool.now)) }
{
    if place.skips_opposites() {
        kind_behind_opposites(pool, id)
    } else {
        Kind::Neg
    }
}

/// The kind of the first node of a tree that is no opposite.
#[inline(never)]
fn kind_behind_opposites(pool: &Pool, id: Id) -> Kind
    requires stands { Stands pool.now }
    requires live { holds id (forest pool.now) ≡ true }
    ensures { result ≡ first_kind (visits_of (tree_at id (forest pool.now))) }
{
    for node in nodes_of(pool, id) {
        match node.kind {
            Kind::Neg => {}
            kind => return kind,
        }
    }
    Kind::Neg
}

/// Appends what is written of a node that has no children, and nothing for another node.
pub fn write_leaf(pool: &Pool, node: Id, text: &mut Text)
    requires stands { Stands pool.now }
    requires live { holds node (forest pool.now) ≡ true }
    requires room { length (leaf_bytes (payload_in node (forest pool.now))) ≤ spare_of text.old }
    ensures { text.new ≡ extended text.old (leaf_bytes (payload_in node (forest pool.now))) }
{
    write_payload(pool, kind(pool, node), node, &mut text.page);
}

/// The same to a page, for a node of a kind.
#[inline(always)]
fn write_payload(pool: &Pool, kind: Kind, node: Id, page: &mut Page)
    requires stands { Stands pool.now }
    requires live { holds node (forest pool.now) ≡ true }
    requires kind { kind ≡ kind_of_payload (payload_in node (forest pool.now)) }
    requires room { length (leaf_bytes (payload_in node (forest pool.now))) ≤ spare_of page.old }
    ensures { page.new ≡ extended page.old (leaf_bytes (payload_in node (forest pool.now))) }
{
    match kind {
        Kind::Num => write_digits(rational(pool, node), page),
        Kind::Sym => page.push(name(pool, node).bytes()),
        Kind::Undef => page.push(b"undef"),
        Kind::Plus => page.push_byte(b'+'),
        Kind::Minus => page.push_byte(b'-'),
        Kind::Times => page.push(b"\xC3\x97"),
        _ => {}
    }
}

/// Appends the digits of a numerator, without its sign.
fn write_digits(number: Rat, page: &mut Page)
    requires { length (decimal (nat_abs (ratio_of number).num)) ≤ spare_of page.old }
    ensures { page.new ≡ extended page.old (decimal (nat_abs (ratio_of number).num)) }
{
    let magnitude = number.num().unsigned_abs();
    if magnitude < 100 {
        write_short(magnitude as u8, page);
        return;
    }
    let mut digits = Buffer::new();
    page.push(digits.format(magnitude).as_bytes());
}

/// Appends one or two digits.
fn write_short(n: u8, page: &mut Page)
    requires few { n < 100 }
    requires room { length (decimal n) ≤ spare_of page.old }
    ensures { page.new ≡ extended page.old (decimal n) }
{
    if n < 10 {
        page.push_byte(b'0' + n);
        return;
    }
    page.push_byte(b'0' + n / 10);
    page.push_byte(b'0' + n % 10);
}
