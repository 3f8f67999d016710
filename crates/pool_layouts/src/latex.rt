//! LaTeX texts of layouts, in one walk over their nodes.
ghost use Rattle.std.specs.Prelude.{◌≡◌, ◌*◌, ◌+◌, ◌≤◌, [], length, true, vec_capacity};
ghost use Rattle.std.specs.List.{list_all};
ghost use Rattle.calc_terms.specs.Name.{is_digit};
ghost use Rattle.calc_terms.specs.Payload.{kind_of_payload};
ghost use Rattle.line_text.specs.Content.{spare_of, extended};
ghost use Rattle.pool_layouts.specs.Drawings.{IsLayout, drawing};
ghost use Rattle.pool_layouts.specs.Latex.{is_indexed as is_indexed_name, latex, latex_name};
ghost use Rattle.pool_layouts.specs.LatexNodes.{latex_between, latex_close, latex_front};
ghost use Rattle.tree_handles.specs.Forest.{bytes_in, nodes_in};
ghost use Rattle.tree_handles.specs.Inside.{holds, payload_in, tree_at};
ghost use Rattle.tree_handles.specs.Standing.{Stands, forest};

use crate::drafter::Drafter;
use crate::lists::append;
use calc_terms::Kind;
use line_text::{Text, write_leaf};
use node_pool::{Id, Pool};
use tree_handles::{Visit, name, nodes_of};

/// Appends the LaTeX text of a layout, for math mode. The nodes that the drafter listed are forgotten.
#[tactic(auto, using(crate::proofs::Measuring::nodes_served))]
pub fn write_latex(pool: &Pool, layout: Id, drafter: &mut Drafter, text: &mut Text)
    requires stands { Stands pool.now }
    requires layout { IsLayout layout (forest pool.now) }
    requires room { 2 * bytes_in (tree_at layout (forest pool.now)) ≤ spare_of text.old }
    requires served { pool.now.size ≤ drafter.old.pool_size }
    ensures written { text.new ≡ extended text.old (latex (drawing (tree_at layout (forest pool.now)))) }
    ensures served { drafter.new.pool_size ≡ drafter.old.pool_size }
    ensures forgotten { drafter.new ≡ record drafter.old { nodes = [] } }
{
    write_nodes(pool, layout, &mut drafter.cells, text);
}

/// The same. The nodes around those that are being written stand in `outer`, the innermost last, each
/// with the number of its parts that are still to be written.
fn write_nodes(pool: &Pool, layout: Id, outer: &mut Vec<Visit>, text: &mut Text)
    requires stands { Stands pool.now }
    requires layout { IsLayout layout (forest pool.now) }
    requires room { 2 * bytes_in (tree_at layout (forest pool.now)) ≤ spare_of text.old }
    requires deep { nodes_in (tree_at layout (forest pool.now)) ≤ vec_capacity outer.old }
    ensures written { text.new ≡ extended text.old (latex (drawing (tree_at layout (forest pool.now)))) }
    ensures none_left { outer.new.items ≡ [] }
    ensures deep { vec_capacity outer.old ≤ vec_capacity outer.new }
{
    let mut nodes = nodes_of(pool, layout);
    outer.clear();
    let mut rest = whole();
    loop {
        if rest.children > 0 {
            let node = nodes.next().unwrap();
            write_between(rest.kind, rest.children, text);
            write_front(pool, node.kind, node.id, text);
            rest = without_first(rest);
            append(outer, rest);
            rest = node;
        } else {
            write_close(rest.kind, text);
            match outer.pop() {
                Some(around) => rest = around,
                None => return,
            }
        }
    }
}

/// The whole as the one part of a row.
fn whole() -> Visit
    ensures kind { result.kind ≡ Kind.Row }
    ensures parts { result.children ≡ 1 }
{
    Visit {
        kind: Kind::Row,
        children: 1,
        ..Visit::default()
    }
}

/// With one part less to be written.
fn without_first(rest: Visit) -> Visit
    requires some { 1 ≤ rest.children }
    ensures kind { result.kind ≡ rest.kind }
    ensures parts { result.children + 1 ≡ rest.children }
{
    Visit {
        children: rest.children - 1,
        ..rest
    }
}

/// Appends what stands before a part of a node of a kind, where so many parts are left with it.
fn write_between(kind: Kind, left: u16, text: &mut Text)
    requires room { length (latex_between kind left) ≤ spare_of text.old }
    ensures { text.new ≡ extended text.old (latex_between kind left) }
{
    if kind == Kind::Fraction && left == 1 {
        text.push(b"}{");
    }
}

/// Appends what stands before the parts of a node of a kind.
fn write_front(pool: &Pool, kind: Kind, node: Id, text: &mut Text)
    requires stands { Stands pool.now }
    requires live { holds node (forest pool.now) ≡ true }
    requires kind { kind ≡ kind_of_payload (payload_in node (forest pool.now)) }
    requires room { length (latex_front (payload_in node (forest pool.now))) ≤ spare_of text.old }
    ensures { text.new ≡ extended text.old (latex_front (payload_in node (forest pool.now))) }
{
    match kind {
        Kind::Num => write_leaf(pool, node, text),
        Kind::Sym => write_name(name(pool, node).bytes(), text),
        Kind::Plus => text.push(b"+"),
        Kind::Minus => text.push(b"-"),
        Kind::Times => text.push(b" \\times "),
        Kind::Fraction => text.push(b"\\frac{"),
        Kind::Raised => text.push(b"^{"),
        Kind::Radical => text.push(b"\\sqrt{"),
        Kind::Paren => text.push(b"\\left("),
        _ => {}
    }
}

/// Appends what stands after the parts of a node.
fn write_close(kind: Kind, text: &mut Text)
    requires room { length (latex_close kind) ≤ spare_of text.old }
    ensures { text.new ≡ extended text.old (latex_close kind) }
{
    match kind {
        Kind::Fraction | Kind::Raised | Kind::Radical => text.push(b"}"),
        Kind::Paren => text.push(b"\\right)"),
        _ => {}
    }
}

/// Appends a name.
fn write_name(name: &[u8], text: &mut Text)
    requires room { length (latex_name name.now) ≤ spare_of text.old }
    ensures { text.new ≡ extended text.old (latex_name name.now) }
{
    if name.len() == 1 {
        text.push(name);
    } else if is_indexed(name) {
        text.push(&name[..1]);
        text.push(b"_{");
        text.push(&name[1..]);
        text.push(b"}");
    } else {
        text.push(b"\\mathrm{");
        text.push(name);
        text.push(b"}");
    }
}

/// Whether a name is one letter, and then digits alone.
fn is_indexed(name: &[u8]) -> bool
    ensures { result ≡ is_indexed_name name.now }
{
    name.len() > 1 && are_digits(&name[1..])
}

fn are_digits(bytes: &[u8]) -> bool
    ensures { result ≡ list_all is_digit bytes.now }
{
    bytes.iter().all(|byte| byte.is_ascii_digit())
}
