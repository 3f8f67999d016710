//! Copying trees.
ghost use Rattle.std.specs.Prelude.{◌≡◌, ◌<◌, ◌≤◌, ◌+◌, ◌-◌, ◌++◌, ◌∷◌, [], ◌↔◌, ℕ, true, false, IfOk, IfErr, IsOk, OnOk, List};
ghost use Rattle.calc_terms.specs.Leaf.{payload_of, IsUsable};
ghost use Rattle.calc_terms.specs.Node.{Node, header_of, size_of};
ghost use Rattle.node_pool.specs.Nodes.{used, has, first_of};
ghost use Rattle.node_pool.specs.Places.{since, between, IsBoundary};
ghost use Rattle.node_pool.specs.State.{IsPool, free_of};
ghost use Rattle.tree_handles.specs.Copies.{AddsCopy, AreCopies, copy_of};
ghost use Rattle.tree_handles.specs.Expressions.{IsExpression, plain};
ghost use Rattle.tree_handles.specs.Forest.{bytes_in};
ghost use Rattle.tree_handles.specs.Handed.{Gives};
ghost use Rattle.tree_handles.specs.Inside.{holds, tree_at};
ghost use Rattle.tree_handles.specs.Standing.{Stands, forest, KeepsRefusals, IsRefused};

use crate::handle::Handle;
use crate::walk::{behind, step};
use calc_terms::{Header, Kind, Leaf};
use node_pool::{Full, Id, Pool};

/// An equal tree at the end, with identifiers of its own, each of its nodes held once.
pub fn copy_tree(pool: &mut Pool, source: Id) -> Result<Handle, Full>
    requires stands { Stands pool.old }
    requires live { holds source (forest pool.old) ≡ true }
    ensures ok { IfOk result (AddsCopy (tree_at source (forest pool.old)) (forest pool.old) (forest pool.new)) }
    ensures given { IsExpression source (forest pool.old) → IfOk result (λ h. Gives (forest pool.old) (forest pool.new) h (λ t. t ≡ plain (tree_at source (forest pool.old)))) }
    ensures kept { OnOk result (KeepsRefusals pool.old pool.new) }
    ensures full { IfErr result (IsRefused (bytes_in (tree_at source (forest pool.old))) pool.old pool.new) }
    ensures exactly { IsOk result ↔ (bytes_in (tree_at source (forest pool.old)) ≤ free_of pool.old) }
    ensures stands { Stands pool.new }
{
    let from = pool.locate(source);
    let end = behind(pool, from, 1);
    match pool.ask(from, end - from) {
        Ok(()) => {
            let place = pool.used();
            copy_nodes(pool, from, end);
            Ok(Handle::of(Id::of(pool.header(place).id)))
        }
        Err(full) => Err(full),
    }
}

/// Puts copies of the nodes from one place to before another at the end.
fn copy_nodes(pool: &mut Pool, from: u32, end: u32)
    requires from { IsBoundary from pool.old.nodes }
    requires end { IsBoundary end pool.old.nodes }
    requires order { from ≤ end }
    requires room { end - from ≤ free_of pool.old }

    ensures { (made : List Node) × (pool.new ≡ record pool.old { nodes = pool.old.nodes ++ made }) × AreCopies (between from end pool.old.nodes) made }
{
    let mut at = from;
    while at < end {
        let (_, next) = copy_node(pool, at);
        at = next;
    }
}

/// Puts a copy of the node at a place at the end, and tells the place behind that node.
fn copy_node(pool: &mut Pool, at: u32) -> (Id, u32)
    requires boundary { IsBoundary at pool.old.nodes }
    requires inside { at < used pool.old.nodes }
    requires room { size_of (first_of (since at pool.old.nodes)) ≤ free_of pool.old }
    ensures fresh { has result.0 pool.old.nodes ≡ false }
    ensures nodes { pool.new ≡ record pool.old { nodes = pool.old.nodes ++ copy_of result.0 (first_of (since at pool.old.nodes)) ∷ [] } }
    ensures next { result.1 ≡ at + size_of (first_of (since at pool.old.nodes)) }
    ensures pool { IsPool pool.new }
{
    let (header, next) = step(pool, at);
    let leaf = leaf_at(pool, at, header);
    match pool.place(leaf) {
        Ok(id) => {
            pool.set_children(id, header.children);
            (id, next)
        }
        Err(_) => unreachable!(),
    }
}

/// What the node at a place holds.
fn leaf_at(pool: &Pool, at: u32, header: Header) -> Leaf
    requires boundary { IsBoundary at pool.now.nodes }
    requires inside { at < used pool.now.nodes }
    requires header { header ≡ header_of (first_of (since at pool.now.nodes)) }
    requires pool { IsPool pool.now }
    ensures payload { payload_of result ≡ (first_of (since at pool.now.nodes)).payload }
    ensures usable { IsUsable result }
{
    let id = Id::of(header.id);
    match header.kind {
        Kind::Num => Leaf::Num(pool.rational(id)),
        Kind::Sym => Leaf::Sym(pool.name(id)),
        kind => Leaf::Plain(kind),
    }
}
