//! Nodes over trees that are handed.
ghost use Rattle.std.specs.Prelude.{◌≡◌, ◌≤◌, ◌↔◌, ◌==◌, true, false, IfOk, IfErr, IfSome, IsOk, OnOk, [], ◌∷◌};
ghost use Rattle.calc_terms.specs.Payload.{bare, is_bare, size_of_payload};
ghost use Rattle.calc_terms.specs.Trees.{none, more};
ghost use Rattle.node_pool.specs.State.{free_of};
ghost use Rattle.tree_handles.specs.Expressions.{plain, compound, takes_kind};
ghost use Rattle.tree_handles.specs.Forest.{arity, bytes_in, join, one_tree, before_last, last_trees};
ghost use Rattle.tree_handles.specs.Handed.{IsHanded, Ends, Gives, KeepsFront};
ghost use Rattle.tree_handles.specs.Roots.{has_root, root_tree, without_root};
ghost use Rattle.tree_handles.specs.Standing.{Stands, forest, KeepsRefusals, IsRefused};

use crate::handle::{Handle, node};
use crate::moving::add_child;
use crate::walk::behind;
use calc_terms::Kind;
use node_pool::{Full, Pool};

/// A new last tree of one child.
pub fn node_over(pool: &mut Pool, kind: Kind, child: Handle) -> Result<Handle, Full>
    requires stands { Stands pool.old }
    requires takes { takes_kind kind 1 ≡ true }
    requires handed { IsHanded child (forest pool.old) }
    ensures ok { let old = forest pool.old in
        IfOk result (λ h. Gives (without_root child old) (forest pool.new) h (λ t. t ≡ compound kind (more (plain (root_tree child old)) none))) }
    ensures front { KeepsFront (child ∷ []) (forest pool.old) (forest pool.new) }
    ensures kept { OnOk result (KeepsRefusals pool.old pool.new) }
    ensures full { IfErr result (IsRefused (size_of_payload (bare kind)) pool.old pool.new) }
    ensures exactly { IsOk result ↔ (size_of_payload (bare kind) ≤ free_of pool.old) }
    ensures stands { Stands pool.new }
{
    let over = node(pool, kind)?;
    add_child(pool, &over, 0, child);
    Ok(over)
}

/// A new last tree of two children.
pub fn node_over_two(
    pool: &mut Pool,
    kind: Kind,
    left: Handle,
    right: Handle,
) -> Result<Handle, Full>
    requires stands { Stands pool.old }
    requires takes { takes_kind kind 2 ≡ true }
    requires first { IsHanded left (forest pool.old) }
    requires second { IsHanded right (forest pool.old) }
    requires apart { (left == right) ≡ false }
    ensures ok { let old = forest pool.old in
        IfOk result (λ h. Gives (without_root right (without_root left old)) (forest pool.new) h (λ t. t ≡ compound kind (more (plain (root_tree left old)) (more (plain (root_tree right old)) none)))) }
    ensures front { KeepsFront (left ∷ right ∷ []) (forest pool.old) (forest pool.new) }
    ensures kept { OnOk result (KeepsRefusals pool.old pool.new) }
    ensures full { IfErr result (IsRefused (size_of_payload (bare kind)) pool.old pool.new) }
    ensures exactly { IsOk result ↔ (size_of_payload (bare kind) ≤ free_of pool.old) }
    ensures stands { Stands pool.new }
{
    if let Some(begin) = begin_of_last(pool, &left, &right) {
        return node_over_last(pool, kind, 2, begin);
    }
    let pair = node(pool, kind)?;
    add_child(pool, &pair, 0, right);
    add_child(pool, &pair, 0, left);
    Ok(pair)
}

/// Where two trees begin that stand last, one behind the other.
fn begin_of_last(pool: &Pool, left: &Handle, right: &Handle) -> Option<u32>
    requires stands { Stands pool.now }
    requires first { has_root left.now (forest pool.now) ≡ true }
    requires second { has_root right.now (forest pool.now) ≡ true }
    ensures trees { let f = forest pool.now in IfSome result (λ begin. last_trees 2 f ≡ join (root_tree left.now f) (root_tree right.now f)) }
    ensures others { let f = forest pool.now in IfSome result (λ begin. before_last 2 f ≡ without_root left.now (without_root right.now f)) }
    ensures begin { IfSome result (λ begin. begin ≡ bytes_in (before_last 2 (forest pool.now))) }
    ensures few { IfSome result (λ begin. 2 ≤ arity (forest pool.now)) }
{
    let begin = pool.locate(left.id());
    let mid = pool.locate(right.id());
    if behind(pool, begin, 1) == mid && behind(pool, mid, 1) == pool.used() {
        Some(begin)
    } else {
        None
    }
}

/// A new last tree over the last `trees` trees, which become its children where they stand. The bytes of all
/// trees before them are `begin`.
pub fn node_over_last(pool: &mut Pool, kind: Kind, trees: u16, begin: u32) -> Result<Handle, Full>
    requires stands { Stands pool.old }
    requires bare { is_bare kind ≡ true }
    requires few { trees ≤ arity (forest pool.old) }
    requires begin { begin ≡ bytes_in (before_last trees (forest pool.old)) }
    ensures ok { let old = forest pool.old in
        IfOk result (λ h. Ends h (one_tree h (bare kind) (last_trees trees old)) (before_last trees old) (forest pool.new)) }
    ensures kept { OnOk result (KeepsRefusals pool.old pool.new) }
    ensures full { IfErr result (IsRefused (size_of_payload (bare kind)) pool.old pool.new) }
    ensures exactly { IsOk result ↔ (size_of_payload (bare kind) ≤ free_of pool.old) }
    ensures stands { Stands pool.new }
{
    match pool.insert(begin, kind, trees) {
        Ok(id) => Ok(Handle::of(id)),
        Err(full) => Err(full),
    }
}
