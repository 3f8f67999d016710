//! Trees in the place of names.
ghost use Rattle.std.specs.Prelude.{◌≡◌, ◌≤◌, [], ◌∷◌, ℕ, true, IfOk, IfErr, OnOk, Ok, Err, ⊤};
ghost use Rattle.calc_terms.specs.Leaf.{name_of};
ghost use Rattle.calc_terms.specs.Trees.{size, root_size, symbol};
ghost use Rattle.node_pool.specs.State.{free_of};
ghost use Rattle.tree_handles.specs.Expressions.{IsExpression, plain};
ghost use Rattle.tree_handles.specs.Forest.{bytes_in};
ghost use Rattle.tree_handles.specs.Handed.{Gives, KeepsFront, tree_of};
ghost use Rattle.tree_handles.specs.Inside.{holds, tree_at};
ghost use Rattle.tree_handles.specs.Roots.{without_root};
ghost use Rattle.tree_handles.specs.Standing.{Stands, forest, IsRefused, KeepsRefusals, LacksBytes, Refuses};
ghost use Rattle.tree_walks.specs.Replacing.{replaced, replacing, occurrences};
ghost use Rattle.tree_walks.specs.Walks.{IsLeafAt, PutsCopy};

use crate::leaves::{LEAVES, count_leaves, find_leaves, is_leaf_of};
use crate::searching::holds_name;
use calc_terms::Name;
use node_pool::{Full, Id, Pool};
use tree_handles::{Handle, copy_tree, kind, release, replace_known_child};

/// Each leaf of a name in the last tree becomes a copy of another tree, in prefix order: a copy is placed at the end, takes
/// the place of the leaf, and the leaf is released. Answers the root, which is another one where the whole tree was such a leaf.
/// A tree without the name is read once, and nothing else is done.
///
/// Where a copy finds no room, the leaves before it have been replaced.
pub fn replace_name(pool: &mut Pool, tree: Handle, name: Name, source: Id) -> Result<Handle, Full>
    requires stands { Stands pool.old }
    requires last { Gives (without_root tree (forest pool.old)) (forest pool.old) tree (λ t. ⊤) }
    requires expression { IsExpression source (forest pool.old) }
    requires elsewhere { holds source (without_root tree (forest pool.old)) ≡ true }
    ensures ok { let old = forest pool.old in
        IfOk result (λ h. Gives (without_root tree old) (forest pool.new) h (λ t. t ≡ replaced (name_of name) (plain (tree_at source old)) (tree_of tree pool.old))) }

    // Refused exactly at the first copy that is larger than what is free then.
    ensures ok_room { let u = plain (tree_at source (forest pool.old)) in let x = name_of name in
        IfOk result (λ h. replacing (free_of pool.old) (occurrences x (tree_of tree pool.old)) (size u) (root_size (symbol x)) ≡ Ok (free_of pool.new)) }
    ensures full { let u = plain (tree_at source (forest pool.old)) in let x = name_of name in
        IfErr result (λ full. replacing (free_of pool.old) (occurrences x (tree_of tree pool.old)) (size u) (root_size (symbol x)) ≡ Err full) }
    ensures refuses { IfErr result (Refuses pool.old pool.new) }
    ensures lacks { IfErr result (LacksBytes pool.new) }

    ensures front { KeepsFront (tree ∷ []) (forest pool.old) (forest pool.new) }
    ensures kept { OnOk result (KeepsRefusals pool.old pool.new) }
    ensures stands { Stands pool.new }
{
    let root = tree.id();
    if !holds_name(pool, root, name) {
        return Ok(tree);
    }
    put_copies(pool, tree, name, source)
}

/// The same, in a tree in which the name may occur. It is no part of its caller, since it has a list at its entry.
#[inline(never)]
fn put_copies(pool: &mut Pool, tree: Handle, name: Name, source: Id) -> Result<Handle, Full>
    requires stands { Stands pool.old }
    requires last { Gives (without_root tree (forest pool.old)) (forest pool.old) tree (λ t. ⊤) }
    requires expression { IsExpression source (forest pool.old) }
    requires elsewhere { holds source (without_root tree (forest pool.old)) ≡ true }
    ensures ok { let old = forest pool.old in
        IfOk result (λ h. Gives (without_root tree old) (forest pool.new) h (λ t. t ≡ replaced (name_of name) (plain (tree_at source old)) (tree_of tree pool.old))) }

    // Refused exactly at the first copy that is larger than what is free then.
    ensures ok_room { let u = plain (tree_at source (forest pool.old)) in let x = name_of name in
        IfOk result (λ h. replacing (free_of pool.old) (occurrences x (tree_of tree pool.old)) (size u) (root_size (symbol x)) ≡ Ok (free_of pool.new)) }
    ensures full { let u = plain (tree_at source (forest pool.old)) in let x = name_of name in
        IfErr result (λ full. replacing (free_of pool.old) (occurrences x (tree_of tree pool.old)) (size u) (root_size (symbol x)) ≡ Err full) }
    ensures refuses { IfErr result (Refuses pool.old pool.new) }
    ensures lacks { IfErr result (LacksBytes pool.new) }

    ensures front { KeepsFront (tree ∷ []) (forest pool.old) (forest pool.new) }
    ensures kept { OnOk result (KeepsRefusals pool.old pool.new) }
    ensures stands { Stands pool.new }
{
    let root = tree.id();
    if is_leaf_of(pool, root, kind(pool, root), name) {
        let copy = copy_tree(pool, source)?;
        release(pool, tree);
        return Ok(copy);
    }
    let mut leaves = [Id::default(); LEAVES];
    let mut passed = 0;
    let mut found = find_leaves(pool, root, name, passed, &mut leaves);
    let mut at = 0;
    while at < found {
        put_copy(pool, leaves[at], source)?;
        at += 1;
        if at == LEAVES {
            // The leaves of the name in the copies stay.
            passed += LEAVES * count_leaves(pool, source, name);
            found = find_leaves(pool, root, name, passed, &mut leaves);
            at = 0;
        }
    }
    Ok(tree)
}

/// A copy of a tree takes the place of a leaf.
fn put_copy(pool: &mut Pool, leaf: Id, source: Id) -> Result<(), Full>
    requires stands { Stands pool.old }
    requires expression { IsExpression source (forest pool.old) }
    requires leaf { (at : ℕ) × (parent : ℕ) × IsLeafAt at parent leaf (forest pool.old) }
    ensures ok { (at parent : ℕ) → IsLeafAt at parent leaf (forest pool.old) → IfOk result (λ _. PutsCopy (plain (tree_at source (forest pool.old))) at parent (forest pool.old) (forest pool.new)) }
    ensures room { IfOk result (λ _. bytes_in (tree_at source (forest pool.old)) ≤ free_of pool.old) }
    ensures full { IfErr result (IsRefused (bytes_in (tree_at source (forest pool.old))) pool.old pool.new) }
    ensures kept { OnOk result (KeepsRefusals pool.old pool.new) }
    ensures stands { Stands pool.new }
{
    let copy = copy_tree(pool, source)?;
    let leaf = replace_known_child(pool, leaf, copy);
    release(pool, leaf);
    Ok(())
}
