//! A sum under way that stands last, with the list of its children: a child more, another child, a child less.
ghost use Rattle.std.specs.Prelude.{◌≡◌, ◌<◌, ◌≤◌, [], ◌∷◌, true, ⊤};
ghost use Rattle.calc_terms.specs.Trees.{add, count, is_add, more, none};
ghost use Rattle.child_lists.specs.Changes.{removed};
ghost use Rattle.child_lists.specs.Lists.{Lists};
ghost use Rattle.node_pool.specs.State.{free_of};
ghost use Rattle.tree_handles.specs.Expressions.{children_of, inserted};
ghost use Rattle.tree_handles.specs.Handed.{Gives, KeepsFront, tree_of};
ghost use Rattle.tree_handles.specs.Roots.{without_root};
ghost use Rattle.tree_handles.specs.Standing.{KeepsRefusals, Stands, forest};

use crate::list::ChildList;
use crate::placing::{next_child, put_before};
use node_pool::Pool;
use tree_handles::{Handle, release, replace_known_child, take_known_child};

/// Puts the tree that stands last, just behind a sum, into it at a place.
pub fn insert_child<const N: usize>(
    pool: &mut Pool,
    sum: &Handle,
    list: &mut ChildList<N>,
    at: u16,
    child: Handle,
)
    requires stands { Stands pool.old }
    requires child { Gives (without_root child (forest pool.old)) (forest pool.old) child (λ t. ⊤) }
    requires sum { let others = without_root child (forest pool.old) in Gives (without_root sum.now others) others sum.now (λ t. is_add t ≡ true) }
    requires lists { Lists list.old sum.now (forest pool.old) }
    requires within { at ≤ count (children_of (tree_of sum.now pool.old)) }
    ensures sum { Gives (without_root sum.now (without_root child (forest pool.old))) (forest pool.new) sum.now
        (λ u. u ≡ add (inserted at (more (tree_of child pool.old) none) (children_of (tree_of sum.now pool.old)))) }
    ensures lists { Lists list.new sum.now (forest pool.new) }
    ensures front { KeepsFront (sum.now ∷ child ∷ []) (forest pool.old) (forest pool.new) }
    ensures kept { KeepsRefusals pool.old pool.new }
    ensures stands { Stands pool.new }
{
    let next = next_child(pool, sum.id(), list, at);
    let id = child.id();
    put_before(pool, sum, next, child);
    list.insert(at, id);
}

/// Puts the tree that stands last, just behind a sum, in the place of a child. Nothing else is moved where both take as
/// many bytes.
pub fn exchange_child<const N: usize>(
    pool: &mut Pool,
    sum: &Handle,
    list: &mut ChildList<N>,
    at: u16,
    child: Handle,
)
    requires stands { Stands pool.old }
    requires child { Gives (without_root child (forest pool.old)) (forest pool.old) child (λ t. ⊤) }
    requires sum { let others = without_root child (forest pool.old) in Gives (without_root sum.now others) others sum.now (λ t. is_add t ≡ true) }
    requires lists { Lists list.old sum.now (forest pool.old) }
    requires within { at < count (children_of (tree_of sum.now pool.old)) }
    ensures sum { Gives (without_root sum.now (without_root child (forest pool.old))) (forest pool.new) sum.now
        (λ u. u ≡ add (inserted at (more (tree_of child pool.old) none) (removed at (children_of (tree_of sum.now pool.old))))) }
    ensures lists { Lists list.new sum.now (forest pool.new) }
    ensures front { KeepsFront (sum.now ∷ child ∷ []) (forest pool.old) (forest pool.new) }
    ensures kept { KeepsRefusals pool.old pool.new }
    ensures stands { Stands pool.new }
{
    let old = list.child(pool, sum.id(), at);
    let id = child.id();
    let gone = replace_known_child(pool, old, child);
    release(pool, gone);
    list.set(at, id);
}

/// Takes a child out of a sum, and releases it.
pub fn remove_child<const N: usize>(pool: &mut Pool, sum: &Handle, list: &mut ChildList<N>, at: u16)
    requires stands { Stands pool.old }
    requires sum { Gives (without_root sum.now (forest pool.old)) (forest pool.old) sum.now (λ t. is_add t ≡ true) }
    requires lists { Lists list.old sum.now (forest pool.old) }
    requires within { at < count (children_of (tree_of sum.now pool.old)) }
    ensures sum { Gives (without_root sum.now (forest pool.old)) (forest pool.new) sum.now (λ t. t ≡ add (removed at (children_of (tree_of sum.now pool.old)))) }
    ensures lists { Lists list.new sum.now (forest pool.new) }
    ensures front { KeepsFront (sum.now ∷ []) (forest pool.old) (forest pool.new) }
    ensures kept { KeepsRefusals pool.old pool.new }
    ensures room { free_of pool.old ≤ free_of pool.new }
    ensures stands { Stands pool.new }
{
    let id = list.child(pool, sum.id(), at);
    let child = take_known_child(pool, sum, id);
    release(pool, child);
    list.remove(at);
}
