//! Moving children.
ghost use Rattle.std.specs.Prelude.{◌≡◌, ◌<◌, ◌≤◌, ◌+◌, ◌-◌, ℕ, true, false};
ghost use Rattle.tree_handles.specs.Children.{IsChildAt, AreSiblings};
ghost use Rattle.tree_handles.specs.Forest.{Forest, join, arity, kids, with_root_kids, tree_nth, without_nth, with_nth, set_nth, swapped_nth, merged_nth, root_id, root_count};
ghost use Rattle.tree_handles.specs.Handed.{Ends};
ghost use Rattle.tree_handles.specs.Inside.{holds, kids_of, with_kids};
ghost use Rattle.tree_handles.specs.Roots.{has_root, root_tree, without_root, put, behind_root, adopted};
ghost use Rattle.tree_handles.specs.Standing.{Stands, forest, KeepsRefusals};
ghost use Rattle.tree_handles.specs.Walks.{IsChildPlace};

use crate::handle::Handle;
use crate::read::{child_id, children};
use crate::walk::{behind, child_place, step};
use node_pool::{Id, Pool};

/// A child's tree becomes the last root, and the parent's unit of its count becomes the handle's.
pub fn take_child(pool: &mut Pool, parent: &Handle, at: u16) -> Handle
    requires stands { Stands pool.old }
    requires within { at < arity (kids_of parent.now (forest pool.old)) }
    ensures forest { let kids = kids_of parent.now (forest pool.old) in
        forest pool.new ≡ join (with_kids parent.now (without_nth at kids) (forest pool.old)) (tree_nth at kids) }
    ensures handle { result ≡ root_id (tree_nth at (kids_of parent.now (forest pool.old))) }
    // From a root.
    ensures last { let old = forest pool.old in
        let kids = kids (root_tree parent.now old) in
        has_root parent.now old ≡ true → Ends result (tree_nth at kids) (put parent.now (without_nth at kids) old) (forest pool.new) }
    ensures kept { KeepsRefusals pool.old pool.new }
    ensures stands { Stands pool.new }
{
    let child = child_id(pool, parent.id(), at);
    take_known_child(pool, parent, child)
}

/// The same of a child that is known by its identifier. No step is made over its siblings.
#[inline(always)]
pub fn take_known_child(pool: &mut Pool, parent: &Handle, child: Id) -> Handle
    requires stands { Stands pool.old }
    requires known { (at : ℕ) × IsChildAt at parent.now child (forest pool.old) }
    ensures forest { (at : ℕ) → let old = forest pool.old in IsChildAt at parent.now child old
        → let kids = kids_of parent.now old in forest pool.new ≡ join (with_kids parent.now (without_nth at kids) old) (tree_nth at kids) }
    ensures handle { result ≡ child }
    // From a root.
    ensures last { (at : ℕ) → let old = forest pool.old in IsChildAt at parent.now child old → has_root parent.now old ≡ true
        → let kids = kids (root_tree parent.now old) in Ends result (tree_nth at kids) (put parent.now (without_nth at kids) old) (forest pool.new) }
    ensures kept { KeepsRefusals pool.old pool.new }
    ensures stands { Stands pool.new }
{
    let owner = parent.id();
    let children = children(pool, owner);
    let from = pool.locate(child);
    let end = behind(pool, from, 1);
    let used = pool.used();
    pool.move_block(from, end - from, used);
    pool.set_children(owner, children - 1);
    Handle::of(child)
}

/// A root becomes a child, before the one that had the place, and its handle's unit becomes the parent's.
pub fn add_child(pool: &mut Pool, parent: &Handle, at: u16, child: Handle)
    requires stands { Stands pool.old }
    requires live { holds parent.now (forest pool.old) ≡ true }
    requires within { at ≤ arity (kids_of parent.now (forest pool.old)) }
    requires root { has_root child (forest pool.old) ≡ true }
    requires apart { holds parent.now (root_tree child (forest pool.old)) ≡ false }
    ensures forest { let old = forest pool.old in
        forest pool.new ≡ with_kids parent.now (with_nth at (root_tree child old) (kids_of parent.now old)) (without_root child old) }
    ensures live { holds parent.now (forest pool.new) ≡ true }
    ensures many { arity (kids_of parent.now (forest pool.new)) ≡ arity (kids_of parent.now (forest pool.old)) + 1 }
    // To a root; to the last root, from the trees before it; and to it from just before it.
    ensures root { let old = forest pool.old in
        has_root parent.now old ≡ true → forest pool.new ≡ put parent.now (with_nth at (root_tree child old) (kids (root_tree parent.now old))) (without_root child old) }
    ensures last { (t others : Forest) → Ends parent.now t others (forest pool.old) → has_root child others ≡ true
        → Ends parent.now (with_root_kids (with_nth at (root_tree child others) (kids t)) t) (without_root child others) (forest pool.new) }
    ensures next { (t before u others : Forest) → Ends parent.now t before (forest pool.old) → Ends child u others before
        → Ends parent.now (with_root_kids (with_nth at u (kids t)) t) others (forest pool.new) }
    ensures kept { KeepsRefusals pool.old pool.new }
    ensures stands { Stands pool.new }
{
    let to = child_place(pool, parent.id(), at);
    add_at(pool, parent, to, child);
}

/// The same before a child that is known by its identifier. No step is made over its siblings.
pub fn add_before(pool: &mut Pool, parent: &Handle, next: Id, child: Handle)
    requires stands { Stands pool.old }
    requires known { (at : ℕ) × IsChildAt at parent.now next (forest pool.old) }
    requires root { has_root child (forest pool.old) ≡ true }
    requires apart { holds parent.now (root_tree child (forest pool.old)) ≡ false }
    ensures forest { (at : ℕ) → let old = forest pool.old in IsChildAt at parent.now next old
        → forest pool.new ≡ with_kids parent.now (with_nth at (root_tree child old) (kids_of parent.now old)) (without_root child old) }
    // To a root.
    ensures root { (at : ℕ) → let old = forest pool.old in IsChildAt at parent.now next old → has_root parent.now old ≡ true
        → forest pool.new ≡ put parent.now (with_nth at (root_tree child old) (kids (root_tree parent.now old))) (without_root child old) }
    ensures kept { KeepsRefusals pool.old pool.new }
    ensures stands { Stands pool.new }
{
    let to = pool.locate(next);
    add_at(pool, parent, to, child);
}

/// The same where a child begins or behind the last one.
fn add_at(pool: &mut Pool, parent: &Handle, to: u32, child: Handle)
    requires stands { Stands pool.old }
    requires live { holds parent.now (forest pool.old) ≡ true }
    requires place { (at : ℕ) × IsChildPlace at parent.now to pool.old }
    requires root { has_root child (forest pool.old) ≡ true }
    requires apart { holds parent.now (root_tree child (forest pool.old)) ≡ false }
    ensures forest { (at : ℕ) → let old = forest pool.old in IsChildPlace at parent.now to pool.old
        → forest pool.new ≡ with_kids parent.now (with_nth at (root_tree child old) (kids_of parent.now old)) (without_root child old) }
    ensures kept { KeepsRefusals pool.old pool.new }
    ensures stands { Stands pool.new }
{
    let owner = parent.id();
    let children = children(pool, owner);
    let from = pool.locate(child.id());
    let end = behind(pool, from, 1);
    pool.move_block(from, end - from, to);
    pool.set_children(owner, children + 1);
}

/// The first trees behind a root become its last children, where they stand, and their handles' units the parent's.
pub fn adopt(pool: &mut Pool, parent: &Handle, trees: u16)
    requires stands { Stands pool.old }
    requires root { has_root parent.now (forest pool.old) ≡ true }
    requires within { trees ≤ arity (behind_root parent.now (forest pool.old)) }
    ensures forest { forest pool.new ≡ adopted parent.now trees (forest pool.old) }
    ensures kept { KeepsRefusals pool.old pool.new }
    ensures stands { Stands pool.new }
{
    let owner = parent.id();
    let own = children(pool, owner);
    pool.set_children(owner, own + trees);
}

/// A root takes the place of a child, whose tree becomes the last root.
pub fn replace_child(pool: &mut Pool, parent: &Handle, at: u16, new: Handle) -> Handle
    requires stands { Stands pool.old }
    requires within { at < arity (kids_of parent.now (forest pool.old)) }
    requires root { has_root new (forest pool.old) ≡ true }
    requires apart { holds parent.now (root_tree new (forest pool.old)) ≡ false }
    ensures forest { let old = forest pool.old in
        let kids = kids_of parent.now old in
        forest pool.new ≡ join (with_kids parent.now (set_nth at (root_tree new old) kids) (without_root new old)) (tree_nth at kids) }
    ensures handle { result ≡ root_id (tree_nth at (kids_of parent.now (forest pool.old))) }
    // At a root.
    ensures last { let old = forest pool.old in
        let kids = kids (root_tree parent.now old) in
        has_root parent.now old ≡ true → Ends result (tree_nth at kids) (put parent.now (set_nth at (root_tree new old) kids) (without_root new old)) (forest pool.new) }
    ensures kept { KeepsRefusals pool.old pool.new }
    ensures stands { Stands pool.new }
{
    let old = take_child(pool, parent, at);
    add_child(pool, parent, at, new);
    old
}

/// A root that stands last takes the place of a child that is known by its identifier, whose tree stands last then. No
/// step is made over its siblings, and nothing else is moved where both trees take as many bytes.
pub fn replace_known_child(pool: &mut Pool, child: Id, new: Handle) -> Handle
    requires stands { Stands pool.old }
    requires known { (parent : ℕ) × (at : ℕ) × (t : Forest) × (others : Forest) × Ends new t others (forest pool.old) × IsChildAt at parent child others }
    ensures forest { (parent at : ℕ) (t others : Forest) → Ends new t others (forest pool.old) → IsChildAt at parent child others
        → let kids = kids_of parent others in forest pool.new ≡ join (with_kids parent (set_nth at t kids) others) (tree_nth at kids) }
    ensures handle { result ≡ child }
    // At a root.
    ensures last { (parent at : ℕ) (t others : Forest) → Ends new t others (forest pool.old) → IsChildAt at parent child others → has_root parent others ≡ true
        → let kids = kids (root_tree parent others) in Ends result (tree_nth at kids) (put parent (set_nth at t kids) others) (forest pool.new) }
    ensures kept { KeepsRefusals pool.old pool.new }
    ensures stands { Stands pool.new }
{
    let first = pool.locate(child);
    let mid = behind(pool, first, 1);
    let second = pool.locate(new.id());
    let end = behind(pool, second, 1);
    pool.swap_blocks(first, mid, second, end);
    Handle::of(child)
}

/// Two children change places.
pub fn swap_children(pool: &mut Pool, parent: &Handle, i: u16, j: u16)
    requires stands { Stands pool.old }
    requires first { i < arity (kids_of parent.now (forest pool.old)) }
    requires second { j < arity (kids_of parent.now (forest pool.old)) }
    ensures forest { forest pool.new ≡ with_kids parent.now (swapped_nth i j (kids_of parent.now (forest pool.old))) (forest pool.old) }
    ensures root { let old = forest pool.old in
        has_root parent.now old ≡ true → forest pool.new ≡ put parent.now (swapped_nth i j (kids (root_tree parent.now old))) old }
    ensures kept { KeepsRefusals pool.old pool.new }
    ensures stands { Stands pool.new }
{
    let owner = parent.id();
    let first = child_id(pool, owner, i);
    let second = child_id(pool, owner, j);
    swap_siblings(pool, first, second);
}

/// Two children of one node change places. No step is made over their siblings.
pub fn swap_siblings(pool: &mut Pool, first: Id, second: Id)
    requires stands { Stands pool.old }
    requires siblings { (parent : ℕ) × (i : ℕ) × (j : ℕ) × AreSiblings parent i first j second (forest pool.old) }
    ensures forest { (parent i j : ℕ) → let old = forest pool.old in AreSiblings parent i first j second old
        → forest pool.new ≡ with_kids parent (swapped_nth i j (kids_of parent old)) old }
    ensures root { (parent i j : ℕ) → let old = forest pool.old in AreSiblings parent i first j second old
        → has_root parent old ≡ true → forest pool.new ≡ put parent (swapped_nth i j (kids (root_tree parent old))) old }
    ensures kept { KeepsRefusals pool.old pool.new }
    ensures stands { Stands pool.new }
{
    let left = pool.locate(first);
    let right = pool.locate(second);
    if left < right {
        swap_apart(pool, first, second);
    } else if right < left {
        swap_apart(pool, second, first);
    }
}

/// Two children of one node change places, the one that stands first given first.
fn swap_apart(pool: &mut Pool, first: Id, second: Id)
    requires stands { Stands pool.old }
    requires siblings { (parent : ℕ) × (i : ℕ) × (j : ℕ) × (i < j) × AreSiblings parent i first j second (forest pool.old) }
    ensures forest { (parent i j : ℕ) → let old = forest pool.old in i < j → AreSiblings parent i first j second old
        → forest pool.new ≡ with_kids parent (swapped_nth i j (kids_of parent old)) old }
    ensures kept { KeepsRefusals pool.old pool.new }
    ensures stands { Stands pool.new }
{
    let start = pool.locate(first);
    let mid = behind(pool, start, 1);
    let next = pool.locate(second);
    let end = behind(pool, next, 1);
    pool.swap_blocks(start, mid, next, end);
}

/// The children of a child take its place, and its node is removed. No other handle holds that child.
pub fn merge_children(pool: &mut Pool, parent: &Handle, at: u16)
    requires stands { Stands pool.old }
    requires within { at < arity (kids_of parent.now (forest pool.old)) }
    requires unshared { root_count (tree_nth at (kids_of parent.now (forest pool.old))) ≡ 1 }
    ensures forest { forest pool.new ≡ with_kids parent.now (merged_nth at (kids_of parent.now (forest pool.old))) (forest pool.old) }
    ensures root { let old = forest pool.old in
        has_root parent.now old ≡ true → forest pool.new ≡ put parent.now (merged_nth at (kids (root_tree parent.now old))) old }
    ensures kept { KeepsRefusals pool.old pool.new }
    ensures stands { Stands pool.new }
{
    let owner = parent.id();
    let children = children(pool, owner);
    let from = child_place(pool, owner, at);
    let (header, next) = step(pool, from);
    pool.remove_block(from, next - from);
    pool.set_children(owner, children - 1 + header.children);
}

/// A root's tree comes behind all others. Nothing is moved where it stands there.
pub fn move_last(pool: &mut Pool, handle: &Handle)
    requires stands { Stands pool.old }
    requires root { has_root handle.now (forest pool.old) ≡ true }
    ensures forest { forest pool.new ≡ join (without_root handle.now (forest pool.old)) (root_tree handle.now (forest pool.old)) }
    ensures last { Ends handle.now (root_tree handle.now (forest pool.old)) (without_root handle.now (forest pool.old)) (forest pool.new) }
    ensures kept { KeepsRefusals pool.old pool.new }
    ensures stands { Stands pool.new }
{
    let from = pool.locate(handle.id());
    let end = behind(pool, from, 1);
    let last = pool.used();
    if end == last {
        return;
    }
    pool.move_block(from, end - from, last);
}
