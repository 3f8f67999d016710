//! Children are brought into an order.
ghost use Rattle.std.specs.Prelude.{◌≡◌, ◌<◌, ◌+◌, ◌^◌, length, IsPermutation, true};
ghost use Rattle.std.specs.List.{range_with_len};
ghost use Rattle.node_order.specs.Picking.{picked_behind};
ghost use Rattle.tree_handles.specs.Children.{root_ids};
ghost use Rattle.tree_handles.specs.Forest.{arity, kids, rest_trees};
ghost use Rattle.tree_handles.specs.Inside.{holds, kids_of};
ghost use Rattle.tree_handles.specs.Roots.{has_root, root_tree, put};
ghost use Rattle.tree_handles.specs.Standing.{Stands, forest, KeepsRefusals};

use node_pool::{Id, Pool};
use tree_handles::{Handle, child_ids, swap_siblings};

/// Brings a root's children from a place on into an order of their places.
///
/// The other lists are written: the children by the places that they have at first, which of them stands at each place
/// now, and where each of them stands now.
#[tactic(auto, using(tree_handles::proofs::Seen::live))]
pub fn arrange(
    pool: &mut Pool,
    parent: &Handle,
    from: u16,
    order: &[u16],
    ids: &mut [Id],
    current: &mut [u16],
    whereabouts: &mut [u16],
)
    requires stands { Stands pool.old }
    requires root { has_root parent.now (forest pool.old) ≡ true }
    requires all { from + length order.now ≡ arity (kids (root_tree parent.now (forest pool.old))) }
    requires few { from + length order.now < 2 ^ 16 }
    requires places { IsPermutation (range_with_len 0 (length order.now)) order.now }
    requires ids { length ids.old ≡ length order.now }
    requires current { length current.old ≡ length order.now }
    requires whereabouts { length whereabouts.old ≡ length order.now }
    ensures forest { let old = forest pool.old in
        forest pool.new ≡ put parent.now (picked_behind from order.now (kids (root_tree parent.now old))) old }
    ensures kept { KeepsRefusals pool.old pool.new }
    ensures stands { Stands pool.new }
{
    list_children(pool, parent.id(), from, ids);
    list_places(current);
    list_places(whereabouts);
    for at in 0..order.len() {
        let here = usize::from(current[at]);
        let wanted = usize::from(order[at]);
        let place = usize::from(whereabouts[wanted]);
        swap_siblings(pool, ids[here], ids[wanted]);
        current.swap(at, place);
        whereabouts.swap(here, wanted);
    }
}

/// Lists the children of a node from a place on.
fn list_children(pool: &Pool, parent: Id, from: u16, listed: &mut [Id])
    requires stands { Stands pool.now }
    requires live { holds parent (forest pool.now) ≡ true }
    requires all { from + length listed.old ≡ arity (kids_of parent (forest pool.now)) }
    requires few { from + length listed.old < 2 ^ 16 }
    ensures { listed.new ≡ root_ids (rest_trees from (kids_of parent (forest pool.now))) }
{
    for (at, id) in child_ids(pool, parent, from).enumerate() {
        listed[at] = id;
    }
}

/// Lists the places from 0 on.
pub fn list_places(listed: &mut [u16])
    requires { length listed.old < 2 ^ 16 }
    ensures { listed.new ≡ range_with_len 0 (length listed.old) }
{
    for place in 0..listed.len() {
        listed[place] = place as u16;
    }
}
