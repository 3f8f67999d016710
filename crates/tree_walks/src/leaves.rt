//! The leaves of a name in a tree.
ghost use Rattle.std.specs.Prelude.{◌≡◌, ◌≤◌, drop, length, true};
ghost use Rattle.calc_terms.specs.Leaf.{name_of};
ghost use Rattle.calc_terms.specs.Payload.{kind_of_payload};
ghost use Rattle.tree_handles.specs.Inside.{holds, payload_in, tree_at};
ghost use Rattle.tree_handles.specs.Standing.{Stands, forest};
ghost use Rattle.tree_walks.specs.Walks.{AreFirst, has_name, leaves_of};

use calc_terms::{Kind, Name};
use node_pool::{Id, Pool};
use tree_handles::{name as name_of_leaf, nodes_of};

/// How many leaves one walk finds.
pub const LEAVES: usize = 256;

/// Finds the first leaves of a name behind those that are passed over, and tells how many there are.
pub fn find_leaves(
    pool: &Pool,
    id: Id,
    name: Name,
    passed: usize,
    leaves: &mut [Id; LEAVES],
) -> usize
    requires stands { Stands pool.now }
    requires live { holds id (forest pool.now) ≡ true }
    ensures { AreFirst 256 result leaves.new (drop passed (leaves_of (name_of name) (tree_at id (forest pool.now)))) }
{
    let mut passing = passed;
    let mut found = 0;
    for node in nodes_of(pool, id) {
        if is_leaf_of(pool, node.id, node.kind, name) {
            if passing > 0 {
                passing -= 1;
            } else {
                leaves[found] = node.id;
                found += 1;
                if found == LEAVES {
                    return found;
                }
            }
        }
    }
    found
}

/// How many leaves of a name there are.
pub fn count_leaves(pool: &Pool, id: Id, name: Name) -> usize
    requires stands { Stands pool.now }
    requires live { holds id (forest pool.now) ≡ true }
    ensures value { result ≡ length (leaves_of (name_of name) (tree_at id (forest pool.now))) }
    ensures few { result ≤ 65535 }
{
    let mut count = 0;
    for node in nodes_of(pool, id) {
        if is_leaf_of(pool, node.id, node.kind, name) {
            count += 1;
        }
    }
    count
}

/// Whether a node of a kind is a leaf of a name.
pub fn is_leaf_of(pool: &Pool, id: Id, kind: Kind, name: Name) -> bool
    requires stands { Stands pool.now }
    requires live { holds id (forest pool.now) ≡ true }
    requires kind { kind ≡ kind_of_payload (payload_in id (forest pool.now)) }
    ensures { result ≡ has_name (name_of name) (payload_in id (forest pool.now)) }
{
    match kind {
        Kind::Sym => name_of_leaf(pool, id) == name,
        _ => false,
    }
}
