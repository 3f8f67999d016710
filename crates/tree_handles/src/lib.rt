//! Trees in a pool, held by handles.
#![tactic(auto)]

mod building;
mod copy;
mod counts;
mod fault;
mod handle;
mod holes;
mod measure;
mod moving;
mod opening;
mod read;
mod releasing;
mod siblings;
mod undef;
mod visits;
mod walk;

pub use building::{node_over, node_over_last, node_over_two};
pub use copy::copy_tree;
pub use counts::{child, retain};
pub use fault::NumberFault;
pub use handle::{Handle, node, number, symbol};
pub use holes::{Hole, fill, open_child};
pub use measure::{count_trees, tree_bytes, tree_depth, tree_nodes};
pub use moving::{
    add_before, add_child, adopt, merge_children, move_last, replace_child, replace_known_child,
    swap_children, swap_siblings, take_child, take_known_child,
};
pub use opening::open_pool;
pub use read::{child_id, children, count, kind, name, rational};
pub use releasing::{drop_behind, release};
pub use siblings::{ChildIds, child_ids};
pub use undef::{has_undefined_child, is_undefined, undefined};
pub use visits::{Nodes, Visit, nodes_below, nodes_of};
