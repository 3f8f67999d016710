//! The derivative of a tree, placed behind all others.
ghost use Rattle.std.specs.Prelude.{◌≡◌, ◌≤◌, ◌<◌, ◌+◌, ◌↔◌, nat_abs, true, [], IfOk, IfErr, IsOk, OnOk, OnErr};
ghost use Rattle.calc_terms.specs.Leaf.{name_of};
ghost use Rattle.calc_terms.specs.Trees.{size};
ghost use Rattle.dual_diff.specs.Derivatives.{HasDerivative, derivative};
ghost use Rattle.dual_diff.specs.Placing.{Adds, capped};
ghost use Rattle.dual_diff.specs.Writing.{CanDerive, tree_of};
ghost use Rattle.node_pool.specs.State.{free_of};
ghost use Rattle.tree_handles.specs.Expressions.{IsExpression, plain};
ghost use Rattle.tree_handles.specs.Handed.{Gives, KeepsFront};
ghost use Rattle.tree_handles.specs.Inside.{tree_at};
ghost use Rattle.tree_handles.specs.Standing.{Stands, forest, KeepsRefusals};

use crate::counter::Counter;
use crate::placer::Placer;
use crate::writing::write_derivative;
use calc_terms::Name;
use node_pool::{Full, Id, Pool};
use tree_handles::Handle;

/// The derivative of a tree, as a new tree. Its bytes are counted first, so a refusal changes nothing, and is not counted.
///
/// A child is derived by a call within its parent's, so the machine's stack that it takes grows with the depth. Each
/// kind of node has a function of its own that is not inlined, so that a call keeps what its own kind needs.
pub fn derive(pool: &mut Pool, tree: Id, name: Name) -> Result<Handle, Full>
    requires stands { Stands pool.old }
    requires expression { IsExpression tree (forest pool.old) }
    requires derivable { HasDerivative (name_of name) (plain (tree_at tree (forest pool.old))) }
    ensures ok { let old = forest pool.old in
        IfOk result (λ h. Gives old (forest pool.new) h (λ t. t ≡ derivative (name_of name) (plain (tree_at tree old)))) }
    ensures front { KeepsFront [] (forest pool.old) (forest pool.new) }
    ensures kept { OnOk result (KeepsRefusals pool.old pool.new) }

    // Refused exactly where the derivative has more bytes than are free, with both numbers.
    ensures exactly { IsOk result ↔ (size (derivative (name_of name) (plain (tree_at tree (forest pool.old)))) ≤ free_of pool.old) }
    ensures full { let bytes = size (derivative (name_of name) (plain (tree_at tree (forest pool.old)))) in
        IfErr result (λ full. full ≡ record { needed = capped bytes; free = free_of pool.old }) }
    ensures unchanged { OnErr result (pool.new ≡ pool.old) }

    ensures stands { Stands pool.new }
{
    let needed = derivative_bytes(pool, tree, name);
    let free = pool.free();
    if needed > free {
        return Err(Full { needed, free });
    }
    Ok(place_derivative(pool, tree, name))
}

/// The bytes of a tree's derivative, or the largest number where there are more.
fn derivative_bytes(pool: &mut Pool, tree: Id, name: Name) -> u32
    requires { CanDerive (name_of name) tree pool.old }
    ensures bytes { result ≡ capped (size (derivative (name_of name) (tree_of tree pool.old))) }
    ensures same { pool.new ≡ pool.old }
{
    let mut counter = Counter { bytes: 0 };
    write_derivative(&mut counter, pool, tree, name);
    counter.total()
}

/// The derivative of a tree, where there is room for it.
fn place_derivative(pool: &mut Pool, tree: Id, name: Name) -> Handle
    requires tree { CanDerive (name_of name) tree pool.old }
    requires room { size (derivative (name_of name) (tree_of tree pool.old)) ≤ free_of pool.old }
    ensures { Adds pool.old pool.new (derivative (name_of name) (tree_of tree pool.old)) result }
{
    let mut placer = Placer { last: None };
    write_derivative(&mut placer, pool, tree, name);
    placer.last.unwrap()
}
