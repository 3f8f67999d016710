//! Handles, and new roots.
ghost use Rattle.std.specs.Prelude.{◌≡◌, ◌≤◌, ◌↔◌, IfOk, IfErr, IsOk, OnOk, ℕ, true, false, []};
ghost use Rattle.calc_terms.specs.Leaf.{payload_of, name_of, IsUsable};
ghost use Rattle.calc_terms.specs.Payload.{rational, named, bare, is_bare, size_of_payload};
ghost use Rattle.calc_terms.specs.Rat.{ratio_of, value_of};
ghost use Rattle.calc_terms.specs.Trees.{num, symbol as symbol_tree, none};
ghost use Rattle.node_pool.specs.Nodes.{IsLeastFree};
ghost use Rattle.node_pool.specs.State.{free_of};
ghost use Rattle.tree_handles.specs.Expressions.{compound, takes_kind};
ghost use Rattle.tree_handles.specs.Forest.{empty, one_tree};
ghost use Rattle.tree_handles.specs.Handed.{Ends, Gives, KeepsFront};
ghost use Rattle.tree_handles.specs.Inside.{holds};
ghost use Rattle.tree_handles.specs.Standing.{Stands, forest, KeepsRefusals, IsRefused};

use calc_terms::{Kind, Leaf, Name, Rat};
use node_pool::{Full, Id, Pool};
use std::marker::Model;

/// One unit of a node's count. A handle that is dropped leaves its unit in the count.
#[derive(Drop)]
pub struct Handle {
    id: Id,
}

impl Model for Handle {
    ghost use Rattle.std.specs.Prelude.{ℕ};

    ghost Value = { ℕ };

    ghost view = { λ h. h.id };
}

impl Handle {
    pub(crate) fn of(id: Id) -> Handle
        ensures { result ≡ id }
    {
        Handle { id }
    }

    /// The identifier of the node.
    pub fn id(&self) -> Id
        ensures { result ≡ self.now }
    {
        self.id
    }
}

/// A new root that holds a rational.
pub fn number(pool: &mut Pool, value: Rat) -> Result<Handle, Full>
    requires { Stands pool.old }
    ensures ok { IfOk result (λ h. Ends h (one_tree h (rational (ratio_of value)) empty) (forest pool.old) (forest pool.new)) }
    ensures given { IfOk result (λ h. Gives (forest pool.old) (forest pool.new) h (λ t. t ≡ num (value_of value))) }
    ensures fresh { IfOk result (λ h. holds h (forest pool.old) ≡ false) }
    ensures least { IfOk result (λ h. IsLeastFree h pool.old.nodes) }
    ensures front { KeepsFront [] (forest pool.old) (forest pool.new) }
    ensures kept { OnOk result (KeepsRefusals pool.old pool.new) }
    ensures full { IfErr result (IsRefused (size_of_payload (rational (ratio_of value))) pool.old pool.new) }
    ensures exactly { IsOk result ↔ (size_of_payload (rational (ratio_of value)) ≤ free_of pool.old) }
    ensures stands { Stands pool.new }
{
    place(pool, Leaf::Num(value))
}

/// A new root that holds a name.
pub fn symbol(pool: &mut Pool, name: Name) -> Result<Handle, Full>
    requires { Stands pool.old }
    ensures ok { IfOk result (λ h. Ends h (one_tree h (named (name_of name)) empty) (forest pool.old) (forest pool.new)) }
    ensures given { IfOk result (λ h. Gives (forest pool.old) (forest pool.new) h (λ t. t ≡ symbol_tree (name_of name))) }
    ensures fresh { IfOk result (λ h. holds h (forest pool.old) ≡ false) }
    ensures least { IfOk result (λ h. IsLeastFree h pool.old.nodes) }
    ensures front { KeepsFront [] (forest pool.old) (forest pool.new) }
    ensures kept { OnOk result (KeepsRefusals pool.old pool.new) }
    ensures full { IfErr result (IsRefused (size_of_payload (named (name_of name))) pool.old pool.new) }
    ensures exactly { IsOk result ↔ (size_of_payload (named (name_of name)) ≤ free_of pool.old) }
    ensures stands { Stands pool.new }
{
    place(pool, Leaf::Sym(name))
}

/// A new root without children, of a kind other than `Num` and `Sym`.
pub fn node(pool: &mut Pool, kind: Kind) -> Result<Handle, Full>
    requires stands { Stands pool.old }
    requires bare { is_bare kind ≡ true }
    ensures ok { IfOk result (λ h. Ends h (one_tree h (bare kind) empty) (forest pool.old) (forest pool.new)) }
    ensures given { takes_kind kind 0 ≡ true → IfOk result (λ h. Gives (forest pool.old) (forest pool.new) h (λ t. t ≡ compound kind none)) }
    ensures fresh { IfOk result (λ h. holds h (forest pool.old) ≡ false) }
    ensures least { IfOk result (λ h. IsLeastFree h pool.old.nodes) }
    ensures front { KeepsFront [] (forest pool.old) (forest pool.new) }
    ensures kept { OnOk result (KeepsRefusals pool.old pool.new) }
    ensures full { IfErr result (IsRefused (size_of_payload (bare kind)) pool.old pool.new) }
    ensures exactly { IsOk result ↔ (size_of_payload (bare kind) ≤ free_of pool.old) }
    ensures stands { Stands pool.new }
{
    place(pool, Leaf::Plain(kind))
}

/// A new root.
#[inline(always)]
fn place(pool: &mut Pool, leaf: Leaf) -> Result<Handle, Full>
    requires usable { IsUsable leaf }
    requires stands { Stands pool.old }
    ensures ok { IfOk result (λ h. Ends h (one_tree h (payload_of leaf) empty) (forest pool.old) (forest pool.new)) }
    ensures fresh { IfOk result (λ h. holds h (forest pool.old) ≡ false) }
    ensures least { IfOk result (λ h. IsLeastFree h pool.old.nodes) }
    ensures front { KeepsFront [] (forest pool.old) (forest pool.new) }
    ensures kept { OnOk result (KeepsRefusals pool.old pool.new) }
    ensures full { IfErr result (IsRefused (size_of_payload (payload_of leaf)) pool.old pool.new) }
    ensures exactly { IsOk result ↔ (size_of_payload (payload_of leaf) ≤ free_of pool.old) }
    ensures stands { Stands pool.new }
{
    match pool.place(leaf) {
        Ok(id) => Ok(Handle { id }),
        Err(full) => Err(full),
    }
}
