//! The table of a session.
ghost use Rattle.std.specs.Prelude.{◌≡◌, ◌<◌, ◌≤◌, ◌∷◌, ◌++◌, [], length, position, true, IfSome, slice_get, Some, IsSome, is_some, IfOk, IfErr, OnOk, ⊤};
ghost use Rattle.std.specs.Str.{bytes_eq};
ghost use Rattle.calc_terms.specs.Leaf.{name_of};
ghost use Rattle.calc_terms.specs.Trees.{depth};
ghost use Rattle.node_pool.specs.State.{free_of};
ghost use Rattle.tree_handles.specs.Expressions.{AllExpressions, plain};
ghost use Rattle.tree_handles.specs.Handed.{Gives, KeepsFront, tree_of};
ghost use Rattle.tree_handles.specs.Inside.{released_in};
ghost use Rattle.tree_handles.specs.Roots.{has_root, root_tree, without_root};
ghost use Rattle.tree_handles.specs.Standing.{Stands, forest, KeepsRefusals};
ghost use Rattle.tree_walks.specs.Replacing.{replaced};
ghost use Rattle.name_table.specs.Filling.{FaultsFilling, depth_limit, filling_one, fills, refused_filling, value_in};

use crate::fault::FillFault;
use arrayvec::ArrayVec;
use calc_terms::Name;
use node_pool::{Id, Pool};
use std::marker::Model;
use std::mem;
use tree_handles::{Handle, release, retain};
use tree_walks::{holds_name, is_deeper, replace_name};

/// How many names may be stored.
const NAME_LIMIT: usize = 64;

/// A name and a unit of the count of its tree's root. An unused place of the table has no tree.
#[derive(Drop)]
struct Slot {
    name: Name,
    tree: Option<Handle>,
}

impl Default for Slot {
    fn default() -> Slot {
        Slot {
            name: Name::ans(),
            tree: None,
        }
    }
}

/// The last answer and the stored names, the oldest store first. Each holds a unit of the count of its tree's root.
#[derive(Drop)]
pub struct NameTable {
    ans: Handle,
    stored: ArrayVec<Slot, NAME_LIMIT>,
}

impl Model for NameTable {
    ghost use Rattle.name_table.specs.Tables.{Table};

    ghost Value = { Table };

    ghost use Rattle.name_table.specs.Slots.{table_of, IsWhole};

    ghost view = { table_of };

    ghost invariant = { IsWhole };
}

impl NameTable {
    ghost use Rattle.name_table.specs.Tables.{Entry, first_table, has_room_for, is_stored, name_limit, table_names, tree_under, with_answer, without_name};
    ghost use Rattle.name_table.specs.Held.{HasEntries, IsHeld, held_by};
    ghost use Rattle.name_table.specs.Slots.{released_under};
    ghost use Rattle.name_table.specs.Filling.{LacksNames, filled, filling, values};
    ghost use Rattle.name_table.specs.Storing.{IsKeepable, IsStorable, name_in};

    /// The table of a first answer.
    pub fn new(ans: Handle) -> NameTable
        ensures { result ≡ first_table ans }
    {
        NameTable {
            ans,
            stored: ArrayVec::new(),
        }
    }

    /// The root of the last answer.
    pub fn ans(&self) -> Id
        ensures { result ≡ self.now.ans }
    {
        self.ans.id()
    }

    /// How many names are stored.
    pub fn names(&self) -> u16
        ensures { result ≡ length self.now.stored }
    {
        self.stored.len() as u16
    }

    /// A stored name and the root of its tree, the oldest store having place 0.
    pub fn entry(&self, at: u16) -> (Name, Id)
        requires { at < length self.now.stored }
        ensures { slice_get self.now.stored at ≡ Some (record { name = name_of result.0; tree = result.1 }) }
    {
        let slot = &self.stored.as_slice()[usize::from(at)];
        (slot.name, slot.root())
    }

    /// Whether the name is stored, or there is room for one more.
    pub fn has_room_for(&self, name: Name) -> bool
        ensures { result ≡ has_room_for (name_of name) self.now }
    {
        place_in(self.stored.as_slice(), name).is_some() || !self.stored.is_full()
    }

    /// Puts the stored trees in place of their names in the last tree: of the last answer first, then of the stored
    /// names, the oldest store first.
    ///
    /// Where it is refused, the tree is left as far as it was filled.
    pub fn fill(&self, pool: &mut Pool, tree: Handle) -> Result<Handle, FillFault>
        requires stands { Stands pool.old }
        requires last { Gives (without_root tree (forest pool.old)) (forest pool.old) tree (λ t. ⊤) }
        requires entries { HasEntries self.now (without_root tree (forest pool.old)) }
        ensures ok { let others = without_root tree (forest pool.old) in
            IfOk result (λ h. Gives others (forest pool.new) h (λ t. t ≡ filled (values self.now others) (tree_of tree pool.old))) }
        ensures clear { IfOk result (λ h. LacksNames (table_names self.now) (tree_of h pool.new)) }

        // Refused exactly at the first copy that finds no room, or the first entry that leaves too deep a tree.
        ensures ok_room { let others = without_root tree (forest pool.old) in
            IfOk result (λ h. filling (free_of pool.old) (values self.now others) (tree_of tree pool.old) ≡ fills (free_of pool.new) (tree_of h pool.new)) }
        ensures refused { let others = without_root tree (forest pool.old) in
            IfErr result (λ fault. filling (free_of pool.old) (values self.now others) (tree_of tree pool.old) ≡ refused_filling fault) }
        ensures faults { IfErr result (FaultsFilling pool.old pool.new) }

        ensures front { KeepsFront (tree ∷ []) (forest pool.old) (forest pool.new) }
        ensures kept { OnOk result (KeepsRefusals pool.old pool.new) }
        ensures stands { Stands pool.new }
    {
        let mut filled = fill_name(pool, tree, Name::ans(), self.ans.id())?;
        for slot in self.stored.as_slice() {
            filled = fill_next(pool, filled, slot.name, slot.root())?;
        }
        Ok(filled)
    }

    /// Makes the last tree the last answer. Where there is a name, it holds the same tree, and stands last in the table;
    /// its former entry is removed. Trees that no entry holds any more are released.
    pub fn keep(&mut self, pool: &mut Pool, store: Option<Name>, face: Handle)
        requires stands { Stands pool.old }
        requires held { IsHeld self.old (without_root face (forest pool.old)) }
        requires last { Gives (without_root face (forest pool.old)) (forest pool.old) face (IsKeepable (name_in store) self.old) }
        requires storable { IsStorable (name_in store) self.old }
        ensures table { self.new ≡ with_answer (name_in store) face self.old }
        ensures forest { forest pool.new ≡ held_by self.new (forest pool.old) }
        ensures held { IsHeld self.new (forest pool.new) }
        ensures kept { KeepsRefusals pool.old pool.new }
        ensures stands { Stands pool.new }
    {
        match store {
            Some(name) => {
                let shared = retain(pool, &face);
                self.remove(pool, name);
                self.push(name, shared);
                self.answer(pool, face);
            }
            None => self.answer(pool, face),
        }
    }

    /// Removes the entry of a stored name. Its tree is released where no other entry holds it. Tells whether the name
    /// was stored.
    pub fn forget(&mut self, pool: &mut Pool, name: Name) -> bool
        requires stands { Stands pool.old }
        requires held { IsHeld self.old (forest pool.old) }
        ensures told { result ≡ is_stored (name_of name) self.old }
        ensures table { self.new ≡ without_name (name_of name) self.old }
        ensures forest { forest pool.new ≡ held_by self.new (forest pool.old) }
        ensures held { IsHeld self.new (forest pool.new) }
        ensures kept { KeepsRefusals pool.old pool.new }
        ensures stands { Stands pool.new }
    {
        self.remove(pool, name)
    }

    /// A tree becomes the last answer, and the former one loses the unit of its count.
    fn answer(&mut self, pool: &mut Pool, tree: Handle)
        requires stands { Stands pool.old }
        requires former { has_root self.old.ans (forest pool.old) ≡ true }
        ensures table { self.new ≡ record self.old { ans = tree } }
        ensures forest { forest pool.new ≡ released_in self.old.ans (forest pool.old) }
        ensures kept { KeepsRefusals pool.old pool.new }
        ensures stands { Stands pool.new }
    {
        let former = mem::replace(&mut self.ans, tree);
        release(pool, former);
    }

    /// A new last entry.
    fn push(&mut self, name: Name, tree: Handle)
        requires { length self.old.stored < name_limit }
        ensures { self.new ≡ record self.old { stored = self.old.stored ++ record { name = name_of name; tree = tree } ∷ [] } }
    {
        self.stored.push(Slot {
            name,
            tree: Some(tree),
        });
    }

    /// Removes the entry of a stored name, whose tree loses a unit of its count. Tells whether the name was stored.
    fn remove(&mut self, pool: &mut Pool, name: Name) -> bool
        requires stands { Stands pool.old }
        requires root { IfSome (tree_under (name_of name) self.old.stored) (λ i. has_root i (forest pool.old) ≡ true) }
        ensures told { result ≡ is_stored (name_of name) self.old }
        ensures table { self.new ≡ without_name (name_of name) self.old }
        ensures forest { forest pool.new ≡ released_under (tree_under (name_of name) self.old.stored) (forest pool.old) }
        ensures kept { KeepsRefusals pool.old pool.new }
        ensures stands { Stands pool.new }
    {
        match self.take(name) {
            Some(tree) => {
                release(pool, tree);
                true
            }
            None => false,
        }
    }

    /// Removes the entry of a stored name, and hands out its unit of the tree's count.
    fn take(&mut self, name: Name) -> Option<Handle>
        ensures stored { is_some result ≡ is_stored (name_of name) self.old }
        ensures table { self.new ≡ without_name (name_of name) self.old }
        ensures tree { result ≡ tree_under (name_of name) self.old.stored }
    {
        let at = place_in(self.stored.as_slice(), name)?;
        self.stored.remove(at).tree
    }
}

/// Puts a tree in place of its name in the last tree.
#[tactic(auto, using(tree_handles::proofs::Roots::root_held))]
fn fill_name(pool: &mut Pool, tree: Handle, name: Name, source: Id) -> Result<Handle, FillFault>
    requires stands { Stands pool.old }
    requires last { Gives (without_root tree (forest pool.old)) (forest pool.old) tree (λ t. ⊤) }
    requires root { has_root source (without_root tree (forest pool.old)) ≡ true }
    requires whole { AllExpressions (without_root tree (forest pool.old)) }
    ensures ok { let old = forest pool.old in
        IfOk result (λ h. Gives (without_root tree old) (forest pool.new) h (λ t. t ≡ replaced (name_of name) (plain (root_tree source (without_root tree old))) (tree_of tree pool.old))) }
    ensures ok_room { let others = without_root tree (forest pool.old) in
        IfOk result (λ h. filling_one (free_of pool.old) (value_in others (record { name = name_of name; tree = source })) (tree_of tree pool.old) ≡ fills (free_of pool.new) (tree_of h pool.new)) }
    ensures refused { let others = without_root tree (forest pool.old) in
        IfErr result (λ fault. filling_one (free_of pool.old) (value_in others (record { name = name_of name; tree = source })) (tree_of tree pool.old) ≡ refused_filling fault) }
    ensures shallow { IfOk result (λ h. depth (tree_of h pool.new) ≤ depth_limit) }
    ensures faults { IfErr result (FaultsFilling pool.old pool.new) }
    ensures front { KeepsFront (tree ∷ []) (forest pool.old) (forest pool.new) }
    ensures kept { OnOk result (KeepsRefusals pool.old pool.new) }
    ensures stands { Stands pool.new }
{
    let filled = replace_name(pool, tree, name, source)?;
    if is_deeper(pool, filled.id()) {
        return Err(FillFault::Deep);
    }
    Ok(filled)
}

/// The same in a tree that is not too deep, which stays as it is where the name does not occur.
fn fill_next(pool: &mut Pool, tree: Handle, name: Name, source: Id) -> Result<Handle, FillFault>
    requires stands { Stands pool.old }
    requires last { Gives (without_root tree (forest pool.old)) (forest pool.old) tree (λ t. ⊤) }
    requires shallow { depth (tree_of tree pool.old) ≤ depth_limit }
    requires root { has_root source (without_root tree (forest pool.old)) ≡ true }
    requires whole { AllExpressions (without_root tree (forest pool.old)) }
    ensures ok { let old = forest pool.old in
        IfOk result (λ h. Gives (without_root tree old) (forest pool.new) h (λ t. t ≡ replaced (name_of name) (plain (root_tree source (without_root tree old))) (tree_of tree pool.old))) }
    ensures ok_room { let others = without_root tree (forest pool.old) in
        IfOk result (λ h. filling_one (free_of pool.old) (value_in others (record { name = name_of name; tree = source })) (tree_of tree pool.old) ≡ fills (free_of pool.new) (tree_of h pool.new)) }
    ensures refused { let others = without_root tree (forest pool.old) in
        IfErr result (λ fault. filling_one (free_of pool.old) (value_in others (record { name = name_of name; tree = source })) (tree_of tree pool.old) ≡ refused_filling fault) }
    ensures shallow { IfOk result (λ h. depth (tree_of h pool.new) ≤ depth_limit) }
    ensures faults { IfErr result (FaultsFilling pool.old pool.new) }
    ensures front { KeepsFront (tree ∷ []) (forest pool.old) (forest pool.new) }
    ensures kept { OnOk result (KeepsRefusals pool.old pool.new) }
    ensures stands { Stands pool.new }
{
    if !holds_name(pool, tree.id(), name) {
        return Ok(tree);
    }
    fill_name(pool, tree, name, source)
}

/// The place of the slot of a name.
fn place_in(slots: &[Slot], name: Name) -> Option<usize>
    ensures { result ≡ position (λ s. bytes_eq (name_of s.name) (name_of name)) slots.now }
{
    slots
        .iter()
        .position(|slot| slot.name.bytes() == name.bytes())
}

impl Slot {
    ghost use Rattle.name_table.specs.Slots.{root_in};

    /// The root of the tree.
    fn root(&self) -> Id
        requires { IsSome self.now.tree }
        ensures { result ≡ root_in self.now.tree }
    {
        match &self.tree {
            Some(tree) => tree.id(),
            None => unreachable!(),
        }
    }
}
