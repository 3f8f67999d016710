//! The names of a tree's symbols, in rising order.
ghost use Rattle.std.specs.Prelude.{◌≡◌, ◌≤◌, ◌<◌, ℕ, List, OnOk, drop, false, insert, length, take, true, vec_capacity};
ghost use Rattle.calc_terms.specs.Leaf.{name_of};
ghost use Rattle.calc_terms.specs.Trees.{names as names_in};
ghost use Rattle.expansions.specs.Named.{AreNames, AreNamesBelow, StartNamesFrom, names_of, AreAmong, HasName};
ghost use Rattle.tree_handles.specs.Expressions.{IsExpression, plain};
ghost use Rattle.tree_handles.specs.Inside.{tree_at};
ghost use Rattle.tree_handles.specs.Standing.{Stands, forest};

use crate::unlisted::Unlisted;
use calc_terms::{Kind, Name};
use node_pool::{Id, Pool};
use std::cmp::Ordering;
use tree_handles::{name, nodes_of};

/// So many names has a packed monomial.
const NAMES: usize = 8;

/// Collects the names of a tree's symbols, each once.
pub(crate) fn collect_names(pool: &Pool, tree: Id, names: &mut Vec<Name>) -> Result<(), Unlisted>
    requires stands { Stands pool.now }
    requires expression { IsExpression tree (forest pool.now) }
    ensures names { OnOk result (AreNames (names_of names.new.items)) }
    ensures few { OnOk result (length names.new.items ≤ 8) }
    ensures all { OnOk result (AreAmong (names_of names.new.items) (names_in (plain (tree_at tree (forest pool.now))))) }
{
    names.clear();
    for node in nodes_of(pool, tree) {
        if matches!(node.kind, Kind::Sym) {
            add_name(names, name(pool, node.id))?;
        }
    }
    Ok(())
}

/// One more name, unless it is there.
fn add_name(names: &mut Vec<Name>, name: Name) -> Result<(), Unlisted>
    requires names { AreNames (names_of names.old.items) }
    requires few { length names.old.items ≤ 8 }
    ensures names { OnOk result (AreNames (names_of names.new.items)) }
    ensures few { OnOk result (length names.new.items ≤ 8) }
    ensures there { OnOk result (HasName (name_of name) (names_of names.new.items)) }
    ensures kept { (x : List ℕ) → HasName x (names_of names.old.items) → OnOk result (HasName x (names_of names.new.items)) }
{
    if has_name(names, name) {
        return Ok(());
    }
    if names.len() == NAMES || names.len() == names.capacity() {
        return Err(Unlisted::Names);
    }
    let at = place_of_name(names, name);
    insert_name(names, at, name);
    Ok(())
}

/// One more name at a place, where there is room.
fn insert_name(names: &mut Vec<Name>, at: usize, name: Name)
    requires within { at ≤ length names.old.items }
    requires room { length names.old.items < vec_capacity names.old }
    ensures items { names.new.items ≡ insert names.old.items at name }
{
    names.insert(at, name).unwrap();
}

/// Whether a name is one of these.
fn has_name(names: &[Name], name: Name) -> bool
    ensures there { result ≡ true → HasName (name_of name) (names_of names.now) }
    ensures other { result ≡ false → HasName (name_of name) (names_of names.now) → ⊥ }
{
    for other in names {
        if *other == name {
            return true;
        }
    }
    false
}

/// Where a name belongs.
fn place_of_name(names: &[Name], name: Name) -> usize
    ensures within { result ≤ length names.now }
    ensures below { AreNamesBelow (name_of name) (names_of (take result names.now)) }
    ensures above { StartNamesFrom (name_of name) (names_of (drop result names.now)) }
{
    for (at, other) in names.iter().enumerate() {
        if other.bytes().cmp(name.bytes()) != Ordering::Less {
            return at;
        }
    }
    names.len()
}
