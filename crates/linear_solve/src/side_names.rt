//! The names in the sides of equations.
ghost use Rattle.std.specs.Prelude.{◌≡◌, ◌≤◌, ◌<◌, ◌+◌, ◌↔◌, [], ◌∷◌, All, Contains, length, map, take, IfSome, IsNone, IsTrue};
ghost use Rattle.std.specs.List.{list_any, prefix_len};
ghost use Rattle.std.specs.Str.{bytes_eq};
ghost use Rattle.calc_terms.specs.Leaf.{name_of};
ghost use Rattle.calc_terms.specs.Trees.{is_symbol as is_symbol_tree, names as names_of_tree};
ghost use Rattle.linear_solve.specs.Equations.{equations_in};
ghost use Rattle.tree_handles.specs.Expressions.{IsExpression, plain};
ghost use Rattle.tree_handles.specs.Inside.{tree_at};
ghost use Rattle.tree_handles.specs.Standing.{Stands, forest};
ghost use Rattle.linear_solve.specs.Listed.{names_listed};
ghost use Rattle.linear_solve.specs.RisingNames.{AreNamesOf, HoldOverSixNames, Includes, Rises, is_before, names_at};

use arrayvec::ArrayVec;
use calc_terms::{Kind, Name};
use node_pool::{Id, Pool};
use tree_handles::{child_id, children, kind, name as name_of_leaf};

/// So many names the equations have at most.
pub const NAME_LIMIT: usize = 6;

/// A name in a list. An unused place has no meaning.
#[derive(Clone, Copy, Debug)]
pub struct Listed {
    pub name: Name,
}

impl Default for Listed {
    fn default() -> Listed {
        Listed { name: Name::ans() }
    }
}

/// Names in the order of their bytes, each once.
pub type NameList = ArrayVec<Listed, NAME_LIMIT>;

/// The names in the sides of equations, each once, in the order of their bytes. There is no answer where they are
/// more than six.
pub fn names_in(pool: &Pool, left: &[Id], right: &[Id]) -> Option<NameList>
    requires stands { Stands pool.now }
    requires left { All (λ i. IsExpression i (forest pool.now)) left.now }
    requires right { All (λ i. IsExpression i (forest pool.now)) right.now }
    requires pairs { length right.now ≡ length left.now }
    ensures some { IfSome result (λ xs. AreNamesOf (equations_in (forest pool.now) left.now right.now) (names_listed xs.items)) }
    ensures none { IsNone result → HoldOverSixNames (equations_in (forest pool.now) left.now right.now) }
{
    let mut names = ArrayVec::new();
    if !include_all(pool, left, &mut names) {
        return None;
    }
    if !include_all(pool, right, &mut names) {
        return None;
    }
    Some(names)
}

/// Includes the names of the trees with these roots, as far as there is room for them. Tells whether there was for each.
fn include_all(pool: &Pool, roots: &[Id], names: &mut NameList) -> bool
    requires stands { Stands pool.now }
    requires expressions { All (λ i. IsExpression i (forest pool.now)) roots.now }
    requires rises { Rises (names_listed names.old.items) }
    ensures rises { Rises (names_listed names.new.items) }
    ensures included { Includes (names_at (forest pool.now) roots.now) (names_listed names.old.items) (names_listed names.new.items) result }
{
    for at in 0..roots.len() {
        if !include_names(pool, roots[at], names) {
            return false;
        }
    }
    true
}

/// Includes the names of a tree, as far as there is room for them. Tells whether there was for each.
///
/// A child's names are included by a call within its parent's, so the machine's stack that it takes grows with the
/// tree's depth.
fn include_names(pool: &Pool, t: Id, names: &mut NameList) -> bool
    requires stands { Stands pool.now }
    requires expression { IsExpression t (forest pool.now) }
    requires rises { Rises (names_listed names.old.items) }
    ensures rises { Rises (names_listed names.new.items) }
    ensures included { Includes (names_of_tree (plain (tree_at t (forest pool.now)))) (names_listed names.old.items) (names_listed names.new.items) result }
{
    if is_symbol(pool, t) {
        return include(names, name_of_leaf(pool, t));
    }
    for at in 0..children(pool, t) {
        if !include_names(pool, child_id(pool, t, at), names) {
            return false;
        }
    }
    true
}

fn is_symbol(pool: &Pool, t: Id) -> bool
    requires stands { Stands pool.now }
    requires expression { IsExpression t (forest pool.now) }
    ensures { result ≡ is_symbol_tree (plain (tree_at t (forest pool.now))) }
{
    match kind(pool, t) {
        Kind::Sym => true,
        _ => false,
    }
}

/// Includes a name where it belongs, if it is not among them yet and there is room. Tells whether it is among them then.
fn include(names: &mut NameList, name: Name) -> bool
    requires rises { Rises (names_listed names.old.items) }
    ensures rises { Rises (names_listed names.new.items) }
    ensures included { Includes (name_of name ∷ []) (names_listed names.old.items) (names_listed names.new.items) result }
{
    if is_among(names.as_slice(), name) {
        return true;
    }
    if names.is_full() {
        return false;
    }
    let at = len_before(names.as_slice(), name);
    names.insert(at, Listed { name });
    true
}

fn is_among(names: &[Listed], name: Name) -> bool
    ensures { result ≡ list_any (λ other. bytes_eq (name_of other.name) (name_of name)) names.now }
{
    names.iter().any(|other| other.name.bytes() == name.bytes())
}

/// How many names are before this one.
fn len_before(names: &[Listed], name: Name) -> usize
    ensures { result ≡ prefix_len (λ other. is_before (name_of other.name) (name_of name)) names.now }
{
    names
        .iter()
        .take_while(|other| other.name.bytes().cmp(name.bytes()).is_lt())
        .count()
}

/// The names, and places behind them that are not used.
pub fn in_array(names: &[Listed]) -> [Name; NAME_LIMIT]
    requires { length names.now ≤ 6 }
    ensures { map name_of (take (length names.now) result) ≡ names_listed names.now }
{
    let mut array = [Name::ans(); NAME_LIMIT];
    for at in 0..names.len() {
        array[at] = names[at].name;
    }
    array
}
