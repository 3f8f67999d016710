//! What a node is, and what stands below it.
ghost use Rattle.std.specs.Prelude.{◌≡◌, ◌<◌, ℕ, true};
ghost use Rattle.calc_terms.specs.Leaf.{name_of};
ghost use Rattle.calc_terms.specs.Payload.{kind_of_payload, rational as rational_payload, named};
ghost use Rattle.calc_terms.specs.Rat.{ratio_of, value_of};
ghost use Rattle.calc_terms.specs.Trees.{num, symbol, is_num, is_symbol, root_kind, count as count_of_trees};
ghost use Rattle.calc_terms.specs.declared.kind.Kind.TheVariants.{Num, Sym};
ghost use Rattle.tree_handles.specs.Expressions.{IsExpression, plain, nth, children_of};
ghost use Rattle.tree_handles.specs.Forest.{arity, root_id, tree_nth};
ghost use Rattle.tree_handles.specs.Inside.{holds, tree_at, kids_of, count_of, payload_in};
ghost use Rattle.tree_handles.specs.Standing.{Stands, forest};

use crate::walk::child_place;
use calc_terms::{Header, Kind, Name, Rat};
use node_pool::{Id, Pool};

/// The kind of a node.
pub fn kind(pool: &Pool, id: Id) -> Kind
    requires stands { Stands pool.now }
    requires live { holds id (forest pool.now) ≡ true }
    ensures value { result ≡ kind_of_payload (payload_in id (forest pool.now)) }
    ensures plain { IsExpression id (forest pool.now) → result ≡ root_kind (plain (tree_at id (forest pool.now))) }
    ensures number { result ≡ Num → is_num (plain (tree_at id (forest pool.now))) ≡ true }
    ensures symbol { result ≡ Sym → is_symbol (plain (tree_at id (forest pool.now))) ≡ true }
{
    header(pool, id).kind
}

/// The rational of a `Num` node.
pub fn rational(pool: &Pool, id: Id) -> Rat
    requires stands { Stands pool.now }
    requires live { holds id (forest pool.now) ≡ true }
    requires number { is_num (plain (tree_at id (forest pool.now))) ≡ true }
    ensures value { payload_in id (forest pool.now) ≡ rational_payload (ratio_of result) }
    ensures plain { plain (tree_at id (forest pool.now)) ≡ num (value_of result) }
{
    pool.rational(id)
}

/// The name of a `Sym` node.
pub fn name(pool: &Pool, id: Id) -> Name
    requires stands { Stands pool.now }
    requires live { holds id (forest pool.now) ≡ true }
    requires symbol { is_symbol (plain (tree_at id (forest pool.now))) ≡ true }
    ensures value { payload_in id (forest pool.now) ≡ named (name_of result) }
    ensures plain { plain (tree_at id (forest pool.now)) ≡ symbol (name_of result) }
{
    pool.name(id)
}

/// How often a node is held: by its parent, and by handles.
pub fn count(pool: &Pool, id: Id) -> u16
    requires stands { Stands pool.now }
    requires live { holds id (forest pool.now) ≡ true }
    ensures { result ≡ count_of id (forest pool.now) }
{
    header(pool, id).count
}

/// How many children a node has.
pub fn children(pool: &Pool, id: Id) -> u16
    requires stands { Stands pool.now }
    requires live { holds id (forest pool.now) ≡ true }
    ensures value { result ≡ arity (kids_of id (forest pool.now)) }
    ensures plain { IsExpression id (forest pool.now) → result ≡ count_of_trees (children_of (plain (tree_at id (forest pool.now)))) }
{
    header(pool, id).children
}

/// The identifier of a child, the first having place 0.
pub fn child_id(pool: &Pool, parent: Id, at: u16) -> Id
    requires stands { Stands pool.now }
    requires within { at < arity (kids_of parent (forest pool.now)) }
    ensures value { result ≡ root_id (tree_nth at (kids_of parent (forest pool.now))) }
    ensures live { holds result (forest pool.now) ≡ true }
    ensures tree { tree_at result (forest pool.now) ≡ tree_nth at (kids_of parent (forest pool.now)) }
    ensures expression { IsExpression parent (forest pool.now) → IsExpression result (forest pool.now) }
    ensures plain { IsExpression parent (forest pool.now) → plain (tree_at result (forest pool.now)) ≡ nth at (children_of (plain (tree_at parent (forest pool.now)))) }
{
    let place = child_place(pool, parent, at);
    Id::of(pool.header(place).id)
}

/// The header of a node. It is inlined, so that a caller decodes only the fields that it uses.
#[inline(always)]
pub(crate) fn header(pool: &Pool, id: Id) -> Header
    requires stands { Stands pool.now }
    requires live { holds id (forest pool.now) ≡ true }
    ensures kind { result.kind ≡ kind_of_payload (payload_in id (forest pool.now)) }
    ensures count { result.count ≡ count_of id (forest pool.now) }
    ensures children { result.children ≡ arity (kids_of id (forest pool.now)) }
{
    pool.header(pool.locate(id))
}
