//! The fronts of trees: a root, and the nodes behind it.
ghost use Rattle.std.specs.Cmp.Lexicographic.{slice_cmp};
ghost use Rattle.std.specs.Ordering.{nat_cmp};
ghost use Rattle.std.specs.Prelude.{◌≡◌, ◌<◌, ◌∷◌, length, true};
ghost use Rattle.calc_terms.specs.Fractions.{fraction_cmp};
ghost use Rattle.calc_terms.specs.Leaf.{name_of};
ghost use Rattle.calc_terms.specs.Payload.{kind_of_payload};
ghost use Rattle.calc_terms.specs.Rat.{value_of};
ghost use Rattle.node_order.specs.Fronts.{Shows};
ghost use Rattle.node_order.specs.Roots.{payload_cmp};
ghost use Rattle.tree_handles.specs.Expressions.{IsExpression, plain};
ghost use Rattle.tree_handles.specs.Inside.{holds, tree_at, payload_in};
ghost use Rattle.tree_handles.specs.Standing.{Stands, forest};

use calc_terms::{Kind, Name, Rat};
use node_pool::{Id, Pool};
use rational128::compare as compare_rationals;
use std::cmp::Ordering;
use tree_handles::{Nodes, Visit, name, nodes_of, rational};

/// A root, and the nodes behind it: first those below it, and then others.
#[derive(Drop)]
pub struct Front<'a> {
    pub root: Visit,
    pub behind: Nodes<'a>,
}

impl<'a> Front<'a> {
    /// The front of the first tree.
    #[tactic(auto, using(tree_handles::proofs::Visiting::some_next, tree_handles::proofs::Visiting::next_is))]
    pub fn first(nodes: Nodes<'a>) -> Front<'a>
        requires { 0 < length nodes }
        ensures { nodes.entry ≡ result.root ∷ result.behind }
    {
        let mut behind = nodes;
        let root = behind.next().unwrap();
        Front { root, behind }
    }

    /// The front of a tree.
    pub fn of(pool: &'a Pool, id: Id) -> Front<'a>
        requires stands { Stands pool.now }
        requires tree { IsExpression id (forest pool.now) }
        ensures { Shows result (plain (tree_at id (forest pool.now))) (forest pool.now) }
    {
        Front::first(nodes_of(pool, id))
    }

    /// Goes on to the next node.
    #[tactic(auto, using(tree_handles::proofs::Visiting::some_next, tree_handles::proofs::Visiting::next_is))]
    pub fn advance(&mut self)
        requires { 0 < length self.old.behind }
        ensures { self.old.behind ≡ self.new.root ∷ self.new.behind }
    {
        self.root = self.behind.next().unwrap();
    }
}

/// Two roots: by kind, and leaves of one kind by what they hold.
#[tactic(auto, using(tree_handles::proofs::Readings::number_seen, tree_handles::proofs::Readings::symbol_seen))]
pub fn compare_roots(pool: &Pool, left: &Visit, right: &Visit) -> Ordering
    requires stands { Stands pool.now }
    requires first { holds left.now.id (forest pool.now) ≡ true }
    requires second { holds right.now.id (forest pool.now) ≡ true }
    requires first_kind { left.now.kind ≡ kind_of_payload (payload_in left.now.id (forest pool.now)) }
    requires second_kind { right.now.kind ≡ kind_of_payload (payload_in right.now.id (forest pool.now)) }
    ensures { result ≡ payload_cmp (payload_in left.now.id (forest pool.now)) (payload_in right.now.id (forest pool.now)) }
{
    match (left.kind, right.kind) {
        (Kind::Num, Kind::Num) => {
            compare_numbers(rational(pool, left.id), rational(pool, right.id))
        }
        (Kind::Sym, Kind::Sym) => compare_names(name(pool, left.id), name(pool, right.id)),
        (left, right) => left.code().cmp(&right.code()),
    }
}

/// Two rationals by value. Whole ones are compared by their numerators.
fn compare_numbers(left: Rat, right: Rat) -> Ordering
    ensures { result ≡ fraction_cmp (value_of left) (value_of right) }
{
    if left.is_whole() && right.is_whole() {
        return left.num().cmp(&right.num());
    }
    compare_rationals(left, right)
}

/// Two names by their bytes. One name is told at once.
fn compare_names(left: Name, right: Name) -> Ordering
    ensures { result ≡ slice_cmp nat_cmp (name_of left) (name_of right) }
{
    if left == right {
        return Ordering::Equal;
    }
    left.bytes().cmp(right.bytes())
}
