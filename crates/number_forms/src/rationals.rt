//! Numbers that are rationals.
ghost use Rattle.std.specs.Prelude.{◌≡◌, ◌==◌, ◌≤◌, ◌∷◌, [], true, false};
ghost use Rattle.calc_terms.specs.Rat.{value_of};
ghost use Rattle.calc_terms.specs.Trees.{num, is_num, size};
ghost use Rattle.node_pool.specs.State.{free_of};
ghost use Rattle.tree_handles.specs.Handed.{tree_of, IsHanded, Gives, KeepsFront};
ghost use Rattle.tree_handles.specs.Expressions.{IsExpression, plain};
ghost use Rattle.tree_handles.specs.Inside.{tree_at};
ghost use Rattle.tree_handles.specs.Roots.{without_root};
ghost use Rattle.tree_handles.specs.Standing.{Stands, forest, KeepsRefusals};

use calc_terms::{Kind, Rat};
use node_pool::{Id, Pool};
use tree_handles::{Handle, kind, move_last, rational, release};

/// Whether a tree is a rational.
pub(crate) fn is_rational(pool: &Pool, id: Id) -> bool
    requires stands { Stands pool.now }
    requires expression { IsExpression id (forest pool.now) }
    ensures { result ≡ is_num (plain (tree_at id (forest pool.now))) }
{
    match kind(pool, id) {
        Kind::Num => true,
        _ => false,
    }
}

/// One tree is consumed, and another moved to the end.
pub(crate) fn keep_other(pool: &mut Pool, gone: Handle, kept: &Handle)
    requires stands { Stands pool.old }
    requires gone { IsHanded gone (forest pool.old) }
    requires handed { IsHanded kept.now (forest pool.old) }
    requires apart { (gone == kept.now) ≡ false }
    ensures tree { tree_of kept.now pool.new ≡ tree_of kept.now pool.old }
    ensures gives { Gives (without_root kept.now (without_root gone (forest pool.old))) (forest pool.new) kept.now (λ t. t ≡ tree_of kept.now pool.old) }
    ensures front { KeepsFront (gone ∷ kept.now ∷ []) (forest pool.old) (forest pool.new) }
    ensures kept { KeepsRefusals pool.old pool.new }
    ensures stands { Stands pool.new }
{
    release(pool, gone);
    move_last(pool, kept);
}

/// The rational that a tree is, which is consumed.
#[tactic(auto, using(tree_handles::proofs::Seen::expression, tree_handles::proofs::Seen::seen))]
pub(crate) fn take_rational(pool: &mut Pool, a: Handle) -> Rat
    requires stands { Stands pool.old }
    requires handed { IsHanded a (forest pool.old) }
    requires rational { is_num (tree_of a pool.old) ≡ true }
    ensures value { tree_of a pool.old ≡ num (value_of result) }
    ensures gone { forest pool.new ≡ without_root a (forest pool.old) }
    ensures kept { KeepsRefusals pool.old pool.new }
    ensures room { size (tree_of a pool.old) ≤ free_of pool.new }
    ensures stands { Stands pool.new }
{
    let value = rational(pool, a.id());
    release(pool, a);
    value
}

/// The rationals that two trees are, which are consumed.
pub(crate) fn take_rationals(pool: &mut Pool, a: Handle, b: Handle) -> (Rat, Rat)
    requires stands { Stands pool.old }
    requires first { IsHanded a (forest pool.old) }
    requires second { IsHanded b (forest pool.old) }
    requires apart { (a == b) ≡ false }
    requires first_rational { is_num (tree_of a pool.old) ≡ true }
    requires second_rational { is_num (tree_of b pool.old) ≡ true }
    ensures first { tree_of a pool.old ≡ num (value_of result.0) }
    ensures second { tree_of b pool.old ≡ num (value_of result.1) }
    ensures gone { forest pool.new ≡ without_root b (without_root a (forest pool.old)) }
    ensures front { KeepsFront (a ∷ b ∷ []) (forest pool.old) (forest pool.new) }
    ensures kept { KeepsRefusals pool.old pool.new }
    ensures room { size (tree_of b pool.old) ≤ free_of pool.new }
    ensures stands { Stands pool.new }
{
    let p = take_rational(pool, a);
    let q = take_rational(pool, b);
    (p, q)
}
