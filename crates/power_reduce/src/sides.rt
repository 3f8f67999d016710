//! The base and the exponent of a power: read, taken out, and the power replaced.
ghost use Rattle.std.specs.Prelude.{◌≡◌, ◌≤◌, [], ◌∷◌, true};
ghost use Rattle.calc_terms.specs.Rat.{value_of};
ghost use Rattle.calc_algebra.specs.Reduced.{is_reduced, is_opaque_exponent, is_num_one};
ghost use Rattle.calc_terms.specs.Trees.{num, size};
ghost use Rattle.coefficients.specs.Pairs.{GivesTwo};
ghost use Rattle.power_reduce.specs.PowerAnswers.{is_power, base_in, exponent_in};
ghost use Rattle.tree_handles.specs.Handed.{tree_of, IsHanded, Gives, KeepsFront};
ghost use Rattle.tree_handles.specs.Expressions.{IsExpression, plain};
ghost use Rattle.tree_handles.specs.Inside.{tree_at};
ghost use Rattle.tree_handles.specs.Roots.{without_root};
ghost use Rattle.tree_handles.specs.Standing.{Stands, forest, KeepsRefusals};

use calc_terms::Rat;
use node_pool::{Id, Pool};
use number_forms::{is_reduced_number, whole};
use tree_handles::{Handle, child_id, number, release, take_child};

/// The base of a power.
#[tactic(auto, using(tree_handles::proofs::Seen::expression))]
pub(crate) fn base_id(pool: &Pool, power: &Handle) -> Id
    requires stands { Stands pool.now }
    requires handed { IsHanded power.now (forest pool.now) }
    requires power { is_power (tree_of power.now pool.now) ≡ true }
    ensures expression { IsExpression result (forest pool.now) }
    ensures tree { plain (tree_at result (forest pool.now)) ≡ base_in (tree_of power.now pool.now) }
{
    child_id(pool, power.id(), 0)
}

/// The exponent of a power.
#[tactic(auto, using(tree_handles::proofs::Seen::expression))]
pub(crate) fn exponent_id(pool: &Pool, power: &Handle) -> Id
    requires stands { Stands pool.now }
    requires handed { IsHanded power.now (forest pool.now) }
    requires power { is_power (tree_of power.now pool.now) ≡ true }
    ensures expression { IsExpression result (forest pool.now) }
    ensures tree { plain (tree_at result (forest pool.now)) ≡ exponent_in (tree_of power.now pool.now) }
{
    child_id(pool, power.id(), 1)
}

/// Whether the exponent of the power that a reduced power has as its base makes that one opaque.
pub(crate) fn first_exponent_is_opaque(pool: &Pool, power: &Handle) -> bool
    requires stands { Stands pool.now }
    requires handed { IsHanded power.now (forest pool.now) }
    requires power { is_power (tree_of power.now pool.now) ≡ true }
    requires base { is_power (base_in (tree_of power.now pool.now)) ≡ true }
    requires reduced { is_reduced (base_in (tree_of power.now pool.now)) ≡ true }
    ensures { result ≡ is_opaque_exponent (exponent_in (base_in (tree_of power.now pool.now))) }
{
    let first = child_id(pool, base_id(pool, power), 1);
    match whole(pool, first) {
        Some(_) => false,
        None => is_reduced_number(pool, first),
    }
}

/// Whether a tree is the rational 1.
#[tactic(auto, using(crate::proofs::Whole::is_one_as))]
pub(crate) fn is_one(pool: &Pool, id: Id) -> bool
    requires stands { Stands pool.now }
    requires expression { IsExpression id (forest pool.now) }
    ensures { result ≡ is_num_one (plain (tree_at id (forest pool.now))) }
{
    match whole(pool, id) {
        Some(n) => n == 1,
        None => false,
    }
}

/// The base; the rest of the power is released.
pub(crate) fn take_base(pool: &mut Pool, power: Handle) -> Handle
    requires stands { Stands pool.old }
    requires handed { IsHanded power (forest pool.old) }
    requires power { is_power (tree_of power pool.old) ≡ true }
    ensures gives { Gives (without_root power (forest pool.old)) (forest pool.new) result (λ t. t ≡ base_in (tree_of power pool.old)) }
    ensures front { KeepsFront (power ∷ []) (forest pool.old) (forest pool.new) }
    ensures kept { KeepsRefusals pool.old pool.new }
    ensures stands { Stands pool.new }
{
    let base = take_child(pool, &power, 0);
    release(pool, power);
    base
}

/// The base and the exponent, whose node is released.
pub(crate) fn take_sides(pool: &mut Pool, power: Handle) -> (Handle, Handle)
    requires stands { Stands pool.old }
    requires handed { IsHanded power (forest pool.old) }
    requires power { is_power (tree_of power pool.old) ≡ true }
    ensures gives { GivesTwo (without_root power (forest pool.old)) (forest pool.new) result.0 result.1 (λ t. t ≡ base_in (tree_of power pool.old)) (λ t. t ≡ exponent_in (tree_of power pool.old)) }
    ensures front { KeepsFront (power ∷ []) (forest pool.old) (forest pool.new) }
    ensures kept { KeepsRefusals pool.old pool.new }
    ensures stands { Stands pool.new }
{
    let base = take_child(pool, &power, 0);
    let exponent = take_child(pool, &power, 0);
    release(pool, power);
    (base, exponent)
}

/// A rational in the place of a power, whose bytes suffice for it.
pub(crate) fn with_number(pool: &mut Pool, power: Handle, q: Rat) -> Handle
    requires stands { Stands pool.old }
    requires handed { IsHanded power (forest pool.old) }
    requires power { is_power (tree_of power pool.old) ≡ true }
    requires room { size (num (value_of q)) ≤ size (tree_of power pool.old) }
    ensures gives { Gives (without_root power (forest pool.old)) (forest pool.new) result (λ t. t ≡ num (value_of q)) }
    ensures front { KeepsFront (power ∷ []) (forest pool.old) (forest pool.new) }
    ensures kept { KeepsRefusals pool.old pool.new }
    ensures stands { Stands pool.new }
{
    release(pool, power);
    match number(pool, q) {
        Ok(number) => number,
        Err(_) => unreachable!(),
    }
}
