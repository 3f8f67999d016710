//! Two factors with identical bases become one power.
ghost use Rattle.std.specs.Prelude.{◌≡◌, ◌==◌, ◌<◌, ◌≤◌, ◌+◌, true, false, IfOk, IfErr, OnOk, [], ◌∷◌};
ghost use Rattle.number_forms.specs.Sums.{removed};
ghost use Rattle.calc_algebra.specs.Reduced.{are_reduced, is_reduced, base_of};
ghost use Rattle.calc_terms.specs.Trees.{add, power, count, none, more};
ghost use Rattle.product_reduce.specs.Joining.{exponent_of};
ghost use Rattle.product_reduce.specs.Neighbours.{joined_pair};
ghost use Rattle.product_reduce.specs.Products.{IsProduct, IsTakenOut, IsSplit, Becomes, factors_in};
ghost use Rattle.product_reduce.specs.Pools.{LeavesFull};
ghost use Rattle.node_pool.specs.State.{free_of};
ghost use Rattle.tree_handles.specs.Standing.{Stands, forest};
ghost use Rattle.tree_handles.specs.Handed.{tree_of, IsHanded, Gives, KeepsFront};
ghost use Rattle.tree_handles.specs.Expressions.{nth};
ghost use Rattle.tree_handles.specs.Roots.{without_root};

use crate::nodes::one;
use crate::partners::is_transparent_power;
use calc_terms::Kind;
use node_pool::{Full, Pool};
use tree_handles::{Handle, fill, node_over_two, open_child, release, take_child};

/// A factor as its base and its exponent, which is 1 where none is written.
fn split_factor(pool: &mut Pool, factor: Handle) -> Result<(Handle, Handle), Full>
    requires stands { Stands pool.old }
    requires handed { IsHanded factor (forest pool.old) }
    requires reduced { is_reduced (tree_of factor pool.old) ≡ true }
    ensures ok { IfOk result (λ pair. IsSplit factor (forest pool.old) (forest pool.new) pair.0 pair.1) }
    ensures front { KeepsFront (factor ∷ []) (forest pool.old) (forest pool.new) }
    ensures room { IfErr result (λ full. free_of pool.old < 40) }
    ensures placed { OnOk result (free_of pool.old ≤ free_of pool.new + 40) }
    ensures leaves { LeavesFull result pool.old pool.new }
{
    if is_transparent_power(pool, factor.id()) {
        let exponent = take_child(pool, &factor, 1);
        let base = take_child(pool, &factor, 0);
        release(pool, factor);
        Ok((base, exponent))
    } else {
        let exponent = one(pool)?;
        Ok((factor, exponent))
    }
}

/// The exponent of the factor at a place, which leaves the product.
fn take_exponent(pool: &mut Pool, product: &Handle, at: u16) -> Result<Handle, Full>
    requires stands { Stands pool.old }
    requires product { IsProduct product.now (forest pool.old) (factors_in product.now (forest pool.old)) }
    requires reduced { are_reduced (factors_in product.now (forest pool.old)) ≡ true }
    requires within { at < count (factors_in product.now (forest pool.old)) }
    ensures ok { let ts = factors_in product.now (forest pool.old) in
        IfOk result (λ h. IsTakenOut product.now (removed at ts) (forest pool.old) (forest pool.new) h (exponent_of (nth at ts))) }
    ensures front { KeepsFront (product.now ∷ []) (forest pool.old) (forest pool.new) }
    ensures room { IfErr result (λ full. free_of pool.old < 40) }
    ensures placed { OnOk result (free_of pool.old ≤ free_of pool.new + 40) }
    ensures leaves { LeavesFull result pool.old pool.new }
{
    let factor = take_child(pool, product, at);
    let (base, exponent) = split_factor(pool, factor)?;
    release(pool, base);
    Ok(exponent)
}

/// The base of a factor to its exponent and another one added.
#[tactic(auto, using(tree_handles::proofs::Fronts::front_after_two, crate::proofs::Beside::behind_clear, tree_handles::proofs::Fronts::front_without, tree_handles::proofs::Fronts::behind_first, tree_handles::proofs::Fronts::front_same, tree_handles::proofs::Fronts::behind_later, tree_handles::proofs::Fronts::front_after_one, tree_handles::proofs::Given::given_handed))]
fn raise(pool: &mut Pool, factor: Handle, exponent: Handle) -> Result<Handle, Full>
    requires stands { Stands pool.old }
    requires first { IsHanded factor (forest pool.old) }
    requires second { IsHanded exponent (forest pool.old) }
    requires apart { (factor == exponent) ≡ false }
    requires reduced { is_reduced (tree_of factor pool.old) ≡ true }
    ensures ok { IfOk result (λ h. Gives (without_root exponent (without_root factor (forest pool.old))) (forest pool.new) h (λ t. t ≡
        power (base_of (tree_of factor pool.old)) (add (more (exponent_of (tree_of factor pool.old)) (more (tree_of exponent pool.old) none))))) }
    ensures front { KeepsFront (factor ∷ exponent ∷ []) (forest pool.old) (forest pool.new) }
    ensures room { IfErr result (λ full. free_of pool.old < 56) }
    ensures leaves { LeavesFull result pool.old pool.new }
{
    let (base, own) = split_factor(pool, factor)?;
    let sum = node_over_two(pool, Kind::Add, own, exponent)?;
    let power = node_over_two(pool, Kind::Pow, base, sum)?;
    Ok(power)
}

/// Two factors become one power, in the place of the first.
pub fn join_pair(pool: &mut Pool, product: &Handle, first: u16, second: u16) -> Result<(), Full>
    requires stands { Stands pool.old }
    requires product { IsProduct product.now (forest pool.old) (factors_in product.now (forest pool.old)) }
    requires reduced { are_reduced (factors_in product.now (forest pool.old)) ≡ true }
    requires order { first < second }
    requires within { second < count (factors_in product.now (forest pool.old)) }
    ensures ok { OnOk result (Becomes product.now (forest pool.old) (forest pool.new) (joined_pair first second (factors_in product.now (forest pool.old)))) }
    ensures front { KeepsFront (product.now ∷ []) (forest pool.old) (forest pool.new) }
    ensures room { IfErr result (λ full. free_of pool.old < 96) }
    ensures leaves { LeavesFull result pool.old pool.new }
{
    let exponent = take_exponent(pool, product, second)?;
    let (hole, factor) = open_child(pool, product, first);
    let power = raise(pool, factor, exponent)?;
    fill(pool, hole, power);
    Ok(())
}
