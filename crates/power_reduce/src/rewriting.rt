//! The four rewritings of a power.
ghost use Rattle.std.specs.Prelude.{ℕ, List, ◌+◌, ◌≡◌, ◌==◌, ◌<◌, ◌≤◌, ◌^◌, nat_abs, Some, IfOk, IfErr, OnOk, [], ◌∷◌, true, false};
ghost use Rattle.calc_terms.specs.Fractions.{whole_fraction};
ghost use Rattle.calc_algebra.specs.Numbers.{is_number};
ghost use Rattle.calc_algebra.specs.Reduced.{is_reduced, is_half_num, is_opaque_exponent};
ghost use Rattle.calc_terms.specs.Trees.{num, mult, count, is_mult, is_root, size, power as power_tree};
ghost use Rattle.power_reduce.specs.PowerAnswers.{is_power, base_in, exponent_in, HasReducedSides};
ghost use Rattle.power_reduce.specs.PowerSteps.{goes_inside, is_even_whole, parts_of, raised, rewritten};
ghost use Rattle.number_forms.specs.Readers.{numerator};
ghost use Rattle.calc_room.specs.Spans.{SpansTree};
ghost use Rattle.node_pool.specs.State.{free_of};
ghost use Rattle.power_reduce.specs.Rooms.{IsShortOfRoot, IsShortOfStep};
ghost use Rattle.tree_handles.specs.Standing.{LacksBytes, Stands, forest, KeepsRefusals, Refuses};
ghost use Rattle.tree_handles.specs.Handed.{tree_of, IsHanded, Gives, KeepsFront};
ghost use Rattle.tree_handles.specs.Expressions.{children_of, nth};
ghost use Rattle.tree_handles.specs.Holes.{ChangesTree, set_child};
ghost use Rattle.tree_handles.specs.Roots.{without_root};

use crate::sides::{is_one, take_sides};
use calc_terms::{Kind, Rat};
use coefficients::split_product;
use node_pool::{Full, Pool};
use tree_handles::{
    Handle, add_child, children, copy_tree, fill, merge_children, move_last, node, node_over,
    node_over_two, number, open_child, release, take_child,
};

/// A power by half of n as the power n of the root of its base.
#[tactic(auto, using(tree_handles::proofs::Given::given_handed))]
pub(crate) fn root_base(pool: &mut Pool, power: Handle, n: i128) -> Result<Handle, Full>
    requires stands { Stands pool.old }
    requires handed { IsHanded power (forest pool.old) }
    requires sides { HasReducedSides (tree_of power pool.old) }
    requires half { is_half_num (exponent_in (tree_of power pool.old)) ≡ true }
    requires numerator { numerator (exponent_in (tree_of power pool.old)) ≡ n }
    requires fits { nat_abs n < 2 ^ 127 }
    ensures ok { IfOk result (λ h. Gives (without_root power (forest pool.old)) (forest pool.new) h (λ u. rewritten (base_in (tree_of power pool.old)) (exponent_in (tree_of power pool.old)) ≡ Some u)) }
    ensures front { KeepsFront (power ∷ []) (forest pool.old) (forest pool.new) }
    ensures kept { OnOk result (KeepsRefusals pool.old pool.new) }
    ensures full { IfErr result (Refuses pool.old pool.new) }
    ensures caused { IfErr result (LacksBytes pool.new) }
    ensures room { IfErr result (λ full. IsShortOfRoot (tree_of power pool.old) (free_of pool.old)) }
    ensures stands { Stands pool.new }
{
    let (base, exponent) = take_sides(pool, power);
    release(pool, exponent);
    let root = node_over(pool, Kind::Root, base)?;
    let whole = number(pool, Rat::whole(n))?;
    node_over_two(pool, Kind::Pow, root, whole)
}

/// An even power of a root as a power of its argument, in place: the bytes of the old exponent suffice for its
/// half.
pub(crate) fn halve_root(pool: &mut Pool, power: Handle, n: i128) -> Handle
    requires stands { Stands pool.old }
    requires handed { IsHanded power (forest pool.old) }
    requires sides { HasReducedSides (tree_of power pool.old) }
    requires exponent { exponent_in (tree_of power pool.old) ≡ num (whole_fraction n) }
    requires fits { nat_abs n < 2 ^ 127 }
    requires even { is_even_whole (whole_fraction n) ≡ true }
    requires root { is_root (base_in (tree_of power pool.old)) ≡ true }
    requires number { is_number (base_in (tree_of power pool.old)) ≡ false }
    ensures gives { Gives (without_root power (forest pool.old)) (forest pool.new) result (λ u. rewritten (base_in (tree_of power pool.old)) (exponent_in (tree_of power pool.old)) ≡ Some u) }
    ensures front { KeepsFront (power ∷ []) (forest pool.old) (forest pool.new) }
    ensures kept { KeepsRefusals pool.old pool.new }
    ensures stands { Stands pool.new }
{
    merge_children(pool, &power, 0);
    let (hole, exponent) = open_child(pool, &power, 1);
    release(pool, exponent);
    match number(pool, Rat::whole(n / 2)) {
        Ok(half) => {
            fill(pool, hole, half);
            move_last(pool, &power);
            power
        }
        Err(_) => unreachable!(),
    }
}

/// A power of a power as one of the inner base, with the product of the exponents. The bytes of the inner power's
/// node suffice for the product's.
#[tactic(auto, using(tree_handles::proofs::Lasts::last_held))]
pub(crate) fn join_exponents(pool: &mut Pool, power: Handle) -> Handle
    requires stands { Stands pool.old }
    requires handed { IsHanded power (forest pool.old) }
    requires sides { HasReducedSides (tree_of power pool.old) }
    requires inside { goes_inside (exponent_in (tree_of power pool.old)) ≡ true }
    requires base { is_power (base_in (tree_of power pool.old)) ≡ true }
    requires transparent { is_opaque_exponent (exponent_in (base_in (tree_of power pool.old))) ≡ false }
    ensures gives { Gives (without_root power (forest pool.old)) (forest pool.new) result (λ u. rewritten (base_in (tree_of power pool.old)) (exponent_in (tree_of power pool.old)) ≡ Some u) }
    ensures front { KeepsFront (power ∷ []) (forest pool.old) (forest pool.new) }
    ensures kept { KeepsRefusals pool.old pool.new }
    ensures stands { Stands pool.new }
{
    merge_children(pool, &power, 0);
    let first = take_child(pool, &power, 1);
    let exponent = take_child(pool, &power, 1);
    let Ok(product) = node(pool, Kind::Mult) else {
        unreachable!();
    };
    add_child(pool, &product, 0, exponent);
    add_child(pool, &product, 0, first);
    add_child(pool, &power, 1, product);
    move_last(pool, &power);
    power
}

/// A power of a product as the product of the powers of its parts.
pub(crate) fn raise_factors(pool: &mut Pool, power: Handle) -> Result<Handle, Full>
    requires stands { Stands pool.old }
    requires handed { IsHanded power (forest pool.old) }
    requires sides { HasReducedSides (tree_of power pool.old) }
    requires inside { goes_inside (exponent_in (tree_of power pool.old)) ≡ true }
    requires base { is_mult (base_in (tree_of power pool.old)) ≡ true }
    requires number { is_number (base_in (tree_of power pool.old)) ≡ false }
    ensures ok { IfOk result (λ h. Gives (without_root power (forest pool.old)) (forest pool.new) h (λ u. rewritten (base_in (tree_of power pool.old)) (exponent_in (tree_of power pool.old)) ≡ Some u)) }
    ensures front { KeepsFront (power ∷ []) (forest pool.old) (forest pool.new) }
    ensures kept { OnOk result (KeepsRefusals pool.old pool.new) }
    ensures full { IfErr result (Refuses pool.old pool.new) }
    ensures caused { IfErr result (LacksBytes pool.new) }
    ensures room { (gs : List ℕ) → SpansTree gs (tree_of power pool.old) → IfErr result (λ full. IsShortOfStep gs (tree_of power pool.old) (free_of pool.old)) }
    ensures stands { Stands pool.new }
{
    let (base, exponent) = take_sides(pool, power);
    let product = product_of_parts(pool, base)?;
    raise_each(pool, product, exponent)
}

/// The coefficient of a reduced product as one Number, where it is not 1, and the factors behind it.
#[tactic(auto, using(tree_handles::proofs::Lasts::last_held))]
fn product_of_parts(pool: &mut Pool, product: Handle) -> Result<Handle, Full>
    requires stands { Stands pool.old }
    requires handed { IsHanded product (forest pool.old) }
    requires product { is_mult (tree_of product pool.old) ≡ true }
    requires reduced { is_reduced (tree_of product pool.old) ≡ true }
    ensures ok { IfOk result (λ h. Gives (without_root product (forest pool.old)) (forest pool.new) h (λ t. t ≡ mult (parts_of (children_of (tree_of product pool.old))))) }
    ensures front { KeepsFront (product ∷ []) (forest pool.old) (forest pool.new) }
    ensures kept { OnOk result (KeepsRefusals pool.old pool.new) }
    ensures full { IfErr result (Refuses pool.old pool.new) }
    ensures caused { IfErr result (LacksBytes pool.new) }
    ensures room { IfErr result (λ full. free_of pool.old < 16) }
    ensures stands { Stands pool.new }
{
    let (coefficient, product) = split_product(pool, product)?;
    if is_one(pool, coefficient.id()) {
        release(pool, coefficient);
        return Ok(product);
    }
    add_child(pool, &product, 0, coefficient);
    Ok(product)
}

/// Each factor to a power: copies of the exponent, and the last one is the exponent itself.
#[tactic(auto, using(tree_handles::proofs::Seen::live))]
fn raise_each(pool: &mut Pool, product: Handle, exponent: Handle) -> Result<Handle, Full>
    requires stands { Stands pool.old }
    requires first { IsHanded product (forest pool.old) }
    requires second { IsHanded exponent (forest pool.old) }
    requires apart { (product == exponent) ≡ false }
    requires product { is_mult (tree_of product pool.old) ≡ true }
    requires some { 1 ≤ count (children_of (tree_of product pool.old)) }
    ensures ok { IfOk result (λ h. Gives (without_root product (without_root exponent (forest pool.old))) (forest pool.new) h
        (λ t. t ≡ mult (raised (children_of (tree_of product pool.old)) (tree_of exponent pool.old)))) }
    ensures front { KeepsFront (product ∷ exponent ∷ []) (forest pool.old) (forest pool.new) }
    ensures kept { OnOk result (KeepsRefusals pool.old pool.new) }
    ensures full { IfErr result (Refuses pool.old pool.new) }
    ensures caused { IfErr result (LacksBytes pool.new) }
    ensures room { let product_old = tree_of product pool.old in let exponent_old = tree_of exponent pool.old in
        IfErr result (λ full. free_of pool.old + size product_old + size exponent_old < size (mult (raised (children_of product_old) exponent_old))) }
    ensures stands { Stands pool.new }
{
    let last = children(pool, product.id()) - 1;
    for at in 0..last {
        let copy = copy_tree(pool, exponent.id())?;
        raise_factor(pool, &product, at, copy)?;
    }
    raise_factor(pool, &product, last, exponent)?;
    move_last(pool, &product);
    Ok(product)
}

/// A factor of a product is raised to an exponent, where it stands.
fn raise_factor(pool: &mut Pool, product: &Handle, at: u16, exponent: Handle) -> Result<(), Full>
    requires stands { Stands pool.old }
    requires first { IsHanded product.now (forest pool.old) }
    requires second { IsHanded exponent (forest pool.old) }
    requires apart { (product.now == exponent) ≡ false }
    requires product { is_mult (tree_of product.now pool.old) ≡ true }
    requires within { at < count (children_of (tree_of product.now pool.old)) }
    ensures ok { let t = tree_of product.now pool.old in
        IfOk result (λ u. ChangesTree product.now (set_child at (power_tree (nth at (children_of t)) (tree_of exponent pool.old)) t) (without_root exponent (forest pool.old)) (forest pool.new)) }
    ensures front { KeepsFront (product.now ∷ exponent ∷ []) (forest pool.old) (forest pool.new) }
    ensures kept { OnOk result (KeepsRefusals pool.old pool.new) }
    ensures full { IfErr result (Refuses pool.old pool.new) }
    ensures caused { IfErr result (LacksBytes pool.new) }
    ensures room { IfErr result (λ full. free_of pool.old < 8) }
    ensures stands { Stands pool.new }
{
    let (hole, factor) = open_child(pool, product, at);
    let power = node_over_two(pool, Kind::Pow, factor, exponent)?;
    fill(pool, hole, power);
    Ok(())
}
