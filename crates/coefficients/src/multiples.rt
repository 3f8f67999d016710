//! A rational is multiplied into a term or into each term of a sum, in place.
ghost use Rattle.std.specs.Prelude.{◌≡◌, ◌+◌, ◌*◌, ◌^◌, ◌<◌, ℕ, List, length, IfOk, IfErr, OnOk, [], ◌∷◌, true, false};
ghost use Rattle.calc_terms.specs.Fractions.{is_one_fraction, is_zero_fraction};
ghost use Rattle.calc_terms.specs.Rat.{value_of};
ghost use Rattle.calc_algebra.specs.Numbers.{is_number};
ghost use Rattle.calc_algebra.specs.Reduced.{is_reduced};
ghost use Rattle.calc_room.specs.Counts.{counted};
ghost use Rattle.calc_room.specs.Spans.{SpansTree};
ghost use Rattle.calc_terms.specs.Trees.{is_add, is_mult, num, size};
ghost use Rattle.coefficients.specs.Coefficients.{spliced};
ghost use Rattle.coefficients.specs.Multiples.{leads_sum, rational_times as times, rational_times_factors as times_factors, rational_times_number as times_number, rational_times_term as times_term, rational_times_sum as times_sum};
ghost use Rattle.coefficients.specs.Overflows.{Leads, LeadsIn, LeadsTerm, IsMultiple};
ghost use Rattle.coefficients.specs.Rooms.{LacksRoom};
ghost use Rattle.node_pool.specs.State.{free_of};
ghost use Rattle.tree_handles.specs.Lacking.{OfFull};
ghost use Rattle.tree_room.specs.Needs.{tree_bytes};
ghost use Rattle.tree_handles.specs.Causes.{IsCaused};
ghost use Rattle.tree_handles.specs.Standing.{LacksBytes, Stands, forest, KeepsRefusals, Refuses};
ghost use Rattle.tree_handles.specs.Handed.{tree_of, IsHanded, Gives, KeepsFront};
ghost use Rattle.tree_handles.specs.Expressions.{IsExpression, plain, children_of};
ghost use Rattle.tree_handles.specs.Faults.{Faults, OfOverflow};
ghost use Rattle.tree_handles.specs.Inside.{tree_at};
ghost use Rattle.tree_handles.specs.Roots.{without_root};

use crate::products::{as_product, put_first, unwrapped};
use calc_terms::{Kind, Rat};
use node_pool::{Full, Id, Pool};
use number_forms::is_reduced_number;
use rational128::mul;
use tree_handles::{
    Handle, NumberFault, child_id, children, fill, kind, move_last, number, open_child, rational,
    release, take_child,
};

/// A rational into the coefficient of each term of a reduced sum.
pub(crate) fn distribute(pool: &mut Pool, q: Rat, sum: Handle) -> Result<Handle, NumberFault>
    requires stands { Stands pool.old }
    requires handed { IsHanded sum (forest pool.old) }
    requires sum { is_add (tree_of sum pool.old) ≡ true }
    requires reduced { is_reduced (tree_of sum pool.old) ≡ true }
    ensures ok { IfOk result (λ h. Gives (without_root sum (forest pool.old)) (forest pool.new) h (λ t. t ≡ times_sum (value_of q) (children_of (tree_of sum pool.old)))) }
    ensures front { KeepsFront (sum ∷ []) (forest pool.old) (forest pool.new) }
    ensures kept { OnOk result (KeepsRefusals pool.old pool.new) }
    ensures faults { IfErr result (Faults pool.old pool.new) }
    ensures caused { IfErr result (IsCaused pool.new) }
    ensures named { IfErr result (OfOverflow (IsMultiple (value_of q) (λ c. LeadsIn LeadsTerm c (children_of (tree_of sum pool.old))))) }
    ensures room { (gs : List ℕ) → is_zero_fraction (value_of q) ≡ false → is_one_fraction (value_of q) ≡ false → SpansTree gs (tree_of sum pool.old)
        → IfErr result (LacksRoom (counted (tree_of sum pool.old)) (free_of pool.old + size (tree_of sum pool.old)) gs) }
    ensures stands { Stands pool.new }
{
    let terms = children(pool, sum.id());
    for at in 0..terms {
        let (hole, term) = open_child(pool, &sum, at);
        let multiple = rational_times_term(pool, q, term)?;
        fill(pool, hole, multiple);
    }
    move_last(pool, &sum);
    Ok(sum)
}

/// A rational into the coefficient of a reduced term.
fn rational_times_term(pool: &mut Pool, q: Rat, term: Handle) -> Result<Handle, NumberFault>
    requires stands { Stands pool.old }
    requires handed { IsHanded term (forest pool.old) }
    requires reduced { is_reduced (tree_of term pool.old) ≡ true }
    ensures ok { IfOk result (λ h. Gives (without_root term (forest pool.old)) (forest pool.new) h (λ t. t ≡ times_term (value_of q) (tree_of term pool.old))) }
    ensures front { KeepsFront (term ∷ []) (forest pool.old) (forest pool.new) }
    ensures kept { OnOk result (KeepsRefusals pool.old pool.new) }
    ensures faults { IfErr result (Faults pool.old pool.new) }
    ensures caused { IfErr result (IsCaused pool.new) }
    ensures named { IfErr result (OfOverflow (IsMultiple (value_of q) (λ c. LeadsTerm c (tree_of term pool.old)))) }
    ensures few { leads_sum (tree_of term pool.old) ≡ false → IfErr result (OfFull (λ full. free_of pool.old < 48)) }
    ensures room { (gs : List ℕ) → is_zero_fraction (value_of q) ≡ false → is_one_fraction (value_of q) ≡ false → SpansTree gs (tree_of term pool.old)
        → leads_sum (tree_of term pool.old) ≡ true
        → IfErr result (OfFull (λ full. free_of pool.old + size (tree_of term pool.old) < tree_bytes (counted (tree_of term pool.old)) (2 ^ length gs) + 104)) }
    ensures stands { Stands pool.new }
{
    if !is_led_by_sum(pool, term.id()) {
        return rational_times(pool, q, term);
    }
    let (hole, coefficient) = open_child(pool, &term, 0);
    let multiple = rational_times_number(pool, q, coefficient)?;
    fill(pool, hole, multiple);
    move_last(pool, &term);
    Ok(term)
}

/// Whether a reduced tree is a product with a coefficient of two square classes or more.
fn is_led_by_sum(pool: &Pool, id: Id) -> bool
    requires stands { Stands pool.now }
    requires expression { IsExpression id (forest pool.now) }
    requires reduced { is_reduced (plain (tree_at id (forest pool.now))) ≡ true }
    ensures { result ≡ leads_sum (plain (tree_at id (forest pool.now))) }
{
    match kind(pool, id) {
        Kind::Mult => {
            let first = child_id(pool, id, 0);
            match kind(pool, first) {
                Kind::Add => is_reduced_number(pool, first),
                _ => false,
            }
        }
        _ => false,
    }
}

/// A rational into each term of a Number of two square classes or more.
fn rational_times_number(pool: &mut Pool, q: Rat, sum: Handle) -> Result<Handle, NumberFault>
    requires stands { Stands pool.old }
    requires handed { IsHanded sum (forest pool.old) }
    requires sum { is_add (tree_of sum pool.old) ≡ true }
    requires reduced { is_reduced (tree_of sum pool.old) ≡ true }
    ensures ok { IfOk result (λ h. Gives (without_root sum (forest pool.old)) (forest pool.new) h (λ t. t ≡ times_number (value_of q) (children_of (tree_of sum pool.old)))) }
    ensures front { KeepsFront (sum ∷ []) (forest pool.old) (forest pool.new) }
    ensures kept { OnOk result (KeepsRefusals pool.old pool.new) }
    ensures faults { IfErr result (Faults pool.old pool.new) }
    ensures caused { IfErr result (IsCaused pool.new) }
    ensures named { IfErr result (OfOverflow (IsMultiple (value_of q) (λ c. LeadsIn Leads c (children_of (tree_of sum pool.old))))) }
    ensures room { (gs : List ℕ) → is_zero_fraction (value_of q) ≡ false → is_one_fraction (value_of q) ≡ false → is_number (tree_of sum pool.old) ≡ true
        → SpansTree gs (tree_of sum pool.old) → IfErr result (OfFull (λ full. free_of pool.old + size (tree_of sum pool.old) < 96 * 2 ^ length gs + 56)) }
    ensures stands { Stands pool.new }
{
    let terms = children(pool, sum.id());
    for at in 0..terms {
        let (hole, term) = open_child(pool, &sum, at);
        let multiple = rational_times(pool, q, term)?;
        fill(pool, hole, multiple);
    }
    move_last(pool, &sum);
    Ok(sum)
}

/// A rational into the rational that leads a reduced tree, or before its factors.
fn rational_times(pool: &mut Pool, q: Rat, term: Handle) -> Result<Handle, NumberFault>
    requires stands { Stands pool.old }
    requires handed { IsHanded term (forest pool.old) }
    requires reduced { is_reduced (tree_of term pool.old) ≡ true }
    ensures ok { IfOk result (λ h. Gives (without_root term (forest pool.old)) (forest pool.new) h (λ t. t ≡ times (value_of q) (tree_of term pool.old))) }
    ensures front { KeepsFront (term ∷ []) (forest pool.old) (forest pool.new) }
    ensures kept { OnOk result (KeepsRefusals pool.old pool.new) }
    ensures faults { IfErr result (Faults pool.old pool.new) }
    ensures caused { IfErr result (IsCaused pool.new) }
    ensures named { IfErr result (OfOverflow (IsMultiple (value_of q) (λ c. Leads c (tree_of term pool.old)))) }
    ensures few { IfErr result (OfFull (λ full. free_of pool.old < 48)) }
    ensures stands { Stands pool.new }
{
    match kind(pool, term.id()) {
        Kind::Num => {
            let product = mul(q, rational(pool, term.id()))?;
            release(pool, term);
            Ok(number(pool, product)?)
        }
        Kind::Mult => rational_times_factors(pool, q, term),
        _ => Ok(put_before(pool, q, term)?),
    }
}

/// A rational before the factors of a tree.
#[tactic(auto, using(tree_handles::proofs::Given::given_handed, tree_handles::proofs::Given::given_told))]
pub(crate) fn put_before(pool: &mut Pool, q: Rat, tree: Handle) -> Result<Handle, Full>
    requires stands { Stands pool.old }
    requires handed { IsHanded tree (forest pool.old) }
    ensures ok { IfOk result (λ h. Gives (without_root tree (forest pool.old)) (forest pool.new) h (λ t. t ≡ spliced (num (value_of q)) (tree_of tree pool.old))) }
    ensures front { KeepsFront (tree ∷ []) (forest pool.old) (forest pool.new) }
    ensures kept { OnOk result (KeepsRefusals pool.old pool.new) }
    ensures full { IfErr result (Refuses pool.old pool.new) }
    ensures caused { IfErr result (LacksBytes pool.new) }
    ensures few { IfErr result (λ full. free_of pool.old < 48) }
    ensures stands { Stands pool.new }
{
    let product = as_product(pool, tree)?;
    put_first(pool, q, product)
}

/// A rational into the one that leads the factors of a product, or before them.
fn rational_times_factors(pool: &mut Pool, q: Rat, product: Handle) -> Result<Handle, NumberFault>
    requires stands { Stands pool.old }
    requires handed { IsHanded product (forest pool.old) }
    requires product { is_mult (tree_of product pool.old) ≡ true }
    requires reduced { is_reduced (tree_of product pool.old) ≡ true }
    ensures ok { IfOk result (λ h. Gives (without_root product (forest pool.old)) (forest pool.new) h (λ t. t ≡ times_factors (value_of q) (children_of (tree_of product pool.old)))) }
    ensures front { KeepsFront (product ∷ []) (forest pool.old) (forest pool.new) }
    ensures kept { OnOk result (KeepsRefusals pool.old pool.new) }
    ensures faults { IfErr result (Faults pool.old pool.new) }
    ensures caused { IfErr result (IsCaused pool.new) }
    ensures named { IfErr result (OfOverflow (IsMultiple (value_of q) (λ c. Leads c (tree_of product pool.old)))) }
    ensures few { IfErr result (OfFull (λ full. free_of pool.old < 48)) }
    ensures stands { Stands pool.new }
{
    let first = child_id(pool, product.id(), 0);
    match kind(pool, first) {
        Kind::Num => {
            let leading = mul(q, rational(pool, first))?;
            let old = take_child(pool, &product, 0);
            release(pool, old);
            if leading.is_one() {
                Ok(unwrapped(pool, product))
            } else {
                Ok(put_first(pool, leading, product)?)
            }
        }
        _ => Ok(put_first(pool, q, product)?),
    }
}
