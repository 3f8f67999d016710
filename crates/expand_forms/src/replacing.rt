//! New terms from listed factors.
ghost use Rattle.std.specs.Prelude.{◌≡◌, ◌<◌, ◌≤◌, ◌*◌, ◌^◌, [], IfOk, IfErr, length};
ghost use Rattle.calc_terms.specs.Rat.{value_of};
ghost use Rattle.calc_terms.specs.Trees.{mult};
ghost use Rattle.expansions.specs.ExpandedTrees.{factor_trees, term_tree};
ghost use Rattle.expansions.specs.ExpansionRoom.{factor_bytes, term_bytes};
ghost use Rattle.expand_forms.specs.Listed.{AreRead};
ghost use Rattle.expand_forms.specs.Merging.{AddsTrees};
ghost use Rattle.expansions.specs.Polynomials.{Monomial, summand};
ghost use Rattle.expansions.specs.Terms.{led_by};
ghost use Rattle.node_pool.specs.State.{free_of};
ghost use Rattle.tree_handles.specs.Handed.{Gives};
ghost use Rattle.tree_handles.specs.Standing.{Stands, forest};
ghost use Rattle.number_forms.specs.Safety.{IsSafePlacing};

use crate::factors::Factor;
use crate::merging::place_factor;
use calc_terms::{Kind, Rat};
use node_pool::{Full, Pool};
use tree_handles::{Handle, adopt, node, number};

/// A new last tree: a coefficient times a monomial.
pub(crate) fn place_term(
    pool: &mut Pool,
    coefficient: Rat,
    factors: &[Factor],
) -> Result<Handle, Full>
    requires stands { Stands pool.old }
    requires monomial { (m : Monomial) × AreRead factors.now m }
    requires few { length factors.now < 2 ^ 15 }
    ensures ok { (m : Monomial) → AreRead factors.now m
        → IfOk result (λ h. Gives (forest pool.old) (forest pool.new) h (λ t. t ≡ term_tree (summand (value_of coefficient) m))) }
    ensures room { IfErr result (λ full. free_of pool.old < term_bytes (length factors.now)) }
    ensures safe { IsSafePlacing [] pool.old pool.new result }
{
    if factors.is_empty() {
        return number(pool, coefficient);
    }
    if factors.len() == 1 && coefficient.is_one() {
        return place_factor(pool, factors[0]);
    }
    place_product(pool, coefficient, factors)
}

/// The same of at least two factors, the coefficient counted among them where it is not 1.
fn place_product(pool: &mut Pool, coefficient: Rat, factors: &[Factor]) -> Result<Handle, Full>
    requires stands { Stands pool.old }
    requires monomial { (m : Monomial) × AreRead factors.now m }
    requires some { 1 ≤ length factors.now }
    requires few { length factors.now < 2 ^ 15 }
    ensures ok { (m : Monomial) → AreRead factors.now m
        → IfOk result (λ h. Gives (forest pool.old) (forest pool.new) h (λ t. t ≡ mult (led_by (value_of coefficient) (factor_trees m)))) }
    ensures room { IfErr result (λ full. free_of pool.old < term_bytes (length factors.now)) }
    ensures safe { IsSafePlacing [] pool.old pool.new result }
{
    let product = node(pool, Kind::Mult)?;
    let mut placed = 0;
    if !coefficient.is_one() {
        let _number = number(pool, coefficient)?;
        placed = 1;
    }
    placed += place_listed(pool, factors)?;
    adopt(pool, &product, placed);
    Ok(product)
}

/// New last trees: factors. Tells how many.
fn place_listed(pool: &mut Pool, factors: &[Factor]) -> Result<u16, Full>
    requires stands { Stands pool.old }
    requires monomial { (m : Monomial) × AreRead factors.now m }
    requires few { length factors.now < 2 ^ 15 }
    ensures count { IfOk result (λ many. many ≡ length factors.now) }
    ensures ok { (m : Monomial) → AreRead factors.now m → IfOk result (λ many. AddsTrees (factor_trees m) (forest pool.old) (forest pool.new)) }
    ensures room { IfErr result (λ full. free_of pool.old < factor_bytes * length factors.now) }
    ensures safe { IsSafePlacing [] pool.old pool.new result }
{
    let mut placed = 0u16;
    for factor in factors {
        let _factor = place_factor(pool, *factor)?;
        placed += 1;
    }
    Ok(placed)
}
