//! The factors of two terms, merged in the order of their names.
ghost use Rattle.expansions.specs.ExpansionBits.{HasExponents};
ghost use Rattle.expand_forms.specs.Walks.{IsNoOverflow};
ghost use Rattle.std.specs.Cmp.Lexicographic.{slice_cmp};
ghost use Rattle.std.specs.Ordering.{nat_cmp};
ghost use Rattle.std.specs.Prelude.{◌≡◌, ◌<◌, ◌*◌, [], IfOk, IfErr, length, ℕ, ◌^◌, ◌+◌};
ghost use Rattle.calc_terms.specs.Leaf.{name_of};
ghost use Rattle.calc_terms.specs.Rat.{value_of};
ghost use Rattle.calc_terms.specs.Trees.{num, power, symbol as symbol_tree};
ghost use Rattle.expansions.specs.ExpandedTrees.{factor_tree, factor_trees};
ghost use Rattle.expansions.specs.ExpansionRoom.{factor_bytes};
ghost use Rattle.expand_forms.specs.Merging.{AddsTrees, AreFactors, BeginsWith, GoesOn, IsFirst};
ghost use Rattle.expansions.specs.Polynomials.{Factor as FactorOf, IsMonomial, Monomial, monomial_times};
ghost use Rattle.expansions.specs.Terms.{HasMonomial};
ghost use Rattle.expand_forms.specs.Terms.{IsRead};
ghost use Rattle.node_pool.specs.State.{free_of};
ghost use Rattle.tree_handles.specs.Lacking.{OfFull};
ghost use Rattle.std.specs.declared.cmp.Ordering.TheVariants.{Equal};
ghost use Rattle.tree_handles.specs.Causes.{Overflows};
ghost use Rattle.tree_handles.specs.Expressions.{IsExpression, plain};
ghost use Rattle.tree_handles.specs.Handed.{Gives};
ghost use Rattle.tree_handles.specs.Inside.{tree_at};
ghost use Rattle.tree_handles.specs.Standing.{Stands, forest};
ghost use Rattle.number_forms.specs.Safety.{IsSafe, IsSafePlacing};

use crate::factors::{Factor, Factors};
use calc_terms::Kind;
use node_pool::{Full, Id, Pool};
use rational128::{Overflow, add};
use std::cmp::Ordering;
use tree_handles::{Handle, NumberFault, adopt, node, number, symbol};

/// The next factor of a product, and how many factors of the left and of the right term are in it.
#[derive(Clone, Copy)]
pub(crate) struct Next {
    pub factor: Factor,
    pub left: u16,
    pub right: u16,
}

/// The first factor of a product of monomials that begin with these, none where both are 1.
#[inline(always)]
pub(crate) fn next_factor(
    left: Option<Factor>,
    right: Option<Factor>,
) -> Result<Option<Next>, Overflow>
    requires monomials { (m : Monomial) × (n : Monomial) × BeginsWith left m × BeginsWith right n }
    ensures next { (m n : Monomial) → IsMonomial m → IsMonomial n → BeginsWith left m → BeginsWith right n → IfOk result (GoesOn m n) }
    ensures overflow { IfErr result Overflows }
    ensures fits { (m n : Monomial) (k : ℕ) → IsMonomial m → IsMonomial n → BeginsWith left m → BeginsWith right n
        → HasExponents k (monomial_times m n) → k < 2 ^ 127 → IfErr result (λ _. ⊥) }
{
    match (left, right) {
        (Some(left), Some(right)) => {
            let next = first_of(left, right)?;
            Ok(Some(next))
        }
        (Some(factor), None) => Ok(Some(Next {
            factor,
            left: 1,
            right: 0,
        })),
        (None, Some(factor)) => Ok(Some(Next {
            factor,
            left: 0,
            right: 1,
        })),
        (None, None) => Ok(None),
    }
}

/// The first of two factors, or both as one where they have one name.
#[inline(always)]
fn first_of(left: Factor, right: Factor) -> Result<Next, Overflow>
    requires first { (f : FactorOf) × IsRead left f }
    requires second { (g : FactorOf) × IsRead right g }
    ensures next { (f g : FactorOf) → IsRead left f → IsRead right g → IfOk result (IsFirst f g) }
    ensures overflow { IfErr result Overflows }
    ensures fits { (f g : FactorOf) → IsRead left f → IsRead right g
        → (slice_cmp nat_cmp f.name g.name ≡ Equal → f.exponent + g.exponent < 2 ^ 127) → IfErr result (λ _. ⊥) }
{
    match left.name.bytes().cmp(right.name.bytes()) {
        Ordering::Less => Ok(Next {
            factor: left,
            left: 1,
            right: 0,
        }),
        Ordering::Greater => Ok(Next {
            factor: right,
            left: 0,
            right: 1,
        }),
        Ordering::Equal => {
            let factor = Factor {
                name: left.name,
                exponent: add(left.exponent, right.exponent)?,
            };
            Ok(Next {
                factor,
                left: 1,
                right: 1,
            })
        }
    }
}

/// A new last tree: a name, or a power of one.
pub(crate) fn place_factor(pool: &mut Pool, factor: Factor) -> Result<Handle, Full>
    requires stands { Stands pool.old }
    requires read { (f : FactorOf) × IsRead factor f }
    ensures ok { (f : FactorOf) → IsRead factor f → IfOk result (λ h. Gives (forest pool.old) (forest pool.new) h (λ t. t ≡ factor_tree f)) }
    ensures room { IfErr result (λ full. free_of pool.old < factor_bytes) }
    ensures safe { IsSafePlacing [] pool.old pool.new result }
{
    if factor.exponent.is_one() {
        return symbol(pool, factor.name);
    }
    place_power(pool, factor)
}

/// A new last tree: the power of a factor's name.
fn place_power(pool: &mut Pool, factor: Factor) -> Result<Handle, Full>
    requires stands { Stands pool.old }
    ensures ok { IfOk result (λ h. Gives (forest pool.old) (forest pool.new) h (λ t. t ≡ power (symbol_tree (name_of factor.name)) (num (value_of factor.exponent)))) }
    ensures room { IfErr result (λ full. free_of pool.old < factor_bytes) }
    ensures safe { IsSafePlacing [] pool.old pool.new result }
{
    let power = node(pool, Kind::Pow)?;
    let _base = symbol(pool, factor.name)?;
    let _exponent = number(pool, factor.exponent)?;
    adopt(pool, &power, 2);
    Ok(power)
}

/// New last trees: the factors of two terms, multiplied. Tells how many. Those of the left are listed.
pub(crate) fn place_factors(
    pool: &mut Pool,
    left: &Factors,
    s: Id,
    t: Id,
) -> Result<u16, NumberFault>
    requires stands { Stands pool.old }
    requires factors { AreFactors left.now s (forest pool.old) }
    requires first { IsExpression s (forest pool.old) }
    requires second { IsExpression t (forest pool.old) }
    requires monomials { (m : Monomial) × (n : Monomial) × HasMonomial m (plain (tree_at s (forest pool.old))) × HasMonomial n (plain (tree_at t (forest pool.old))) }
    ensures ok { (m n : Monomial) → HasMonomial m (plain (tree_at s (forest pool.old))) → HasMonomial n (plain (tree_at t (forest pool.old)))
        → IfOk result (λ many. (many ≡ length (monomial_times m n)) × AddsTrees (factor_trees (monomial_times m n)) (forest pool.old) (forest pool.new)) }
    ensures fits { (m n : Monomial) (k : ℕ) → HasMonomial m (plain (tree_at s (forest pool.old))) → HasMonomial n (plain (tree_at t (forest pool.old)))
        → HasExponents k (monomial_times m n) → k < 2 ^ 127 → IfErr result IsNoOverflow }
    ensures room { (m n : Monomial) → HasMonomial m (plain (tree_at s (forest pool.old))) → HasMonomial n (plain (tree_at t (forest pool.old)))
        → IfErr result (OfFull (λ full. free_of pool.old < factor_bytes * length (monomial_times m n))) }
    ensures safe { IsSafe [] pool.old pool.new result }
{
    let right = Factors::of(pool, t);
    let mut i = 0u16;
    let mut j = 0u16;
    let mut many = 0u16;
    let mut first = left.get(pool, s, i);
    let mut second = right.get(pool, t, j);
    while let Some(next) = next_factor(first, second)? {
        let _factor = place_factor(pool, next.factor)?;
        i += next.left;
        j += next.right;
        many += 1;
        first = left.following(pool, s, i, next.left, first);
        second = right.following(pool, t, j, next.right, second);
    }
    Ok(many)
}
