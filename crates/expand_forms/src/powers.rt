//! The coefficients of an expanded tree in one name.
ghost use Rattle.std.specs.Prelude.{◌≡◌, ◌≢◌, ◌≤◌, ◌<◌, ◌-◌, ◌↔◌, ◌∷◌, [], ℕ, List, Contains, IfSome, MatchOption, None, map, slice_index_or, take};
ghost use Rattle.calc_terms.specs.Fractions.{zero_fraction};
ghost use Rattle.calc_terms.specs.Leaf.{name_of};
ghost use Rattle.calc_terms.specs.Rat.{value_of};
ghost use Rattle.calc_terms.specs.Trees.{names as names_in};
ghost use Rattle.expand_forms.specs.Powers.{AreCoefficients, HasPowerAbove, IsNoted, IsPower};
ghost use Rattle.expand_forms.specs.Reading.{IsSummandTree};
ghost use Rattle.expand_forms.specs.Terms.{IsRead};
ghost use Rattle.expansions.specs.ExpansionRoom.{IsNamed};
ghost use Rattle.expansions.specs.Polynomials.{Factor as FactorOf, Monomial, Summand};
ghost use Rattle.expansions.specs.PolynomialTrees.{polynomial_of};
ghost use Rattle.expansions.specs.Sums.{IsExpanded};
ghost use Rattle.expansions.specs.Terms.{HasMonomial};
ghost use Rattle.tree_handles.specs.Expressions.{IsExpression, plain};
ghost use Rattle.tree_handles.specs.Inside.{tree_at};
ghost use Rattle.tree_handles.specs.Standing.{Stands, forest};

use crate::factors::{Factor, coefficient};
use crate::walking::{factor_nodes, next_read};
use calc_terms::{Kind, Name, Rat};
use node_pool::{Id, Pool};
use tree_handles::{child_ids, kind};

/// So many powers have a place: those from 0 to 32.
pub const POWERS: usize = 33;

/// The highest of them.
const HIGHEST: i128 = 32;

/// The coefficients of the powers of a name in an expanded tree that has no other name: that of the power k at the place k. The answer
/// is how many there are up to the highest power. There is none where an exponent is above 32, and what stands in the places then does
/// not matter.
pub fn powers_of(
    pool: &Pool,
    expanded: Id,
    name: Name,
    coefficients: &mut [Rat; POWERS],
) -> Option<usize>
    requires stands { Stands pool.now }
    requires expression { IsExpression expanded (forest pool.now) }
    requires expanded { IsExpanded (plain (tree_at expanded (forest pool.now))) }
    requires one_name { (x : List ℕ) → Contains (names_in (plain (tree_at expanded (forest pool.now)))) x → x ≡ name_of name }
    ensures some { IfSome result (λ n. (1 ≤ n) × (n ≤ 33)
        × AreCoefficients (name_of name) (polynomial_of (plain (tree_at expanded (forest pool.now)))) (map value_of (take n coefficients.new))) }
    ensures leading { IfSome result (λ n. n ≢ 1 → slice_index_or (map value_of coefficients.new) (n - 1) zero_fraction ≢ zero_fraction) }
    ensures none { result ≡ None ↔ HasPowerAbove 32 (name_of name) (polynomial_of (plain (tree_at expanded (forest pool.now)))) }
{
    *coefficients = [Rat::whole(0); POWERS];
    if !matches!(kind(pool, expanded), Kind::Add) {
        return Some(note_term(pool, expanded, name, coefficients)? + 1);
    }
    let mut highest: usize = 0;
    for term in child_ids(pool, expanded, 0) {
        highest = highest.max(note_term(pool, term, name, coefficients)?);
    }
    Some(highest + 1)
}

/// Notes the coefficient of a term at the place of its power of a name, and tells this place, where there is one.
fn note_term(pool: &Pool, term: Id, name: Name, coefficients: &mut [Rat; POWERS]) -> Option<usize>
    requires stands { Stands pool.now }
    requires expression { IsExpression term (forest pool.now) }
    requires term { (s : Summand) × IsSummandTree (name_of name ∷ []) s (plain (tree_at term (forest pool.now))) }
    ensures { (s : Summand) → IsSummandTree (name_of name ∷ []) s (plain (tree_at term (forest pool.now)))
        → IsNoted (name_of name) s coefficients.old coefficients.new result }
{
    let power = power_in(pool, term, name)?;
    coefficients[power] = coefficient(pool, term);
    Some(power)
}

/// The exponent of a name in a term that has no other name, where there is a place for it.
fn power_in(pool: &Pool, term: Id, name: Name) -> Option<usize>
    requires stands { Stands pool.now }
    requires expression { IsExpression term (forest pool.now) }
    requires monomial { (m : Monomial) × HasMonomial m (plain (tree_at term (forest pool.now))) × IsNamed (name_of name ∷ []) m }
    ensures { (m : Monomial) → HasMonomial m (plain (tree_at term (forest pool.now))) → IsNamed (name_of name ∷ []) m
        → IsPower (name_of name) m result }
{
    let mut nodes = factor_nodes(pool, term);
    match next_read(pool, &mut nodes) {
        None => Some(0),
        Some(factor) => {
            if factor.name != name {
                return Some(0);
            }
            placed_power(factor)
        }
    }
}

/// The exponent of a factor, where there is a place for it.
fn placed_power(factor: Factor) -> Option<usize>
    requires read { (f : FactorOf) × IsRead factor f }
    ensures { (f : FactorOf) → IsRead factor f → MatchOption result (32 < f.exponent) (λ k. (k ≤ 32) × (k ≡ f.exponent)) }
{
    let exponent = factor.exponent.num();
    if exponent > HIGHEST {
        return None;
    }
    Some(exponent as usize)
}
