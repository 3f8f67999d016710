//! Lists of terms placed as trees.
ghost use Rattle.std.specs.Prelude.{◌≡◌, ◌<◌, ◌≤◌, ◌+◌, ◌^◌, ℕ, List, [], IfOk, IfErr, OnOk, length};
ghost use Rattle.calc_terms.specs.Rat.{value_of};
ghost use Rattle.expansions.specs.ExpandedTrees.{expanded, sum_tree, term_tree, term_trees};
ghost use Rattle.expansions.specs.ExpansionRoom.{AreNamed, HasFewTerms, number_bytes, sum_bytes, term_bytes, terms_bytes};
ghost use Rattle.expand_forms.specs.Listed.{AreRead};
ghost use Rattle.expand_forms.specs.Merging.{AddsTrees};
ghost use Rattle.expansions.specs.Named.{IsListOf, named, named_polynomial, names_of};
ghost use Rattle.expansions.specs.Polynomials.{AreMonomials, Polynomial, summand};
ghost use Rattle.node_pool.specs.State.{free_of};
ghost use Rattle.polynomials.specs.Packed.{monomial_of};
ghost use Rattle.polynomials.specs.Terms.{polynomial_of};
ghost use Rattle.tree_handles.specs.Handed.{Gives};
ghost use Rattle.tree_handles.specs.Standing.{Stands, forest};
ghost use Rattle.number_forms.specs.Safety.{IsSafePlacing};

use crate::factors::{Factor, FactorList};
use crate::packed_order::{exponents_of, know_monomials, sort_terms};
use crate::replacing::place_term;
use calc_terms::{Kind, Name, Rat};
use node_pool::{Full, Pool};
use polynomials::Term;
use tree_handles::{Handle, adopt, node, number};

/// A new last tree: the expanded tree of a list of terms, which are put in the order of their trees.
pub(crate) fn place_terms(
    pool: &mut Pool,
    names: &[Name],
    terms: &mut [Term],
) -> Result<Handle, Full>
    requires stands { Stands pool.old }
    requires list { (v : Polynomial) × IsListOf (names_of names.now) terms.old v }
    requires few { length terms.old < 2 ^ 16 }
    ensures ok { (v : Polynomial) → IsListOf (names_of names.now) terms.old v
        → IfOk result (λ h. Gives (forest pool.old) (forest pool.new) h (λ t. t ≡ expanded v)) }
    ensures room { (v : Polynomial) (ns : List (List ℕ)) (n : ℕ) → IsListOf (names_of names.now) terms.old v → HasFewTerms ns n v
        → IfErr result (λ full. free_of pool.old < number_bytes + sum_bytes ns n) }
    ensures safe { IsSafePlacing [] pool.old pool.new result }
{
    know_monomials(terms);
    sort_terms(terms);
    place_sum(pool, names, terms)
}

/// A new last tree: the sum of terms as they stand.
fn place_sum(pool: &mut Pool, names: &[Name], terms: &[Term]) -> Result<Handle, Full>
    requires stands { Stands pool.old }
    requires names { length names.now ≤ 8 }
    requires few { length terms.now < 2 ^ 16 }
    ensures ok { IfOk result (λ h. Gives (forest pool.old) (forest pool.new) h (λ t. t ≡ sum_tree (term_trees (named_polynomial (names_of names.now) (polynomial_of terms.now))))) }
    ensures room { let v = named_polynomial (names_of names.now) (polynomial_of terms.now) in
        (ns : List (List ℕ)) → AreMonomials v → AreNamed ns v → IfErr result (λ full. free_of pool.old < number_bytes + sum_bytes ns (length terms.now)) }
    ensures safe { IsSafePlacing [] pool.old pool.new result }
{
    if terms.is_empty() {
        return number(pool, Rat::whole(0));
    }
    let mut factors = FactorList::new();
    if terms.len() == 1 {
        return place_packed(pool, names, terms[0], &mut factors);
    }
    let sum = node(pool, Kind::Add)?;
    let placed = place_all(pool, names, terms, &mut factors)?;
    adopt(pool, &sum, placed);
    Ok(sum)
}

/// New last trees: terms. Tells how many. Of each the factors are listed.
fn place_all(
    pool: &mut Pool,
    names: &[Name],
    terms: &[Term],
    factors: &mut FactorList,
) -> Result<u16, Full>
    requires stands { Stands pool.old }
    requires names { length names.now ≤ 8 }
    requires few { length terms.now < 2 ^ 16 }
    ensures count { IfOk result (λ many. many ≡ length terms.now) }
    ensures ok { OnOk result (AddsTrees (term_trees (named_polynomial (names_of names.now) (polynomial_of terms.now))) (forest pool.old) (forest pool.new)) }
    ensures room { let v = named_polynomial (names_of names.now) (polynomial_of terms.now) in
        (ns : List (List ℕ)) → AreMonomials v → AreNamed ns v → IfErr result (λ full. free_of pool.old < terms_bytes ns (length terms.now)) }
    ensures safe { IsSafePlacing [] pool.old pool.new result }
{
    let mut placed = 0u16;
    for term in terms {
        let _term = place_packed(pool, names, *term, factors)?;
        placed += 1;
    }
    Ok(placed)
}

/// A new last tree: a term. Its factors are listed.
fn place_packed(
    pool: &mut Pool,
    names: &[Name],
    term: Term,
    factors: &mut FactorList,
) -> Result<Handle, Full>
    requires stands { Stands pool.old }
    requires names { length names.now ≤ 8 }
    ensures ok { let m = named (names_of names.now) (monomial_of term.monomial) in
        IfOk result (λ h. Gives (forest pool.old) (forest pool.new) h (λ t. t ≡ term_tree (summand (value_of term.coefficient) m))) }
    ensures room { IfErr result (λ full. free_of pool.old < term_bytes (length (named (names_of names.now) (monomial_of term.monomial)))) }
    ensures safe { IsSafePlacing [] pool.old pool.new result }
{
    list_packed(names, term.monomial, factors);
    place_term(pool, term.coefficient, factors.as_slice())
}

/// Lists the factors of a packed monomial.
fn list_packed(names: &[Name], monomial: u64, factors: &mut FactorList)
    requires names { length names.now ≤ 8 }
    ensures read { AreRead factors.new.items (named (names_of names.now) (monomial_of monomial)) }
    ensures few { length factors.new.items ≤ 8 }
{
    factors.clear();
    let exponents = exponents_of(monomial);
    for (place, name) in names.iter().enumerate() {
        let exponent = exponents[place];
        if exponent != 0 {
            factors.push(Factor {
                name: *name,
                exponent: Rat::whole(i128::from(exponent)),
            });
        }
    }
}
