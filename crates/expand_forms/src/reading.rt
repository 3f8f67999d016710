//! Expanded trees, read into sorted lists of terms.
ghost use Rattle.std.specs.Prelude.{◌≤◌, ◌<◌, [], ◌∷◌, ◌++◌, OnOk, length};
ghost use Rattle.calc_terms.specs.Trees.{names as names_in};
ghost use Rattle.expansions.specs.Named.{AreNames, IsListOf, names_of, AreAmong};
ghost use Rattle.expansions.specs.Polynomials.{Polynomial, Summand};
ghost use Rattle.expansions.specs.PolynomialTrees.{polynomial_of};
ghost use Rattle.expand_forms.specs.Reading.{IsSummandTree};
ghost use Rattle.expansions.specs.Sums.{IsExpanded};
ghost use Rattle.tree_handles.specs.Expressions.{IsExpression, plain};
ghost use Rattle.tree_handles.specs.Inside.{tree_at};
ghost use Rattle.tree_handles.specs.Standing.{Stands, forest};

use crate::factors::coefficient;
use crate::packing::packed_monomial;
use crate::terms::term_count;
use crate::unlisted::Unlisted;
use calc_terms::{Kind, Name};
use node_pool::{Id, Pool};
use polynomials::{Term, insert};
use tree_handles::{child_ids, kind};

/// Lists the terms of an expanded tree whose names are among these.
pub(crate) fn read_terms(
    pool: &Pool,
    tree: Id,
    names: &[Name],
    list: &mut Vec<Term>,
) -> Result<(), Unlisted>
    requires stands { Stands pool.now }
    requires expression { IsExpression tree (forest pool.now) }
    requires expanded { IsExpanded (plain (tree_at tree (forest pool.now))) }
    requires names { AreNames (names_of names.now) }
    requires few { length names.now ≤ 8 }
    requires named { AreAmong (names_of names.now) (names_in (plain (tree_at tree (forest pool.now)))) }
    ensures terms { OnOk result (IsListOf (names_of names.now) list.new.items (polynomial_of (plain (tree_at tree (forest pool.now))))) }
{
    list.clear();
    if matches!(kind(pool, tree), Kind::Add) {
        for term in child_ids(pool, tree, 0) {
            add_term(pool, term, names, list)?;
        }
        return Ok(());
    }
    if term_count(pool, tree) == 0 {
        return Ok(());
    }
    add_term(pool, tree, names, list)
}

/// One more term of an expanded tree.
fn add_term(pool: &Pool, term: Id, names: &[Name], list: &mut Vec<Term>) -> Result<(), Unlisted>
    requires stands { Stands pool.now }
    requires expression { IsExpression term (forest pool.now) }
    requires listed { (s : Summand) × (v : Polynomial) × IsSummandTree (names_of names.now) s (plain (tree_at term (forest pool.now)))
        × IsListOf (names_of names.now) list.old.items v }
    ensures listed { (s : Summand) (v : Polynomial) → IsSummandTree (names_of names.now) s (plain (tree_at term (forest pool.now)))
        → IsListOf (names_of names.now) list.old.items v → OnOk result (IsListOf (names_of names.now) list.new.items (v ++ s ∷ [])) }
{
    let monomial = packed_monomial(pool, term, names)?;
    let coefficient = coefficient(pool, term);
    match insert(
        list,
        Term {
            monomial,
            coefficient,
        },
    ) {
        Ok(()) => Ok(()),
        Err(_) => Err(Unlisted::Terms),
    }
}
