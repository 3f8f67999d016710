//! The factors of a term, read in one walk over its nodes.
ghost use Rattle.std.specs.Prelude.{drop};
ghost use Rattle.expand_forms.specs.Listed.{AreAhead};
ghost use Rattle.expand_forms.specs.Merging.{BeginsWith};
ghost use Rattle.expansions.specs.Polynomials.{Monomial};
ghost use Rattle.expansions.specs.Terms.{HasMonomial};
ghost use Rattle.tree_handles.specs.Expressions.{IsExpression, plain};
ghost use Rattle.tree_handles.specs.Inside.{tree_at};
ghost use Rattle.tree_handles.specs.Standing.{Stands, forest};

use crate::factors::{Factor, first_factor};
use calc_terms::{Kind, Rat};
use node_pool::{Id, Pool};
use tree_handles::{Nodes, kind, name, nodes_below, nodes_of, rational};

/// The nodes of a term's factors.
pub(crate) fn factor_nodes(pool: &Pool, term: Id) -> Nodes<'_>
    requires stands { Stands pool.now }
    requires expression { IsExpression term (forest pool.now) }
    ensures { (m : Monomial) → HasMonomial m (plain (tree_at term (forest pool.now))) → AreAhead m result (forest pool.now) }
{
    match kind(pool, term) {
        Kind::Num => nodes_below(pool, term, 0),
        Kind::Mult => nodes_below(pool, term, first_factor(pool, term)),
        _ => nodes_of(pool, term),
    }
}

/// The next factor of a walk.
#[inline(always)]
pub(crate) fn next_read(pool: &Pool, nodes: &mut Nodes<'_>) -> Option<Factor>
    requires stands { Stands pool.now }
    requires ahead { (m : Monomial) × AreAhead m nodes.old (forest pool.now) }
    ensures factor { (m : Monomial) → AreAhead m nodes.old (forest pool.now) → BeginsWith result m }
    ensures ahead { (m : Monomial) → AreAhead m nodes.old (forest pool.now) → AreAhead (drop 1 m) nodes.new (forest pool.now) }
{
    let top = nodes.next()?;
    match top.kind {
        Kind::Sym => Some(Factor {
            name: name(pool, top.id),
            exponent: Rat::whole(1),
        }),
        _ => {
            let base = nodes.next().unwrap();
            let exponent = nodes.next().unwrap();
            Some(Factor {
                name: name(pool, base.id),
                exponent: rational(pool, exponent.id),
            })
        }
    }
}
