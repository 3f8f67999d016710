//! The rows of sides, made in postfix order, with one check of the breakers for each node.
ghost use Rattle.std.specs.Prelude.{◌≡◌, ◌≤◌, ◌<◌, map, length, Ok, Err, IfOk, IfErr, OnOk, true, false};
ghost use Rattle.breakers.specs.Breakers.{CalmChecks};
ghost use Rattle.breakers.specs.Watch.{states};
ghost use Rattle.calc_terms.specs.declared.kind.Kind.TheVariants.{Div};
ghost use Rattle.calc_terms.specs.Fractions.{is_zero_fraction};
ghost use Rattle.calc_terms.specs.Leaf.{name_of};
ghost use Rattle.linear_solve.specs.Checks.{row_checks};
ghost use Rattle.linear_solve.specs.Faults.{OfOverflow, StopsAfter};
ghost use Rattle.linear_solve.specs.Fitting.{and_then};
ghost use Rattle.linear_solve.specs.Linear.{is_linear};
ghost use Rattle.linear_solve.specs.Sides.{bare_row, constant_of, joined_row, row_of, signed_row};
ghost use Rattle.linear_solve.specs.Told.{misfit_of, side_of, side_told};
ghost use Rattle.tree_handles.specs.Expressions.{IsExpression, plain};
ghost use Rattle.tree_handles.specs.Inside.{tree_at};
ghost use Rattle.tree_handles.specs.Standing.{Stands, forest};

use crate::fault::SolveFault;
use crate::side::SideRow;
use breakers::{Breaker, Watch};
use calc_terms::{Kind, Name, Rat};
use node_pool::{Id, Pool};
use rational128::Overflow;
use std::mem::swap;
use tree_handles::{child_id, children, kind, name, rational};

/// The row of a linear tree, in place of the row that stood there.
///
/// All rows of a node's children are made before its own. They are joined as they come, so that one is kept at a time;
/// where two of them do not fit, that is told once the others are made. A child's row is made by a call within its
/// parent's, so the machine's stack that it takes grows with the tree's depth: each call keeps one row.
pub(crate) fn side_row<B: Breaker>(
    pool: &Pool,
    t: Id,
    names: &[Name],
    watch: &mut Watch<B>,
    row: &mut SideRow,
) -> Result<(), SolveFault>
    requires stands { Stands pool.now }
    requires expression { IsExpression t (forest pool.now) }
    requires linear { is_linear (plain (tree_at t (forest pool.now))) ≡ true }
    requires names { length names.now ≤ 6 }
    ensures ok { OnOk result (row_of (map name_of names.now) (plain (tree_at t (forest pool.now))) ≡ Ok (side_of row.new)) }
    ensures overflow { IfErr result (OfOverflow (λ o. row_of (map name_of names.now) (plain (tree_at t (forest pool.now)))
        ≡ Err (misfit_of o))) }
    ensures checks { OnOk result (CalmChecks (row_checks (map name_of names.now) (plain (tree_at t (forest pool.now))))
        (states B.state watch.old) (states B.state watch.new)) }
    ensures stops { IfErr result (StopsAfter (row_checks (map name_of names.now) (plain (tree_at t (forest pool.now))))
        (states B.state watch.old) (states B.state watch.new)) }
{
    let kind = kind(pool, t);
    set_bare_row(pool, t, names, row);
    let mut fits = Ok(());
    let mut next = SideRow::none();
    for at in 0..children(pool, t) {
        side_row(pool, child_id(pool, t, at), names, watch, &mut next)?;
        fits = join_row(kind, names.len(), fits, row, at, &mut next);
    }
    watch.check()?;
    fits?;
    sign_row(kind, row);
    Ok(())
}

/// The row of a node without children, in place of another. What a call needs for it is gone when the children's rows
/// are made.
#[inline(never)]
fn set_bare_row(pool: &Pool, t: Id, names: &[Name], row: &mut SideRow)
    requires stands { Stands pool.now }
    requires expression { IsExpression t (forest pool.now) }
    requires names { length names.now ≤ 6 }
    ensures { side_of row.new ≡ bare_row (map name_of names.now) (plain (tree_at t (forest pool.now))) }
{
    *row = bare_row(pool, t, names);
}

/// The row of a node without children.
fn bare_row(pool: &Pool, t: Id, names: &[Name]) -> SideRow
    requires stands { Stands pool.now }
    requires expression { IsExpression t (forest pool.now) }
    requires names { length names.now ≤ 6 }
    ensures { side_of result ≡ bare_row (map name_of names.now) (plain (tree_at t (forest pool.now))) }
{
    match kind(pool, t) {
        Kind::Num => SideRow::constant(names, rational(pool, t)),
        Kind::Sym => SideRow::name(names, name(pool, t)),
        Kind::Mult => SideRow::constant(names, Rat::whole(1)),
        _ => SideRow::constant(names, Rat::whole(0)),
    }
}

/// The rows of a node's children so far, joined, with the next one, unless two of them did not fit.
#[inline(never)]
fn join_row(
    kind: Kind,
    names: usize,
    fits: Result<(), Overflow>,
    row: &mut SideRow,
    at: u16,
    next: &mut SideRow,
) -> Result<(), Overflow>
    requires divisor { kind ≡ Div → 0 < at → is_zero_fraction (constant_of names (side_of next.old)) ≡ false }
    ensures first { at ≡ 0 → side_told result row.new ≡ and_then (side_told fits row.old) (λ so_far. Ok (side_of next.old)) }
    ensures later { 0 < at → side_told result row.new ≡ and_then (side_told fits row.old) (λ so_far. joined_row names kind so_far (side_of next.old)) }
{
    fits?;
    if at == 0 {
        swap(row, next);
        return Ok(());
    }
    *row = joined_row(kind, names, row, next)?;
    Ok(())
}

/// The rows of a node's children so far, joined, with the next one.
fn joined_row(kind: Kind, names: usize, row: &SideRow, next: &SideRow) -> Result<SideRow, Overflow>
    requires divisor { kind ≡ Div → is_zero_fraction (constant_of names (side_of next.now)) ≡ false }
    ensures ok { IfOk result (λ r. joined_row names kind (side_of row.now) (side_of next.now) ≡ Ok (side_of r)) }
    ensures overflow { IfErr result (λ o. joined_row names kind (side_of row.now) (side_of next.now) ≡ Err (misfit_of o)) }
{
    match kind {
        Kind::Mult => row.times(next, names),
        Kind::Sub => row.minus(next),
        Kind::Div => row.over(next, names),
        _ => row.plus(next),
    }
}

/// The row of an opposite is negated.
#[inline(never)]
fn sign_row(kind: Kind, row: &mut SideRow)
    ensures { side_of row.new ≡ signed_row kind (side_of row.old) }
{
    if kind == Kind::Neg {
        *row = row.negated();
    }
}
