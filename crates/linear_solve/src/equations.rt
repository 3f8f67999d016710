//! The rows of equations.
ghost use Rattle.std.specs.Prelude.{◌≡◌, ◌≤◌, ◌+◌, ◌++◌, map, length, All, Ok, Err, IfOk, IfErr, OnOk, true};
ghost use Rattle.breakers.specs.Breakers.{CalmChecks};
ghost use Rattle.breakers.specs.Watch.{states};
ghost use Rattle.calc_terms.specs.Leaf.{name_of};
ghost use Rattle.linear_solve.specs.Checks.{equation_checks, side_checks};
ghost use Rattle.linear_solve.specs.Elimination.{difference_of, equation_rows, unit};
ghost use Rattle.linear_solve.specs.Equations.{AreDistinct, IsLinearIn, equation_at, equations_in};
ghost use Rattle.linear_solve.specs.Faults.{OfOverflow, StopsAfter};
ghost use Rattle.linear_solve.specs.Linear.{is_linear};
ghost use Rattle.linear_solve.specs.Told.{entries_of, misfit_of};
ghost use Rattle.tree_handles.specs.Expressions.{IsExpression, plain};
ghost use Rattle.tree_handles.specs.Inside.{tree_at};
ghost use Rattle.tree_handles.specs.Standing.{Stands, forest};

use crate::fault::SolveFault;
use crate::row::{EQUATION_LIMIT, EquationRow, Row, SIDE_LIMIT, one_where};
use crate::side::SideRow;
use crate::sides::side_row;
use arrayvec::ArrayVec;
use breakers::{Breaker, Watch};
use calc_terms::Name;
use node_pool::{Id, Pool};

/// The rows of the equations whose sides have these roots.
#[inline(never)]
pub(crate) fn equation_rows<B: Breaker>(
    pool: &Pool,
    left: &[Id],
    right: &[Id],
    names: &[Name],
    watch: &mut Watch<B>,
) -> Result<ArrayVec<EquationRow, EQUATION_LIMIT>, SolveFault>
    requires stands { Stands pool.now }
    requires left { All (λ i. IsExpression i (forest pool.now)) left.now }
    requires right { All (λ i. IsExpression i (forest pool.now)) right.now }
    requires pairs { length right.now ≡ length left.now }
    requires few { length left.now ≤ 6 }
    requires names { length names.now ≤ 6 }
    requires distinct { AreDistinct (map name_of names.now) }
    requires linear { All (IsLinearIn (map name_of names.now)) (equations_in (forest pool.now) left.now right.now) }
    ensures ok { IfOk result (λ rows. equation_rows (map name_of names.now) (equations_in (forest pool.now) left.now right.now)
        ≡ Ok (map entries_of rows.items)) }
    ensures overflow { IfErr result (OfOverflow (λ o. equation_rows
        (map name_of names.now) (equations_in (forest pool.now) left.now right.now) ≡ Err (misfit_of o))) }
    ensures checks { OnOk result (CalmChecks (equation_checks (map name_of names.now) (equations_in (forest pool.now) left.now right.now))
        (states B.state watch.old) (states B.state watch.new)) }
    ensures stops { IfErr result (StopsAfter (equation_checks (map name_of names.now) (equations_in (forest pool.now) left.now right.now))
        (states B.state watch.old) (states B.state watch.new)) }
{
    let mut rows = ArrayVec::new();
    for at in 0..left.len() {
        let mut row = difference_row(pool, left[at], right[at], names, watch)?;
        push_unit(&mut row, left.len(), at);
        rows.push(row);
    }
    Ok(rows)
}

/// The row of an equation: left minus right.
#[inline(never)]
fn difference_row<B: Breaker>(
    pool: &Pool,
    left: Id,
    right: Id,
    names: &[Name],
    watch: &mut Watch<B>,
) -> Result<EquationRow, SolveFault>
    requires stands { Stands pool.now }
    requires left { IsExpression left (forest pool.now) }
    requires right { IsExpression right (forest pool.now) }
    requires names { length names.now ≤ 6 }
    requires left_linear { is_linear (plain (tree_at left (forest pool.now))) ≡ true }
    requires right_linear { is_linear (plain (tree_at right (forest pool.now))) ≡ true }
    ensures ok { IfOk result (λ row. difference_of (map name_of names.now) (equation_at (forest pool.now) left right)
        ≡ Ok (entries_of row)) }
    ensures overflow { IfErr result (OfOverflow (λ o. difference_of
        (map name_of names.now) (equation_at (forest pool.now) left right) ≡ Err (misfit_of o))) }
    ensures checks { OnOk result (CalmChecks (side_checks (map name_of names.now) (equation_at (forest pool.now) left right))
        (states B.state watch.old) (states B.state watch.new)) }
    ensures stops { IfErr result (StopsAfter (side_checks (map name_of names.now) (equation_at (forest pool.now) left right))
        (states B.state watch.old) (states B.state watch.new)) }
{
    let mut left_row = SideRow::none();
    side_row(pool, left, names, watch, &mut left_row)?;
    let mut right_row = SideRow::none();
    side_row(pool, right, names, watch, &mut right_row)?;
    let row = left_row.row().plus(&right_row.row().negated())?;
    Ok(widened(&row))
}

/// The same row, with room for an entry for each equation.
fn widened(row: &Row<SIDE_LIMIT>) -> EquationRow
    ensures { entries_of result ≡ entries_of row.now }
{
    let mut wide = EquationRow::new();
    for at in 0..row.len() {
        wide.push(row.get(at));
    }
    wide
}

/// An entry for each of so many equations: 1 for the one at a place, and 0 for the others.
fn push_unit(row: &mut EquationRow, equations: usize, own: usize)
    requires { length (entries_of row.old) + equations ≤ 13 }
    ensures { entries_of row.new ≡ entries_of row.old ++ unit equations own }
{
    for at in 0..equations {
        row.push(one_where(at == own));
    }
}
