//! Elimination of names.
ghost use Rattle.std.specs.Prelude.{◌≡◌, ◌≤◌, ◌<◌, map, length, [], Ok, Err, Some, None, IfOk, IfErr, OnOk, ◌+◌, not, position};
ghost use Rattle.breakers.specs.Breakers.{CalmChecks};
ghost use Rattle.breakers.specs.Watch.{states};
ghost use Rattle.linear_solve.specs.Checks.{name_checks};
ghost use Rattle.linear_solve.specs.Elimination.{cleared, cleared_pivot, first_with, others, row_at, settled, settled_by, settled_up_to};
ghost use Rattle.linear_solve.specs.Rows.{entry, scaled};
ghost use Rattle.calc_terms.specs.Fractions.{inverse, is_zero_fraction};
ghost use Rattle.linear_solve.specs.Faults.{OfOverflow, StopsAfter};
ghost use Rattle.linear_solve.specs.Fitting.{each};
ghost use Rattle.linear_solve.specs.Told.{entries_of, misfit_of, pivot_of};

use crate::fault::SolveFault;
use crate::row::{EQUATION_LIMIT, EquationRow, NAME_LIMIT};
use arrayvec::ArrayVec;
use breakers::{Breaker, Watch};
use rational128::{Overflow, invert};

/// The rows of equations while names are eliminated.
#[derive(Drop)]
pub(crate) struct Elimination {
    /// For each name that was taken the row of its pivot, where it has one.
    pub(crate) pivots: ArrayVec<Option<EquationRow>, NAME_LIMIT>,
    /// The rows that are no pivots.
    pub(crate) left: ArrayVec<EquationRow, EQUATION_LIMIT>,
}

impl Elimination {
    ghost use Rattle.linear_solve.specs.States.{rows_told};

    /// No name was taken yet.
    pub(crate) fn of(rows: ArrayVec<EquationRow, EQUATION_LIMIT>) -> Elimination
        ensures { rows_told result ≡ record { pivots = []; left = map entries_of rows.items } }
    {
        Elimination {
            pivots: ArrayVec::new(),
            left: rows,
        }
    }

    /// The names are taken in order, so many, with a check of the breakers for each.
    #[inline(never)]
    #[tactic(auto, using(crate::proofs::RowLists::settled_stops, crate::proofs::RowLists::settled_next))]
    pub(crate) fn eliminate<B: Breaker>(
        &mut self,
        names: usize,
        watch: &mut Watch<B>,
    ) -> Result<(), SolveFault>
        requires few { names ≤ 6 }
        requires none { (rows_told self.old).pivots ≡ [] }
        ensures ok { OnOk result (settled_up_to names (rows_told self.old) ≡ Ok (rows_told self.new)) }
        ensures overflow { IfErr result (OfOverflow (λ o. settled_up_to names (rows_told self.old) ≡ Err (misfit_of o))) }
        ensures checks { OnOk result (CalmChecks names (states B.state watch.old) (states B.state watch.new)) }
        ensures stops { IfErr result (StopsAfter (name_checks names (rows_told self.old)) (states B.state watch.old) (states B.state watch.new)) }
    {
        for name in 0..names {
            watch.check()?;
            self.settle(name)?;
        }
        Ok(())
    }

    /// The next name is taken.
    fn settle(&mut self, name: usize) -> Result<(), Overflow>
        requires { length (rows_told self.old).pivots < 6 }
        ensures ok { OnOk result (settled name (rows_told self.old) ≡ Ok (rows_told self.new)) }
        ensures one_more { OnOk result (length (rows_told self.new).pivots ≡ length (rows_told self.old).pivots + 1) }
        ensures overflow { IfErr result (λ o. settled name (rows_told self.old) ≡ Err (misfit_of o)) }
    {
        match first_with(name, self.left.as_slice()) {
            Some(at) => self.settle_by(name, at),
            None => {
                self.pivots.push(None);
                Ok(())
            }
        }
    }

    /// The row at a place becomes the pivot of a name, which is cleared from each other row.
    #[inline(never)]
    fn settle_by(&mut self, name: usize, at: usize) -> Result<(), Overflow>
        requires room { length (rows_told self.old).pivots < 6 }
        requires first { first_with name (rows_told self.old).left ≡ Some at }
        ensures ok { OnOk result (settled_by name at (rows_told self.old) ≡ Ok (rows_told self.new)) }
        ensures one_more { OnOk result (length (rows_told self.new).pivots ≡ length (rows_told self.old).pivots + 1) }
        ensures overflow { IfErr result (λ o. settled_by name at (rows_told self.old) ≡ Err (misfit_of o)) }
    {
        let pivot = pivot_row(self.left.as_slice(), name, at)?;
        let mut pivots = cleared_pivots(self.pivots.as_slice(), name, &pivot)?;
        let rows = cleared_others(self.left.as_slice(), name, at, &pivot)?;
        pivots.push(Some(pivot));
        self.pivots = pivots;
        self.left = rows;
        Ok(())
    }
}

/// The place of the first row whose entry at a place is not 0.
pub(crate) fn first_with(at: usize, rows: &[EquationRow]) -> Option<usize>
    ensures { result ≡ first_with at (map entries_of rows.now) }
{
    place_with(at, rows)
}

/// The same, asked of the rows as they are kept.
fn place_with(at: usize, rows: &[EquationRow]) -> Option<usize>
    ensures { result ≡ position (λ row. not (is_zero_fraction (entry at (entries_of row)))) rows.now }
{
    rows.iter().position(|row| !row.get(at).is_zero())
}

/// The row at a place, divided by its entry for a name.
fn pivot_row(rows: &[EquationRow], name: usize, at: usize) -> Result<EquationRow, Overflow>
    requires first { first_with name (map entries_of rows.now) ≡ Some at }
    ensures ok { IfOk result (λ row. scaled (inverse (entry name (row_at at (map entries_of rows.now))))
        (row_at at (map entries_of rows.now)) ≡ Ok (entries_of row)) }
    ensures overflow { IfErr result (λ o. scaled (inverse (entry name (row_at at (map entries_of rows.now))))
        (row_at at (map entries_of rows.now)) ≡ Err (misfit_of o)) }
{
    let row = &rows[at];
    row.scaled(invert(row.get(name)))
}

/// Each pivot without a name.
#[inline(never)]
fn cleared_pivots(
    pivots: &[Option<EquationRow>],
    name: usize,
    pivot: &EquationRow,
) -> Result<ArrayVec<Option<EquationRow>, NAME_LIMIT>, Overflow>
    requires { length pivots.now ≤ 6 }
    ensures ok { IfOk result (λ cleared. each (cleared_pivot name (entries_of pivot.now)) (map pivot_of pivots.now)
        ≡ Ok (map pivot_of cleared.items)) }
    ensures overflow { IfErr result (λ o. each (cleared_pivot name (entries_of pivot.now)) (map pivot_of pivots.now)
        ≡ Err (misfit_of o)) }
{
    let mut cleared = ArrayVec::new();
    for other in pivots {
        let row = cleared_pivot(other, name, pivot)?;
        cleared.push(row);
    }
    Ok(cleared)
}

/// A pivot, if there is one, without a name.
fn cleared_pivot(
    other: &Option<EquationRow>,
    name: usize,
    pivot: &EquationRow,
) -> Result<Option<EquationRow>, Overflow>
    ensures ok { IfOk result (λ row. cleared_pivot name (entries_of pivot.now) (pivot_of other.now) ≡ Ok (pivot_of row)) }
    ensures overflow { IfErr result (λ o. cleared_pivot name (entries_of pivot.now) (pivot_of other.now) ≡ Err (misfit_of o)) }
{
    match other {
        Some(row) => {
            let row = row.cleared(name, pivot)?;
            Ok(Some(row))
        }
        None => Ok(None),
    }
}

/// Each row without a name, but for the one at a place: the first takes its place.
#[inline(never)]
fn cleared_others(
    rows: &[EquationRow],
    name: usize,
    at: usize,
    pivot: &EquationRow,
) -> Result<ArrayVec<EquationRow, EQUATION_LIMIT>, Overflow>
    requires inside { at < length rows.now }
    requires few { length rows.now ≤ 6 }
    ensures ok { IfOk result (λ left. each (cleared name (entries_of pivot.now)) (others at (map entries_of rows.now))
        ≡ Ok (map entries_of left.items)) }
    ensures overflow { IfErr result (λ o. each (cleared name (entries_of pivot.now)) (others at (map entries_of rows.now))
        ≡ Err (misfit_of o)) }
{
    let mut left = ArrayVec::new();
    for place in 1..rows.len() {
        let other = if place == at { 0 } else { place };
        let row = rows[other].cleared(name, pivot)?;
        left.push(row);
    }
    Ok(left)
}
