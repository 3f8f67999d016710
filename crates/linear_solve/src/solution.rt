//! What is answered for equations.
ghost use Rattle.std.specs.Prelude.{◌≡◌, ◌≤◌, ◌==◌, map, length, Ok, Err, IfOk, IfErr, false, if◌then◌else◌};
ghost use Rattle.std.specs.List.{range_with_len};
ghost use Rattle.calc_terms.specs.Fractions.{is_zero_fraction, negative, zero_fraction};
ghost use Rattle.calc_terms.specs.Rat.{value_of};
ghost use Rattle.linear_solve.specs.Forms.{answer_of, form_of, forms_of, multipliers};
ghost use Rattle.linear_solve.specs.Rows.{entry};
ghost use Rattle.linear_solve.specs.Solutions.{answer_told, form_told};
ghost use Rattle.linear_solve.specs.States.{rows_told};
ghost use Rattle.linear_solve.specs.Told.{entries_of, misfit_of, pivot_of};

use crate::elimination::{Elimination, first_with};
use crate::row::{EquationRow, NAME_LIMIT, NameRow};
use arrayvec::ArrayVec;
use calc_terms::Rat;
use rational128::{Overflow, invert, neg};

/// What is known of a name.
#[derive(Drop)]
pub enum Line {
    /// It may have any value.
    Free,
    /// It is the constant and the multiples, one for each name.
    Bound { constant: Rat, coefs: NameRow },
}

impl Default for Line {
    fn default() -> Line {
        Line::Free
    }
}

/// The solutions of equations.
#[derive(Drop)]
pub enum Solution {
    /// There is none: these multiples of left minus right, one for each equation, come to 1.
    Never(EquationRow),
    /// A line for each name.
    Solved(ArrayVec<Line, NAME_LIMIT>),
}

/// What the rows say once the names, so many, are eliminated.
#[inline(never)]
pub(crate) fn solution_by(state: &Elimination, names: usize) -> Result<Solution, Overflow>
    requires { names ≤ 6 }
    ensures ok { IfOk result (λ s. answer_of names (rows_told state.now) ≡ Ok (answer_told s)) }
    ensures overflow { IfErr result (λ o. answer_of names (rows_told state.now) ≡ Err (misfit_of o)) }
{
    let left = state.left.as_slice();
    match first_with(names, left) {
        Some(at) => {
            let never = multipliers(&left[at], names)?;
            Ok(Solution::Never(never))
        }
        None => Ok(Solution::Solved(lines(state.pivots.as_slice(), names))),
    }
}

/// The entries of a row for the equations, divided by its constant.
#[tactic(auto, using(crate::proofs::Entries::nonzero_numerator))]
fn multipliers(row: &EquationRow, names: usize) -> Result<EquationRow, Overflow>
    requires names { names ≤ 6 }
    requires constant { is_zero_fraction (entry names (entries_of row.now)) ≡ false }
    ensures ok { IfOk result (λ r. multipliers names (entries_of row.now) ≡ Ok (entries_of r)) }
    ensures overflow { IfErr result (λ o. multipliers names (entries_of row.now) ≡ Err (misfit_of o)) }
{
    row.behind(names + 1).scaled(invert(row.get(names)))
}

/// The lines of the names, by their pivots.
fn lines(pivots: &[Option<EquationRow>], names: usize) -> ArrayVec<Line, NAME_LIMIT>
    requires pivots { length pivots.now ≤ 6 }
    requires names { names ≤ 6 }
    ensures { map form_told result.items ≡ forms_of names (map pivot_of pivots.now) }
{
    let mut lines = ArrayVec::new();
    for at in 0..pivots.len() {
        lines.push(line_of(&pivots[at], at, names));
    }
    lines
}

/// The line of one name.
fn line_of(pivot: &Option<EquationRow>, at: usize, names: usize) -> Line
    requires { names ≤ 6 }
    ensures { form_told result ≡ form_of names at (pivot_of pivot.now) }
{
    match pivot {
        Some(row) => Line::Bound {
            constant: neg(row.get(names)),
            coefs: multiples(row, at, names),
        },
        None => Line::Free,
    }
}

/// The multiples of the names in the form of one of them.
fn multiples(row: &EquationRow, own: usize, names: usize) -> NameRow
    requires { names ≤ 6 }
    ensures { entries_of result ≡ map (λ j. if j == own then zero_fraction else negative (entry j (entries_of row.now)))
        (range_with_len 0 names) }
{
    let mut coefs = NameRow::new();
    for at in 0..names {
        coefs.push(multiple(row, own, at));
    }
    coefs
}

/// The multiple of one name in the form of another.
#[tactic(auto, using(calc_terms::proofs::SmallFractions::zero_value))]
fn multiple(row: &EquationRow, own: usize, at: usize) -> Rat
    ensures { value_of result ≡ (if at == own then zero_fraction else negative (entry at (entries_of row.now))) }
{
    if at == own {
        Rat::whole(0)
    } else {
        neg(row.get(at))
    }
}
