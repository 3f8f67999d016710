//! Linear equations solved.
ghost use Rattle.std.specs.Prelude.{◌≡◌, ◌≤◌, ◌+◌, ◌↔◌, ℕ, List, map, length, All, Ok, Err, IfOk, IfErr, OnOk};
ghost use Rattle.breakers.specs.Breakers.{CalmChecks, TripsRose};
ghost use Rattle.breakers.specs.Watch.{states};
ghost use Rattle.calc_algebra.specs.Meanings.{Assignment, IsAssignment};
ghost use Rattle.calc_terms.specs.Fractions.{Fraction};
ghost use Rattle.calc_terms.specs.Leaf.{name_of};
ghost use Rattle.linear_solve.specs.Checks.{name_checks, solving_checks};
ghost use Rattle.linear_solve.specs.Equations.{AreDistinct, Assigns, IsLinearIn, SolvesAll, equations_in, nodes_of_sides};
ghost use Rattle.linear_solve.specs.Faults.{OfOverflow, StopsAfter};
ghost use Rattle.linear_solve.specs.Forms.{ComeToOne, HaveTheirValues, HoldLaterFreeNames};
ghost use Rattle.linear_solve.specs.Solutions.{IfNever, IfSolved, answer_told};
ghost use Rattle.linear_solve.specs.Solving.{rows_at_first, rows_solved, solving};
ghost use Rattle.linear_solve.specs.Told.{entries_of, misfit_of};
ghost use Rattle.tree_handles.specs.Expressions.{IsExpression};
ghost use Rattle.tree_handles.specs.Standing.{Stands, forest};

use crate::elimination::Elimination;
use crate::equations::equation_rows;
use crate::fault::SolveFault;
use crate::row::{EQUATION_LIMIT, EquationRow};
use crate::solution::{Solution, solution_by};
use arrayvec::ArrayVec;
use breakers::{Breaker, Watch};
use calc_terms::Name;
use node_pool::{Id, Pool};

/// The solutions of the equations whose sides have these roots.
///
/// The watch is checked once for each node of the sides, in the order in which their rows are made, and then once for
/// each name before its pivot is sought.
///
/// It is not inlined, nor are its parts: their rows stand on the machine's stack only for as long as they are needed.
#[inline(never)]
#[tactic(auto, using(crate::proofs::Theorem::solved_where, crate::proofs::Theorem::one_from, crate::proofs::Theorem::never_solved, crate::proofs::Theorem::multipliers_are_many, crate::proofs::EquationRows::equations_long))]
pub fn solve<B: Breaker>(
    pool: &Pool,
    left: &[Id],
    right: &[Id],
    names: &[Name],
    watch: &mut Watch<B>,
) -> Result<Solution, SolveFault>
    requires stands { Stands pool.now }
    requires left { All (λ i. IsExpression i (forest pool.now)) left.now }
    requires right { All (λ i. IsExpression i (forest pool.now)) right.now }
    requires pairs { length right.now ≡ length left.now }
    requires few_equations { length left.now ≤ 6 }
    requires few_names { length names.now ≤ 6 }
    requires distinct { AreDistinct (map name_of names.now) }
    requires linear { All (IsLinearIn (map name_of names.now)) (equations_in (forest pool.now) left.now right.now) }

    // Forms: an assignment solves the equations exactly where each bound name has the value of its form, and forms hold
    // only free names that come after their own.
    ensures solved { let xs = map name_of names.now in let es = equations_in (forest pool.now) left.now right.now in
        IfSolved result (λ forms. (f : Assignment) (vs : List Fraction) → IsAssignment f → Assigns f xs vs
        → SolvesAll f es ↔ HaveTheirValues forms vs) }
    ensures later_free { IfSolved result HoldLaterFreeNames }
    ensures all_names { IfSolved result (λ forms. length forms ≡ length names.now) }

    // Multipliers: they bring left minus right to 1, so that no assignment solves the equations.
    ensures never { IfNever result (λ cs. ComeToOne cs (map name_of names.now) (equations_in (forest pool.now) left.now right.now)) }
    ensures all_equations { IfNever result (λ cs. length cs ≡ length left.now) }
    ensures unsolvable { let xs = map name_of names.now in let es = equations_in (forest pool.now) left.now right.now in
        IfNever result (λ cs. (f : Assignment) (vs : List Fraction) → IsAssignment f → Assigns f xs vs → ¬ SolvesAll f es) }

    // The calculation in its order: what it answers, or the first operation that does not fit.
    ensures calculated { IfOk result (λ s. solving (map name_of names.now) (equations_in (forest pool.now) left.now right.now)
        ≡ Ok (answer_told s)) }
    ensures overflow { IfErr result (OfOverflow (λ o. solving
        (map name_of names.now) (equations_in (forest pool.now) left.now right.now) ≡ Err (misfit_of o))) }

    // The checks: one for each node and name, or those up to the one at which an operation does not fit. One that is due there comes first.
    ensures checks { OnOk result (CalmChecks (nodes_of_sides (equations_in (forest pool.now) left.now right.now) + length names.now)
        (states B.state watch.old) (states B.state watch.new)) }
    ensures stops { IfErr result (StopsAfter (solving_checks (map name_of names.now) (equations_in (forest pool.now) left.now right.now))
        (states B.state watch.old) (states B.state watch.new)) }
    ensures by_the_one_whose_trips_rose { (place : ℕ) → (result ≡ Err (SolveFault.Interrupted (record { by = place })))
        ↔ TripsRose (states B.state watch.old) (states B.state watch.new) place }
{
    calculate(pool, left, right, names, watch)
}

/// The calculation in its order.
#[tactic(auto, using(crate::proofs::Results::rows_err))]
fn calculate<B: Breaker>(
    pool: &Pool,
    left: &[Id],
    right: &[Id],
    names: &[Name],
    watch: &mut Watch<B>,
) -> Result<Solution, SolveFault>
    requires stands { Stands pool.now }
    requires left { All (λ i. IsExpression i (forest pool.now)) left.now }
    requires right { All (λ i. IsExpression i (forest pool.now)) right.now }
    requires pairs { length right.now ≡ length left.now }
    requires few_equations { length left.now ≤ 6 }
    requires few_names { length names.now ≤ 6 }
    requires distinct { AreDistinct (map name_of names.now) }
    requires linear { All (IsLinearIn (map name_of names.now)) (equations_in (forest pool.now) left.now right.now) }
    ensures calculated { IfOk result (λ s. solving (map name_of names.now) (equations_in (forest pool.now) left.now right.now)
        ≡ Ok (answer_told s)) }
    ensures overflow { IfErr result (OfOverflow (λ o. solving
        (map name_of names.now) (equations_in (forest pool.now) left.now right.now) ≡ Err (misfit_of o))) }
    ensures checks { OnOk result (CalmChecks (nodes_of_sides (equations_in (forest pool.now) left.now right.now) + length names.now)
        (states B.state watch.old) (states B.state watch.new)) }
    ensures stops { IfErr result (StopsAfter (solving_checks (map name_of names.now) (equations_in (forest pool.now) left.now right.now))
        (states B.state watch.old) (states B.state watch.new)) }
{
    let rows = equation_rows(pool, left, right, names, watch)?;
    solve_rows(rows, names.len(), watch)
}

/// What the rows of equations in so many names say. What it keeps for that is not on the machine's stack while the rows
/// are made.
#[inline(never)]
#[tactic(auto, using(crate::proofs::Results::rows_ok, crate::proofs::Results::settled_err, crate::proofs::Results::answer_err))]
fn solve_rows<B: Breaker>(
    rows: ArrayVec<EquationRow, EQUATION_LIMIT>,
    names: usize,
    watch: &mut Watch<B>,
) -> Result<Solution, SolveFault>
    requires few { names ≤ 6 }
    ensures calculated { IfOk result (λ s. rows_solved names (map entries_of rows.items) ≡ Ok (answer_told s)) }
    ensures overflow { IfErr result (OfOverflow (λ o. rows_solved names (map entries_of rows.items) ≡ Err (misfit_of o))) }
    ensures checks { OnOk result (CalmChecks names (states B.state watch.old) (states B.state watch.new)) }
    ensures stops { IfErr result (StopsAfter (name_checks names (rows_at_first (map entries_of rows.items)))
        (states B.state watch.old) (states B.state watch.new)) }
{
    let mut state = Elimination::of(rows);
    state.eliminate(names, watch)?;
    let solution = solution_by(&state, names)?;
    Ok(solution)
}
