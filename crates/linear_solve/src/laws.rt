//! Laws of linear equations, each the contract of a function without a body.
ghost use Rattle.std.specs.Prelude.{◌≡◌, ◌↔◌, ◌≤◌, ◌+◌, List, Ok, All, length};
ghost use Rattle.calc_algebra.specs.Meanings.{Assignment, IsAssignment};
ghost use Rattle.calc_terms.specs.Fractions.{Fraction};
ghost use Rattle.linear_solve.specs.Checks.{solving_checks};
ghost use Rattle.linear_solve.specs.Equations.{AreDistinct, Assigns, Equation, IsLinearIn, SolvesAll, nodes_of_sides};
ghost use Rattle.linear_solve.specs.Forms.{ComeToOne, Form, HaveTheirValues, HoldLaterFreeNames, never, solved};
ghost use Rattle.linear_solve.specs.Sides.{Names};
ghost use Rattle.linear_solve.specs.Solving.{solving};

/// What is calculated for equations says which assignments solve them.
#[tactic(auto, using(crate::proofs::Theorem::solved_where, crate::proofs::Theorem::one_from, crate::proofs::Theorem::never_solved))]
pub fn answers_tell_what_solves()
    // Forms: exactly those that give each bound name the value of its form, in which only free names that come later stand.
    ensures solved { (xs : Names) (es : List Equation) (forms : List Form) → AreDistinct xs → All (IsLinearIn xs) es
        → solving xs es ≡ Ok (solved forms)
        → (f : Assignment) (vs : List Fraction) → IsAssignment f → Assigns f xs vs → SolvesAll f es ↔ HaveTheirValues forms vs }
    ensures later_free { (xs : Names) (es : List Equation) (forms : List Form) → AreDistinct xs → All (IsLinearIn xs) es
        → solving xs es ≡ Ok (solved forms)
        → HoldLaterFreeNames forms }

    // Multipliers: they bring left minus right to 1, so that no assignment does.
    ensures never { (xs : Names) (es : List Equation) (cs : List Fraction) → AreDistinct xs → All (IsLinearIn xs) es
        → solving xs es ≡ Ok (never cs)
        → ComeToOne cs xs es }
    ensures unsolvable { (xs : Names) (es : List Equation) (cs : List Fraction) → AreDistinct xs → All (IsLinearIn xs) es
        → solving xs es ≡ Ok (never cs)
        → (f : Assignment) (vs : List Fraction) → IsAssignment f → Assigns f xs vs → ¬ SolvesAll f es }
{}

/// A calculation makes at most one check for each node of the sides and for each name.
#[tactic(auto, using(crate::proofs::CheckCounts::solving_checks_most))]
pub fn checks_are_few()
    ensures { (xs : Names) (es : List Equation) → solving_checks xs es ≤ nodes_of_sides es + length xs }
{}
