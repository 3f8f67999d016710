//! The row of a side: one entry for each name, and then a constant.
ghost use Rattle.std.specs.Prelude.{◌≡◌, ◌≤◌, ◌<◌, map, length, Ok, Err, IfOk, IfErr, false};
ghost use Rattle.calc_terms.specs.Fractions.{is_zero_fraction};
ghost use Rattle.calc_terms.specs.Leaf.{name_of};
ghost use Rattle.calc_terms.specs.Rat.{value_of};
ghost use Rattle.linear_solve.specs.Sides.{constant_of, constant_row, difference_row, name_row};
ghost use Rattle.linear_solve.specs.Sides.{over_both, product_row, quotient_row, sum_row};
ghost use Rattle.linear_solve.specs.Rows.{negated};

use crate::row::{Row, SIDE_LIMIT, one_where};
use calc_terms::{Name, Rat};
use rational128::{Overflow, invert};

/// The row of a tree, and whether the tree holds a name.
#[derive(Drop)]
pub(crate) struct SideRow {
    named: bool,
    row: Row<SIDE_LIMIT>,
}

impl SideRow {
    ghost use Rattle.linear_solve.specs.Told.{entries_of, misfit_of, side_of};

    /// A row without entries.
    pub(crate) fn none() -> SideRow {
        SideRow {
            named: false,
            row: Row::new(),
        }
    }

    /// The row of a rational.
    pub(crate) fn constant(names: &[Name], value: Rat) -> SideRow
        requires { length names.now ≤ 6 }
        ensures { side_of result ≡ constant_row (map name_of names.now) (value_of value) }
    {
        let mut row = Row::new();
        for _ in names {
            row.push(Rat::whole(0));
        }
        row.push(value);
        SideRow { named: false, row }
    }

    /// The row of a name.
    pub(crate) fn name(names: &[Name], name: Name) -> SideRow
        requires { length names.now ≤ 6 }
        ensures { side_of result ≡ name_row (map name_of names.now) (name_of name) }
    {
        let mut row = Row::new();
        for other in names {
            row.push(one_where(other.bytes() == name.bytes()));
        }
        row.push(Rat::whole(0));
        SideRow { named: true, row }
    }

    /// The entries.
    pub(crate) fn row(&self) -> &Row<SIDE_LIMIT>
        ensures { entries_of result.now ≡ (side_of self.now).entries }
    {
        &self.row
    }

    pub(crate) fn plus(&self, other: &SideRow) -> Result<SideRow, Overflow>
        ensures ok { IfOk result (λ row. sum_row (side_of self.now) (side_of other.now) ≡ Ok (side_of row)) }
        ensures overflow { IfErr result (λ o. sum_row (side_of self.now) (side_of other.now) ≡ Err (misfit_of o)) }
    {
        let row = self.row.plus(&other.row)?;
        Ok(self.over_both(other, row))
    }

    pub(crate) fn minus(&self, other: &SideRow) -> Result<SideRow, Overflow>
        ensures ok { IfOk result (λ row. difference_row (side_of self.now) (side_of other.now) ≡ Ok (side_of row)) }
        ensures overflow { IfErr result (λ o. difference_row (side_of self.now) (side_of other.now) ≡ Err (misfit_of o)) }
    {
        let row = self.row.plus(&other.row.negated())?;
        Ok(self.over_both(other, row))
    }

    /// The product, where `names` is the number of names: the one that holds a name times the constant of the other.
    pub(crate) fn times(&self, other: &SideRow, names: usize) -> Result<SideRow, Overflow>
        ensures ok { IfOk result (λ row. product_row names (side_of self.now) (side_of other.now) ≡ Ok (side_of row)) }
        ensures overflow { IfErr result (λ o. product_row names (side_of self.now) (side_of other.now) ≡ Err (misfit_of o)) }
    {
        let row = if other.named {
            other.row.scaled(self.constant_behind(names))?
        } else {
            self.row.scaled(other.constant_behind(names))?
        };
        Ok(self.over_both(other, row))
    }

    /// The quotient by a row without a name.
    #[tactic(auto, using(crate::proofs::Entries::nonzero_numerator))]
    pub(crate) fn over(&self, other: &SideRow, names: usize) -> Result<SideRow, Overflow>
        requires divisor { is_zero_fraction (constant_of names (side_of other.now)) ≡ false }
        ensures ok { IfOk result (λ row. quotient_row names (side_of self.now) (side_of other.now) ≡ Ok (side_of row)) }
        ensures overflow { IfErr result (λ o. quotient_row names (side_of self.now) (side_of other.now) ≡ Err (misfit_of o)) }
    {
        let row = self.row.scaled(invert(other.constant_behind(names)))?;
        Ok(self.over_both(other, row))
    }

    pub(crate) fn negated(&self) -> SideRow
        ensures { side_of result ≡ record (side_of self.now) { entries = negated (side_of self.now).entries } }
    {
        SideRow {
            named: self.named,
            row: self.row.negated(),
        }
    }

    /// The constant.
    fn constant_behind(&self, names: usize) -> Rat
        ensures { value_of result ≡ constant_of names (side_of self.now) }
    {
        self.row.get(names)
    }

    /// The row of a node over the trees of two rows.
    fn over_both(&self, other: &SideRow, row: Row<SIDE_LIMIT>) -> SideRow
        ensures { side_of result ≡ over_both (side_of self.now) (side_of other.now) (entries_of row) }
    {
        SideRow {
            named: self.named || other.named,
            row,
        }
    }
}
