//! Rows of rationals.
ghost use Rattle.std.specs.Prelude.{◌≡◌, ◌<◌, ◌≤◌, ◌+◌, [], ◌∷◌, ◌++◌, drop, length, Ok, Err, IfOk, IfErr, if◌then◌else◌};
ghost use Rattle.calc_terms.specs.Fractions.{is_zero_fraction, one_fraction, zero_fraction};
ghost use Rattle.calc_terms.specs.Rat.{value_of};
ghost use Rattle.linear_solve.specs.Elimination.{cleared};
ghost use Rattle.linear_solve.specs.Rows.{added, entry, negated, scaled, without};

use arrayvec::ArrayVec;
use calc_terms::Rat;
use rational128::{Overflow, add, mul, neg};

/// So many equations are solved at most.
pub(crate) const EQUATION_LIMIT: usize = 6;

/// So many names they have at most.
pub(crate) const NAME_LIMIT: usize = 6;

/// The row of a side has an entry for each name, and a constant.
pub(crate) const SIDE_LIMIT: usize = NAME_LIMIT + 1;

/// The row of an equation has an entry for each equation besides.
pub(crate) const ENTRY_LIMIT: usize = SIDE_LIMIT + EQUATION_LIMIT;

/// A row with at most an entry for each name.
pub type NameRow = Row<NAME_LIMIT>;

/// The row of an equation, or what is left of one.
pub type EquationRow = Row<ENTRY_LIMIT>;

/// One entry of a row. An unused place holds 0.
#[derive(Clone, Copy)]
struct Entry {
    value: Rat,
}

impl Default for Entry {
    fn default() -> Entry {
        Entry {
            value: Rat::whole(0),
        }
    }
}

/// Rationals in a row, at most so many.
#[derive(Drop)]
pub struct Row<const LIMIT: usize> {
    entries: ArrayVec<Entry, LIMIT>,
}

impl<const LIMIT: usize> Default for Row<LIMIT> {
    fn default() -> Row<LIMIT> {
        Row::new()
    }
}

impl<const LIMIT: usize> Row<LIMIT> {
    ghost use Rattle.linear_solve.specs.Told.{entries_of, misfit_of};

    /// A row without entries.
    pub fn new() -> Row<LIMIT>
        ensures { entries_of result ≡ [] }
    {
        Row {
            entries: ArrayVec::new(),
        }
    }

    pub fn len(&self) -> usize
        ensures value { result ≡ length (entries_of self.now) }
        ensures fits { result ≤ LIMIT }
    {
        self.entries.len()
    }

    /// The entry at a place, and 0 past the end.
    pub fn get(&self, at: usize) -> Rat
        ensures { value_of result ≡ entry at (entries_of self.now) }
    {
        let entries = self.entries.as_slice();
        if at < entries.len() {
            entries[at].value
        } else {
            Rat::whole(0)
        }
    }

    pub(crate) fn push(&mut self, value: Rat)
        requires { length (entries_of self.old) < LIMIT }
        ensures { entries_of self.new ≡ entries_of self.old ++ value_of value ∷ [] }
    {
        self.entries.push(Entry { value });
    }

    /// The entries from a place on.
    pub(crate) fn behind(&self, from: usize) -> Row<LIMIT>
        ensures { entries_of result ≡ drop from (entries_of self.now) }
    {
        let mut rest = Row::new();
        for at in from..self.len() {
            rest.push(self.get(at));
        }
        rest
    }

    pub(crate) fn plus(&self, other: &Row<LIMIT>) -> Result<Row<LIMIT>, Overflow>
        ensures ok { IfOk result (λ row. added (entries_of self.now) (entries_of other.now) ≡ Ok (entries_of row)) }
        ensures overflow { IfErr result (λ o. added (entries_of self.now) (entries_of other.now) ≡ Err (misfit_of o)) }
    {
        let mut sums = Row::new();
        for at in 0..self.len().min(other.len()) {
            let sum = add(self.get(at), other.get(at))?;
            sums.push(sum);
        }
        Ok(sums)
    }

    pub(crate) fn negated(&self) -> Row<LIMIT>
        ensures { entries_of result ≡ negated (entries_of self.now) }
    {
        let mut opposites = Row::new();
        for at in 0..self.len() {
            opposites.push(neg(self.get(at)));
        }
        opposites
    }

    pub(crate) fn scaled(&self, factor: Rat) -> Result<Row<LIMIT>, Overflow>
        ensures ok { IfOk result (λ row. scaled (value_of factor) (entries_of self.now) ≡ Ok (entries_of row)) }
        ensures overflow { IfErr result (λ o. scaled (value_of factor) (entries_of self.now) ≡ Err (misfit_of o)) }
    {
        let mut products = Row::new();
        for at in 0..self.len() {
            let product = mul(self.get(at), factor)?;
            products.push(product);
        }
        Ok(products)
    }

    /// The row without a name, by the row of its pivot.
    pub(crate) fn cleared(&self, name: usize, pivot: &Row<LIMIT>) -> Result<Row<LIMIT>, Overflow>
        ensures ok { IfOk result (λ row. cleared name (entries_of pivot.now) (entries_of self.now) ≡ Ok (entries_of row)) }
        ensures overflow { IfErr result (λ o. cleared name (entries_of pivot.now) (entries_of self.now) ≡ Err (misfit_of o)) }
    {
        let multiple = self.get(name);
        if multiple.is_zero() {
            return Ok(self.behind(0));
        }
        self.without(multiple, pivot)
    }

    /// The row without a multiple of another one.
    fn without(&self, multiple: Rat, other: &Row<LIMIT>) -> Result<Row<LIMIT>, Overflow>
        ensures ok { IfOk result (λ row. without (value_of multiple) (entries_of other.now) (entries_of self.now)
            ≡ Ok (entries_of row)) }
        ensures overflow { IfErr result (λ o. without (value_of multiple) (entries_of other.now) (entries_of self.now)
            ≡ Err (misfit_of o)) }
    {
        let mut rest = Row::new();
        for at in 0..self.len().min(other.len()) {
            let removed = mul(neg(multiple), other.get(at))?;
            let difference = add(self.get(at), removed)?;
            rest.push(difference);
        }
        Ok(rest)
    }
}

/// 1 where the test holds, and else 0.
#[tactic(auto, using(calc_terms::proofs::SmallFractions::zero_value, calc_terms::proofs::SmallFractions::one_value))]
pub(crate) fn one_where(test: bool) -> Rat
    ensures { value_of result ≡ (if test then one_fraction else zero_fraction) }
{
    if test { Rat::whole(1) } else { Rat::whole(0) }
}
