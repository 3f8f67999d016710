//! Rationals in rising order.
ghost use Rattle.std.specs.Prelude.{◌≡◌, ◌≢◌, ◌<◌, ◌≤◌, ℕ, suc, [], length, map, slice_index_or};
ghost use Rattle.calc_terms.specs.Fractions.{fraction_cmp, zero_fraction};
ghost use Rattle.calc_terms.specs.Rat.{value_of};
ghost use Rattle.equation_roots.specs.Factorings.{AreRising, AreRising_prop};

use arrayvec::ArrayVec;
use calc_terms::Rat;
use rational128::compare;
use std::cmp::Ordering;

/// So many rationals are listed at most.
pub const DEGREE_LIMIT: usize = 32;

/// One rational. An unused place holds 0.
#[derive(Clone, Copy)]
struct Entry {
    value: Rat,
}

impl Default for Entry {
    fn default() -> Entry {
        Entry {
            value: Rat::whole(0),
        }
    }
}

/// Rationals of which none is less than the one before it.
#[derive(Drop)]
pub struct Rationals {
    entries: ArrayVec<Entry, DEGREE_LIMIT>,
    ghost rising: { AreRising (map (λ e. value_of e.value) entries.items) } by { AreRising_prop (map (λ e. value_of e.value) entries.items) },
}

impl Rationals {
    ghost use Rattle.equation_roots.specs.Rationals.{IsInserted, rationals_of};
    ghost use Rattle.std.specs.declared.cmp.Ordering.TheVariants.{Less};

    /// No rationals.
    pub(crate) fn new() -> Rationals
        ensures { rationals_of result ≡ [] }
    {
        Rationals {
            entries: ArrayVec::new(),
        }
    }

    /// How many there are.
    pub fn len(&self) -> usize
        ensures value { result ≡ length (rationals_of self.now) }
        ensures limit { result ≤ 32 }
    {
        self.entries.len()
    }

    /// The rational at a place.
    pub fn get(&self, at: usize) -> Rat
        requires { at < length (rationals_of self.now) }
        ensures { value_of result ≡ slice_index_or (rationals_of self.now) at zero_fraction }
    {
        self.entries.as_slice()[at].value
    }

    /// One rational more, before the first that is above it.
    pub(crate) fn insert(&mut self, q: Rat)
        requires { length (rationals_of self.old) < 32 }
        ensures { IsInserted (value_of q) (rationals_of self.old) (rationals_of self.new) }
    {
        let at = self.place(q);
        self.entries.insert(at, Entry { value: q });
    }

    /// Where the first is that is above it.
    fn place(&self, q: Rat) -> usize
        ensures within { result ≤ length (rationals_of self.now) }
        ensures before { (k : ℕ) → result ≡ suc k → fraction_cmp (value_of q) (slice_index_or (rationals_of self.now) k zero_fraction) ≢ Less }
        ensures after { result < length (rationals_of self.now)
            → fraction_cmp (slice_index_or (rationals_of self.now) result zero_fraction) (value_of q) ≢ Less }
    {
        for at in 0..self.len() {
            if let Ordering::Less = compare(q, self.get(at)) {
                return at;
            }
        }
        self.len()
    }
}
