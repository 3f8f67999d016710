//! Polynomials with whole coefficients, in an array.
ghost use Rattle.std.specs.Prelude.{◌≡◌, ◌<◌, ◌≤◌, ◌+◌, ◌^◌, ℤ, pos, nat_abs, [], ◌∷◌, ◌++◌, length, drop, slice_index_or, All};
ghost use Rattle.equation_roots.specs.Wholes.{leading, read};

use arrayvec::ArrayVec;

/// So many coefficients a polynomial has at most.
pub(crate) const COEFFICIENT_LIMIT: usize = 33;

/// The coefficients from that of the power 0 on.
#[derive(Drop)]
pub(crate) struct Wholes {
    coefficients: ArrayVec<i128, COEFFICIENT_LIMIT>,
    ghost fit: { All (λ (z : ℤ). nat_abs z < 2 ^ 127) coefficients.items },
}

impl Wholes {
    ghost use Rattle.equation_roots.specs.Told.{wholes_of};

    /// No coefficients.
    pub(crate) fn new() -> Wholes
        ensures { wholes_of result ≡ [] }
    {
        Wholes {
            coefficients: ArrayVec::new(),
        }
    }

    pub(crate) fn len(&self) -> usize
        ensures value { result ≡ length (wholes_of self.now) }
        ensures limit { result ≤ 33 }
    {
        self.coefficients.len()
    }

    /// The coefficient at a place.
    pub(crate) fn get(&self, at: usize) -> i128
        requires { at < length (wholes_of self.now) }
        ensures value { result ≡ slice_index_or (wholes_of self.now) at (pos 0) }
        ensures fits { nat_abs result < 2 ^ 127 }
    {
        self.coefficients.as_slice()[at]
    }

    /// One coefficient more.
    pub(crate) fn push(&mut self, coefficient: i128)
        requires room { length (wholes_of self.old) < 33 }
        requires fits { nat_abs coefficient < 2 ^ 127 }
        ensures { wholes_of self.new ≡ wholes_of self.old ++ coefficient ∷ [] }
    {
        self.coefficients.push(coefficient);
    }

    /// The last coefficient.
    pub(crate) fn leading(&self) -> i128
        requires { 0 < length (wholes_of self.now) }
        ensures value { result ≡ leading (wholes_of self.now) }
        ensures fits { nat_abs result < 2 ^ 127 }
    {
        self.get(self.len() - 1)
    }

    /// The coefficient at a place, counted from the constant or from the leading coefficient.
    pub(crate) fn entry(&self, backward: bool, at: usize) -> i128
        requires { at < length (wholes_of self.now) }
        ensures value { result ≡ slice_index_or (read backward (wholes_of self.now)) at (pos 0) }
        ensures fits { nat_abs result < 2 ^ 127 }
    {
        if backward {
            self.get(self.len() - 1 - at)
        } else {
            self.get(at)
        }
    }

    /// The same coefficients, in the opposite order where it says so.
    pub(crate) fn copied(&self, backward: bool) -> Wholes
        ensures { wholes_of result ≡ read backward (wholes_of self.now) }
    {
        let mut copy = Wholes::new();
        for at in 0..self.len() {
            copy.push(self.entry(backward, at));
        }
        copy
    }

    /// All but the constant.
    pub(crate) fn without_constant(&self) -> Wholes
        requires { 0 < length (wholes_of self.now) }
        ensures { wholes_of result ≡ drop 1 (wholes_of self.now) }
    {
        let mut rest = Wholes::new();
        for at in 0..self.len() - 1 {
            rest.push(self.get(at + 1));
        }
        rest
    }
}
