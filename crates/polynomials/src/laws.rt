//! Laws of polynomials, each the contract of a function without a body.
ghost use Rattle.std.specs.Prelude.{ℕ, ◌≡◌, ◌<◌, ◌^◌};
ghost use Rattle.polynomials.specs.Packed.{monomial_of};
ghost use Rattle.polynomials.specs.Polynomials.{AreSame, Monomial, Polynomial, coefficient_at};

/// Polynomials that are the same have the same coefficients.
#[tactic(auto, using(crate::proofs::Coefficients::same_coefficient))]
pub fn same_coefficients()
    ensures { (v w : Polynomial) (m : Monomial) → AreSame v w → coefficient_at m v ≡ coefficient_at m w }
{}

/// Different numbers of 64 bits are different monomials.
#[tactic(auto, using(crate::proofs::Coefficients::one_packed),)]
pub fn one_packed_monomial()
    ensures { (k l : ℕ) → k < 2 ^ 64 → l < 2 ^ 64 → monomial_of k ≡ monomial_of l → k ≡ l }
{}
