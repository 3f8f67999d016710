//! Laws of square classes and of clean numbers, each the contract of a function without a body.
ghost use Rattle.std.specs.Prelude.{◌≡◌, ◌↔◌, ℕ, ◌*◌, ◌/◌, ◌^◌, ◌<◌, ◌≤◌, true};
ghost use Rattle.std.specs.Int.{◌∣◌, IsGcd};
ghost use Rattle.calc_algebra.specs.SquareClasses.{are_alike};
ghost use Rattle.calc_algebra.specs.Clean.{trial_limit, IsClean};

/// Radicands are alike where their product is a square above 0, and this is an equivalence.
pub fn alike_is_an_equivalence()
    ensures square { (r s : ℕ) → (are_alike r s ≡ true) ↔ ((t : ℕ) × (0 < t) × (t * t ≡ r * s)) }
    ensures reflexive { (r : ℕ) → 0 < r → are_alike r r ≡ true }
    ensures symmetric { (r s : ℕ) → are_alike r s ≡ true → are_alike s r ≡ true }
    ensures transitive { (r s t : ℕ) → are_alike r s ≡ true → are_alike s t ≡ true
        → are_alike r t ≡ true }
{}

/// No square of a number above 1 divides a clean number below 10^12.
pub fn clean_below_limit_is_square_free()
    ensures { (r d : ℕ) → IsClean r → r < 10 ^ 12 → 1 < d → d * d ∣ r → ⊥ }
{}

/// What is left of a clean number without a square factor is clean.
pub fn clean_without_a_square()
    ensures { (g a : ℕ) → IsClean (g * a * a) → IsClean g }
{}

/// The product of two clean numbers over what they share has no square of a number from 2 to the trial limit, and is
/// clean where both are below 10^12.
pub fn clean_products_over_what_is_shared()
    ensures no_square { (r s g d : ℕ) → IsClean r → IsClean s → IsGcd r s g → 2 ≤ d → d ≤ trial_limit → d * d ∣ (r / g) * (s / g) → ⊥ }
    ensures clean { (r s g : ℕ) → IsClean r → IsClean s → r < 10 ^ 12 → s < 10 ^ 12 → IsGcd r s g → IsClean ((r / g) * (s / g)) }
{}
