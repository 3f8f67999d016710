//! Laws of lines, each the contract of a function without a body.
ghost use Rattle.std.specs.Prelude.{◌≡◌, ◌↔◌, ◌≤◌, ◌-◌, ℕ, List, Option, Ok};
ghost use Rattle.calc_language.specs.Tokens.{Token};
ghost use Rattle.calc_terms.specs.Trees.{Tree, size};
ghost use Rattle.calc_parser.specs.Building.{building};
ghost use Rattle.calc_parser.specs.Lines.{IsLine};

/// Tokens are a line in at most one way.
#[tactic(auto, using(crate::proofs::Checks::one_line))]
pub fn one_line()
    ensures { (ts : List Token) (x y : Option (List ℕ)) (t u : Tree) → IsLine ts x t → IsLine ts y u → (x ≡ y) × (t ≡ u) }
{}

/// A tree finds room exactly where its size is at most the free bytes, and takes that many.
#[tactic(auto, using(crate::proofs::Sizes::building_takes_the_size))]
pub fn building_takes_the_size()
    ensures { (free : ℕ) (t : Tree) → (building free t ≡ Ok (free - size t)) ↔ (size t ≤ free) }
{}
