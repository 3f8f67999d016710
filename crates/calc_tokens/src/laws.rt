//! Laws of the tokens of a line, each the contract of a function without a body.
ghost use Rattle.std.specs.Prelude.{◌≡◌, ◌⊎◌, ℕ, List};
ghost use Rattle.calc_language.specs.Tokens.{Token, Scans};
ghost use Rattle.calc_tokens.specs.Placed.{Placed, bare};
ghost use Rattle.calc_tokens.specs.Scanned.{AreTokensOf, IsFirstWide};

/// A line is cut in one way.
pub fn one_list_of_tokens()
    ensures { (line : List ℕ) (ts us : List Placed) → AreTokensOf ts line → AreTokensOf us line → ts ≡ us }
{}

/// The tokens with places are those of the language; only literals that are too wide are left out.
pub fn tokens_of_the_language()
    ensures only { (line : List ℕ) (ts : List Placed) → AreTokensOf ts line → Scans line (bare ts) }
    ensures all { (line : List ℕ) (us : List Token) → Scans line us →
        ((ts : List Placed) × AreTokensOf ts line × (bare ts ≡ us)) ⊎ ((at : ℕ) × IsFirstWide line at) }
{}
