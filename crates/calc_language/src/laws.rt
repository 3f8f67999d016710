//! Laws of the language, each the contract of a function without a body.

ghost use Rattle.std.specs.Prelude.{◌≡◌, ℕ, List};
ghost use Rattle.calc_terms.specs.Trees.{Tree, IsComplete};
ghost use Rattle.calc_language.specs.Tokens.{digits_value};
ghost use Rattle.calc_language.specs.Reads.{Reads};
ghost use Rattle.calc_language.specs.Texts.{decimal, text as text_of, IsWritable};

/// The digits of a number are read as that number.
pub fn decimals_are_read()
    ensures { (n : ℕ) → digits_value 0 (decimal n) ≡ n }
{}

/// A text reads as at most one tree.
pub fn one_tree()
    ensures { (text : List ℕ) (t u : Tree) → Reads text t → Reads text u → t ≡ u }
{}

/// What is written is read again.
pub fn text_reads()
    ensures { (u : Tree) → IsComplete u → IsWritable u → Reads (text_of u) u }
{}
