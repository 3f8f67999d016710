//! A law of texts, the contract of a function without a body.
ghost use Rattle.std.specs.Prelude.{◌≤◌, ◌*◌, length};
ghost use Rattle.calc_language.specs.Texts.{text as text_of, IsWritable};
ghost use Rattle.calc_terms.specs.Trees.{Tree, size};
ghost use Rattle.line_text.specs.Lengths.{HasFittingNumbers};

/// A text has at most twice the bytes of the nodes of its tree.
pub fn texts_are_short()
    ensures { (t : Tree) → IsWritable t → HasFittingNumbers t → length (text_of t) ≤ 2 * size t }
{}
