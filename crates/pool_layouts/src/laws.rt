//! Laws of layouts, serial texts and pictures, each the contract of a function without a body.
ghost use Rattle.std.specs.Prelude.{◌≡◌, ◌<◌, ◌≤◌, ℕ, false, length, encode_utf8_all};
ghost use Rattle.calc_language.specs.Reads.{Reads};
ghost use Rattle.calc_language.specs.Texts.{IsWritable, text};
ghost use Rattle.calc_terms.specs.Trees.{Tree, IsComplete};
ghost use Rattle.pool_layouts.specs.Columns.{TakeOneColumnEach};
ghost use Rattle.pool_layouts.specs.Faces.{IsDefined};
ghost use Rattle.pool_layouts.specs.Latex.{latex};
ghost use Rattle.pool_layouts.specs.Layouts.{Layout, layout};
ghost use Rattle.pool_layouts.specs.Pictures.{picture, height, cut};
ghost use Rattle.pool_layouts.specs.Serial.{serial};
ghost use Rattle.unicode_width.specs.Width.{str_width};

/// The serial text of a face's layout reads as that face.
#[tactic(auto, using(crate::proofs::SerialTokens::serial_reads))]
pub fn serial_text_reads()
    ensures { (u : Tree) → IsComplete u → IsDefined u → IsWritable u → Reads (serial (layout u)) u }
{}

/// A LaTeX text is that of one face at most.
pub fn latex_tells_the_face()
    ensures { (t u : Tree) → IsComplete t → IsDefined t → IsWritable t → IsComplete u → IsDefined u → IsWritable u → latex (layout t) ≡ latex (layout u) → t ≡ u }
{}

/// Each row of a picture has as many characters as the picture is wide, and with the blanks at its
/// end cut no more.
#[tactic(auto, using(crate::proofs::Lines::lines_long, crate::proofs::Lines::cut_short))]
pub fn rows_are_as_wide()
    ensures whole { (l : Layout) (y : ℕ) → length ((picture l).line y) ≡ (picture l).width }
    ensures cut { (l : Layout) (y : ℕ) → length (cut ((picture l).line y)) ≤ (picture l).width }
{}

/// Each character of a face's picture takes one column, and joins no other, so that a row takes as many columns as the
/// picture is wide.
#[tactic(auto, using(crate::proofs::Lines::picture_columns, crate::proofs::Lines::row_columns))]
pub fn characters_take_one_column()
    ensures characters { (u : Tree) → IsWritable u → (y : ℕ) → TakeOneColumnEach ((picture (layout u)).line y) }
    ensures rows { (u : Tree) → IsWritable u → (y : ℕ) → str_width false ((picture (layout u)).line y) ≡ (picture (layout u)).width }
{}

/// The base row of a picture is one of its rows.
pub fn base_row_is_within()
    ensures { (l : Layout) → (picture l).above < height (picture l) }
{}

/// A picture of one line is the text of the face.
#[tactic(auto, using(crate::proofs::OneLines::one_line_text))]
pub fn one_line_is_the_text()
    ensures { (u : Tree) → IsDefined u → IsWritable u → height (picture (layout u)) ≡ 1 → encode_utf8_all (cut ((picture (layout u)).line 0)) ≡ text u }
{}
