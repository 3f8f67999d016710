//! Laws of faces, each the contract of a function without a body.

ghost use Rattle.std.specs.Prelude.{◌≡◌, false, true};
ghost use Rattle.calc_terms.specs.Trees.{Tree, is_undef};
ghost use Rattle.calc_algebra.specs.Surds.{Surd};
ghost use Rattle.calc_algebra.specs.Meanings.{Assignment, Means};
ghost use Rattle.calc_language.specs.Reads.{Reads};
ghost use Rattle.calc_language.specs.Texts.{text as text_of, HasNames};
ghost use Rattle.beautify.specs.OwnFaces.{has_natural_numbers};
ghost use Rattle.calc_language.specs.Faces.{face};
ghost use Rattle.calc_algebra.specs.Reduced.{is_reduced};

/// The face of a reduced tree keeps each of its meanings.
#[tactic(auto, using(crate::proofs::FaceLaws::reduced_face_means))]
pub fn face_keeps_meanings()
    ensures { (t : Tree) (f : Assignment) (v : Surd) → is_reduced t ≡ true → Means t f v → Means (face t) f v }
{}

/// The text of its face reads as the face, where the symbols in it are names.
#[tactic(auto, using(crate::proofs::FaceTexts::face_reads))]
pub fn face_text_reads()
    ensures { (t : Tree) → is_reduced t ≡ true → is_undef t ≡ false → HasNames t → Reads (text_of (face t)) (face t) }
{}

/// A reduced tree whose rationals are all whole and at least 0 is its own face.
#[tactic(auto, using(crate::proofs::OwnFaces::own_face))]
pub fn natural_trees_are_their_faces()
    ensures { (t : Tree) → is_reduced t ≡ true → has_natural_numbers t ≡ true → face t ≡ t }
{}
