//! Laws of what is told, each the contract of a function without a body.
ghost use Rattle.std.specs.Prelude.{◌≡◌, ℕ, List, true};
ghost use Rattle.calc_language.specs.Reads.{Reads, Stores};
ghost use Rattle.calc_language.specs.Texts.{text as text_of};
ghost use Rattle.calc_session.specs.Naming.{StoresLaterNames, store_line};
ghost use Rattle.calc_terms.specs.Name.{is_name};
ghost use Rattle.name_table.specs.Filling.{NamedTree};
ghost use Rattle.name_table.specs.Held.{IsHeld};
ghost use Rattle.name_table.specs.Tables.{Table};
ghost use Rattle.tree_handles.specs.Forest.{Forest};

/// A line of `:names` reads as the stored tree, an arrow and its name, where the tree's text reads as the tree.
pub fn told_stores_are_stores()
    ensures { (v : NamedTree) → Reads (text_of v.tree) v.tree → is_name v.name ≡ true → Stores (store_line v) v.tree v.name }
{}

/// Where the lines of `:names` are answered in order, none of the names in a line's tree is stored yet.
#[tactic(auto, using(crate::proofs::StoreLines::stored_later))]
pub fn told_stores_hold_later_names()
    ensures { (t : Table) (f : Forest) → IsHeld t f → StoresLaterNames t f }
{}
