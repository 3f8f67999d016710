//! Laws of tables. Each is the contract of a function that does nothing.
ghost use Rattle.name_table.specs.Laws.{BeginsHeld, HasHeldEntries, HoldsNoMore, KeepsEntries, HoldsEachApart, KeepsValues, FillsWithFilled, FilledLacksNames};

/// A tree alone is held by the table of which it is the first answer.
pub fn a_first_answer_is_held()
    ensures { BeginsHeld }
{}

/// A forest that holds exactly the trees of a table has no other trees and no other counts.
pub fn held_trees_stay()
    ensures { HoldsNoMore }
{}

/// Where trees that no entry holds are released, each entry keeps its tree.
pub fn values_stay()
    ensures { KeepsValues }
{}

/// Filling in the free bytes gives the filled tree.
#[tactic(auto, using(crate::proofs::FilledBytes::fills_as))]
pub fn filling_gives_the_filled_tree()
    ensures { FillsWithFilled }
{}

/// A filled tree holds neither a stored name nor that of the last answer.
pub fn filled_trees_lack_names()
    ensures { FilledLacksNames }
{}

/// Exactly the trees of a table have its entries among them.
#[tactic(auto, using(crate::proofs::Entries::held_entries))]
pub fn held_trees_have_the_entries()
    ensures { HasHeldEntries }
{}

/// The entries stand among the trees, and for the same trees, where others stand behind these.
pub fn entries_stay()
    ensures { KeepsEntries }
{}

/// Stored names hold different trees, which take together at most the bytes of all.
#[tactic(auto, using(crate::proofs::Apart::held_apart))]
pub fn stored_trees_stand_apart()
    ensures { HoldsEachApart }
{}
