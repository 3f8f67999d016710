//! The table of stored names: the last answer, and the trees that are stored under names.
#![tactic(auto)]

mod fault;
mod laws;
mod table;

pub use fault::FillFault;
pub use laws::{
    a_first_answer_is_held, entries_stay, filled_trees_lack_names, filling_gives_the_filled_tree,
    held_trees_have_the_entries, held_trees_stay, stored_trees_stand_apart, values_stay,
};
pub use table::NameTable;
