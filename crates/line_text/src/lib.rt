//! The text of a tree, in bytes that are taken once.
#![tactic(auto)]

mod laws;
mod page;
mod place;
mod text;
mod writing;

pub use laws::texts_are_short;
pub use place::{Place, level};
pub use text::Text;
pub use writing::{deciding_kind, write_leaf, write_text, write_tree};
