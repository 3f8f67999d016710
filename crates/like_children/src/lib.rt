//! What sums and products do alike with their children: they open those of their own kind, join the Numbers among them, and find
//! neighbours with one key.
#![tactic(auto, using(tree_handles::proofs::Roots::root_held))]

mod collecting;
mod neighbours;
mod numbers;
mod opening;

pub use collecting::{Joins, collect_numbers};
pub use neighbours::{Likes, is_pair, next_pair};
pub use numbers::next_number;
pub use opening::{Opens, open_children};
