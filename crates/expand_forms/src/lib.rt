//! Polynomials, the trees that are polynomials, and their expanded trees.
#![tactic(auto)]

mod adding;
mod by_values;
mod expansion;
mod factors;
mod joining;
mod merging;
mod monomials;
mod naming;
mod node;
mod ordering;
mod packed_order;
mod packing;
mod parts;
mod placing;
mod polynomial;
mod powers;
mod powers_of_sums;
mod products;
mod reading;
mod replacing;
mod step;
mod term_lists;
mod terms;
mod unlisted;
mod walking;

pub use expansion::expand;
pub use polynomial::is_polynomial;
pub use powers::{POWERS, powers_of};
pub use term_lists::TermLists;
