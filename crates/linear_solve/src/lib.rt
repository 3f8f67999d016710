//! Linear equations solved exactly, with every operation in a stated order.
#![tactic(auto)]

mod elimination;
mod equations;
pub mod examples;
mod fault;
mod laws;
mod linear;
mod row;
mod side;
mod side_names;
mod sides;
mod solution;
mod solving;

pub use fault::SolveFault;
pub use linear::is_linear;
pub use row::{EquationRow, NameRow, Row};
pub use side_names::{Listed, NAME_LIMIT, NameList, in_array, names_in};
pub use solution::{Line, Solution};
pub use solving::solve;
