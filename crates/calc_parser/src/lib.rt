//! The grammar of a line: whether tokens are one, and its tree in a pool.
#![tactic(auto)]

mod building;
mod checking;
mod depth;
mod laws;
mod nesting;
mod parser;
mod postfix;
mod reader;

pub use building::build;
pub use checking::{ParseFault, check};
pub use laws::{building_takes_the_size, one_line};
pub use parser::{LineFault, Parser};
