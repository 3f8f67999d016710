//! The tokens of a line, the longest at each place, and the first fault where a line has none.
#![tactic(auto)]

mod laws;
mod literals;
mod marks;
mod scanning;
mod tokens;
mod words;

pub use laws::{one_list_of_tokens, tokens_of_the_language};
pub use scanning::{is_blank, scan};
pub use tokens::{LINE_LIMIT, Token, TokenFault, Tokens, What};
