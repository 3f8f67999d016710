//! What a command line asks for, and the texts of the reports.
#![tactic(auto)]

mod command;
mod dump;
mod equations;
mod help;
mod laws;
mod numbers;
mod parts;
mod reports;
mod words;

pub use command::{Command, is_command, read_command};
pub use dump::write_dump;
pub use equations::{EQUATION_LIMIT, EquationRange, SplitFault, split_equations};
pub use help::{newline_before, write_help, write_word_help};
pub use laws::{command_lines_ask_once, dumps_are_short, every_word_is_told, help_fits_a_screen};
pub use numbers::{read_number, write_count};
pub use parts::{PLACES_LIMIT, are_blanks};
pub use reports::{write_after, write_forgot, write_no_breaker, write_pool_report, write_unknown};
pub use words::Word;
