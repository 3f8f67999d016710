//! Laws of command lines, help and dumps. Each is the contract of a function that does nothing.
ghost use Rattle.std.specs.Prelude.{◌≡◌, ◌≤◌, ◌*◌, List, ℕ, length, Contains};
ghost use Rattle.node_pool.specs.Nodes.{used};
ghost use Rattle.node_pool.specs.State.{State, IsPool};
ghost use Rattle.calc_commands.specs.Commands.{Asked, IsCommandLine};
ghost use Rattle.calc_commands.specs.Parsing.{BeginsWithWord};
ghost use Rattle.calc_commands.specs.Reports.{dump_of};
ghost use Rattle.calc_commands.specs.Words.{IsRow, all_words, help_line};
ghost use Rattle.calc_commands.specs.declared.words.Word.{Word};

/// A line asks for one thing.
pub fn command_lines_ask_once()
    ensures { (line : List ℕ) (a b : Asked) → IsCommandLine line a → IsCommandLine line b → a ≡ b }
{}

/// Each word is in the table from which help is told, and what asks for something begins with a word.
pub fn every_word_is_told()
    ensures words { (w : Word) → Contains all_words w }
    ensures commands { (line : List ℕ) (a : Asked) → IsCommandLine line a → BeginsWithWord line }
{}

/// The lines of help fit on a screen of 24 rows and 78 columns.
pub fn help_fits_a_screen()
    ensures { (length all_words ≤ 24) × ((w : Word) → IsRow (help_line w)) }
{}

/// A dump takes at most three bytes for each byte in use.
pub fn dumps_are_short()
    ensures { (s : State) → IsPool s → length (dump_of s) ≤ 3 * used s.nodes }
{}
