//! What is told of the words of commands.
ghost use Rattle.std.specs.Prelude.{◌≡◌, ◌+◌, ◌≤◌, length};
ghost use Rattle.line_text.specs.Content.{extended, spare_of};
ghost use Rattle.calc_commands.specs.Words.{help_line, help_report, newline_before as newline_there, word_report};

use crate::words::Word;
use line_text::Text;

/// Appends a line for each word, in at most 2,048 bytes.
pub fn write_help(text: &mut Text)
    requires room { 2048 ≤ spare_of text.old }
    ensures { text.new ≡ extended text.old help_report }
{
    let words = Word::all();
    for at in 0..words.len() {
        text.push(newline_before(at));
        let word = words[at];
        write_help_line(word, text);
    }
}

/// Appends the line of a word and an example: at most 256 bytes.
pub fn write_word_help(word: Word, text: &mut Text)
    requires room { 256 ≤ spare_of text.old }
    ensures { text.new ≡ extended text.old (word_report word) }
{
    write_help_line(word, text);
    text.push(b"\nfor example ");
    text.push(word.example());
}

/// Appends the line of a word.
fn write_help_line(word: Word, text: &mut Text)
    requires room { 97 ≤ spare_of text.old }
    ensures line { text.new ≡ extended text.old (help_line word) }
    ensures short { length text.new.bytes ≤ length text.old.bytes + 78 }
{
    text.push(b":");
    text.push(word.bytes());
    text.push(word.form());
    text.push(word.padding());
    text.push(word.summary());
}

/// A newline, but not before the first of some lines.
pub fn newline_before(at: usize) -> &'static [u8]
    ensures line { result.now ≡ newline_there at }
    ensures short { length result.now ≤ 1 }
{
    if at == 0 { b"" } else { b"\n" }
}
