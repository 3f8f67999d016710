//! Numbers in decimal digits.
ghost use Rattle.std.specs.Prelude.{◌≡◌, ◌+◌, ◌≤◌, length, decimal};
ghost use Rattle.std.specs.Char.{is_ascii_digit};
ghost use Rattle.std.specs.List.{list_all};
ghost use Rattle.line_text.specs.Content.{extended, spare_of};
ghost use Rattle.calc_commands.specs.Numbers.{value_of};

use itoa::Buffer;
use line_text::Text;
use std::str;

/// The most digits of a number.
const DIGIT_LIMIT: usize = 20;

/// The value of 1 to 20 decimal digits, where it is at most 2^64 - 1.
pub fn read_number(text: &[u8]) -> Option<u64>
    ensures { result ≡ value_of text.now }
{
    if text.len() > DIGIT_LIMIT || !all_digits(text) {
        return None;
    }
    str::from_utf8(text).ok()?.parse::<u64>().ok()
}

/// Whether there is nothing but digits.
fn all_digits(text: &[u8]) -> bool
    ensures { result ≡ list_all is_ascii_digit text.now }
{
    text.iter().all(|byte| byte.is_ascii_digit())
}

/// Appends a number: at most 20 digits, the first one no zero but in `0`.
pub fn write_count(number: u64, text: &mut Text)
    requires room { 20 ≤ spare_of text.old }
    ensures text { text.new ≡ extended text.old (decimal number) }
    ensures short { length text.new.bytes ≤ length text.old.bytes + 20 }
{
    let mut digits = Buffer::new();
    text.push(digits.format(number).as_bytes());
}
