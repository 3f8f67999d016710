//! The bytes of the pool, in hexadecimal digits.
ghost use Rattle.std.specs.Prelude.{◌≡◌, ◌+◌, ◌*◌, ◌<◌, ◌≤◌, length};
ghost use Rattle.line_text.specs.Content.{extended, spare_of};
ghost use Rattle.node_pool.specs.Nodes.{used};
ghost use Rattle.calc_commands.specs.Reports.{dump_of, entry, hex_digit as hex_digit_of, parting as parting_of};

use line_text::Text;
use node_pool::Pool;

/// How many bytes stand in a row.
const ROW: usize = 8;

/// Appends the bytes that the nodes take, in rows: at most three bytes of text for each of them.
pub fn write_dump(pool: &Pool, text: &mut Text)
    requires room { 3 * used pool.now.nodes ≤ spare_of text.old }
    ensures { text.new ≡ extended text.old (dump_of pool.now) }
{
    let bytes = &pool.bytes()[..pool.used() as usize];
    for (at, byte) in bytes.iter().enumerate() {
        write_entry(at, *byte, text);
    }
}

/// Appends a byte, behind what parts it from those before it.
fn write_entry(at: usize, byte: u8, text: &mut Text)
    requires room { 3 ≤ spare_of text.old }
    ensures text { text.new ≡ extended text.old (entry at byte) }
    ensures short { length text.new.bytes ≤ length text.old.bytes + 3 }
{
    let parting = parting(at);
    text.push(parting);
    text.push(&[hex_digit(byte / 16), hex_digit(byte % 16)]);
}

/// What stands before the byte at a place.
fn parting(at: usize) -> &'static [u8]
    ensures { result.now ≡ parting_of at }
{
    if at == 0 {
        b""
    } else if at % ROW == 0 {
        b"\n"
    } else {
        b" "
    }
}

/// A hexadecimal digit.
fn hex_digit(value: u8) -> u8
    requires { value < 16 }
    ensures { result ≡ hex_digit_of value }
{
    if value < 10 {
        b'0' + value
    } else {
        b'a' + (value - 10)
    }
}
