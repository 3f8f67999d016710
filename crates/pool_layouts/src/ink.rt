//! What is painted of a row besides blanks.
ghost use Rattle.std.specs.Prelude.{◌≡◌, ◌≤◌, ◌++◌, encode_utf8_all, length, replicate, ◌+◌};
ghost use Rattle.line_text.specs.Content.{spare_of, extended};
ghost use Rattle.pool_layouts.specs.Painting.{IsInk, blanks_left, ink_characters, inked};
ghost use Rattle.tree_handles.specs.Standing.{Stands, forest};

use line_text::{Text, write_leaf};
use node_pool::{Id, Pool};

/// What is painted at once.
#[derive(Clone, Copy)]
pub(crate) enum Ink {
    Nothing,
    /// A node that has no parts.
    Leaf(Id),
    /// A bar of so many columns.
    Bar(u32),
    /// A roof of so many columns.
    Roof(u32),
    /// A root sign.
    Root,
    /// An opening parenthesis.
    Open,
    /// A closing parenthesis.
    Close,
}

/// Appends ink behind so many blanks, and nothing where there is no ink; how many blanks are owed then.
pub(crate) fn paint_ink(pool: &Pool, ink: Ink, blanks: u32, text: &mut Text) -> u32
    requires stands { Stands pool.now }
    requires ink { IsInk (forest pool.now) ink }
    requires room { length (encode_utf8_all (inked blanks (ink_characters (forest pool.now) ink))) ≤ spare_of text.old }
    ensures text { text.new ≡ extended text.old (encode_utf8_all (inked blanks (ink_characters (forest pool.now) ink))) }
    ensures blanks { result ≡ blanks_left blanks (ink_characters (forest pool.now) ink) }
{
    match ink {
        Ink::Nothing => blanks,
        Ink::Leaf(node) => {
            repeat(b' ', blanks, text);
            write_leaf(pool, node, text);
            0
        }
        Ink::Bar(columns) => paint_bar(b'-', columns, blanks, text),
        Ink::Roof(columns) => paint_bar(b'_', columns, blanks, text),
        Ink::Root => paint_character(b"\xE2\x88\x9A", blanks, text),
        Ink::Open => paint_character(b"(", blanks, text),
        Ink::Close => paint_character(b")", blanks, text),
    }
}

/// Appends a character behind so many blanks.
fn paint_character(bytes: &[u8], blanks: u32, text: &mut Text) -> u32
    requires { blanks + length bytes.now ≤ spare_of text.old }
    ensures text { text.new ≡ extended text.old (replicate blanks 32 ++ bytes.now) }
    ensures blanks { result ≡ 0 }
{
    repeat(b' ', blanks, text);
    text.push(bytes);
    0
}

/// Appends a byte so many times behind so many blanks.
fn paint_bar(byte: u8, columns: u32, blanks: u32, text: &mut Text) -> u32
    requires { length (inked blanks (replicate columns byte)) ≤ spare_of text.old }
    ensures text { text.new ≡ extended text.old (inked blanks (replicate columns byte)) }
    ensures blanks { result ≡ blanks_left blanks (replicate columns byte) }
{
    if columns == 0 {
        return blanks;
    }
    repeat(b' ', blanks, text);
    repeat(byte, columns, text);
    0
}

/// Appends a byte so many times.
fn repeat(byte: u8, times: u32, text: &mut Text)
    requires { times ≤ spare_of text.old }
    ensures { text.new ≡ extended text.old (replicate times byte) }
{
    for _ in 0..times {
        text.push(&[byte]);
    }
}
