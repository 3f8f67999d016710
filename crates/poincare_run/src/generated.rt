//! The lines of generated sessions.
ghost use Rattle.std.specs.Prelude.{◌≡◌, ◌++◌, ◌<◌, ◌≤◌, ◌^◌, OnOk, IfOk};
ghost use Rattle.std.specs.Fmt.{decimal};
ghost use Rattle.poincare_run.specs.Generated.{digits_for, pattern as pattern_of, session_text, with_digits};

use itoa::Buffer;
use std::alloc::{AllocError, Global};

/// The lines of a generated session.
const LINE_COUNT: u32 = 2000;

/// The modulus of the seeds.
const MODULUS: u32 = 65_537;

/// The 2,000 lines of the session of a number, each with a newline.
pub fn session_from(alloc: Global, number: u32) -> Result<Vec<u8>, AllocError>
    ensures { IfOk result (λ lines. lines.items ≡ session_text number) }
{
    let mut lines = Vec::new(alloc);
    let mut seed = number % MODULUS;
    for k in 0..LINE_COUNT {
        seed = (75 * seed + 74) % MODULUS;
        push_line(&mut lines, (k + 1) % 8, seed % 97 + 1, seed / 97 % 89 + 1)?;
        lines.push(b'\n')?;
    }
    Ok(lines)
}

/// Appends the line of a kind with these numbers.
fn push_line(lines: &mut Vec<u8>, kind: u32, a: u32, b: u32) -> Result<(), AllocError>
    ensures { OnOk result (lines.new.items ≡ lines.old.items ++ with_digits a b (pattern_of kind)) }
{
    for byte in pattern(kind) {
        push_byte(lines, *byte, a, b)?;
    }
    Ok(())
}

/// Appends a byte of a pattern, or the number that it stands for.
fn push_byte(lines: &mut Vec<u8>, byte: u8, a: u32, b: u32) -> Result<(), AllocError>
    ensures { OnOk result (lines.new.items ≡ lines.old.items ++ digits_for a b byte) }
{
    match byte {
        b'a' => push_number(lines, a),
        b'b' => push_number(lines, b),
        other => Ok(lines.push(other)?),
    }
}

/// Appends decimal digits.
fn push_number(lines: &mut Vec<u8>, number: u32) -> Result<(), AllocError>
    ensures { OnOk result (lines.new.items ≡ lines.old.items ++ decimal number) }
{
    let mut digits = Buffer::new();
    lines.extend_from_slice(digits.format(number).as_bytes())
}

/// The line of a kind, in which `a` and `b` stand for the numbers.
#[tactic(auto, unfolding(crate::specs::Generated::pattern))]
fn pattern(kind: u32) -> &'static [u8]
    ensures { result.now ≡ pattern_of kind }
{
    match kind {
        1 => b"a/b+b/a",
        2 => b"\xE2\x88\x9A(a)+\xE2\x88\x9A(b)",
        3 => b"1/(\xE2\x88\x9A(a)+\xE2\x88\x9A(b))",
        4 => b"(a+\xE2\x88\x9A(b))^3",
        5 => b"a\xC3\x97x+b\xC3\x97x-\xE2\x88\x9A(a)\xC3\x97x",
        6 => b"(x+a)^2/(x+b)",
        7 => b"a/b\xE2\x86\x92y",
        _ => b"y\xC3\x97\xE2\x88\x9A(b)+x",
    }
}
