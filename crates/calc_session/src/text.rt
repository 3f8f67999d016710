//! Texts of answers that are no trees.
ghost use Rattle.std.specs.Prelude.{◌≡◌, ◌+◌, ◌≤◌, ◌++◌, [], length, pos, codes, Some};
ghost use Rattle.std.specs.Fmt.{signed_decimal};
ghost use Rattle.calc_terms.specs.Leaf.{name_of};
ghost use Rattle.calc_terms.specs.Rat.{ratio_of, value_of};
ghost use Rattle.rational128.specs.Refusals.{operation_of};
ghost use Rattle.line_text.specs.Content.{extended};
ghost use Rattle.calc_session.specs.Answers.{reply_of};
ghost use Rattle.calc_session.specs.Replies.{denominator_text, operand_text, text_of, sign_of as sign_text};

use crate::Refusal;
use calc_terms::{Name, Rat};
use itoa::Buffer;
use line_text::Text;
use rational128::Op;

/// Writes the text of a refusal: at most 256 bytes.
#[tactic(auto, unfolding(crate::specs::Replies::text_of))]
pub fn write_refusal(text: &mut Text, refusal: Refusal)
    requires empty { text.old.bytes ≡ [] }
    requires room { 256 ≤ text.old.capacity }
    ensures text { Some text.new.bytes ≡ text_of (reply_of refusal) }
    ensures capacity { text.new.capacity ≡ text.old.capacity }
{
    match refusal {
        Refusal::Long => text.push(b"! long"),
        Refusal::Character { at } => push_place(text, b"! character ", at),
        Refusal::Number { at } => push_place(text, b"! number ", at),
        Refusal::Syntax => text.push(b"! syntax"),
        Refusal::Deep => text.push(b"! deep"),
        Refusal::Reserved => text.push(b"! reserved"),
        Refusal::NamesFull => text.push(b"! names full"),
        Refusal::Full { needed, free } => push_full(text, needed, free),
        Refusal::Overflow { op, a, b } => push_overflow(text, op, a, b),
        Refusal::Interrupted { .. } => text.push(b"! interrupted"),
        Refusal::Circular { name } => push_circular(text, name),
        Refusal::Command => text.push(b"! command"),
        Refusal::NotPolynomial => text.push(b"! not polynomial"),
        Refusal::NoDerivative => text.push(b"! no derivative"),
        Refusal::NotLinear { equation } => {
            push_place(text, b"! not linear ", u16::from(equation));
        }
        Refusal::TooMany => text.push(b"! too many"),
        Refusal::NoDecimal => text.push(b"! no decimal"),
        Refusal::Undecided => text.push(b"! undecided"),
        Refusal::Degree => text.push(b"! degree"),
    }
}

/// Writes the text of an answer that is Undef.
pub fn write_undef(text: &mut Text)
    requires empty { text.old.bytes ≡ [] }
    requires room { 256 ≤ text.old.capacity }
    ensures text { text.new.bytes ≡ codes "undef" }
    ensures capacity { text.new.capacity ≡ text.old.capacity }
{
    text.push(b"undef");
}

fn push_full(text: &mut Text, needed: u32, free: u32)
    requires empty { text.old.bytes ≡ [] }
    requires room { 256 ≤ text.old.capacity }
    ensures { text.new ≡ extended text.old (codes "! full needed " ++ (signed_decimal (pos needed) ++ (codes " free " ++ signed_decimal (pos free)))) }
{
    text.push(b"! full needed ");
    push_number(text, i128::from(needed));
    text.push(b" free ");
    push_number(text, i128::from(free));
}

fn push_overflow(text: &mut Text, op: Op, a: Rat, b: Rat)
    requires empty { text.old.bytes ≡ [] }
    requires room { 256 ≤ text.old.capacity }
    ensures { text.new ≡ extended text.old (codes "! overflow " ++ (operand_text (value_of a) ++ (sign_text (operation_of op) ++ operand_text (value_of b)))) }
{
    text.push(b"! overflow ");
    push_operand(text, a);
    text.push(sign_of(op));
    push_operand(text, b);
}

fn push_circular(text: &mut Text, name: Name)
    requires empty { text.old.bytes ≡ [] }
    requires room { 256 ≤ text.old.capacity }
    ensures { text.new ≡ extended text.old (codes "! circular " ++ name_of name) }
{
    text.push(b"! circular ");
    text.push(name.bytes());
}

/// A word and a place.
fn push_place(text: &mut Text, word: &[u8], at: u16)
    requires { length text.old.bytes + length word.now + 40 ≤ text.old.capacity }
    ensures { text.new ≡ extended text.old (word.now ++ signed_decimal (pos at)) }
{
    text.push(word);
    push_number(text, i128::from(at));
}

/// A rational, without its denominator where that is 1: at most 81 bytes.
pub fn push_operand(text: &mut Text, value: Rat)
    requires { length text.old.bytes + 81 ≤ text.old.capacity }
    ensures value { text.new ≡ extended text.old (operand_text (value_of value)) }
    ensures short { length text.new.bytes ≤ length text.old.bytes + 81 }
{
    push_numerator(text, value);
    push_denominator(text, value);
}

fn push_numerator(text: &mut Text, value: Rat)
    requires { length text.old.bytes + 40 ≤ text.old.capacity }
    ensures value { text.new ≡ extended text.old (signed_decimal (ratio_of value).num) }
    ensures short { length text.new.bytes ≤ length text.old.bytes + 40 }
{
    push_number(text, value.num());
}

/// The denominator behind a slash, unless it is 1.
fn push_denominator(text: &mut Text, value: Rat)
    requires { length text.old.bytes + 41 ≤ text.old.capacity }
    ensures value { text.new ≡ extended text.old (denominator_text (ratio_of value).den) }
    ensures short { length text.new.bytes ≤ length text.old.bytes + 41 }
{
    if value.is_whole() {
        return;
    }
    text.push(b"/");
    push_number(text, value.den());
}

/// A number in decimal digits, with a minus sign where it is below zero: at most 40 bytes.
fn push_number(text: &mut Text, number: i128)
    requires { length text.old.bytes + 40 ≤ text.old.capacity }
    ensures value { text.new ≡ extended text.old (signed_decimal number) }
    ensures short { length text.new.bytes ≤ length text.old.bytes + 40 }
{
    let mut digits = Buffer::new();
    text.push(digits.format(number).as_bytes());
}

fn sign_of(op: Op) -> &'static [u8]
    ensures sign { result.now ≡ sign_text (operation_of op) }
    ensures short { length result.now ≤ 2 }
{
    match op {
        Op::Add => b"+",
        Op::Mul => b"\xC3\x97",
        Op::Pow => b"^",
    }
}
