//! Numbers with decimals.
ghost use Rattle.std.specs.Prelude.{◌≡◌, ◌≤◌, ◌<◌, ◌^◌, length, is_some, IfSome, pos};
ghost use Rattle.std.specs.List.{prefix_len, AllPass};
ghost use Rattle.std.specs.Option.{SomeIff};
ghost use Rattle.calc_terms.specs.Fractions.{lowest};
ghost use Rattle.calc_terms.specs.Rat.{value_of};
ghost use Rattle.calc_terms.specs.Name.{is_digit};
ghost use Rattle.calc_language.specs.Tokens.{leading_run, decimals, digits_value, literal_at};
ghost use Rattle.calc_tokens.specs.Literals.{trimmed, literal_fits, parts_fit, unscaled, scale, has_point};
ghost use Rattle.calc_terms.specs.Limits.{number_limit};
ghost use Rattle.calc_tokens.specs.Tokens.{front_of};

use crate::tokens::What;
use calc_terms::Rat;

/// The largest part of a rational.
const LARGEST: u128 = i128::MAX as u128;

/// Below this a digit more fits without a division that shows it.
const NEAR: u128 = 1 << 120;

/// Below this a digit more fits into 64 bits.
const SHORT: u64 = 1 << 59;

/// The number at the front, and what stands behind it; None where its parts do not fit.
pub(crate) fn literal(bytes: &[u8]) -> Option<(What, &[u8])>
    ensures fits { is_some result ≡ literal_fits bytes.now }
    ensures value { IfSome result (λ found. front_of found ≡ literal_at bytes.now) }
{
    let (whole, rest) = digits(bytes);
    if !has_point(rest) {
        if let Some(number) = short_value(whole) {
            return Some((What::Number(scaled(u128::from(number), 1)), rest));
        }
    }
    let (decimals, behind) = decimals(rest);
    let value = value(whole, trimmed(decimals))?;
    Some((What::Number(value), behind))
}

fn has_point(rest: &[u8]) -> bool
    ensures { result ≡ has_point rest.now }
{
    match rest.first() {
        Some(byte) => *byte == b'.',
        None => false,
    }
}

/// What digits spell; None for some numbers of 60 bits and more.
fn short_value(digits: &[u8]) -> Option<u64>
    requires { AllPass is_digit digits.now }
    ensures value { IfSome result (λ n. n ≡ digits_value 0 digits.now) }
    ensures short { IfSome result (λ n. n < 2 ^ 63) }
{
    let mut value = 0;
    for digit in digits {
        if value >= SHORT {
            return None;
        }
        value = 10 * value + u64::from(digit - b'0');
    }
    Some(value)
}

/// The digits at the front, and what stands behind them.
fn digits(bytes: &[u8]) -> (&[u8], &[u8])
    ensures front { result.0.now ≡ (leading_run is_digit bytes.now).0 }
    ensures behind { result.1.now ≡ (leading_run is_digit bytes.now).1 }
{
    bytes.split_at(digits_len(bytes))
}

fn digits_len(bytes: &[u8]) -> usize
    ensures { result ≡ prefix_len is_digit bytes.now }
{
    bytes.iter().take_while(|b| b.is_ascii_digit()).count()
}

/// The digits behind a point, where one stands there, and what stands behind them.
fn decimals(rest: &[u8]) -> (&[u8], &[u8])
    ensures digits { result.0.now ≡ (decimals rest.now).0 }
    ensures behind { result.1.now ≡ (decimals rest.now).1 }
{
    if let Some((point, others)) = rest.split_first() {
        let (digits, behind) = digits(others);
        if *point == b'.' && !digits.is_empty() {
            return (digits, behind);
        }
    }
    rest.split_at(0)
}

/// Digits without the zeros at their end.
fn trimmed(digits: &[u8]) -> &[u8]
    ensures { result.now ≡ trimmed digits.now }
{
    let mut kept = digits;
    while let Some((last, front)) = kept.split_last() {
        if *last != b'0' {
            return kept;
        }
        kept = front;
    }
    kept
}

/// The value of digits and of decimals that do not end in zero; None where their parts do not fit.
fn value(whole: &[u8], kept: &[u8]) -> Option<Rat>
    requires whole_digits { AllPass is_digit whole.now }
    requires decimals { AllPass is_digit kept.now }
    ensures fits { is_some result ≡ parts_fit whole.now kept.now }
    ensures value { IfSome result (λ value. value_of value ≡ lowest (pos (unscaled whole.now kept.now)) (scale kept.now)) }
{
    let unscaled = spelled(spelled(0, whole)?, kept)?;
    let scale = power_of_ten(kept.len())?;
    Some(scaled(unscaled, scale))
}

/// A number over its scale in lowest terms. A whole number is.
fn scaled(unscaled: u128, scale: u128) -> Rat
    requires fits { unscaled < number_limit }
    requires positive { 1 ≤ scale }
    requires scale_fits { scale < number_limit }
    ensures { value_of result ≡ lowest (pos unscaled) scale }
{
    if scale == 1 {
        return Rat::whole(unscaled as i128);
    }
    Rat::ratio(unscaled as i128, scale as i128)
}

/// What is spelled by the digits of a number and these behind them; None above 2^127 - 1.
fn spelled(front: u128, digits: &[u8]) -> Option<u128>
    requires fits { front < number_limit }
    requires digits { AllPass is_digit digits.now }
    ensures { SomeIff result (digits_value front digits.now < number_limit) (digits_value front digits.now) }
{
    let mut value = front;
    for digit in digits {
        let digit = u128::from(digit - b'0');
        if value >= NEAR && value > (LARGEST - digit) / 10 {
            return None;
        }
        value = 10 * value + digit;
    }
    Some(value)
}

/// Ten to this power; None above 2^127 - 1.
fn power_of_ten(exponent: usize) -> Option<u128>
    ensures { SomeIff result (10 ^ exponent < number_limit) (10 ^ exponent) }
{
    let mut power = 1;
    for _ in 0..exponent {
        if power > LARGEST / 10 {
            return None;
        }
        power *= 10;
    }
    Some(power)
}
