//! Divisors and roots of whole numbers that no line reaches, and the order of 0 among rationals.
use calc_terms::Rat;
use rational128::{compare, gcd, isqrt};
use std::cmp::Ordering;
use std::test::Fail;

/// Two numbers and their greatest common divisor.
const DIVISORS: [[u128; 3]; 15] = [
    [0, 0, 0],
    [0, 5, 5],
    [5, 0, 5],
    [0, u128::MAX, u128::MAX],
    [u128::MAX, 0, u128::MAX],
    [1, u128::MAX, 1],
    [i128::MAX as u128, 1 << 127, 1],
    [1 << 127, 1 << 64, 1 << 64],
    [1 << 64, 1 << 127, 1 << 64],
    [1 << 127, 1 << 127, 1 << 127],
    [u128::MAX, (1 << 64) - 1, (1 << 64) - 1],
    [u128::MAX, (1 << 64) + 1, (1 << 64) + 1],
    [u128::MAX, 255, 255],
    [6, 340282366920938463463374607431768211454, 2],
    [
        332825110087067562321196029789634457848,
        205697230343233228174223751303346572685,
        1,
    ],
];

/// A number and its integer square root.
const ROOTS: [[u128; 2]; 3] = [
    [
        340282366920938463426481119284349108225,
        18446744073709551615,
    ],
    [
        340282366920938463426481119284349108224,
        18446744073709551614,
    ],
    [u128::MAX, 18446744073709551615],
];

#[test]
fn wide_numbers_have_divisors_and_roots(rt: HostRuntime) -> Result<(), Fail> {
    for [a, b, divisor] in DIVISORS {
        assert!(rt; gcd(a, b) == divisor && gcd(b, a) == divisor);
    }
    for [n, root] in ROOTS {
        assert!(rt; isqrt(n) == root);
    }
    Ok(())
}

#[test]
fn zero_is_between(rt: HostRuntime) -> Result<(), Fail> {
    let least = Rat::ratio(1, i128::MAX);
    assert!(rt; compare(Rat::whole(0), least) == Ordering::Less);
    assert!(rt; compare(least, Rat::whole(0)) == Ordering::Greater);
    Ok(())
}
