//! The rows of the program, with their words.
mod radicands;
mod rationals;
mod table;

use crate::tests::scripts::first_other;
use radicands::{JOINED, ROOTS};
use rationals::{ORDERED, POWERS, PRODUCTS, QUOTIENTS, SUMS};
use std::test::Fail;
use table::{GENERATED, ROWS};

/// The tables of sessions.
const WRITTEN: [&str; 8] = [
    ROWS, SUMS, PRODUCTS, POWERS, QUOTIENTS, ORDERED, ROOTS, JOINED,
];

#[test]
fn sessions_are_written(rt: HostRuntime) -> Result<(), Fail> {
    for table in WRITTEN {
        let other = first_other(rt.alloc(), table, 4096)?;
        assert_eq!(rt; other, None, "{table}");
    }
    Ok(())
}

#[test]
fn sessions_are_written_in_any_pieces(rt: HostRuntime) -> Result<(), Fail> {
    for piece in [1, 3] {
        let other = first_other(rt.alloc(), ROWS, piece)?;
        assert_eq!(rt; other, None);
    }
    Ok(())
}

#[test]
fn generated_sessions_are_summed_up(rt: HostRuntime) -> Result<(), Fail> {
    let other = first_other(rt.alloc(), GENERATED, 4096)?;
    assert_eq!(rt; other, None);
    Ok(())
}
