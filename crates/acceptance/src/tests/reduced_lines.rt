//! Lines reduced, and interrupted at every check.
mod numbers;
mod tables;
mod trials;

use numbers::NUMBERS;
use std::test::Fail;
use tables::{CANCELLED, FACES, HALVES, POWERS, PRODUCTS, ROOTED, SUMS, SURDS, UNDEFINED, WIDE};
use trials::{Outcome, first_other, first_other_node, first_uninterrupted};

/// The tables of lines with their answers.
const ANSWERED: [&str; 10] = [
    SURDS, CANCELLED, UNDEFINED, POWERS, HALVES, ROOTED, PRODUCTS, SUMS, FACES, NUMBERS,
];

#[test]
fn each_line_has_its_answer(rt: HostRuntime) -> Result<(), Fail> {
    for table in ANSWERED {
        let other = first_other(rt.alloc(), table, Outcome::Wanted)?;
        assert_eq!(rt; other, None, "{table}");
    }
    Ok(())
}

#[test]
fn wide_operations_are_refused_at_their_nodes(rt: HostRuntime) -> Result<(), Fail> {
    let other = first_other_node(rt.alloc(), WIDE)?;
    assert_eq!(rt; other, None);
    Ok(())
}

#[test]
fn each_check_can_interrupt(rt: HostRuntime) -> Result<(), Fail> {
    for table in ANSWERED {
        let uninterrupted = first_uninterrupted(rt.alloc(), table)?;
        assert_eq!(rt; uninterrupted, None, "{table}");
    }
    Ok(())
}
