//! The samples of README.md and docs/LANGUAGE.md. `tests/samples.py table` writes their rows.
mod table;

use crate::tests::scripts::first_other;
use std::test::Fail;
use table::SAMPLES;

#[test]
fn samples_are_answered(rt: HostRuntime) -> Result<(), Fail> {
    let other = first_other(rt.alloc(), SAMPLES, 4096)?;
    assert_eq!(rt; other, None);
    Ok(())
}
