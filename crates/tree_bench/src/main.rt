//! Measures what the first word names: `pool`, `handles`, `numbers` or `sums`, for each number behind it.

#![tactic(auto)]

mod handles;
mod numbers;
mod pool;
mod sums;

use std::env;

fn main(rt: HostRuntime) -> anyhow::Result<()> {
    let mut words = env::args(&rt)?.skip(1);
    let Some(what) = words.next() else {
        return Ok(());
    };
    for word in words {
        match what.as_str() {
            "pool" => pool::measure(&rt, &word)?,
            "handles" => handles::measure(&rt, &word)?,
            "numbers" => numbers::measure(&rt, &word)?,
            "sums" => sums::measure(&rt, &word)?,
            _ => anyhow::bail!("no such measure: {what}"),
        }
    }
    Ok(())
}
