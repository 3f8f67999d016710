//! Tests across crates: lines that are read, reduced, shown and written.
#![tactic(auto)]

#[cfg(test)]
mod tests;
