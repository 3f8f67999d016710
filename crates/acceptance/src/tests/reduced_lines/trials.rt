//! Lines tried one by one, each in a pool of its own.
ghost use Rattle.tree_handles.specs.Standing.{Stands};

use crate::tests::fixtures::{SIZE, answer, armed, is_tree_of, number, read};
use breakers::{CountBreaker, Interrupted, Watch};
use deep_reduce::DeepReducer;
use node_pool::Pool;
use reduce_port::{ReduceFault, Reducer};
use std::alloc::{AllocError, Global};
use tree_handles::{open_pool, tree_nodes};

/// What became of a line.
#[derive(Clone, Copy, PartialEq, Eq)]
pub enum Outcome {
    /// It is no line, or one of the two was refused where it was built.
    Unread,
    /// Its answer is the tree of the text that is wanted.
    Wanted,
    Other,
    Full,
    Overflow,
    Interrupted(u32),
}

/// Reduces a line under a breaker that trips after so many polls, and compares the answer with a text.
fn tried<R: Reducer>(
    alloc: Global,
    reducer: &R,
    pool: &mut Pool,
    line: &[u8],
    text: &[u8],
    watch: &mut Watch<CountBreaker>,
) -> Outcome
    requires stands { Stands pool.old }
{
    let Some(tree) = read(alloc, pool, line) else {
        return Outcome::Unread;
    };
    match answer(alloc, reducer, pool, tree, watch) {
        Ok(face) => {
            if is_tree_of(alloc, pool, &face, text) {
                Outcome::Wanted
            } else {
                Outcome::Other
            }
        }
        Err(ReduceFault::Full(_)) => Outcome::Full,
        Err(ReduceFault::Overflow(_)) => Outcome::Overflow,
        Err(ReduceFault::Interrupted(Interrupted { by })) => Outcome::Interrupted(by),
    }
}

/// The nodes of a line's tree.
fn nodes_of(alloc: Global, pool: &mut Pool, line: &[u8]) -> u32
    requires stands { Stands pool.old }
{
    match read(alloc, pool, line) {
        Some(tree) => tree_nodes(pool, tree.id()),
        None => 0,
    }
}

/// What becomes of a line in a pool of its own.
fn outcome_of(
    alloc: Global,
    line: &str,
    text: &str,
    watch: &mut Watch<CountBreaker>,
) -> Result<Outcome, AllocError> {
    let mut pool = open_pool(alloc, SIZE)?;
    let found = tried(
        alloc,
        &DeepReducer,
        &mut pool,
        line.as_bytes(),
        text.as_bytes(),
        watch,
    );
    Ok(found)
}

/// A row of a table, which is a line and behind an equals sign the text of its answer, where it has one.
fn sides(row: &str) -> (&str, &str) {
    match row.split_once(" = ") {
        Some(sides) => sides,
        None => (row, ""),
    }
}

/// The place of the first row whose line has another outcome.
pub fn first_other(
    alloc: Global,
    table: &str,
    wanted: Outcome,
) -> Result<Option<usize>, AllocError> {
    for (place, row) in table.lines().enumerate() {
        let (line, text) = sides(row);
        let mut watch = armed(alloc, u64::MAX)?;
        if outcome_of(alloc, line, text, &mut watch)? != wanted {
            return Ok(Some(place));
        }
    }
    Ok(None)
}

/// Whether a line is interrupted where the breaker lets fewer polls pass than the line has nodes, and answered where
/// it lets as many pass, and then the next poll trips.
fn has_a_check_for_each_node(alloc: Global, line: &str, text: &str) -> Result<bool, AllocError> {
    let mut pool = open_pool(alloc, SIZE)?;
    let nodes = nodes_of(alloc, &mut pool, line.as_bytes());
    for polls in 0..nodes {
        let mut watch = armed(alloc, u64::from(polls))?;
        if outcome_of(alloc, line, text, &mut watch)? != Outcome::Interrupted(0) {
            return Ok(false);
        }
    }
    let mut watch = armed(alloc, u64::from(nodes))?;
    let found = outcome_of(alloc, line, text, &mut watch)?;
    Ok(found == Outcome::Wanted && watch.check().is_err())
}

/// The place of the first row whose line is not interrupted at every check.
pub fn first_uninterrupted(alloc: Global, table: &str) -> Result<Option<usize>, AllocError> {
    for (place, row) in table.lines().enumerate() {
        let (line, text) = sides(row);
        if !has_a_check_for_each_node(alloc, line, text)? {
            return Ok(Some(place));
        }
    }
    Ok(None)
}

/// Whether the step of so many nodes, children before their parent, is the one in which an operation does not fit: it
/// does not where as many polls pass, and with one fewer the line is interrupted.
fn overflows_at(alloc: Global, line: &str, node: u64) -> Result<bool, AllocError> {
    if node == 0 {
        return Ok(false);
    }
    let mut watch = armed(alloc, node - 1)?;
    let before = outcome_of(alloc, line, "", &mut watch)?;
    let mut watch = armed(alloc, node)?;
    let found = outcome_of(alloc, line, "", &mut watch)?;
    Ok(before == Outcome::Interrupted(0) && found == Outcome::Overflow && watch.check().is_err())
}

/// The place of the first row whose line does not overflow at the node that the row names.
pub fn first_other_node(alloc: Global, table: &str) -> Result<Option<usize>, AllocError> {
    for (place, row) in table.lines().enumerate() {
        let (line, node) = sides(row);
        let node = number(node).unwrap_or(0);
        if !overflows_at(alloc, line, u64::from(node))? {
            return Ok(Some(place));
        }
    }
    Ok(None)
}
