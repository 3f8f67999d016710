//! Faces of a name, of its multiples and powers, and of sums, worked by hand: 16 bytes for the name, 8 for a sign, a
//! line, a sum, a product, a power or a root, and 16 for each whole number.
ghost use Rattle.tree_handles.specs.Standing.{Stands};

use super::fixtures::{SIZE, answer, armed, number, read};
use breakers::{CountBreaker, Watch};
use deep_reduce::DeepReducer;
use node_pool::Pool;
use reduce_port::Reducer;
use std::alloc::{AllocError, Global};
use std::test::Fail;
use tree_handles::open_pool;

/// Lines, and the bytes of their faces.
const BYTES: &str = "\
x = 16\n\
-x = 24\n\
2×x = 40\n\
-2×x = 48\n\
x/2 = 40\n\
-x/2 = 48\n\
3×x/2 = 64\n\
-3×x/2 = 72\n\
x^2 = 40\n\
x^-1 = 40\n\
x^-2 = 64\n\
x^(1/2) = 24\n\
x^(-1/2) = 48\n\
x^(1/3) = 64\n\
x^(-1/3) = 72\n\
-x^-1 = 48\n\
1/2×x^-1 = 64\n\
2×x^-1 = 40\n\
3×x^2 = 64\n\
-3/2×x^-2 = 96\n\
-1/2+2×x = 96\n\
-3+2×x = 72\n\
2-x = 40\n\
2-x/2 = 64";

/// The bytes that are used when the face of a line's answer stands alone, or none where it was refused.
fn bytes_of_face<R: Reducer>(
    alloc: Global,
    reducer: &R,
    pool: &mut Pool,
    line: &[u8],
    watch: &mut Watch<CountBreaker>,
) -> Option<u32>
    requires stands { Stands pool.old }
{
    let Some(tree) = read(alloc, pool, line) else {
        return None;
    };
    match answer(alloc, reducer, pool, tree, watch) {
        Ok(_face) => Some(pool.used()),
        Err(_) => None,
    }
}

/// The same in a pool of its own.
fn bytes_taken(alloc: Global, line: &str) -> Result<Option<u32>, AllocError> {
    let mut watch = armed(alloc, u64::MAX)?;
    let mut pool = open_pool(alloc, SIZE)?;
    let taken = bytes_of_face(alloc, &DeepReducer, &mut pool, line.as_bytes(), &mut watch);
    Ok(taken)
}

/// The place of the first row whose face takes other bytes.
fn first_other(alloc: Global, table: &str) -> Result<Option<usize>, AllocError> {
    for (place, row) in table.lines().enumerate() {
        let (line, bytes) = row.split_once(" = ").unwrap_or((row, ""));
        let taken = bytes_taken(alloc, line)?;
        if taken.is_none() || taken != number(bytes) {
            return Ok(Some(place));
        }
    }
    Ok(None)
}

#[test]
fn faces_take_their_bytes(rt: HostRuntime) -> Result<(), Fail> {
    let other = first_other(rt.alloc(), BYTES)?;
    assert_eq!(rt; other, None);
    Ok(())
}
