//! Words that are a form of the command line, and words that are none.
use crate::tests::scripts::{Edges, Script, ends_so, words_in};
use std::alloc::{AllocError, Global};
use std::test::Fail;

/// Rows of words, which commas part. An empty row is one word without letters.
const REFUSED: &str = "\
x

--
64
-
--help
--version
-h
-V
--pool
--pool=
--pool,
--pool,+64
--pool,0x40
--pool=-64
--pool, 64
--pool=6x4
--pool,=64
--Pool,64
-pool=64
-p,64
--po,64
pool,64
--pools,64
--pool,--draw
--pool,--,64
--pool,64,--
--,--pool=64
--pool,56
--pool,65
--pool=68
--pool,524288
--pool=18446744073709551616
--pool=18446744073709551680
--pool=000000000000000000064
--pool,64,--pool,64
--pool=64,--pool=64
--pool,64,x
x,--pool=64
64,--pool
--interrupt
--interrupt,18446744073709551616
--interrupt=18446744073709551616
--interrupt,--pool,64
--interrupt=1,--pool=64,--interrupt=1
--gen
--gen,4294967296
--gen=4294967296
--gen,1,--gen=2
--gen=1,--pool=65
--draw=
--draw=1
--draw,1
--draw,--draw
--draw,--pool=64,--draw
-d
--draws";

/// Rows of words for which the first read is asked for.
const ACCEPTED: &str = "\
--pool=64
--pool,64
--pool,0000000064
--pool=00000000000000000064
--pool=524280
--interrupt,0
--interrupt=18446744073709551615
--draw
--pool=64,--draw
--draw,--pool,64
--draw,--interrupt,1,--pool=72
--interrupt=7,--draw,--pool,64";

/// Nothing can be read, or written.
const SHUT: Edges = Edges {
    piece: 1,
    room: 0,
    failing_read: 1,
    failing_write: 0,
};

/// Whether a run with the words of a row, whose first read fails, ends with a status.
fn has_status(alloc: Global, row: &str, status: u8) -> Result<bool, AllocError> {
    let script = Script {
        words: words_in(alloc, row, ',')?,
        input: Vec::new(alloc),
        edges: SHUT,
        status,
        output: Vec::new(alloc),
    };
    ends_so(alloc, script)
}

/// The place of the first row whose words have another status.
fn first_other(alloc: Global, table: &str, status: u8) -> Result<Option<usize>, AllocError> {
    for (place, row) in table.lines().enumerate() {
        if !has_status(alloc, row, status)? {
            return Ok(Some(place));
        }
    }
    Ok(None)
}

#[test]
fn words_are_refused_or_accepted_in_any_order(rt: HostRuntime) -> Result<(), Fail> {
    let other = first_other(rt.alloc(), REFUSED, 2)?;
    assert_eq!(rt; other, None);
    let other = first_other(rt.alloc(), ACCEPTED, 3)?;
    assert_eq!(rt; other, None);
    Ok(())
}
