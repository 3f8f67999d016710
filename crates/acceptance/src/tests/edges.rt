//! Runs whose bytes come and go in pieces, whose sink is full, and whose reads and writes fail.
//!
//! A row has eight columns: the words; the input; the most bytes that come or go at once; the bytes that the sink takes;
//! the number of the read that fails, and of the write that fails, counted from 1, or 0; the status; the output.
//! A semicolon is a newline, `a*3*b` is `aaab`, and `~` takes a byte back, so that an output can end within a character.
use crate::tests::scripts::{Edges, Script, ends_so, words_in};
use std::alloc::{AllocError, Global};
use std::test::Fail;

/// Ends of lines, blank lines, and a last line without a newline.
const ENDS: &str = "\
|1+1\r;;007|1|1000|0|0|0|2;7;
|1+1\r;;007|3|1000|0|0|0|2;7;
|1+1\r;;007|4096|1000|0|0|0|2;7;
||1|1000|0|0|0|
||3|1000|0|0|0|
||4096|1000|0|0|0|
| \t\r;\r;\t|1|1000|0|0|0|
| \t\r;\r;\t|3|1000|0|0|0|
| \t\r;\r;\t|4096|1000|0|0|0|
|1\r\r;1\r2;2\r|1|1000|0|0|0|! character 2;! character 2;2;
|1\r\r;1\r2;2\r|3|1000|0|0|0|! character 2;! character 2;2;
|1\r\r;1\r2;2\r|4096|1000|0|0|0|! character 2;! character 2;2;";

/// Lines of many bytes.
const LENGTHS: &str = "\
|1*1024*|700|1000|0|0|0|! number 1;
|1*1025*|700|1000|0|0|0|! long;
|1*3000*|700|1000|0|0|0|! long;
|1+*511*1|700|1000|0|0|0|512;
|1+*512*1|700|1000|0|0|0|! long;
| *1024*\r|700|1000|0|0|0|
| *3000*\r|700|1000|0|0|0|! long;
| *3000*1|700|1000|0|0|0|! long;
|-*63*1|700|1000|0|0|0|-1;
|-*64*1|700|1000|0|0|0|! deep;
|0*1023*7\r;|700|1000|0|0|0|7;";

/// Each read of a byte fails. The last one finds the end.
const READS: &str = "\
|1+1;x+x;1/0|1|100|1|0|3|
|1+1;x+x;1/0|1|100|2|0|3|
|1+1;x+x;1/0|1|100|3|0|3|
|1+1;x+x;1/0|1|100|4|0|3|
|1+1;x+x;1/0|1|100|5|0|3|2;
|1+1;x+x;1/0|1|100|6|0|3|2;
|1+1;x+x;1/0|1|100|7|0|3|2;
|1+1;x+x;1/0|1|100|8|0|3|2;
|1+1;x+x;1/0|1|100|9|0|3|2;2×x;
|1+1;x+x;1/0|1|100|10|0|3|2;2×x;
|1+1;x+x;1/0|1|100|11|0|3|2;2×x;
|1+1;x+x;1/0|1|100|12|0|3|2;2×x;
|1+1;x+x;1/0|1|100|13|0|0|2;2×x;undef;
|1+1;x+x;1/0|3|100|3|0|3|2;
|1+1;2|4096|100|2|0|3|2;
|1+1;2|4096|100|1|0|3|
x|1|4096|100|1|0|2|
--pool 1024 --gen 1|1|4096|100|1|0|0|lines 2000 shown 1750 stored 250 undef 0 refused 0 bytes 27383;";

/// Each write of a byte fails, and each write of a picture: a row and its newline are one.
const WRITES: &str = "\
|1+1;x+x;1/0|1|100|0|1|4|
|1+1;x+x;1/0|1|100|0|2|4|2
|1+1;x+x;1/0|1|100|0|3|4|2;
|1+1;x+x;1/0|1|100|0|4|4|2;2
|1+1;x+x;1/0|1|100|0|5|4|2;2×~
|1+1;x+x;1/0|1|100|0|6|4|2;2×
|1+1;x+x;1/0|1|100|0|7|4|2;2×x
|1+1;x+x;1/0|1|100|0|8|4|2;2×x;
|1+1;x+x;1/0|1|100|0|9|4|2;2×x;u
|1+1;x+x;1/0|1|100|0|10|4|2;2×x;un
|1+1;x+x;1/0|1|100|0|11|4|2;2×x;und
|1+1;x+x;1/0|1|100|0|12|4|2;2×x;unde
|1+1;x+x;1/0|1|100|0|13|4|2;2×x;undef
|1+1;x+x;1/0|1|100|0|14|0|2;2×x;undef;
|1+1;x+x;1/0|3|100|0|3|4|2;2×
--draw|1/2;:draw|1000|1000|0|1|4|
--draw|1/2;:draw|1000|1000|0|2|4|1/2;
--draw|1/2;:draw|1000|1000|0|3|4|1/2;1;
--draw|1/2;:draw|1000|1000|0|4|4|1/2;1;-;
--draw|1/2;:draw|1000|1000|0|5|4|1/2;1;-;2;
--draw|1/2;:draw|1000|1000|0|8|0|1/2;1;-;2;1;-;2;";

/// The sink is full.
const ROOMS: &str = "\
|1|4096|0|0|0|4|
|1;2|4096|2|0|0|4|1;
|1;2|4096|3|0|0|4|1;2
|1+1;x+x;1/0|3|4|0|0|4|2;2×~
--pool=64|1+1+1+1;1+1+1+1|4096|27|0|0|4|! full needed 16 free 0;! f
--gen=1 --pool=64|1|4096|10|1|0|4|lines 2000";

/// At most 4096 bytes are asked for at once, and the read behind the last byte finds the end.
const ASKED: &str = "\
|;*0*|100000|0|1|0|3|
|;*0*|100000|0|2|0|0|
|;*4095*|100000|0|2|0|3|
|;*4095*|100000|0|3|0|0|
|;*4096*|100000|0|2|0|3|
|;*4096*|100000|0|3|0|0|
|;*4097*|100000|0|3|0|3|
|;*4097*|100000|0|4|0|0|
|;*9000*|100000|0|4|0|3|
|;*9000*|100000|0|5|0|0|";

/// A session has fewer than 16,777,215 bytes, which is 15 times 1,118,481.
const LIMIT: &str = "\
|;;;;;;;;;;;;;;;*1118480*;;;;;;;;;;;;;;|100000|1000|0|0|0|
|;;;;;;;;;;;;;;;*1118481*|100000|1000|0|0|6|
|;;;;;;;;;;;;;;;*1118481*;|100000|1000|0|0|6|";

/// The number that a text says, or 0.
fn number(text: &str) -> usize {
    text.parse().unwrap_or(0)
}

/// Appends a text.
fn push_text(bytes: &mut Vec<u8>, text: &str) -> Result<(), AllocError> {
    for byte in text.bytes() {
        match byte {
            b';' => bytes.push(b'\n')?,
            b'~' => {
                let _ = bytes.pop();
            }
            _ => bytes.push(byte)?,
        }
    }
    Ok(())
}

/// The bytes of a text.
fn bytes_of(alloc: Global, text: &str) -> Result<Vec<u8>, AllocError> {
    let (many, end) = text.rsplit_once('*').unwrap_or(("", text));
    let (part, times) = many.rsplit_once('*').unwrap_or(("", many));
    let mut repeated = Vec::new(alloc);
    push_text(&mut repeated, part)?;
    let mut bytes = Vec::new(alloc);
    for _ in 0..number(times) {
        bytes.extend_from_slice(repeated.as_slice())?;
    }
    push_text(&mut bytes, end)?;
    Ok(bytes)
}

/// Whether the run that a row says ends so.
fn holds(alloc: Global, row: &str) -> Result<bool, AllocError> {
    let columns = row.split('|').collect::<Vec<_>>(alloc)?;
    let [words, input, piece, room, read, write, status, output] = columns.as_slice() else {
        return Ok(false);
    };
    let script = Script {
        words: if words.is_empty() {
            Vec::new(alloc)
        } else {
            words_in(alloc, words, ' ')?
        },
        input: bytes_of(alloc, input)?,
        edges: Edges {
            piece: number(piece),
            room: number(room),
            failing_read: number(read) as u64,
            failing_write: number(write) as u64,
        },
        status: status.parse().unwrap_or(255),
        output: bytes_of(alloc, output)?,
    };
    ends_so(alloc, script)
}

/// The first row whose run ends otherwise.
fn first_other(alloc: Global, table: &str) -> Result<Option<&str>, AllocError> {
    for row in table.lines() {
        if !holds(alloc, row)? {
            return Ok(Some(row));
        }
    }
    Ok(None)
}

#[test]
fn runs_end_as_their_edges_let_them(rt: HostRuntime) -> Result<(), Fail> {
    for table in [ENDS, LENGTHS, READS, WRITES, ROOMS, ASKED] {
        let other = first_other(rt.alloc(), table)?;
        assert_eq!(rt; other, None);
    }
    Ok(())
}

#[test]
fn a_session_ends_at_its_limit(rt: HostRuntime) -> Result<(), Fail> {
    let other = first_other(rt.alloc(), LIMIT)?;
    assert_eq!(rt; other, None);
    Ok(())
}
