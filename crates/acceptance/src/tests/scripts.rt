//! Runs of the program, written as rows of a text, over a source and a sink in memory.
ghost use Rattle.std.specs.Prelude.{◌≡◌, ◌<◌, ◌^◌, vec_len, IfOk};

use breakers::{Breaker, CountBreaker};
use calc_edges::{MemSink, MemSource};
use poincare_run::run;
use std::alloc::{AllocError, Global};

/// The bytes that a session may write.
const ROOM: usize = 10_000;

/// How a source and a sink behave.
#[derive(Clone, Copy)]
pub struct Edges {
    /// The most bytes that come or go at once. None counts as one.
    pub piece: usize,
    /// The bytes that the sink takes in all.
    pub room: usize,
    /// The number of the read that fails, counted from 1, or 0.
    pub failing_read: u64,
    /// The number of the write that fails.
    pub failing_write: u64,
}

/// A run: its words, its input, and what it ends with and writes.
#[derive(Drop)]
pub struct Script {
    pub words: Vec<String>,
    pub input: Vec<u8>,
    pub edges: Edges,
    pub status: u8,
    pub output: Vec<u8>,
}

/// A session without words and lines, whose bytes come and go in pieces.
fn empty(alloc: Global, piece: usize) -> Script {
    Script {
        words: Vec::new(alloc),
        input: Vec::new(alloc),
        edges: Edges {
            piece,
            room: ROOM,
            failing_read: 0,
            failing_write: 0,
        },
        status: 0,
        output: Vec::new(alloc),
    }
}

/// The words of a text, which this character parts.
pub fn words_in(alloc: Global, text: &str, between: char) -> Result<Vec<String>, AllocError> {
    let mut words = Vec::new(alloc);
    for word in text.split(between) {
        words.push(String::from_str(alloc, word)?)?;
    }
    Ok(words)
}

/// Appends a text and a newline.
fn push_line(bytes: &mut Vec<u8>, text: &str) -> Result<(), AllocError> {
    bytes.extend_from_slice(text.as_bytes())?;
    bytes.push(b'\n')?;
    Ok(())
}

/// Appends what a row says.
fn push_row(alloc: Global, script: &mut Script, row: &str) -> Result<(), AllocError> {
    if let Some(words) = row.strip_prefix("$ ") {
        script.words = words_in(alloc, words, ' ')?;
        return Ok(());
    }
    if let Some(text) = row.strip_prefix("| ") {
        return push_line(&mut script.output, text);
    }
    let Some((line, text)) = row.split_once(" = ") else {
        return push_line(&mut script.input, row);
    };
    push_line(&mut script.input, line)?;
    push_line(&mut script.output, text)
}

/// The breakers of the program.
fn two_breakers(alloc: Global) -> Result<Vec<CountBreaker>, AllocError>
    ensures { IfOk result (λ breakers. vec_len breakers ≡ 2) }
{
    let mut breakers = Vec::new(alloc);
    breakers.push(CountBreaker::new())?;
    breakers.push(CountBreaker::new())?;
    Ok(breakers)
}

/// A source of these bytes and a sink, which behave so.
fn streams(
    alloc: Global,
    edges: Edges,
    input: Vec<u8>,
) -> Result<(MemSource, MemSink), AllocError> {
    let piece = edges.piece.max(1);
    let failing_reads = [edges.failing_read].to_vec(alloc)?;
    let failing_writes = [edges.failing_write].to_vec(alloc)?;
    let sink = MemSink::new(alloc, edges.room, piece, failing_writes)?;
    Ok((MemSource::new(input, piece, failing_reads), sink))
}

/// Whether a run under these breakers ends as it is to, and writes what it is to write and nothing else.
fn ends_under<B: Breaker>(
    alloc: Global,
    script: Script,
    breakers: Vec<B>,
) -> Result<bool, AllocError>
    requires few { vec_len breakers < 2 ^ 32 }
{
    let (mut source, mut sink) = streams(alloc, script.edges, script.input)?;
    let words = script.words.as_slice();
    let status = run(alloc, words, &mut source, &mut sink, breakers);
    Ok(status == script.status && sink.bytes() == script.output.as_slice())
}

/// The same under the breakers of the program.
pub fn ends_so(alloc: Global, script: Script) -> Result<bool, AllocError> {
    ends_under(alloc, script, two_breakers(alloc)?)
}

/// Whether a session of these rows is written as they say, under these breakers.
pub fn is_run<B: Breaker>(alloc: Global, rows: &str, breakers: Vec<B>) -> Result<bool, AllocError>
    requires few { vec_len breakers < 2 ^ 32 }
{
    let mut script = empty(alloc, ROOM);
    for row in rows.lines() {
        push_row(alloc, &mut script, row)?;
    }
    ends_under(alloc, script, breakers)
}

/// The place of the first empty row whose session, in pieces of so many bytes, writes something else. An empty row ends a
/// session. A row that begins with `$` has its words. Another row is a line, with its answer behind an equals sign where it
/// has one; a row that begins with `|` is one more row of the output.
pub fn first_other(alloc: Global, table: &str, piece: usize) -> Result<Option<usize>, AllocError> {
    let mut script = empty(alloc, piece);
    for (place, row) in table.lines().enumerate() {
        if !row.is_empty() {
            push_row(alloc, &mut script, row)?;
        } else {
            if !ends_so(alloc, script)? {
                return Ok(Some(place));
            }
            script = empty(alloc, piece);
        }
    }
    Ok(None)
}
