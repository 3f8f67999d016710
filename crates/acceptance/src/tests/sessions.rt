//! Sessions of several lines: stored names, commands and interruptions.
mod tables;

use super::fixtures::{answered, close, has_text, opened};
use breakers::{CountBreaker, Watch};
use calc_session::Session;
use std::alloc::{AllocError, Global};
use std::test::Fail;
use tables::SESSIONS;

/// A watch over two breakers that can be armed.
fn two_breakers(alloc: Global) -> Result<Watch<CountBreaker>, AllocError> {
    let mut breakers = Vec::new(alloc);
    breakers.push(CountBreaker::new())?;
    breakers.push(CountBreaker::new())?;
    Ok(Watch::new(breakers))
}

/// Whether a line of a session is answered by a text.
fn is_answered(
    session: &mut Session,
    watch: &mut Watch<CountBreaker>,
    line: &str,
    text: &str,
) -> bool {
    answered(session, watch, line);
    watch.sweep();
    has_text(session, text)
}

/// Whether the rows are answered by their texts.
fn are_answered(session: &mut Session, watch: &mut Watch<CountBreaker>, rows: &str) -> bool {
    for row in rows.lines() {
        let (line, text) = row.split_once(" = ").unwrap_or((row, ""));
        if !is_answered(session, watch, line, text) {
            return false;
        }
    }
    true
}

/// Whether the rows of a session are answered by their texts.
fn is_session(alloc: Global, rows: &str) -> Result<bool, AllocError> {
    let mut watch = two_breakers(alloc)?;
    let mut session = opened(alloc, 32_768)?;
    let answered = are_answered(&mut session, &mut watch, rows);
    close(session);
    Ok(answered)
}

/// The place of the first session whose rows are not answered by their texts.
fn first_other(alloc: Global, table: &str) -> Result<Option<usize>, AllocError> {
    for (place, rows) in table.split("\n\n").enumerate() {
        if !is_session(alloc, rows)? {
            return Ok(Some(place));
        }
    }
    Ok(None)
}

#[test]
fn sessions_are_answered(rt: HostRuntime) -> Result<(), Fail> {
    let other = first_other(rt.alloc(), SESSIONS)?;
    assert_eq!(rt; other, None);
    Ok(())
}
