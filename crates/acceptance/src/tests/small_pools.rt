//! Lines in sessions with pools of every size.
mod tables;

ghost use Rattle.std.specs.Prelude.{◌≤◌};
ghost use Rattle.node_pool.specs.State.{IsPoolSize};

use super::fixtures::{answered, close, has_text, number, opened, pool_bytes};
use breakers::{NeverBreaker, Watch};
use calc_session::{LineAnswer, Refusal, Session};
use node_pool::Full;
use std::alloc::{AllocError, Global};
use std::test::Fail;
use tables::{CALCULATED, JOINED, REDUCED, ROOMS, SHOWN};

/// What became of a line in a pool.
#[derive(Clone, Copy, PartialEq, Eq)]
enum Outcome {
    /// It has the answer that is wanted.
    Answered,
    /// A node needs more bytes than are free, and all bytes of the pool are as they were.
    Full,
    Other,
}

/// Whether an answer is that a node needs more bytes than are free, and the pool has counted that as its only refusal. That
/// a derivative is too large is known before the pool is asked.
fn is_full(session: &Session, answer: LineAnswer, line: &str) -> bool {
    let LineAnswer::Refused(Refusal::Full { needed, free }) = answer else {
        return false;
    };
    let counted = is_counted(session, Full { needed, free });
    needed > free && (counted || line.starts_with(":diff"))
}

/// Whether this is the only refusal that a session's pool has counted.
fn is_counted(session: &Session, full: Full) -> bool {
    let pool = session.pool();
    pool.refusals() == 1 && pool.last_refused() == full
}

/// What becomes of a line.
fn outcome_in(
    alloc: Global,
    session: &mut Session,
    line: &str,
    text: &str,
) -> Result<Outcome, AllocError> {
    let mut watch = Watch::<NeverBreaker>::new(Vec::new(alloc));
    let before = pool_bytes(alloc, session)?;
    let answer = answered(session, &mut watch, line);
    let after = pool_bytes(alloc, session)?;
    if has_text(session, text) {
        Ok(Outcome::Answered)
    } else if is_full(session, answer, line) && before.as_slice() == after.as_slice() {
        Ok(Outcome::Full)
    } else {
        Ok(Outcome::Other)
    }
}

/// What becomes of the first line of a session whose pool has so many bytes.
fn outcome_of(alloc: Global, line: &str, text: &str, size: u32) -> Result<Outcome, AllocError>
    requires { IsPoolSize size }
{
    let mut session = opened(alloc, size)?;
    let found = outcome_in(alloc, &mut session, line, text);
    close(session);
    found
}

/// The least size from which on a line is answered, where it is Full at each smaller one.
fn least_size(alloc: Global, line: &str, text: &str) -> Result<Option<u32>, AllocError> {
    for size in 64..=2048u32 {
        if size % 8 == 0 {
            match outcome_of(alloc, line, text, size)? {
                Outcome::Answered => return Ok(Some(size)),
                Outcome::Full => {}
                Outcome::Other => return Ok(None),
            }
        }
    }
    Ok(None)
}

/// The place of the first row, a line and behind an equals sign its answer, that has no such size.
fn first_other(alloc: Global, table: &str) -> Result<Option<usize>, AllocError> {
    for (place, row) in table.lines().enumerate() {
        let Some((line, text)) = row.split_once(" = ") else {
            return Ok(Some(place));
        };
        if least_size(alloc, line, text)?.is_none() {
            return Ok(Some(place));
        }
    }
    Ok(None)
}

#[test]
fn small_pools_are_full(rt: HostRuntime) -> Result<(), Fail> {
    for table in [REDUCED, SHOWN, JOINED, CALCULATED] {
        let other = first_other(rt.alloc(), table)?;
        assert_eq!(rt; other, None, "{table}");
    }
    Ok(())
}

#[test]
fn a_sum_that_grows_where_it_is_reduced_is_full(rt: HostRuntime) -> Result<(), Fail> {
    let found = outcome_of(rt.alloc(), "-a-b", "-a-b", 88)?;
    assert!(rt; found == Outcome::Full);
    Ok(())
}

/// Whether a line is answered or Full in each pool up to one, and answered in that one.
fn is_answered_in_its_room(
    alloc: Global,
    line: &str,
    text: &str,
    room: u32,
) -> Result<bool, AllocError>
    requires { IsPoolSize room }
{
    for size in 64..room {
        if size % 8 == 0 && outcome_of(alloc, line, text, size)? == Outcome::Other {
            return Ok(false);
        }
    }
    Ok(outcome_of(alloc, line, text, room)? == Outcome::Answered)
}

/// The place of the first row whose line is not answered in its room.
fn first_refused(alloc: Global, table: &str) -> Result<Option<usize>, AllocError> {
    for (place, row) in table.lines().enumerate() {
        let (line, rest) = row.split_once(" = ").unwrap_or((row, ""));
        let (room, text) = rest.split_once(" = ").unwrap_or((rest, ""));
        let room = number(room).unwrap_or(0);
        if room < 64 || room > 524_280 || room % 8 != 0 {
            return Ok(Some(place));
        }
        if !is_answered_in_its_room(alloc, line, text, room)? {
            return Ok(Some(place));
        }
    }
    Ok(None)
}

#[test]
fn lines_are_answered_in_their_rooms(rt: HostRuntime) -> Result<(), Fail> {
    let other = first_refused(rt.alloc(), ROOMS)?;
    assert_eq!(rt; other, None);
    Ok(())
}
