//! Lines that are stopped by a breaker that tells nothing of its polls: at each of their checks, and at those of a list.
use super::fixtures::{answered, close, has_text, number, opened, pool_bytes, stopped_by};
use breakers::{SilentBreaker, Watch};
use calc_session::Session;
use std::alloc::{AllocError, Global};
use std::test::Fail;

/// Lines, the nodes of their trees, and their answers.
const LINES: &str = "\
7 = 1 = 7
1/3+1/6 = 7 = 1/2
1/(√(2)+√(3)) = 7 = -√(2)+√(3)
(√(2)+√(3))^4 = 7 = 49+20×√(6)
(x+√(2))^-1×(x+√(3))^-1 = 15 = 1/((√(2)+x)×(√(3)+x))";

/// The polls of a list, and which of five lines of one node each they stop.
const LISTS: [([u64; 2], [bool; 5]); 4] = [
    ([0, 0], [false, false, false, false, false]),
    ([1, 1], [true, false, false, false, false]),
    ([4, 2], [false, true, false, true, false]),
    ([5, 6], [false, false, false, false, true]),
];

/// A watch over one breaker, which trips at the polls of these numbers.
fn silent(alloc: Global, polls: &[u64]) -> Result<Watch<SilentBreaker>, AllocError> {
    let mut breakers = Vec::new(alloc);
    breakers.push(SilentBreaker::new(polls.to_vec(alloc)?))?;
    Ok(Watch::new(breakers))
}

/// Whether a line is interrupted, and leaves all bytes of the pool as they were.
fn stops(
    alloc: Global,
    session: &mut Session,
    watch: &mut Watch<SilentBreaker>,
    line: &str,
) -> Result<bool, AllocError> {
    let before = pool_bytes(alloc, session)?;
    let stopped = stopped_by(answered(session, watch, line)) == Some(0);
    let after = pool_bytes(alloc, session)?;
    Ok(stopped && has_text(session, "! interrupted") && before.as_slice() == after.as_slice())
}

/// Whether a line is interrupted so at a poll.
fn is_interrupted(alloc: Global, line: &str, poll: u64) -> Result<bool, AllocError> {
    let mut watch = silent(alloc, &[poll])?;
    let mut session = opened(alloc, 32_768)?;
    let stopped = stops(alloc, &mut session, &mut watch, line);
    close(session);
    stopped
}

/// Whether a line is answered before a poll, which is the next one.
fn is_answered(alloc: Global, line: &str, text: &str, poll: u64) -> Result<bool, AllocError> {
    let mut watch = silent(alloc, &[poll])?;
    let mut session = opened(alloc, 32_768)?;
    answered(&mut session, &mut watch, line);
    let told = has_text(&session, text);
    close(session);
    Ok(told && watch.check().is_err())
}

/// Whether a line is interrupted at as many polls as its tree has nodes, and answered before the poll behind them.
fn is_stopped_at_each_node(
    alloc: Global,
    line: &str,
    text: &str,
    nodes: u64,
) -> Result<bool, AllocError> {
    for poll in 1..=nodes {
        if !is_interrupted(alloc, line, poll)? {
            return Ok(false);
        }
    }
    is_answered(alloc, line, text, nodes.saturating_add(1))
}

/// The place of the first row whose line is not stopped so.
fn first_other(alloc: Global, table: &str) -> Result<Option<usize>, AllocError> {
    for (place, row) in table.lines().enumerate() {
        let (line, rest) = row.split_once(" = ").unwrap_or((row, ""));
        let (count, text) = rest.split_once(" = ").unwrap_or((rest, ""));
        let nodes = number(count).unwrap_or(0);
        if nodes == 0 || !is_stopped_at_each_node(alloc, line, text, u64::from(nodes))? {
            return Ok(Some(place));
        }
    }
    Ok(None)
}

#[test]
fn silent_breakers_stop_lines_at_each_node(rt: HostRuntime) -> Result<(), Fail> {
    let other = first_other(rt.alloc(), LINES)?;
    assert_eq!(rt; other, None);
    Ok(())
}

/// Whether of five lines of one node each exactly these are stopped.
fn are_stopped(session: &mut Session, watch: &mut Watch<SilentBreaker>, stops: [bool; 5]) -> bool {
    for stop in stops {
        if stopped_by(answered(session, watch, "7")).is_some() != stop {
            return false;
        }
    }
    true
}

/// Whether a breaker that trips at these polls stops exactly these of five lines.
fn is_list(alloc: Global, polls: [u64; 2], stops: [bool; 5]) -> Result<bool, AllocError> {
    let mut watch = silent(alloc, &polls)?;
    let mut session = opened(alloc, 32_768)?;
    let stopped = are_stopped(&mut session, &mut watch, stops);
    close(session);
    Ok(stopped)
}

#[test]
fn silent_breakers_stop_lines_at_the_polls_of_their_lists(rt: HostRuntime) -> Result<(), Fail> {
    for (polls, stops) in LISTS {
        assert!(rt; is_list(rt.alloc(), polls, stops)?);
    }
    Ok(())
}
