//! Held sessions: texts and pictures are copied, lines are stopped, and whole texts of lines are answered.
use calc_session::LineAnswer;
use poincare_held::{Drawn, Held, OpenFault, PoolUse, answers};
use std::alloc::Global;
use std::test::Fail;

/// A line; how many checks it may make, where they are counted; how many bytes its text has, or the picture behind `:draw`;
/// and what stands behind the call in memory that was full of points. Where there is no line, the last text is copied again.
type Row = (&'static str, Option<u64>, usize, &'static str);

/// Lines of a session that was asked to stop.
const STOPPED: [Row; 8] = [
    ("", None, 0, "...."),
    ("1+2", Some(9), 13, "! interrupted."),
    ("1+2", Some(9), 1, "3."),
    ("1+2", Some(2), 13, "! interrupted."),
    ("1+2", Some(3), 1, "3."),
    (":after 2", None, 7, "after 2."),
    ("1+2", None, 13, "! interrupted."),
    ("1+2", None, 1, "3."),
];

/// Lines behind a stop that was withdrawn.
const CLEARED: [Row; 5] = [
    ("1/3+1/6", None, 3, "1/2."),
    ("", None, 3, "1/"),
    (":draw", None, 6, "1\n-\n2\n.."),
    (":draw", None, 6, "1\n"),
    ("", None, 0, "...."),
];

/// Sizes of pools, texts of lines, how many bytes the answers have, and what stands behind the call in memory that was full
/// of points.
const TEXTS: [(u32, &str, Result<usize, OpenFault>, &str); 3] = [
    (
        32_768,
        ":after 3\n1+2+3\r\n\n:after 4\n1+2+3\n7\n:after 0",
        Ok(57),
        "after 3\n! interrupted\nafter 4\n6\n! interrupted\nno breaker\n.",
    ),
    (63, "1", Err(OpenFault::PoolSize), "..."),
    (64, "1\n:draw\n", Ok(4), "1\n1"),
];

/// Answers a line, where there is one, and copies its text or the picture. Tells how many bytes there are.
fn copied(held: &mut Held, line: &str, checks: Option<u64>, out: &mut [u8]) -> usize {
    if line.is_empty() {
        return held.text(out);
    }
    let answer = match checks {
        Some(checks) => held.line_within(line.as_bytes(), checks),
        None => held.line(line.as_bytes()),
    };
    if !matches!(answer, LineAnswer::Draw) {
        return held.text(out);
    }
    match held.draw(out) {
        Drawn::Picture { count } => count,
        Drawn::Full { .. } => 0,
    }
}

/// Whether the lines of a session are answered so.
fn are_answered(held: &mut Held, rows: &[Row]) -> bool {
    for &(line, checks, count, bytes) in rows {
        let mut memory = [b'.'; 64];
        let out = &mut memory[..bytes.len().min(64)];
        if copied(held, line, checks, out) != count || *out != *bytes.as_bytes() {
            return false;
        }
    }
    true
}

/// What the last answer leaves of the pool.
const LEFT: PoolUse = PoolUse {
    used: 40,
    free: 32_728,
};

/// Whether a session answers the first lines once it was asked to stop, and the others once that was withdrawn.
fn stops(held: &mut Held) -> bool {
    let Ok(mut stopper) = held.stopper() else {
        return false;
    };
    stopper.stop();
    let are_stopped = are_answered(held, &STOPPED);
    stopper.stop();
    stopper.clear();
    are_stopped && are_answered(held, &CLEARED) && held.pool() == LEFT
}

/// The same of a session that ends here, so that it is dropped in one place.
fn is_held(mut held: Held) -> bool {
    stops(&mut held)
}

/// Whether the texts of lines are answered so.
fn are_texts(alloc: Global) -> bool {
    for (size, lines, count, bytes) in TEXTS {
        let mut memory = [b'.'; 64];
        let out = &mut memory[..bytes.len().min(64)];
        if answers(alloc, size, lines.as_bytes(), out) != count || *out != *bytes.as_bytes() {
            return false;
        }
    }
    true
}

#[test]
fn held_sessions_answer(rt: HostRuntime) -> Result<(), Fail> {
    let held = Held::open(rt.alloc(), 32_768)?;
    assert!(rt; is_held(held) && are_texts(rt.alloc()));
    Ok(())
}
