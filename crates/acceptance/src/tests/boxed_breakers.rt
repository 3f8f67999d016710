//! Breakers of three kinds, boxed in one list, that stop the lines of a session and of a run.
ghost use Rattle.std.specs.Prelude.{◌≡◌, vec_len, IfOk};

use super::fixtures::{answered, close, has_text, number, opened, stopped_by};
use crate::tests::scripts::is_run;
use breakers::{Breaker, CountBreaker, NeverBreaker, SilentBreaker, Watch};
use calc_session::Session;
use std::alloc::{AllocError, Global};
use std::test::Fail;

/// Lines, their answers, and the places of the breakers that stop them, of four: one never trips, one can be armed, one trips
/// at its second poll, and one at its seventh. A line makes a check for each of its nodes, which polls the breakers up to
/// the one that trips. An empty row drops those that have tripped; until then they are polled, and can be armed again. So
/// of the last breaker's polls the first line makes one, the next one another, and `7` the third.
const LINES: &str = "\
1+2+3 = ! interrupted by 2
:after 3 = after 3
:after 1 = after 1
1+2+3 = ! interrupted by 1
7 = 7
:after 0 = after 0
7 = ! interrupted by 1

7 = 7
:after 0 = no breaker
1+2+3 = ! interrupted by 1
7 = 7

:after 1 = no breaker
7 = 7";

/// Lines and their answers in a run, which drops behind each line the breakers that have tripped.
const RUN: &str = "\
1+2+3 = ! interrupted
:after 3 = after 3
:after 1 = after 1
1+2+3 = ! interrupted
:after 0 = no breaker
7 = 7
1+2+3 = ! interrupted
7 = 7";

/// Lines and their answers where no breaker can be armed.
const UNARMED: &str = "\
$ --interrupt 0
:after 1 = no breaker
7 = 7";

/// The four breakers.
fn four_breakers(alloc: Global) -> Result<Vec<Box<dyn Breaker>>, AllocError>
    ensures { IfOk result (λ breakers. vec_len breakers ≡ 4) }
{
    let mut breakers: Vec<Box<dyn Breaker>> = Vec::new(alloc);
    breakers.push(Box::new(alloc, NeverBreaker::new())?)?;
    breakers.push(Box::new(alloc, CountBreaker::new())?)?;
    breakers.push(Box::new(alloc, SilentBreaker::new([2].to_vec(alloc)?))?)?;
    breakers.push(Box::new(alloc, SilentBreaker::new([7].to_vec(alloc)?))?)?;
    Ok(breakers)
}

/// Whether a line is answered by a text, and stopped by the breaker at this place where there is one.
fn is_answered<B: Breaker>(
    session: &mut Session,
    watch: &mut Watch<B>,
    line: &str,
    answer: &str,
) -> bool {
    let (text, place) = answer.split_once(" by ").unwrap_or((answer, ""));
    let by = stopped_by(answered(session, watch, line));
    by == number(place) && has_text(session, text)
}

/// The place of the first row whose line is not answered so.
fn first_other<B: Breaker>(
    session: &mut Session,
    watch: &mut Watch<B>,
    table: &str,
) -> Option<usize> {
    for (place, row) in table.lines().enumerate() {
        let (line, answer) = row.split_once(" = ").unwrap_or(("", ""));
        if line.is_empty() {
            watch.sweep();
        } else if !is_answered(session, watch, line, answer) {
            return Some(place);
        }
    }
    None
}

#[test]
fn boxed_breakers_stop_lines(rt: HostRuntime) -> Result<(), Fail> {
    let mut watch = Watch::new(four_breakers(rt.alloc())?);
    let mut session = opened(rt.alloc(), 32_768)?;
    let other = first_other(&mut session, &mut watch, LINES);
    close(session);
    assert_eq!(rt; other, None);
    assert_eq!(rt; watch.len(), 1);
    Ok(())
}

#[test]
fn boxed_breakers_stop_a_run(rt: HostRuntime) -> Result<(), Fail> {
    let breakers = four_breakers(rt.alloc())?;
    assert!(rt; is_run(rt.alloc(), RUN, breakers)?);
    Ok(())
}

#[test]
fn a_breaker_that_never_trips_is_not_armed(rt: HostRuntime) -> Result<(), Fail> {
    let mut breakers: Vec<Box<dyn Breaker>> = Vec::new(rt.alloc());
    breakers.push(Box::new(rt.alloc(), NeverBreaker::new())?)?;
    assert_eq!(rt; breakers.len(), 1);
    assert!(rt; is_run(rt.alloc(), UNARMED, breakers)?);
    Ok(())
}
