//! A session that is opened for one line.
ghost use Rattle.std.specs.Prelude.{IfOk};
ghost use Rattle.callers.specs.Answering.{IsFirstAnswer};

use breakers::{NeverBreaker, Watch};
use calc_session::{LineAnswer, Session};
use deep_reduce::DeepReducer;
use std::alloc::{AllocError, Global};

/// The bytes of the pool.
const POOL: u32 = 32_768;

/// Opens a session, answers one line in it, and gives what became of the line and its text.
pub fn first_answer(alloc: Global, line: &[u8]) -> Result<(LineAnswer, Vec<u8>), AllocError>
    ensures { IfOk result (λ told. IsFirstAnswer line.now told.0 told.1.items) }
{
    let mut session = Session::open(alloc, POOL)?;
    let mut watch = Watch::<NeverBreaker>::new(Vec::new(alloc));
    let answer = session.line(&DeepReducer, &mut watch, line);
    let mut text = Vec::new(alloc);
    text.extend_from_slice(session.text())?;
    Ok((answer, text))
}
