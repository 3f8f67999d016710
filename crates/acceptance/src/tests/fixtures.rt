//! What the tests share: pools, breakers, and the trees of lines.
ghost use Rattle.std.specs.Prelude.{◌≡◌, IfOk, IfSome};
ghost use Rattle.node_pool.specs.State.{IsPoolSize};
ghost use Rattle.tree_handles.specs.Handed.{IsHanded, Gives};
ghost use Rattle.tree_handles.specs.Standing.{Stands, forest};

use beautify::Faces;
use breakers::{Breaker, CountBreaker, Watch};
use calc_parser::{build, check};
use calc_session::{LineAnswer, Refusal, Session};
use calc_terms::Kind;
use calc_tokens::{Tokens, scan};
use deep_reduce::DeepReducer;
use line_text::{Text, write_tree};
use node_order::compare;
use node_pool::Pool;
use reduce_port::{ReduceFault, Reducer};
use std::alloc::{AllocError, Global};
use std::cmp::Ordering;
use tree_handles::{Handle, kind, tree_bytes};

/// The bytes of a pool in which there is room enough.
pub const SIZE: u32 = 16_384;

/// The number that a text is.
pub fn number(text: &str) -> Option<u32> {
    text.parse().ok()
}

/// A watch over one breaker, which trips after so many polls.
pub fn armed(alloc: Global, polls: u64) -> Result<Watch<CountBreaker>, AllocError> {
    let mut breaker = CountBreaker::new();
    breaker.arm(polls);
    let mut breakers = Vec::new(alloc);
    breakers.push(breaker)?;
    Ok(Watch::new(breakers))
}

/// The tree of a line, which becomes the last one.
pub fn read(alloc: Global, pool: &mut Pool, line: &[u8]) -> Option<Handle>
    requires stands { Stands pool.old }
    ensures gives { IfSome result (λ h. Gives (forest pool.old) (forest pool.new) h (λ t. t ≡ t)) }
    ensures stands { Stands pool.new }
{
    if line.len() > 1024 {
        return None;
    }
    let mut tokens = Tokens::open(alloc).ok()?;
    scan(&mut tokens, line).ok()?;
    let Ok(_) = check(&tokens) else {
        return None;
    };
    let Ok(tree) = build(pool, &tokens) else {
        return None;
    };
    Some(tree)
}

/// A tree reduced, and its face, where it has one and there is memory for its lists.
pub fn answer<R: Reducer>(
    alloc: Global,
    reducer: &R,
    pool: &mut Pool,
    tree: Handle,
    watch: &mut Watch<CountBreaker>,
) -> Result<Handle, ReduceFault>
    requires stands { Stands pool.old }
    requires handed { IsHanded tree (forest pool.old) }
    ensures gives { IfOk result (λ h. IsHanded h (forest pool.new)) }
    ensures stands { Stands pool.new }
{
    let reduced = reducer.reduce(pool, tree, watch)?;
    match kind(pool, reduced.id()) {
        Kind::Undef => Ok(reduced),
        _ => {
            let Ok(mut faces) = Faces::open(alloc, pool.size()) else {
                return Ok(reduced);
            };
            let face = faces.face_of(pool, reduced)?;
            Ok(face)
        }
    }
}

/// Whether a tree is the one that a text reads as.
pub fn is_tree_of(alloc: Global, pool: &mut Pool, answer: &Handle, text: &[u8]) -> bool
    requires stands { Stands pool.old }
    requires handed { IsHanded answer.now (forest pool.old) }
{
    match read(alloc, pool, text) {
        Some(tree) => compare(pool, answer.id(), tree.id()) == Ordering::Equal,
        None => false,
    }
}

/// The text of a tree as it stands, in twice its bytes; none of a tree of more than 1,024 bytes.
pub fn written(alloc: Global, pool: &Pool, tree: &Handle) -> Result<Text, AllocError>
    requires stands { Stands pool.now }
    requires handed { IsHanded tree.now (forest pool.now) }
{
    let id = tree.id();
    let bytes = tree_bytes(pool, id);
    if bytes > 1024 {
        return Text::open(alloc, 0);
    }
    let mut text = Text::open(alloc, 2 * bytes)?;
    write_tree(pool, id, &mut text);
    Ok(text)
}

/// A session whose pool has so many bytes. This and the next four say nothing of what they do, so that what calls them is
/// proved under few clauses; and a session is given to `close` at the one end of a function, since to drop what has so many
/// parts is proved anew at each place where it may happen.
pub fn opened(alloc: Global, size: u32) -> Result<Session, AllocError>
    requires { IsPoolSize size }
{
    Session::open(alloc, size)
}

/// Drops a session.
pub fn close(session: Session) {
    let _dropped = session;
}

/// The answer to a line.
pub fn answered<B: Breaker>(session: &mut Session, watch: &mut Watch<B>, line: &str) -> LineAnswer {
    session.line(&DeepReducer, watch, line.as_bytes())
}

/// Whether what was told last is this text.
pub fn has_text(session: &Session, text: &str) -> bool {
    session.text() == text.as_bytes()
}

/// The bytes of a session's pool.
pub fn pool_bytes(alloc: Global, session: &Session) -> Result<Vec<u8>, AllocError> {
    session.pool().bytes().to_vec(alloc)
}

/// The place of the breaker that stopped a line.
pub fn stopped_by(answer: LineAnswer) -> Option<u32> {
    match answer {
        LineAnswer::Refused(Refusal::Interrupted { by }) => Some(by),
        _ => None,
    }
}
