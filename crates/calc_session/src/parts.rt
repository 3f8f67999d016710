//! The parts of a session.
ghost use Rattle.std.specs.Prelude.{◌≡◌, ◌+◌, ◌*◌, [], IfOk};
ghost use Rattle.node_pool.specs.State.{IsPoolSize};
ghost use Rattle.tree_handles.specs.Standing.{Stands};
ghost use Rattle.calc_session.specs.Forms.{solution_room};

use crate::solution_text::SOLUTION_ROOM;
use beautify::Faces;
use calc_parser::Parser;
use expand_forms::TermLists;
use line_text::Text;
use name_table::NameTable;
use node_pool::Pool;
use pool_layouts::Drafter;
use std::alloc::{AllocError, Global};
use tree_handles::open_pool;

/// For each term of a polynomial that is expanded in lists so many bytes of the pool are counted, and there is room for so many at
/// least and at most.
const BYTES_OF_TERM: u32 = 128;

const LEAST_TERMS: u32 = 64;

const MOST_TERMS: u32 = 4_096;

/// Where trees are worked on: a pool, and the lists that faces are written with and that polynomials are expanded in.
#[derive(Drop)]
pub struct Workspace {
    pub pool: Pool,
    pub faces: Faces,
    pub lists: TermLists,
}

/// A workspace, the table of the trees that stand in it, which are the last answer and the stored ones, the text of the last
/// line, the parser that each line is read by, and the drafter that answers are drawn with.
#[derive(Drop)]
pub struct Parts {
    pub work: Workspace,
    pub table: NameTable,
    pub text: Text,
    pub parser: Parser,
    pub drafter: Drafter,
}

impl Workspace {
    /// A workspace whose pool has that many bytes, all of them free.
    pub fn open(alloc: Global, size: u32) -> Result<Workspace, AllocError>
        requires { IsPoolSize size }
        ensures pool { IfOk result (λ work. work.pool ≡ record { nodes = []; size = size; refusals = 0; last_refused = record { needed = 0; free = 0 } }) }
        ensures stands { IfOk result (λ work. Stands work.pool) }
        ensures faces { IfOk result (λ work. work.faces ≡ size) }
    {
        let pool = open_pool(alloc, size)?;
        let faces = Faces::open(alloc, size)?;
        let lists = TermLists::open(alloc, terms_within(size))?;
        Ok(Workspace { pool, faces, lists })
    }
}

/// The text of a session whose pool has that many bytes, and the drafter for it.
pub fn open_writing(alloc: Global, size: u32) -> Result<(Text, Drafter), AllocError>
    requires { IsPoolSize size }
    ensures text { IfOk result (λ both. both.0 ≡ record { bytes = []; capacity = 3 * size + solution_room }) }
    ensures drafter { IfOk result (λ both. both.1.pool_size ≡ size) }
{
    let text = Text::open(alloc, 3 * size + SOLUTION_ROOM)?;
    let drafter = Drafter::open(alloc, size)?;
    Ok((text, drafter))
}

/// How many terms the lists have room for, beside a pool of so many bytes.
fn terms_within(size: u32) -> u16 {
    (size / BYTES_OF_TERM).max(LEAST_TERMS).min(MOST_TERMS) as u16
}
