//! Lines read and built, over memory that is taken once.
ghost use Rattle.std.specs.Prelude.{◌≡◌, ◌↔◌, ◌≤◌, ℕ, List, [], Option, length, Ok, Err, IfOk, IfErr, IsOk, OnErr, OnOk};
ghost use Rattle.calc_terms.specs.Limits.{depth_limit};
ghost use Rattle.calc_terms.specs.Trees.{Tree, depth as depth_of};
ghost use Rattle.calc_tokens.specs.Placed.{Placed, bare};
ghost use Rattle.calc_tokens.specs.Scanned.{AreTokensOf};
ghost use Rattle.calc_tokens.specs.Tokens.{tokens_of};
ghost use Rattle.node_pool.specs.State.{free_of};
ghost use Rattle.tree_handles.specs.Handed.{Gives, KeepsFront};
ghost use Rattle.tree_handles.specs.Standing.{LacksBytes, Stands, forest, KeepsRefusals, Refuses};
ghost use Rattle.calc_parser.specs.Building.{building};
ghost use Rattle.calc_parser.specs.Lines.{IsLine, IsTreeOf};
ghost use Rattle.calc_parser.specs.Outcomes.{IsShallow};
ghost use Rattle.calc_parser.specs.Refused.{IsLineFaultOf};
ghost use Rattle.calc_tokens.specs.Limits.{line_limit};

use crate::building::place_line;
use crate::checking::{ParseFault, checked};
use crate::postfix::STEP_LIMIT;
use crate::reader::Reader;
use arrayvec::ArrayVec;
use calc_terms::Name;
use calc_tokens::{TokenFault, Tokens, scan};
use node_pool::{Full, Pool};
use std::alloc::{AllocError, Global};
use std::marker::Model;
use thiserror::Error;
use tree_handles::Handle;

/// Why a line is refused.
#[derive(Clone, Copy, Debug, PartialEq, Eq, Error)]
pub enum LineFault {
    /// It has no tokens.
    #[error(transparent)]
    Token(TokenFault),
    /// Its tokens are refused.
    #[error(transparent)]
    Parse(ParseFault),
}

/// Reads lines, and builds the tree of the one that it read last. It is seen as the tokens of that line.
#[derive(Drop)]
pub struct Parser {
    tokens: Tokens,
    reader: Box<Reader>,
    depths: Box<ArrayVec<u32, STEP_LIMIT>>,
    places: Box<ArrayVec<u32, STEP_LIMIT>>,
}

impl Model for Parser {
    ghost use Rattle.calc_tokens.specs.contracts.tokens.Tokens.{the_row};
    ghost use Rattle.calc_tokens.specs.declared.tokens.Tokens.{Tokens};

    ghost Value = { Tokens };

    ghost coded = { the_row.coded };

    ghost use Rattle.calc_parser.specs.Kept.{kept_tokens, KeepsSteps};

    ghost view = { kept_tokens };

    ghost invariant = { KeepsSteps };
}

impl Parser {
    /// A parser that has read nothing. All memory is taken here.
    pub fn open(alloc: Global) -> Result<Parser, AllocError>
        ensures { IfOk result (λ parser. tokens_of parser ≡ []) }
    {
        let tokens = Tokens::open(alloc)?;
        let reader = boxed_reader(alloc)?;
        let depths = boxed_numbers(alloc)?;
        let places = boxed_numbers(alloc)?;
        Ok(Parser {
            tokens,
            reader,
            depths,
            places,
        })
    }

    /// Cuts a line into its tokens, the longest at each place, and says under which name it is stored, where there is one.
    #[tactic(auto, using(std::proofs::lemmas::Grind::common_steps, crate::proofs::LineFaults::faults_exact))]
    pub fn read(&mut self, line: &[u8]) -> Result<Option<Name>, LineFault>
        requires { length line.now ≤ line_limit }
        ensures tokens { OnOk result (AreTokensOf (tokens_of self.new) line.now) }
        ensures line { IfOk result (IsShallow (bare (tokens_of self.new))) }
        ensures accepts { (ts : List Placed) (store : Option (List ℕ)) (t : Tree) → AreTokensOf ts line.now
            → IsLine (bare ts) store t → depth_of t ≤ depth_limit → IsOk result }
        ensures refused { (fault : LineFault) → (result ≡ Err fault) ↔ IsLineFaultOf line.now fault }
        ensures emptied { OnErr result (tokens_of self.new ≡ []) }
    {
        match scan(&mut self.tokens, line) {
            Ok(()) => {}
            Err(fault) => return Err(LineFault::Token(fault)),
        }
        match checked(&self.tokens, &mut self.reader, &mut self.depths) {
            Ok(store) => Ok(store),
            Err(fault) => {
                self.tokens.clear();
                Err(LineFault::Parse(fault))
            }
        }
    }

    /// The tree of the line that was read last, as a new last root. Its nodes are placed in postfix order: the
    /// children from left to right, and then their parent.
    pub fn build(&mut self, pool: &mut Pool) -> Result<Handle, Full>
        requires stands { Stands pool.old }
        requires line { (t : Tree) × IsTreeOf (bare (tokens_of self.old)) t }
        ensures ok { IfOk result (λ h. Gives (forest pool.old) (forest pool.new) h (IsTreeOf (bare (tokens_of self.old)))) }
        ensures front { KeepsFront [] (forest pool.old) (forest pool.new) }
        ensures kept { OnOk result (KeepsRefusals pool.old pool.new) }

        // Refused exactly where a node finds no room, with the bytes that it needs and those left.
        ensures room { (t : Tree) → IsTreeOf (bare (tokens_of self.old)) t → OnOk result (building (free_of pool.old) t ≡ Ok (free_of pool.new)) }
        ensures full { (t : Tree) → IsTreeOf (bare (tokens_of self.old)) t → IfErr result (λ full. building (free_of pool.old) t ≡ Err full) }
        ensures refuses { IfErr result (Refuses pool.old pool.new) }
        ensures caused { IfErr result (LacksBytes pool.new) }

        ensures stands { Stands pool.new }
        ensures same_line { self.new ≡ self.old }
    {
        place_line(pool, &self.tokens, self.reader.steps(), &mut self.places)
    }
}

// Each list is made on the stack before it is moved to the heap. So each has a function of its own, whose frame is gone
// when the next is made.
#[inline(never)]
fn boxed_reader(alloc: Global) -> Result<Box<Reader>, AllocError> {
    let reader = Box::new(alloc, Reader::new())?;
    Ok(reader)
}

#[inline(never)]
fn boxed_numbers(alloc: Global) -> Result<Box<ArrayVec<u32, STEP_LIMIT>>, AllocError> {
    let numbers = Box::new(alloc, ArrayVec::new())?;
    Ok(numbers)
}
