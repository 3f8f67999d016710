//! Equations, solved on a line.
ghost use Rattle.std.specs.Prelude.{◌≡◌, ◌≤◌, ◌<◌, ◌+◌, ◌*◌, ◌↔◌, ℕ, List, [], All, None, IfOk, IfErr, OnOk, length, map};
ghost use Rattle.std.specs.List.{AllZip};
ghost use Rattle.breakers.specs.Breakers.{TripsRose};
ghost use Rattle.breakers.specs.State.{State as Breaker};
ghost use Rattle.breakers.specs.Watch.{states};
ghost use Rattle.calc_terms.specs.Trees.{Tree};
ghost use Rattle.calc_tokens.specs.Limits.{line_limit};
ghost use Rattle.calc_tokens.specs.Tokens.{tokens_of};
ghost use Rattle.linear_solve.specs.Equations.{Equation, equation_at, equations_in};
ghost use Rattle.name_table.specs.Filling.{values};
ghost use Rattle.name_table.specs.Held.{HasEntries};
ghost use Rattle.node_pool.specs.State.{free_of};
ghost use Rattle.tree_handles.specs.Expressions.{IsExpression};
ghost use Rattle.tree_handles.specs.Handed.{KeepsFront};
ghost use Rattle.tree_handles.specs.Standing.{KeepsRefusals, Stands, forest};
ghost use Rattle.calc_session.specs.Answers.{CountsRefusal, TellsAs, reason_of, refusal_of_pool, reply_of};
ghost use Rattle.calc_session.specs.Arguments.{bytes_before as bytes_before_text, IsNoExpression, ReadsText};
ghost use Rattle.calc_session.specs.Evaluations.{Unmade, made};
ghost use Rattle.calc_session.specs.Kept.{IsKept, state_in};
ghost use Rattle.calc_commands.specs.Ranges.{AreSplit, IsWithin, between, pieces_at};
ghost use Rattle.calc_session.specs.Replies.{refusal_in};
ghost use Rattle.calc_session.specs.Solved.{AreRootsOf, AreSolved, BuildsSide, refusal_to_solve};
ghost use Rattle.calc_session.specs.Solving.{AreUnmade, Become, IsNoEquation, IsReplyToEquations, IsReplyToRead, IsReplyToSolve, ReadsEquation, ReadsSide, first_not_linear as first_not_linear_of, is_linear_equation as is_linear_equation_of};
ghost use Rattle.calc_session.specs.States.{State};

use crate::evaluating::{build_and_fill, refused};
use crate::parts::Parts;
use crate::reading::{bytes_before, read_expression};
use crate::solution_text::write_solution;
use crate::{LineAnswer, Refusal};
use arrayvec::ArrayVec;
use breakers::{Breaker, Watch};
use calc_commands::{EQUATION_LIMIT, EquationRange, SplitFault, split_equations};
use calc_parser::Parser;
use linear_solve::{NameList, Solution, SolveFault, in_array, is_linear, names_in, solve};
use name_table::NameTable;
use node_pool::{Id, Pool};
use pool_checkpoints::{open_mark, roll_back};

/// The solutions of equations, and the names in them.
#[derive(Drop)]
struct Solved {
    names: NameList,
    solution: Solution,
}

/// The roots of the sides of equations.
#[derive(Drop)]
struct Roots {
    left: ArrayVec<Id, EQUATION_LIMIT>,
    right: ArrayVec<Id, EQUATION_LIMIT>,
}

/// Equations of a text, where they stand in it, and how many bytes of the line stand before it.
#[derive(Clone, Copy)]
pub(crate) struct Equations<'a> {
    pub(crate) text: &'a [u8],
    pub(crate) before: u16,
    pub(crate) ranges: &'a [EquationRange],
}

/// Where one side of an equation stands in the text.
#[derive(Clone, Copy)]
pub(crate) struct Side {
    pub(crate) from: usize,
    pub(crate) to: usize,
}

impl Parts {
    /// Solves the equations in a text at the end of a line, and tells the solutions. The text of a refusal is still
    /// to be written. It is not inlined, as no command that calculates is.
    #[inline(never)]
    pub fn solve<B: Breaker>(
        &mut self,
        line: &[u8],
        text: &[u8],
        watch: &mut Watch<B>,
    ) -> LineAnswer
        requires kept { IsKept self.old }
        requires empty { self.old.text.bytes ≡ [] }
        requires short { length line.now ≤ line_limit }
        requires behind { length text.now ≤ length line.now }
        ensures told { TellsAs (IsReplyToEquations (state_in self.old) (states B.state watch.old) (states B.state watch.new) (bytes_before_text line.now text.now) text.now) result self.new.text.bytes }
        ensures interrupted { (place : ℕ) → (result ≡ LineAnswer.Refused (Refusal.Interrupted place))
            ↔ TripsRose (states B.state watch.old) (states B.state watch.new) place }
        ensures counted { CountsRefusal (refusal_of_pool result) self.old.work.pool self.new.work.pool }
        ensures same { state_in self.new ≡ state_in self.old }
        ensures kept { IsKept self.new }
    {
        let before = bytes_before(line, text);
        match read_equations(text, before, &mut self.parser) {
            Ok(ranges) => {
                let equations = Equations {
                    text,
                    before,
                    ranges: ranges.as_slice(),
                };
                self.solve_placed(&equations, watch)
            }
            Err(refusal) => LineAnswer::Refused(refusal),
        }
    }

    /// Solves equations that were read, and tells the solutions. The text of a refusal is still to be written.
    fn solve_placed<B: Breaker>(
        &mut self,
        equations: &Equations<'_>,
        watch: &mut Watch<B>,
    ) -> LineAnswer
        requires kept { IsKept self.old }
        requires empty { self.old.text.bytes ≡ [] }
        requires short { equations.now.before + length equations.now.text.now ≤ line_limit }
        requires few { length equations.now.ranges.now ≤ 6 }
        requires split { AreSplit equations.now.text.now equations.now.ranges.now }
        requires reads { (es : List Equation) × AllZip ReadsEquation (map (pieces_at equations.now.before equations.now.text.now) equations.now.ranges.now) es }
        ensures told { TellsAs (IsReplyToEquations (state_in self.old) (states B.state watch.old) (states B.state watch.new) equations.now.before equations.now.text.now) result self.new.text.bytes }
        ensures interrupted { (place : ℕ) → (result ≡ LineAnswer.Refused (Refusal.Interrupted place))
            ↔ TripsRose (states B.state watch.old) (states B.state watch.new) place }
        ensures counted { CountsRefusal (refusal_of_pool result) self.old.work.pool self.new.work.pool }
        ensures same { state_in self.new ≡ state_in self.old }
        ensures kept { IsKept self.new }
    {
        let solved = solve_read(
            &mut self.work.pool,
            &self.table,
            &mut self.parser,
            equations,
            watch,
        );
        let solved = match &solved {
            Ok(solved) => solved,
            Err(refusal) => return LineAnswer::Refused(*refusal),
        };
        let names = in_array(solved.names.as_slice());
        match write_solution(
            &mut self.work,
            &names[..solved.names.len()],
            &solved.solution,
            &mut self.text,
        ) {
            Ok(()) => LineAnswer::Report,
            Err(full) => {
                self.text.clear();
                LineAnswer::Refused(refused(full))
            }
        }
    }
}

/// Where the equations of a text stand, once each side was read as an expression. A side that is none is refused before any that
/// finds no room, and the parser keeps one line, so each side is read again when it is built.
fn read_equations(
    text: &[u8],
    before: u16,
    parser: &mut Parser,
) -> Result<ArrayVec<EquationRange, EQUATION_LIMIT>, Refusal>
    requires short { before + length text.now ≤ line_limit }
    ensures split { IfOk result (λ ranges. AreSplit text.now ranges.items) }
    ensures read { IfOk result (λ ranges. (es : List Equation) × AllZip ReadsEquation (map (pieces_at before text.now) ranges.items) es) }
    ensures refused { (old : State) (breakers : List Breaker) → IfErr result (λ refusal. IsReplyToEquations old breakers breakers before text.now (reply_of refusal)) }
    ensures no_pool { IfErr result (λ refusal. refusal_in (reason_of refusal) ≡ None) }
    ensures no_breaker { IfErr result (λ refusal. (place : ℕ) → refusal ≡ Refusal.Interrupted place → ⊥) }
{
    let ranges = match split_equations(text) {
        Ok(ranges) => ranges,
        Err(SplitFault::Unwritten) => return Err(Refusal::Command),
        Err(SplitFault::TooMany) => return Err(Refusal::TooMany),
    };
    match read_sides(text, before, ranges.as_slice(), parser) {
        Ok(()) => Ok(ranges),
        Err(refusal) => Err(refusal),
    }
}

/// Reads the sides of the equations that stand there in a text, from left to right.
pub(crate) fn read_sides(
    text: &[u8],
    before: u16,
    ranges: &[EquationRange],
    parser: &mut Parser,
) -> Result<(), Refusal>
    requires short { before + length text.now ≤ line_limit }
    requires split { AreSplit text.now ranges.now }
    ensures read { OnOk result ((es : List Equation) × AllZip ReadsEquation (map (pieces_at before text.now) ranges.now) es) }
    ensures refused { IfErr result (λ refusal. IsNoEquation (map (pieces_at before text.now) ranges.now) (reason_of refusal)) }
    ensures no_pool { IfErr result (λ refusal. refusal_in (reason_of refusal) ≡ None) }
    ensures no_breaker { IfErr result (λ refusal. (place : ℕ) → refusal ≡ Refusal.Interrupted place → ⊥) }
{
    for range in ranges {
        read_side(text, range.begin, range.sign, before, parser)?;
        read_side(text, range.sign + 1, range.end, before, parser)?;
    }
    Ok(())
}

/// Reads the side of an equation that stands there in a text, which begins behind so many bytes of the line.
fn read_side(
    text: &[u8],
    from: usize,
    to: usize,
    before: u16,
    parser: &mut Parser,
) -> Result<(), Refusal>
    requires order { from ≤ to }
    requires within { to ≤ length text.now }
    requires short { before + length text.now ≤ line_limit }
    ensures read { IfOk result (λ _. (t : Tree) × ReadsText (between from to text.now) (tokens_of parser.new) None t) }
    ensures refused { IfErr result (λ refusal. IsNoExpression (before + from) (between from to text.now) (reason_of refusal)) }
    ensures no_pool { IfErr result (λ refusal. refusal_in (reason_of refusal) ≡ None) }
    ensures no_breaker { IfErr result (λ refusal. (place : ℕ) → refusal ≡ Refusal.Interrupted place → ⊥) }
{
    read_expression(&text[from..to], before + from as u16, parser)
}

/// Solves equations that were read. Their sides stand in the pool for so long. It is not inlined, nor are its parts: what they
/// keep is on the machine's stack only for as long as it is needed.
#[inline(never)]
fn solve_read<B: Breaker>(
    pool: &mut Pool,
    table: &NameTable,
    parser: &mut Parser,
    equations: &Equations<'_>,
    watch: &mut Watch<B>,
) -> Result<Solved, Refusal>
    requires stands { Stands pool.old }
    requires entries { HasEntries table.now (forest pool.old) }
    requires short { equations.now.before + length equations.now.text.now ≤ line_limit }
    requires few { length equations.now.ranges.now ≤ 6 }
    requires within { All (IsWithin equations.now.text.now) equations.now.ranges.now }
    requires reads { (es : List Equation) × AllZip ReadsEquation (map (pieces_at equations.now.before equations.now.text.now) equations.now.ranges.now) es }
    ensures solved { (es : List Equation) → AllZip ReadsEquation (map (pieces_at equations.now.before equations.now.text.now) equations.now.ranges.now) es
        → IfOk result (λ s. (left : ℕ) × (built : List Equation) × Become (values table.now (forest pool.old)) (free_of pool.old) es left built
        × AreSolved built (states B.state watch.old) (states B.state watch.new) s) }
    ensures refused { (es : List Equation) → AllZip ReadsEquation (map (pieces_at equations.now.before equations.now.text.now) equations.now.ranges.now) es
        → IfErr result (λ refusal. IsReplyToRead (values table.now (forest pool.old)) (free_of pool.old) es
        (states B.state watch.old) (states B.state watch.new) (reply_of refusal)) }
    ensures calm { OnOk result ((place : ℕ) → TripsRose (states B.state watch.old) (states B.state watch.new) place → ⊥) }
    ensures interrupted { IfErr result (λ refusal. (place : ℕ) → (refusal ≡ Refusal.Interrupted place)
        ↔ TripsRose (states B.state watch.old) (states B.state watch.new) place) }
    ensures counted_ok { OnOk result (KeepsRefusals pool.old pool.new) }
    ensures counted { IfErr result (λ refusal. CountsRefusal (refusal_in (reason_of refusal)) pool.old pool.new) }
    ensures as_before { pool.new.nodes ≡ pool.old.nodes }
    ensures stands { Stands pool.new }
{
    let mark = open_mark(pool);
    let mut roots = Roots {
        left: ArrayVec::new(),
        right: ArrayVec::new(),
    };
    match build_equations(pool, table, parser, equations, &mut roots) {
        Ok(()) => {
            let solved = solve_trees(pool, roots.left.as_slice(), roots.right.as_slice(), watch);
            roll_back(pool, mark);
            solved
        }
        Err(refusal) => {
            roll_back(pool, mark);
            Err(refusal)
        }
    }
}

/// The trees of the sides behind all others, one side after another, with the stored trees in place of their names.
#[inline(never)]
fn build_equations(
    pool: &mut Pool,
    table: &NameTable,
    parser: &mut Parser,
    equations: &Equations<'_>,
    roots: &mut Roots,
) -> Result<(), Refusal>
    requires stands { Stands pool.old }
    requires entries { HasEntries table.now (forest pool.old) }
    requires short { equations.now.before + length equations.now.text.now ≤ line_limit }
    requires few { length equations.now.ranges.now ≤ 6 }
    requires within { All (IsWithin equations.now.text.now) equations.now.ranges.now }
    requires reads { (es : List Equation) × AllZip ReadsEquation (map (pieces_at equations.now.before equations.now.text.now) equations.now.ranges.now) es }
    requires none_left { roots.old.left.items ≡ [] }
    requires none_right { roots.old.right.items ≡ [] }
    ensures built { (es : List Equation) → AllZip ReadsEquation (map (pieces_at equations.now.before equations.now.text.now) equations.now.ranges.now) es
        → OnOk result (Become (values table.now (forest pool.old)) (free_of pool.old) es (free_of pool.new)
        (equations_in (forest pool.new) roots.new.left.items roots.new.right.items)) }
    ensures roots { OnOk result (AreRootsOf (forest pool.new) (length equations.now.ranges.now) roots.new.left.items roots.new.right.items) }
    ensures refused { (es : List Equation) → AllZip ReadsEquation (map (pieces_at equations.now.before equations.now.text.now) equations.now.ranges.now) es
        → IfErr result (λ refusal. AreUnmade (values table.now (forest pool.old)) (free_of pool.old) es (reason_of refusal)) }
    ensures kept { OnOk result (KeepsRefusals pool.old pool.new) }
    ensures counted { IfErr result (λ refusal. CountsRefusal (refusal_in (reason_of refusal)) pool.old pool.new) }
    ensures no_breaker { IfErr result (λ refusal. (place : ℕ) → refusal ≡ Refusal.Interrupted place → ⊥) }
    ensures front { KeepsFront [] (forest pool.old) (forest pool.new) }
    ensures stands { Stands pool.new }
{
    let ranges = equations.ranges;
    for range in ranges {
        let side = Side {
            from: range.begin,
            to: range.sign,
        };
        let root = build_side(pool, table, parser, equations, side)?;
        roots.left.push(root);
        let side = Side {
            from: range.sign + 1,
            to: range.end,
        };
        let root = build_side(pool, table, parser, equations, side)?;
        roots.right.push(root);
    }
    Ok(())
}

/// The tree of one side.
pub(crate) fn build_side(
    pool: &mut Pool,
    table: &NameTable,
    parser: &mut Parser,
    equations: &Equations<'_>,
    side: Side,
) -> Result<Id, Refusal>
    requires stands { Stands pool.old }
    requires entries { HasEntries table.now (forest pool.old) }
    requires order { side.from ≤ side.to }
    requires within { side.to ≤ length equations.now.text.now }
    requires short { equations.now.before + length equations.now.text.now ≤ line_limit }
    requires reads { (t : Tree) × ReadsSide (record { before = equations.now.before + side.from; text = between side.from side.to equations.now.text.now }) t }
    ensures built { (t : Tree) → ReadsSide (record { before = equations.now.before + side.from; text = between side.from side.to equations.now.text.now }) t
        → IfOk result (BuildsSide table.now pool.old pool.new t) }
    ensures refused { (t : Tree) → ReadsSide (record { before = equations.now.before + side.from; text = between side.from side.to equations.now.text.now }) t
        → IfErr result (λ refusal. Unmade (made (free_of pool.old) (values table.now (forest pool.old)) t) (reason_of refusal)) }
    ensures counted { IfErr result (λ refusal. CountsRefusal (refusal_in (reason_of refusal)) pool.old pool.new) }
    ensures no_breaker { IfErr result (λ refusal. (place : ℕ) → refusal ≡ Refusal.Interrupted place → ⊥) }
    ensures front { KeepsFront [] (forest pool.old) (forest pool.new) }
    ensures stands { Stands pool.new }
{
    read_side(equations.text, side.from, side.to, equations.before, parser)?;
    let tree = build_and_fill(pool, table, parser)?;
    Ok(tree.id())
}

/// Solves the equations whose sides have these roots.
#[inline(never)]
fn solve_trees<B: Breaker>(
    pool: &Pool,
    left: &[Id],
    right: &[Id],
    watch: &mut Watch<B>,
) -> Result<Solved, Refusal>
    requires stands { Stands pool.now }
    requires left { All (λ i. IsExpression i (forest pool.now)) left.now }
    requires right { All (λ i. IsExpression i (forest pool.now)) right.now }
    requires pairs { length right.now ≡ length left.now }
    requires few { length left.now ≤ 6 }
    ensures solved { IfOk result (AreSolved (equations_in (forest pool.now) left.now right.now) (states B.state watch.old) (states B.state watch.new)) }
    ensures refused { (free : ℕ) → IfErr result (λ refusal. IsReplyToSolve free (equations_in (forest pool.now) left.now right.now)
        (states B.state watch.old) (states B.state watch.new) (reply_of refusal)) }
    ensures no_pool { IfErr result (λ refusal. refusal_in (reason_of refusal) ≡ None) }
    ensures calm { OnOk result ((place : ℕ) → TripsRose (states B.state watch.old) (states B.state watch.new) place → ⊥) }
    ensures interrupted { IfErr result (λ refusal. (place : ℕ) → (refusal ≡ Refusal.Interrupted place)
        ↔ TripsRose (states B.state watch.old) (states B.state watch.new) place) }
{
    let Some(names) = names_in(pool, left, right) else {
        return Err(Refusal::TooMany);
    };
    let array = in_array(names.as_slice());
    if let Some(at) = first_not_linear(pool, left, right) {
        let equation = at as u8 + 1;
        return Err(Refusal::NotLinear { equation });
    }
    match solve(pool, left, right, &array[..names.len()], watch) {
        Ok(solution) => Ok(Solved { names, solution }),
        Err(fault) => Err(unsolved(fault)),
    }
}

/// The place of the first equation with a side that is not linear.
fn first_not_linear(pool: &Pool, left: &[Id], right: &[Id]) -> Option<usize>
    requires stands { Stands pool.now }
    requires left { All (λ i. IsExpression i (forest pool.now)) left.now }
    requires right { All (λ i. IsExpression i (forest pool.now)) right.now }
    requires pairs { length right.now ≡ length left.now }
    ensures { result ≡ first_not_linear_of (equations_in (forest pool.now) left.now right.now) }
{
    for at in 0..left.len() {
        if !is_linear_equation(pool, left[at], right[at]) {
            return Some(at);
        }
    }
    None
}

fn is_linear_equation(pool: &Pool, left: Id, right: Id) -> bool
    requires stands { Stands pool.now }
    requires left { IsExpression left (forest pool.now) }
    requires right { IsExpression right (forest pool.now) }
    ensures { result ≡ is_linear_equation_of (equation_at (forest pool.now) left right) }
{
    is_linear(pool, left) && is_linear(pool, right)
}

/// The refusal that passes on why equations are not solved.
fn unsolved(fault: SolveFault) -> Refusal
    ensures { result ≡ refusal_to_solve fault }
{
    match fault {
        SolveFault::Overflow(overflow) => Refusal::Overflow {
            op: overflow.op,
            a: overflow.a,
            b: overflow.b,
        },
        SolveFault::Interrupted(interrupted) => Refusal::Interrupted { by: interrupted.by },
    }
}
