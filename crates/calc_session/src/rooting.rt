//! Roots of a polynomial equation on a line.
ghost use Rattle.std.specs.Prelude.{◌≡◌, ◌≢◌, ◌≤◌, ◌<◌, ◌+◌, ◌↔◌, ⊤, ℕ, List, [], ◌∷◌, None, IfOk, IfErr, IsTrue, OnErr, OnOk, Contains, length, false, true};
ghost use Rattle.breakers.specs.Breakers.{CalmChecks, TripsRose};
ghost use Rattle.breakers.specs.State.{State as Breaker};
ghost use Rattle.breakers.specs.Watch.{states};
ghost use Rattle.calc_commands.specs.Ranges.{AreSplit, IsWithin, pieces_at};
ghost use Rattle.calc_terms.specs.Leaf.{name_of};
ghost use Rattle.calc_terms.specs.Trees.{names, nodes, size};
ghost use Rattle.calc_tokens.specs.Limits.{line_limit};
ghost use Rattle.equation_roots.specs.declared.told.Roots.{Roots as RootsThere};
ghost use Rattle.expansions.specs.PolynomialTrees.{is_polynomial, polynomial_of};
ghost use Rattle.expansions.specs.Sums.{IsExpanded};
ghost use Rattle.linear_solve.specs.Equations.{Equation};
ghost use Rattle.linear_solve.specs.Listed.{names_listed};
ghost use Rattle.name_table.specs.Filling.{values};
ghost use Rattle.name_table.specs.Held.{HasEntries};
ghost use Rattle.node_pool.specs.State.{free_of};
ghost use Rattle.tree_handles.specs.Expressions.{IsExpression, plain};
ghost use Rattle.tree_handles.specs.Handed.{tree_of, Gives, KeepsFront};
ghost use Rattle.tree_handles.specs.Inside.{tree_at};
ghost use Rattle.tree_handles.specs.Roots.{without_root};
ghost use Rattle.tree_handles.specs.Standing.{KeepsRefusals, Stands, forest};
ghost use Rattle.calc_session.specs.Answers.{CountsRefusal, TellsAs, reason_of, refusal_of_pool, reply_of};
ghost use Rattle.calc_session.specs.Arguments.{bytes_before as bytes_before_text};
ghost use Rattle.calc_session.specs.Forms.{lack_of, solution_room};
ghost use Rattle.calc_session.specs.Kept.{IsKept, IsReady, state_in};
ghost use Rattle.calc_session.specs.Pools.{after};
ghost use Rattle.calc_session.specs.Replies.{refusal_in};
ghost use Rattle.calc_session.specs.Rooting.{HoldsOnly, IsFoundIn, IsNoDifference, IsReplyToDifference, IsReplyToPolynomial, IsReplyToRooting, IsReplyToRoots};
ghost use Rattle.calc_session.specs.Rooted.{AreOnly, IsDifferenceOf, IsFoundOf, found_text, refusal_to_root};
ghost use Rattle.calc_session.specs.RootTexts.{root_room};
ghost use Rattle.calc_session.specs.States.{State};
ghost use Rattle.calc_session.specs.Solving.{ReadsEquation};

use crate::evaluating::{refusal_of, refused};
use crate::parts::{Parts, Workspace};
use crate::reading::bytes_before;
use crate::root_text::write_roots;
use crate::solving::{Equations, Side, build_side, read_sides};
use crate::{LineAnswer, Refusal};
use breakers::{Breaker, Watch};
use calc_commands::{EquationRange, split_equations};
use calc_parser::Parser;
use calc_terms::{Kind, Name, Rat};
use equation_roots::{RootFault, Roots, roots};
use expand_forms::{POWERS, expand, is_polynomial, powers_of};
use line_text::Text;
use linear_solve::{Listed, names_in};
use name_table::NameTable;
use node_pool::{Full, Id, Pool};
use pool_checkpoints::{open_mark, roll_back};
use tree_handles::{Handle, node_over_last};

/// What is found of a polynomial equation.
#[derive(Drop)]
pub enum Found {
    /// Each value of the name solves it.
    Each,
    /// These alone do.
    Roots(Roots),
}

impl Parts {
    /// Tells the roots of the polynomial equation in a text at the end of a line. The text of a refusal is still to be written. It is
    /// not inlined, as no command that calculates is.
    #[inline(never)]
    pub fn tell_roots<B: Breaker>(
        &mut self,
        name: Name,
        line: &[u8],
        text: &[u8],
        watch: &mut Watch<B>,
    ) -> LineAnswer
        requires kept { IsKept self.old }
        requires empty { self.old.text.bytes ≡ [] }
        requires short { length line.now ≤ line_limit }
        requires behind { length text.now ≤ length line.now }
        ensures told { TellsAs (IsReplyToRooting (state_in self.old) (states B.state watch.old) (states B.state watch.new) (bytes_before_text line.now text.now) (name_of name) text.now) result self.new.text.bytes }
        ensures interrupted { (place : ℕ) → (result ≡ LineAnswer.Refused (Refusal.Interrupted place))
            ↔ TripsRose (states B.state watch.old) (states B.state watch.new) place }
        ensures counted { CountsRefusal (refusal_of_pool result) self.old.work.pool self.new.work.pool }
        ensures same { state_in self.new ≡ state_in self.old }
        ensures kept { IsKept self.new }
    {
        let before = bytes_before(line, text);
        let range = match read_equation(text, before, &mut self.parser) {
            Ok(range) => range,
            Err(refusal) => return LineAnswer::Refused(refusal),
        };
        let equation = Equations {
            text,
            before,
            ranges: &[],
        };
        let found = find_roots(
            &mut self.work,
            &self.table,
            &mut self.parser,
            &equation,
            range,
            name,
            watch,
        );
        let found = match &found {
            Ok(found) => found,
            Err(refusal) => return LineAnswer::Refused(*refusal),
        };
        match write_found(&mut self.work, name, found, &mut self.text) {
            Ok(()) => LineAnswer::Report,
            Err(full) => {
                self.text.clear();
                LineAnswer::Refused(refused(full))
            }
        }
    }
}

/// Where the one equation of a text stands, once each side was read as an expression.
fn read_equation(text: &[u8], before: u16, parser: &mut Parser) -> Result<EquationRange, Refusal>
    requires short { before + length text.now ≤ line_limit }
    ensures split { IfOk result (λ range. AreSplit text.now (range ∷ [])) }
    ensures read { IfOk result (λ range. (e : Equation) × ReadsEquation (pieces_at before text.now range) e) }
    ensures refused { (old : State) (breakers : List Breaker) (x : List ℕ) → IfErr result (λ refusal. IsReplyToRooting old breakers breakers before x text.now (reply_of refusal)) }
    ensures no_pool { IfErr result (λ refusal. refusal_in (reason_of refusal) ≡ None) }
    ensures no_breaker { IfErr result (λ refusal. (place : ℕ) → refusal ≡ Refusal.Interrupted place → ⊥) }
{
    let ranges = match split_equations(text) {
        Ok(ranges) => ranges,
        Err(_) => return Err(Refusal::Command),
    };
    let ranges = ranges.as_slice();
    if ranges.len() != 1 {
        return Err(Refusal::Command);
    }
    read_sides(text, before, ranges, parser)?;
    Ok(ranges[0])
}

/// What is found of an equation that was read. Its tree stands in the pool for so long. It is not inlined: what it keeps is on the
/// machine's stack only for as long as it is needed.
#[inline(never)]
fn find_roots<B: Breaker>(
    work: &mut Workspace,
    table: &NameTable,
    parser: &mut Parser,
    equation: &Equations<'_>,
    range: EquationRange,
    name: Name,
    watch: &mut Watch<B>,
) -> Result<Found, Refusal>
    requires ready { IsReady work.old }
    requires entries { HasEntries table.now (forest work.old.pool) }
    requires short { equation.now.before + length equation.now.text.now ≤ line_limit }
    requires within { IsWithin equation.now.text.now range }
    requires reads { (e : Equation) × ReadsEquation (pieces_at equation.now.before equation.now.text.now range) e }
    ensures found { (e : Equation) → ReadsEquation (pieces_at equation.now.before equation.now.text.now range) e
        → IfOk result (λ found. IsFoundOf (name_of name) (values table.now (forest work.old.pool)) (free_of work.old.pool) e (states B.state watch.old) (states B.state watch.new) found) }
    ensures refused { (e : Equation) → ReadsEquation (pieces_at equation.now.before equation.now.text.now range) e
        → IfErr result (λ refusal. IsReplyToRoots (name_of name) (values table.now (forest work.old.pool)) (free_of work.old.pool) e (states B.state watch.old) (states B.state watch.new) (reply_of refusal)) }
    ensures calm { OnOk result ((place : ℕ) → TripsRose (states B.state watch.old) (states B.state watch.new) place → ⊥) }
    ensures interrupted { IfErr result (λ refusal. (place : ℕ) → (refusal ≡ Refusal.Interrupted place)
        ↔ TripsRose (states B.state watch.old) (states B.state watch.new) place) }
    ensures counted_ok { OnOk result (KeepsRefusals work.old.pool work.new.pool) }
    ensures counted { IfErr result (λ refusal. CountsRefusal (refusal_in (reason_of refusal)) work.old.pool work.new.pool) }
    ensures as_before { work.new.pool.nodes ≡ work.old.pool.nodes }
    ensures ready { IsReady work.new }
{
    let mark = open_mark(&work.pool);
    match place_difference(&mut work.pool, table, parser, equation, range) {
        Ok(tree) => {
            let found = roots_of_tree(work, tree, name, watch);
            roll_back(&mut work.pool, mark);
            found
        }
        Err(refusal) => {
            roll_back(&mut work.pool, mark);
            Err(refusal)
        }
    }
}

/// The difference of the sides of an equation after all other trees, with the stored trees in place of their names.
#[inline(never)]
fn place_difference(
    pool: &mut Pool,
    table: &NameTable,
    parser: &mut Parser,
    equation: &Equations<'_>,
    range: EquationRange,
) -> Result<Handle, Refusal>
    requires stands { Stands pool.old }
    requires entries { HasEntries table.now (forest pool.old) }
    requires short { equation.now.before + length equation.now.text.now ≤ line_limit }
    requires within { IsWithin equation.now.text.now range }
    requires reads { (e : Equation) × ReadsEquation (pieces_at equation.now.before equation.now.text.now range) e }
    ensures placed { (e : Equation) → ReadsEquation (pieces_at equation.now.before equation.now.text.now range) e
        → IfOk result (IsDifferenceOf (values table.now (forest pool.old)) e pool.old pool.new) }
    ensures refused { (e : Equation) → ReadsEquation (pieces_at equation.now.before equation.now.text.now range) e
        → IfErr result (λ refusal. IsNoDifference (values table.now (forest pool.old)) (free_of pool.old) e (reason_of refusal)) }
    ensures counted { IfErr result (λ refusal. CountsRefusal (refusal_in (reason_of refusal)) pool.old pool.new) }
    ensures no_breaker { IfErr result (λ refusal. (place : ℕ) → refusal ≡ Refusal.Interrupted place → ⊥) }
    ensures front { KeepsFront [] (forest pool.old) (forest pool.new) }
    ensures stands { Stands pool.new }
{
    let begin = pool.used();
    let left = Side {
        from: range.begin,
        to: range.sign,
    };
    let _left = build_side(pool, table, parser, equation, left)?;
    let right = Side {
        from: range.sign + 1,
        to: range.end,
    };
    let _right = build_side(pool, table, parser, equation, right)?;
    match node_over_last(pool, Kind::Sub, 2, begin) {
        Ok(tree) => Ok(tree),
        Err(full) => Err(refused(full)),
    }
}

/// What is found of the equation of the last tree and 0. The tree is handed in.
fn roots_of_tree<B: Breaker>(
    work: &mut Workspace,
    tree: Handle,
    name: Name,
    watch: &mut Watch<B>,
) -> Result<Found, Refusal>
    requires ready { IsReady work.old }
    requires last { Gives (without_root tree (forest work.old.pool)) (forest work.old.pool) tree (λ t. ⊤) }
    ensures found { let t = tree_of tree work.old.pool in IfOk result (IsFoundIn (name_of name) (polynomial_of t)) }
    ensures expanded { let t = tree_of tree work.old.pool in OnOk result (HoldsOnly (name_of name) t × (is_polynomial t ≡ true) × CalmChecks (nodes t) (states B.state watch.old) (states B.state watch.new)) }
    ensures refused { let t = tree_of tree work.old.pool in
        IfErr result (λ refusal. IsReplyToDifference (name_of name) (free_of work.old.pool + size t) (states B.state watch.old) (states B.state watch.new) (free_of work.old.pool) t (reply_of refusal)) }
    ensures calm { OnOk result ((place : ℕ) → TripsRose (states B.state watch.old) (states B.state watch.new) place → ⊥) }
    ensures interrupted { IfErr result (λ refusal. (place : ℕ) → (refusal ≡ Refusal.Interrupted place)
        ↔ TripsRose (states B.state watch.old) (states B.state watch.new) place) }
    ensures counted_ok { OnOk result (KeepsRefusals work.old.pool work.new.pool) }
    ensures counted { IfErr result (λ refusal. CountsRefusal (refusal_in (reason_of refusal)) work.old.pool work.new.pool) }
    ensures front { KeepsFront (tree ∷ []) (forest work.old.pool) (forest work.new.pool) }
    ensures ready { IsReady work.new }
{
    let id = tree.id();
    if !holds_only(&work.pool, id, name) {
        return Err(Refusal::TooMany);
    }
    if !is_polynomial(&work.pool, id) {
        return Err(Refusal::NotPolynomial);
    }
    match expand(&mut work.pool, tree, &mut work.lists, watch) {
        Ok(expansion) => roots_of_expanded(&work.pool, expansion.id(), name),
        Err(fault) => Err(refusal_of(fault)),
    }
}

/// Whether a tree holds no other name.
fn holds_only(pool: &Pool, id: Id, name: Name) -> bool
    requires stands { Stands pool.now }
    requires expression { IsExpression id (forest pool.now) }
    ensures only { IsTrue result → HoldsOnly (name_of name) (plain (tree_at id (forest pool.now))) }
    ensures other { result ≡ false → (y : List ℕ) × Contains (names (plain (tree_at id (forest pool.now)))) y × (y ≢ name_of name) }
{
    let ids = [id];
    match names_in(pool, &ids, &ids) {
        Some(held) => are_only(held.as_slice(), name),
        None => false,
    }
}

/// Whether there is no other name among these.
fn are_only(names: &[Listed], name: Name) -> bool
    ensures { IsTrue result ↔ AreOnly (name_of name) (names_listed names.now) }
{
    match names.len() {
        0 => true,
        1 => names[0].name == name,
        _ => false,
    }
}

/// What is found of the equation of an expanded tree and 0.
fn roots_of_expanded(pool: &Pool, expansion: Id, name: Name) -> Result<Found, Refusal>
    requires stands { Stands pool.now }
    requires expression { IsExpression expansion (forest pool.now) }
    requires expanded { IsExpanded (plain (tree_at expansion (forest pool.now))) }
    requires one_name { HoldsOnly (name_of name) (plain (tree_at expansion (forest pool.now))) }
    ensures found { IfOk result (IsFoundIn (name_of name) (polynomial_of (plain (tree_at expansion (forest pool.now))))) }
    ensures refused { (free : ℕ) → IfErr result (λ refusal. IsReplyToPolynomial (name_of name) free (polynomial_of (plain (tree_at expansion (forest pool.now)))) (reply_of refusal)) }
    ensures no_pool { IfErr result (λ refusal. refusal_in (reason_of refusal) ≡ None) }
    ensures no_breaker { IfErr result (λ refusal. (place : ℕ) → refusal ≡ Refusal.Interrupted place → ⊥) }
{
    let mut coefficients = [Rat::whole(0); POWERS];
    let count = match powers_of(pool, expansion, name, &mut coefficients) {
        Some(count) => count,
        None => return Err(Refusal::Degree),
    };
    if count == 1 && coefficients[0].is_zero() {
        return Ok(Found::Each);
    }
    match roots(&coefficients[..count]) {
        Ok(roots) => Ok(Found::Roots(roots)),
        Err(fault) => Err(unrooted(fault)),
    }
}

/// The refusal that passes on why no roots are told.
fn unrooted(fault: RootFault) -> Refusal
    ensures { result ≡ refusal_to_root fault }
{
    match fault {
        RootFault::Degree => Refusal::Degree,
        RootFault::Overflow(overflow) => Refusal::Overflow {
            op: overflow.op,
            a: overflow.a,
            b: overflow.b,
        },
    }
}

/// Writes what is found of an equation.
fn write_found(work: &mut Workspace, name: Name, found: &Found, text: &mut Text) -> Result<(), Full>
    requires ready { IsReady work.old }
    requires empty { text.old.bytes ≡ [] }
    requires room { solution_room ≤ text.old.capacity }
    ensures told { OnOk result (text.new.bytes ≡ found_text (name_of name) found.now) }
    ensures lacks { IfErr result (λ full. (full.free < full.needed) × (free_of work.old.pool < root_room)) }
    ensures some { OnErr result ((r : RootsThere) × (found.now ≡ Found.Roots r)) }
    ensures counted { CountsRefusal (lack_of result) work.old.pool work.new.pool }
    ensures as_before { work.new.pool ≡ after (lack_of result) work.old.pool.nodes work.old.pool }
    ensures capacity { text.new.capacity ≡ text.old.capacity }
    ensures ready { IsReady work.new }
{
    match found {
        Found::Each => {
            text.push(name.bytes());
            text.push(b" free");
            Ok(())
        }
        Found::Roots(roots) => write_roots(work, name, roots, text),
    }
}
