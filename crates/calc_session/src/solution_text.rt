//! The texts of solutions.
ghost use Rattle.std.specs.Prelude.{◌≡◌, ◌≤◌, ◌<◌, ◌+◌, List, [], map, length, All, Ok, IfErr, OnErr, OnOk};
ghost use Rattle.calc_language.specs.Faces.{face};
ghost use Rattle.calc_language.specs.Texts.{text as text_of};
ghost use Rattle.calc_terms.specs.Leaf.{name_of};
ghost use Rattle.calc_terms.specs.Rat.{value_of};
ghost use Rattle.linear_solve.specs.Forms.{Form, HoldLaterFreeNames, solved};
ghost use Rattle.linear_solve.specs.Solutions.{IfNever, IfSolved, answer_told, form_told};
ghost use Rattle.linear_solve.specs.Told.{entries_of};
ghost use Rattle.line_text.specs.Content.{extended, spare_of};
ghost use Rattle.node_pool.specs.State.{free_of};
ghost use Rattle.calc_session.specs.Answers.{CountsRefusal};
ghost use Rattle.calc_session.specs.Forms.{IsSmall, IsSmallForm, form_room, lack_of, solution_room};
ghost use Rattle.calc_session.specs.Kept.{IsReady};
ghost use Rattle.calc_session.specs.Pools.{IsRolledBack, after};
ghost use Rattle.linear_solve.specs.RisingNames.{Rises};
ghost use Rattle.calc_session.specs.SolutionTexts.{comma_before as comma_before_text, form_tree, line_text, lines_text, multipliers_text, solution_text};

use crate::forms::place_form;
use crate::parts::Workspace;
use crate::text::push_operand;
use calc_terms::{Name, Rat};
use line_text::{Text, write_text};
use linear_solve::{EquationRow, Line, NameRow, Solution};
use node_pool::Full;
use pool_checkpoints::{open_mark, roll_back};

/// The most bytes of what is told of one name, with a comma before it.
const LINE_ROOM: u32 = 1_408;

/// The most bytes of the text of a solution, in six names.
pub const SOLUTION_ROOM: u32 = 6 * LINE_ROOM;

/// Writes the solutions of equations in these names. It is not inlined: what it keeps is on the machine's stack only once
/// they are solved.
#[inline(never)]
pub fn write_solution(
    work: &mut Workspace,
    names: &[Name],
    solution: &Solution,
    text: &mut Text,
) -> Result<(), Full>
    requires ready { IsReady work.old }
    requires rises { Rises (map name_of names.now) }
    requires few { length names.now ≤ 6 }
    requires empty { text.old.bytes ≡ [] }
    requires room { solution_room ≤ text.old.capacity }
    requires forms { IfSolved (Ok solution.now) (λ forms. (length forms ≡ length names.now) × HoldLaterFreeNames forms) }
    requires multipliers { IfNever (Ok solution.now) (λ cs. length cs ≤ 6) }
    ensures told { OnOk result (text.new.bytes ≡ solution_text (map name_of names.now) (answer_told solution.now)) }
    ensures lacks { IfErr result (λ full. (full.free < full.needed) × (free_of work.old.pool < form_room)) }
    ensures solved { OnErr result ((forms : List Form) × (answer_told solution.now ≡ solved forms)) }
    ensures counted { CountsRefusal (lack_of result) work.old.pool work.new.pool }
    ensures as_before { work.new.pool ≡ after (lack_of result) work.old.pool.nodes work.old.pool }
    ensures capacity { text.new.capacity ≡ text.old.capacity }
    ensures ready { IsReady work.new }
{
    match solution {
        Solution::Never(multipliers) => {
            write_multipliers(multipliers, text);
            Ok(())
        }
        Solution::Solved(lines) => write_lines(work, names, lines.as_slice(), text),
    }
}

/// Writes that no assignment solves the equations, and why: at most 497 bytes.
fn write_multipliers(multipliers: &EquationRow, text: &mut Text)
    requires few { length (entries_of multipliers.now) ≤ 6 }
    requires empty { text.old.bytes ≡ [] }
    requires room { 497 ≤ text.old.capacity }
    ensures told { text.new.bytes ≡ multipliers_text (entries_of multipliers.now) }
    ensures capacity { text.new.capacity ≡ text.old.capacity }
{
    text.push(b"none ");
    for at in 0..multipliers.len() {
        text.push(comma_before(at));
        push_operand(text, multipliers.get(at));
    }
}

/// A comma, but not before the first.
fn comma_before(at: usize) -> &'static [u8]
    ensures { result.now ≡ comma_before_text at }
{
    if at == 0 { b"" } else { b"," }
}

/// Writes the line of each name, and `true` where there is none: at most `LINE_ROOM` bytes for each.
fn write_lines(
    work: &mut Workspace,
    names: &[Name],
    lines: &[Line],
    text: &mut Text,
) -> Result<(), Full>
    requires ready { IsReady work.old }
    requires rises { Rises (map name_of names.now) }
    requires few { length names.now ≤ 6 }
    requires lines { length lines.now ≡ length names.now }
    requires small { All (λ l. IsSmallForm (map name_of names.now) (form_told l)) lines.now }
    requires empty { text.old.bytes ≡ [] }
    requires room { solution_room ≤ text.old.capacity }
    ensures told { OnOk result (text.new.bytes ≡ lines_text (map name_of names.now) (map form_told lines.now)) }
    ensures lacks { IfErr result (λ full. (full.free < full.needed) × (free_of work.old.pool < form_room)) }
    ensures counted { CountsRefusal (lack_of result) work.old.pool work.new.pool }
    ensures as_before { work.new.pool ≡ after (lack_of result) work.old.pool.nodes work.old.pool }
    ensures capacity { text.new.capacity ≡ text.old.capacity }
    ensures ready { IsReady work.new }
{
    if names.is_empty() {
        text.push(b"true");
        return Ok(());
    }
    for at in 0..names.len() {
        text.push(comma_before(at));
        write_line(work, names, names[at], &lines[at], text)?;
    }
    Ok(())
}

/// Appends what is told of a name: at most 1,407 bytes.
fn write_line(
    work: &mut Workspace,
    names: &[Name],
    name: Name,
    line: &Line,
    text: &mut Text,
) -> Result<(), Full>
    requires ready { IsReady work.old }
    requires rises { Rises (map name_of names.now) }
    requires few { length names.now ≤ 6 }
    requires small { IsSmallForm (map name_of names.now) (form_told line.now) }
    requires room { 1407 ≤ spare_of text.old }
    ensures told { OnOk result (text.new ≡ extended text.old (line_text (map name_of names.now) (name_of name) (form_told line.now))) }
    ensures short { OnOk result (length text.new.bytes ≤ length text.old.bytes + 1407) }
    ensures lacks { IfErr result (λ full. (full.free < full.needed) × (free_of work.old.pool < form_room)) }
    ensures counted { CountsRefusal (lack_of result) work.old.pool work.new.pool }
    ensures as_before { work.new.pool ≡ after (lack_of result) work.old.pool.nodes work.old.pool }
    ensures capacity { text.new.capacity ≡ text.old.capacity }
    ensures ready { IsReady work.new }
{
    text.push(name.bytes());
    match line {
        Line::Free => {
            text.push(b" free");
            Ok(())
        }
        Line::Bound { constant, coefs } => {
            text.push(b"=");
            write_form(work, names, *constant, coefs, text)
        }
    }
}

/// Appends a constant and multiples of names, at most 1,392 bytes. Their tree stands in the pool for so long.
fn write_form(
    work: &mut Workspace,
    names: &[Name],
    constant: Rat,
    coefs: &NameRow,
    text: &mut Text,
) -> Result<(), Full>
    requires ready { IsReady work.old }
    requires rises { Rises (map name_of names.now) }
    requires few { length names.now ≤ 6 }
    requires small { IsSmall (map name_of names.now) (entries_of coefs.now) }
    requires room { 1392 ≤ spare_of text.old }
    ensures told { OnOk result (text.new ≡ extended text.old (text_of (face (form_tree (map name_of names.now) (value_of constant) (entries_of coefs.now))))) }
    ensures short { OnOk result (length text.new.bytes ≤ length text.old.bytes + 1392) }
    ensures lacks { IfErr result (λ full. (full.free < full.needed) × (free_of work.old.pool < form_room)) }
    ensures undone { IsRolledBack (lack_of result) work.old.pool work.new.pool }
    ensures capacity { text.new.capacity ≡ text.old.capacity }
    ensures ready { IsReady work.new }
{
    let mark = open_mark(&work.pool);
    let tree = match place_form(&mut work.pool, names, constant, coefs) {
        Ok(tree) => tree,
        Err(full) => {
            roll_back(&mut work.pool, mark);
            return Err(full);
        }
    };
    match work.faces.face_of(&mut work.pool, tree) {
        Ok(face) => {
            write_text(&work.pool, face.id(), text);
            roll_back(&mut work.pool, mark);
            Ok(())
        }
        Err(full) => {
            roll_back(&mut work.pool, mark);
            Err(full)
        }
    }
}
