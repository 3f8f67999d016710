//! The last answer, drawn or written in one line by its layout, which stands above a mark for so long.
ghost use Rattle.std.specs.Prelude.{◌≡◌, ◌+◌, ◌*◌, ◌≤◌, IfErr, IfOk, OnErr, OnOk, Ok, Err, []};
ghost use Rattle.std.specs.Io.KnownBytes.{Appends};
ghost use Rattle.calc_edges.specs.Faults.{HasCause, IsCalm, StopsAtFailure};
ghost use Rattle.calc_edges.specs.Taken.{AppendsPart};
ghost use Rattle.pool_layouts.specs.Drawings.{IsLayout, drawing};
ghost use Rattle.line_text.specs.Content.{extended, spare_of};
ghost use Rattle.tree_handles.specs.Expressions.{IsExpression};
ghost use Rattle.tree_handles.specs.Forest.{bytes_in};
ghost use Rattle.tree_handles.specs.Inside.{tree_at};
ghost use Rattle.tree_handles.specs.Standing.{Stands, forest};
ghost use Rattle.calc_session.specs.Drawing.{told_by, FailsToDraw, IsDrawn, StopsDrawing, lack_in, rows_text, told_at};
ghost use Rattle.calc_session.specs.Pools.{IsRolledBack};

use crate::DrawFault;
use calc_edges::{Failed, Sink, write_all};
use line_text::Text;
use node_pool::{Full, Id, Pool};
use pool_checkpoints::{open_mark, roll_back};
use pool_layouts::{Drafter, layout_of, rows, write_latex, write_row, write_serial};

/// Writes the rows of the picture of a tree.
#[inline(never)]
pub fn draw_answer<K: Sink>(
    pool: &mut Pool,
    answer: Id,
    drafter: &mut Drafter,
    text: &mut Text,
    sink: &mut K,
) -> Result<(), DrawFault>
    requires stands { Stands pool.old }
    requires expression { IsExpression answer (forest pool.old) }
    requires room { 2 * pool.old.size + 1 ≤ text.old.capacity }
    requires served { pool.old.size ≤ drafter.old.pool_size }
    ensures drawn { OnOk result (IsDrawn (told_at rows_text answer pool.old) (K.taken sink.old) (K.taken sink.new)) }
    ensures calm { OnOk result (IsCalm (K.faults sink.old) (K.faults sink.new)) }
    ensures later { (K.faults sink.old).count ≤ (K.faults sink.new).count }
    ensures fails { IfErr result (FailsToDraw (told_at rows_text answer pool.old) (K.taken sink.old) (K.taken sink.new)) }
    ensures stops { IfErr result (StopsDrawing K.taken K.faults sink.old sink.new) }
    ensures undone { IsRolledBack (lack_in (told_at rows_text answer pool.old)) pool.old pool.new }
    ensures capacity { text.new.capacity ≡ text.old.capacity }
    ensures served { drafter.new.pool_size ≡ drafter.old.pool_size }
    ensures stands { Stands pool.new }
{
    let mark = open_mark(pool);
    match layout_of(pool, answer, drafter) {
        Ok(layout) => match write_rows(pool, layout.id(), drafter, text, sink) {
            Ok(()) => {
                roll_back(pool, mark);
                Ok(())
            }
            Err(Failed) => {
                roll_back(pool, mark);
                Err(DrawFault::Write)
            }
        },
        Err(full) => {
            roll_back(pool, mark);
            Err(DrawFault::Full(full))
        }
    }
}

/// Writes the rows of the picture of a layout.
fn write_rows<K: Sink>(
    pool: &Pool,
    layout: Id,
    drafter: &mut Drafter,
    text: &mut Text,
    sink: &mut K,
) -> Result<(), Failed>
    requires stands { Stands pool.now }
    requires layout { IsLayout layout (forest pool.now) }
    requires room { 2 * bytes_in (tree_at layout (forest pool.now)) + 1 ≤ text.old.capacity }
    requires served { pool.now.size ≤ drafter.old.pool_size }
    ensures appended { OnOk result (Appends (K.taken sink.old) (K.taken sink.new) (rows_text (drawing (tree_at layout (forest pool.now))))) }
    ensures part { OnErr result (AppendsPart (K.taken sink.old) (K.taken sink.new) (rows_text (drawing (tree_at layout (forest pool.now))))) }
    ensures stops { OnErr result (StopsAtFailure K.taken K.faults sink.old sink.new) }
    ensures cause { HasCause (K.faults sink.old) (K.faults sink.new) result }
    ensures capacity { text.new.capacity ≡ text.old.capacity }
    ensures served { drafter.new.pool_size ≡ drafter.old.pool_size }
{
    for row in 0..rows(pool, layout, drafter) {
        text.clear();
        write_row(pool, layout, row, drafter, text);
        text.push(b"\n");
        write_all(sink, text.bytes())?;
    }
    Ok(())
}

/// How a layout is told in one line.
#[derive(Clone, Copy)]
pub enum Notation {
    /// Its serial text.
    Serial,
    /// Its LaTeX text.
    Latex,
}

/// Writes the layout of a tree in one line.
pub fn write_layout(
    pool: &mut Pool,
    answer: Id,
    notation: Notation,
    drafter: &mut Drafter,
    text: &mut Text,
) -> Result<(), Full>
    requires stands { Stands pool.old }
    requires expression { IsExpression answer (forest pool.old) }
    requires empty { text.old.bytes ≡ [] }
    requires room { 2 * pool.old.size ≤ text.old.capacity }
    requires served { pool.old.size ≤ drafter.old.pool_size }
    ensures told { OnOk result (told_at (told_by notation) answer pool.old ≡ Ok text.new.bytes) }
    ensures full { IfErr result (λ full. told_at (told_by notation) answer pool.old ≡ Err full) }
    ensures untold { OnErr result (text.new.bytes ≡ []) }
    ensures undone { IsRolledBack (lack_in (told_at (told_by notation) answer pool.old)) pool.old pool.new }
    ensures capacity { text.new.capacity ≡ text.old.capacity }
    ensures served { drafter.new.pool_size ≡ drafter.old.pool_size }
    ensures stands { Stands pool.new }
{
    let mark = open_mark(pool);
    match layout_of(pool, answer, drafter) {
        Ok(layout) => {
            write_in(pool, layout.id(), notation, drafter, text);
            roll_back(pool, mark);
            Ok(())
        }
        Err(full) => {
            roll_back(pool, mark);
            Err(full)
        }
    }
}

/// Appends the text of a layout.
fn write_in(pool: &Pool, layout: Id, notation: Notation, drafter: &mut Drafter, text: &mut Text)
    requires stands { Stands pool.now }
    requires layout { IsLayout layout (forest pool.now) }
    requires room { 2 * bytes_in (tree_at layout (forest pool.now)) ≤ spare_of text.old }
    requires served { pool.now.size ≤ drafter.old.pool_size }
    ensures written { text.new ≡ extended text.old (told_by notation (drawing (tree_at layout (forest pool.now)))) }
    ensures served { drafter.new.pool_size ≡ drafter.old.pool_size }
{
    match notation {
        Notation::Serial => write_serial(pool, layout, text),
        Notation::Latex => write_latex(pool, layout, drafter, text),
    }
}
