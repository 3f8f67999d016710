//! Pictures of layouts, row by row.
ghost use Rattle.std.specs.Prelude.{◌≡◌, ◌<◌, ◌≤◌, ◌*◌, ◌^◌, ℕ, List, encode_utf8_all, length, ◌++◌, option_to_list, vec_capacity};
ghost use Rattle.line_text.specs.Content.{spare_of, extended};
ghost use Rattle.pool_layouts.specs.Drafts.{Measures};
ghost use Rattle.pool_layouts.specs.Drawings.{IsLayout, drawing};
ghost use Rattle.pool_layouts.specs.Painting.{IsLine};
ghost use Rattle.pool_layouts.specs.Pictures.{picture, height, cut};
ghost use Rattle.tree_handles.specs.Forest.{bytes_in};
ghost use Rattle.tree_handles.specs.Inside.{tree_at};
ghost use Rattle.tree_handles.specs.Standing.{Stands, forest};

use crate::drafter::Drafter;
use crate::extents::{Extent, extent_at, list_extents};
use crate::ink::paint_ink;
use crate::lists::{append, list_nodes};
use crate::steps::{Span, Step, open_step};
use line_text::Text;
use node_pool::{Id, Pool};
use tree_handles::Visit;

/// How many rows the picture of a layout has. Its nodes are listed and measured for all rows.
#[tactic(auto, using(crate::proofs::Measuring::nodes_served, tree_handles::proofs::Measures::few_in, tree_handles::proofs::Visiting::visits_length))]
pub fn rows(pool: &Pool, layout: Id, drafter: &mut Drafter) -> u32
    requires stands { Stands pool.now }
    requires layout { IsLayout layout (forest pool.now) }
    requires served { pool.now.size ≤ drafter.old.pool_size }
    ensures rows { result ≡ height (picture (drawing (tree_at layout (forest pool.now)))) }
    ensures measured { Measures drafter.new layout (forest pool.now) }
    ensures served { drafter.new.pool_size ≡ drafter.old.pool_size }
{
    list_nodes(pool, layout, &mut drafter.cells);
    let cells = drafter.cells.as_slice();
    list_extents(pool, layout, cells, &mut drafter.extents);
    let extents = drafter.extents.as_slice();
    extent_at(extents, 0).height()
}

/// Appends a row of the picture of a layout, counted from 0 at the top, without the blanks at its end. Its rows were asked
/// for last.
pub fn write_row(pool: &Pool, layout: Id, row: u32, drafter: &mut Drafter, text: &mut Text)
    requires stands { Stands pool.now }
    requires layout { IsLayout layout (forest pool.now) }
    requires row { row < height (picture (drawing (tree_at layout (forest pool.now)))) }
    requires room { 2 * bytes_in (tree_at layout (forest pool.now)) ≤ spare_of text.old }
    requires served { pool.now.size ≤ drafter.old.pool_size }
    requires measured { Measures drafter.old layout (forest pool.now) }
    ensures written { text.new ≡ extended text.old (encode_utf8_all (cut ((picture (drawing (tree_at layout (forest pool.now)))).line row))) }
    ensures kept { drafter.new ≡ drafter.old }
{
    let cells = drafter.cells.as_slice();
    let extents = drafter.extents.as_slice();
    let span = Span {
        at: 0,
        end: extent_at(extents, 0).nodes,
    };
    drafter.steps.clear();
    append(&mut drafter.steps, Step::Part(span, row));
    paint(pool, cells, extents, &mut drafter.steps, text);
}

/// Paints what is still to be painted of a row, the last step first.
fn paint(pool: &Pool, cells: &[Visit], extents: &[Extent], steps: &mut Vec<Step>, text: &mut Text)
    requires stands { Stands pool.now }
    requires deep { length cells.now < vec_capacity steps.old }
    requires few_cells { length cells.now < 2 ^ 16 }
    requires few_extents { length extents.now ≤ 2 ^ 16 }
    requires painting { (line : List ℕ) × IsLine (forest pool.now) cells.now extents.now steps.old.items line × (length (encode_utf8_all line) ≤ spare_of text.old) }
    ensures painted { (line : List ℕ) → IsLine (forest pool.now) cells.now extents.now steps.old.items line → text.new ≡ extended text.old (encode_utf8_all (cut line)) }
    ensures capacity { vec_capacity steps.old ≤ vec_capacity steps.new }
{
    let mut blanks = 0;
    while let Some(step) = steps.pop() {
        let opened = open_step(cells, extents, step);
        blanks = paint_ink(pool, opened.ink, blanks + opened.blanks, text);
        push_if(steps, opened.second);
        push_if(steps, opened.first);
    }
}

/// Notes a step, where there is one.
fn push_if(steps: &mut Vec<Step>, step: Option<Step>)
    requires { length steps.old.items < vec_capacity steps.old }
    ensures items { steps.new.items ≡ steps.old.items ++ option_to_list step }
    ensures capacity { vec_capacity steps.old ≤ vec_capacity steps.new }
{
    if let Some(step) = step {
        append(steps, step);
    }
}
