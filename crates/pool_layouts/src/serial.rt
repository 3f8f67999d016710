//! Serial texts of layouts.
ghost use Rattle.std.specs.Prelude.{◌≡◌, ◌*◌, ◌≤◌};
ghost use Rattle.line_text.specs.Content.{spare_of, extended};
ghost use Rattle.pool_layouts.specs.Drawings.{IsLayout, drawing};
ghost use Rattle.pool_layouts.specs.Serial.{serial};
ghost use Rattle.tree_handles.specs.Forest.{bytes_in};
ghost use Rattle.tree_handles.specs.Inside.{tree_at};
ghost use Rattle.tree_handles.specs.Standing.{Stands, forest};

use line_text::{Text, write_tree};
use node_pool::{Id, Pool};

/// Appends the serial text of a layout.
#[tactic(auto, using(crate::proofs::Serials::written_serial, line_text::proofs::Valid::valid, tree_handles::proofs::Measures::one_at))]
pub fn write_serial(pool: &Pool, layout: Id, text: &mut Text)
    requires stands { Stands pool.now }
    requires layout { IsLayout layout (forest pool.now) }
    requires room { 2 * bytes_in (tree_at layout (forest pool.now)) ≤ spare_of text.old }
    ensures { text.new ≡ extended text.old (serial (drawing (tree_at layout (forest pool.now)))) }
{
    write_tree(pool, layout, text);
}
