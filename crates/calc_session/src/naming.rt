//! What is stored, told in lines that store it again.
ghost use Rattle.std.specs.Prelude.{◌≡◌, ◌≤◌, ◌+◌, ◌*◌, [], length, true};
ghost use Rattle.calc_language.specs.Texts.{AreWritable};
ghost use Rattle.calc_terms.specs.Leaf.{name_of};
ghost use Rattle.line_text.specs.Content.{extended, spare_of};
ghost use Rattle.name_table.specs.Filling.{value_in};
ghost use Rattle.name_table.specs.Held.{IsHeld};
ghost use Rattle.tree_handles.specs.Expressions.{AllExpressions, plains};
ghost use Rattle.tree_handles.specs.Forest.{bytes_in};
ghost use Rattle.tree_handles.specs.Roots.{has_root, root_tree};
ghost use Rattle.tree_handles.specs.Standing.{Stands, forest};
ghost use Rattle.calc_session.specs.Naming.{names_report, store_line};
ghost use Rattle.calc_session.specs.States.{state_of};

use calc_commands::newline_before;
use calc_terms::Name;
use line_text::{Text, write_text};
use name_table::NameTable;
use node_pool::{Id, Pool};

/// Writes a line for each stored name, the oldest store first, or that there is none. A line has at most twice the bytes of its
/// tree and ten more, and a newline stands before it.
#[inline(never)]
pub fn write_names(pool: &Pool, table: &NameTable, text: &mut Text)
    requires stands { Stands pool.now }
    requires held { IsHeld table.now (forest pool.now) }
    requires empty { text.old.bytes ≡ [] }
    requires room { 2 * pool.now.size + 768 ≤ text.old.capacity }
    ensures told { text.new.bytes ≡ names_report (state_of pool.now table.now) }
    ensures capacity { text.new.capacity ≡ text.old.capacity }
{
    let count = table.names();
    if count == 0 {
        text.push(b"no names");
        return;
    }
    for at in 0..count {
        let (name, tree) = table.entry(at);
        text.push(newline_before(usize::from(at)));
        write_store(pool, tree, name, text);
    }
}

/// Writes the line that stores a tree under a name.
fn write_store(pool: &Pool, tree: Id, name: Name, text: &mut Text)
    requires stands { Stands pool.now }
    requires root { has_root tree (forest pool.now) ≡ true }
    requires whole { AllExpressions (forest pool.now) }
    requires writable { AreWritable (plains (forest pool.now)) }
    requires room { 2 * bytes_in (root_tree tree (forest pool.now)) + 10 ≤ spare_of text.old }
    ensures line { text.new ≡ extended text.old (store_line (value_in (forest pool.now) (record { name = name_of name; tree = tree }))) }
    ensures short { length text.new.bytes ≤ length text.old.bytes + (2 * bytes_in (root_tree tree (forest pool.now)) + 10) }
{
    write_text(pool, tree, text);
    text.push(b"\xE2\x86\x92");
    text.push(name.bytes());
}
