//! The texts of reports, apart from the dump.
ghost use Rattle.std.specs.Prelude.{◌≡◌, ◌+◌, ◌++◌, ◌≤◌, length, decimal, codes};
ghost use Rattle.calc_terms.specs.Leaf.{name_of};
ghost use Rattle.line_text.specs.Content.{extended, spare_of};
ghost use Rattle.tree_handles.specs.Standing.{Stands};
ghost use Rattle.calc_commands.specs.Reports.{after_report, forgot_report, pool_report, unknown_report};

use crate::numbers::write_count;
use calc_terms::Name;
use line_text::Text;
use node_pool::Pool;
use tree_handles::count_trees;

/// Appends how full the pool is: at most 128 bytes.
pub fn write_pool_report(pool: &Pool, text: &mut Text)
    requires stands { Stands pool.now }
    requires room { 128 ≤ spare_of text.old }
    ensures { text.new ≡ extended text.old (pool_report pool.now) }
{
    write_labelled(b"pool ", u64::from(pool.used()), text);
    write_labelled(b"/", u64::from(pool.size()), text);
    write_labelled(b" nodes ", u64::from(pool.nodes()), text);
    write_labelled(b" trees ", u64::from(count_trees(pool)), text);
}

/// Appends that a stored name is forgotten.
pub fn write_forgot(name: Name, text: &mut Text)
    requires room { 128 ≤ spare_of text.old }
    ensures { text.new ≡ extended text.old (forgot_report (name_of name)) }
{
    text.push(b"forgot ");
    text.push(name.bytes());
}

/// Appends that a name is not stored.
pub fn write_unknown(name: Name, text: &mut Text)
    requires room { 128 ≤ spare_of text.old }
    ensures { text.new ≡ extended text.old (unknown_report (name_of name)) }
{
    text.push(b"no ");
    text.push(name.bytes());
}

/// Appends after how many checks a breaker trips.
pub fn write_after(checks: u64, text: &mut Text)
    requires room { 128 ≤ spare_of text.old }
    ensures { text.new ≡ extended text.old (after_report checks) }
{
    write_labelled(b"after ", checks, text);
}

/// Appends that there is no breaker to be armed.
pub fn write_no_breaker(text: &mut Text)
    requires room { 128 ≤ spare_of text.old }
    ensures { text.new ≡ extended text.old (codes "no breaker") }
{
    text.push(b"no breaker");
}

/// Appends a label and a number.
fn write_labelled(label: &[u8], number: u64, text: &mut Text)
    requires room { length label.now + 20 ≤ spare_of text.old }
    ensures text { text.new ≡ extended text.old (label.now ++ decimal number) }
    ensures short { length text.new.bytes ≤ length text.old.bytes + (length label.now + 20) }
{
    text.push(label);
    write_count(number, text);
}
