//! The layout of a face, built beside it.
ghost use Rattle.std.specs.Prelude.{◌≡◌, ◌<◌, ◌≤◌, ◌^◌, ◌↔◌, IfOk, IfErr, IsOk, OnOk, Ok, Err, [], length, true, vec_capacity};
ghost use Rattle.calc_terms.specs.Payload.{size_of_payload};
ghost use Rattle.node_pool.specs.State.{free_of};
ghost use Rattle.tree_handles.specs.Building.{taking};
ghost use Rattle.tree_handles.specs.Expressions.{IsExpression, plain};
ghost use Rattle.tree_handles.specs.Forest.{Forest, arity, bytes_in, nodes_in, one_tree, before_last, last_trees};
ghost use Rattle.tree_handles.specs.Handed.{Ends, KeepsFront};
ghost use Rattle.tree_handles.specs.Inside.{holds, tree_at, payload_in};
ghost use Rattle.tree_handles.specs.Standing.{Stands, forest, KeepsRefusals, Refuses, LacksBytes, IsRefused};
ghost use Rattle.pool_layouts.specs.Building.{laying};
ghost use Rattle.tree_handles.specs.Visits.{visits_of};
ghost use Rattle.pool_layouts.specs.Drawings.{GivesLayout};
ghost use Rattle.pool_layouts.specs.Layouts.{layout};
ghost use Rattle.pool_layouts.specs.Laying.{Closes, HasLast, IsAround, is_leaf, IsStopped, PlacesMark, StandsIn, root_sizes, around_sizes};
ghost use Rattle.pool_layouts.specs.Places.{laid, mark_before as mark_there};

use crate::drafter::Drafter;
use crate::frames::Frame;
use crate::lists::{append, list_nodes};
use crate::places::{around, laid_kind, mark_before};
use calc_terms::Kind;
use line_text::{Place, deciding_kind};
use node_pool::{Full, Id, Pool};
use tree_handles::{Handle, Visit, kind, name, node, node_over_last, number, rational, symbol};

/// The layout of a face as a new last root. Its nodes are placed in postfix order: the parts from
/// left to right, and then what they are parts of.
#[tactic(auto, using(crate::proofs::Measuring::nodes_served, tree_handles::proofs::Measures::few_in))]
pub fn layout_of(pool: &mut Pool, face: Id, drafter: &mut Drafter) -> Result<Handle, Full>
    requires stands { Stands pool.old }
    requires expression { IsExpression face (forest pool.old) }
    requires served { pool.old.size ≤ drafter.old.pool_size }
    ensures ok { IfOk result (λ h. GivesLayout (forest pool.old) (forest pool.new) h (layout (plain (tree_at face (forest pool.old))))) }
    ensures front { KeepsFront [] (forest pool.old) (forest pool.new) }
    ensures kept { OnOk result (KeepsRefusals pool.old pool.new) }

    // Refused exactly where a node finds no room, with the bytes that it needs and those left.
    ensures room { OnOk result (laying (free_of pool.old) (layout (plain (tree_at face (forest pool.old)))) ≡ Ok (free_of pool.new)) }
    ensures full { IfErr result (λ full. laying (free_of pool.old) (layout (plain (tree_at face (forest pool.old)))) ≡ Err full) }
    ensures refuses { IfErr result (Refuses pool.old pool.new) }
    ensures caused { IfErr result (LacksBytes pool.new) }

    ensures stands { Stands pool.new }
    ensures served { drafter.new.pool_size ≡ drafter.old.pool_size }
{
    list_nodes(pool, face, &mut drafter.cells);
    lay(pool, face, drafter.cells.as_slice(), &mut drafter.under_way)
}

/// The same by the nodes of the face. The nodes whose layouts are under way are noted, the innermost last.
fn lay(
    pool: &mut Pool,
    face: Id,
    cells: &[Visit],
    under_way: &mut Vec<Frame>,
) -> Result<Handle, Full>
    requires stands { Stands pool.old }
    requires expression { IsExpression face (forest pool.old) }
    requires cells { cells.now ≡ visits_of (tree_at face (forest pool.old)) }
    requires room { nodes_in (tree_at face (forest pool.old)) < vec_capacity under_way.old }
    requires few { nodes_in (tree_at face (forest pool.old)) < 2 ^ 16 }
    ensures ok { IfOk result (λ h. GivesLayout (forest pool.old) (forest pool.new) h (layout (plain (tree_at face (forest pool.old))))) }
    ensures front { KeepsFront [] (forest pool.old) (forest pool.new) }
    ensures kept { OnOk result (KeepsRefusals pool.old pool.new) }
    ensures room { OnOk result (laying (free_of pool.old) (layout (plain (tree_at face (forest pool.old)))) ≡ Ok (free_of pool.new)) }
    ensures full { IfErr result (λ full. laying (free_of pool.old) (layout (plain (tree_at face (forest pool.old)))) ≡ Err full) }
    ensures refuses { IfErr result (Refuses pool.old pool.new) }
    ensures caused { IfErr result (LacksBytes pool.new) }
    ensures stands { Stands pool.new }
    ensures capacity { vec_capacity under_way.old ≤ vec_capacity under_way.new }
{
    under_way.clear();
    append(under_way, Frame::of(cells[0], None, pool.used()));
    let mut at = 1;
    while let Some(frame) = under_way.pop() {
        if frame.left > 0 {
            let cell = cells[at];
            let deciding = deciding_kind(pool, &cell, frame.place);
            let around = around(frame.place, cell.kind, deciding);
            let marks = place_mark(pool, frame.place)?;
            append(under_way, frame.behind(marks));
            append(under_way, Frame::of(cell, around, pool.used()));
            at += 1;
        } else {
            let last = close(pool, frame)?;
            if under_way.is_empty() {
                return Ok(last);
            }
        }
    }
    unreachable!()
}

/// Places the mark before a tree at a place, where there is one; how many marks.
#[tactic(auto, using(crate::proofs::Placing::no_mark, crate::proofs::Placing::some_mark, crate::proofs::Placing::takes_mark))]
fn place_mark(pool: &mut Pool, place: Place) -> Result<u32, Full>
    requires stands { Stands pool.old }
    ensures ok { IfOk result (λ n. PlacesMark (mark_there place) (forest pool.old) (forest pool.new) n) }
    ensures kept { OnOk result (KeepsRefusals pool.old pool.new) }
    ensures room { OnOk result (taking (free_of pool.old) (around_sizes (mark_there place)) ≡ Ok (free_of pool.new)) }
    ensures full { IfErr result (IsStopped (forest pool.old) (around_sizes (mark_there place)) pool.old pool.new) }
    ensures stands { Stands pool.new }
{
    match mark_before(place) {
        Some(mark) => match node(pool, mark) {
            Ok(_) => Ok(1),
            Err(full) => Err(full),
        },
        None => Ok(0),
    }
}

/// Places the node of a face whose parts are whole, and what it stands in.
fn close(pool: &mut Pool, frame: Frame) -> Result<Handle, Full>
    requires stands { Stands pool.old }
    requires live { holds frame.id (forest pool.old) ≡ true }
    requires few { frame.parts ≤ arity (forest pool.old) }
    requires begin { frame.begin ≡ bytes_in (before_last frame.parts (forest pool.old)) }
    requires leaf { is_leaf (payload_in frame.id (forest pool.old)) ≡ true → frame.parts ≡ 0 }
    requires wraps { IsAround frame.around }
    ensures ok { let old = forest pool.old in IfOk result (Closes (payload_in frame.id old) frame.around frame.parts old (forest pool.new)) }
    ensures kept { OnOk result (KeepsRefusals pool.old pool.new) }
    ensures room { OnOk result (taking (free_of pool.old) (root_sizes (payload_in frame.id (forest pool.old)) frame.around) ≡ Ok (free_of pool.new)) }
    ensures full { let old = forest pool.old in
        IfErr result (IsStopped (before_last frame.parts old) (root_sizes (payload_in frame.id old) frame.around) pool.old pool.new) }
    ensures stands { Stands pool.new }
{
    let root = place_root(pool, frame.id, frame.parts, frame.begin)?;
    stand_in(pool, frame.around, root, frame.begin)
}

/// Places what the last tree stands in, where it stands in something. The bytes of all trees before
/// that tree are `begin`.
fn stand_in(pool: &mut Pool, around: Option<Kind>, last: Handle, begin: u32) -> Result<Handle, Full>
    requires stands { Stands pool.old }
    requires wraps { IsAround around }
    requires last { HasLast last begin (forest pool.old) }
    ensures ok { IfOk result (StandsIn around last (forest pool.old) (forest pool.new)) }
    ensures kept { OnOk result (KeepsRefusals pool.old pool.new) }
    ensures room { OnOk result (taking (free_of pool.old) (around_sizes around) ≡ Ok (free_of pool.new)) }
    ensures full { IfErr result (IsStopped (forest pool.old) (around_sizes around) pool.old pool.new) }
    ensures stands { Stands pool.new }
{
    match around {
        Some(outer) => node_over_last(pool, outer, 1, begin),
        None => Ok(last),
    }
}

/// Places the node of a face over the last trees, so many, which are its parts. The bytes of all trees before
/// them are `begin`.
fn place_root(pool: &mut Pool, face: Id, parts: u32, begin: u32) -> Result<Handle, Full>
    requires stands { Stands pool.old }
    requires live { holds face (forest pool.old) ≡ true }
    requires few { parts ≤ arity (forest pool.old) }
    requires begin { begin ≡ bytes_in (before_last parts (forest pool.old)) }
    requires leaf { is_leaf (payload_in face (forest pool.old)) ≡ true → parts ≡ 0 }
    ensures ok { let old = forest pool.old in
        IfOk result (λ h. Ends h (one_tree h (laid (payload_in face old)) (last_trees parts old)) (before_last parts old) (forest pool.new)) }
    ensures kept { OnOk result (KeepsRefusals pool.old pool.new) }
    ensures full { IfErr result (IsRefused (size_of_payload (laid (payload_in face (forest pool.old)))) pool.old pool.new) }
    ensures exactly { IsOk result ↔ (size_of_payload (laid (payload_in face (forest pool.old))) ≤ free_of pool.old) }
    ensures stands { Stands pool.new }
{
    match kind(pool, face) {
        Kind::Num => {
            let value = rational(pool, face);
            number(pool, value)
        }
        Kind::Sym => {
            let name = name(pool, face);
            symbol(pool, name)
        }
        kind => node_over_last(pool, laid_kind(kind), parts as u16, begin),
    }
}
