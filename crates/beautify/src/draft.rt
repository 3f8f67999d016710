//! Trees that are written node by node, each parent before its children.
ghost use Rattle.std.specs.Prelude.{◌≡◌, ◌<◌, ◌≤◌, ◌+◌, ◌*◌, ℕ, length, IfErr, IfOk, OnOk, vec_capacity};
ghost use Rattle.beautify.specs.Drafts.{IsDraft};
ghost use Rattle.beautify.specs.Owed.{IsNode, IsReady, IsWritten, children_taken, next_room, with_next};
ghost use Rattle.calc_terms.specs.Payload.{Payload};
ghost use Rattle.calc_terms.specs.Trees.{Tree, Trees, more, none};
ghost use Rattle.node_pool.specs.State.{free_of};
ghost use Rattle.tree_handles.specs.Forest.{Forest, empty, one_tree};
ghost use Rattle.tree_handles.specs.Handed.{Ends, Gives, Starts};
ghost use Rattle.tree_handles.specs.Standing.{IsRefused, KeepsRefusals, LacksBytes, Refuses, Stands, forest};

use crate::pending::Pending;
use crate::reading::{denominator, numerator};
use calc_terms::Rat;
use node_pool::{Full, Pool};
use tree_handles::{Handle, adopt, name, node, number, rational, symbol};

/// A node that stands alone so far, and the number of the trees behind it that become its children.
#[derive(Drop)]
pub(crate) struct Noted {
    pub(crate) node: Handle,
    pub(crate) children: u16,
}

/// Places a node behind all others, and notes it.
#[tactic(auto, using(crate::proofs::Steps::node_bytes, crate::proofs::Steps::with_node))]
pub(crate) fn write_node(
    pool: &mut Pool,
    next: &Pending,
    notes: &mut Vec<Noted>,
) -> Result<(), Full>
    requires stands { Stands pool.old }
    requires node { IsNode next.now }
    requires ready { (us : Trees) × IsReady next.now (forest pool.old) us }
    requires room { free_of pool.old + 8 * length notes.old.items < 8 * vec_capacity notes.old }
    ensures ok { (base : Forest) (ts us : Trees) → IsReady next.now (forest pool.old) us → IsDraft base ts (with_next next.now (forest pool.old) us) notes.old.items pool.old
        → OnOk result (IsDraft base ts us notes.new.items pool.new) }
    ensures first { Starts (forest pool.old) (forest pool.new) }
    ensures kept { OnOk result (KeepsRefusals pool.old pool.new) }
    ensures cost { OnOk result (free_of pool.old ≤ free_of pool.new + next_room next.now (forest pool.old)) }
    ensures room { OnOk result (free_of pool.new + 8 * length notes.new.items ≤ free_of pool.old + 8 * length notes.old.items) }
    ensures capacity { vec_capacity notes.old ≤ vec_capacity notes.new }
    ensures refused { IfErr result (Refuses pool.old pool.new) }
    ensures caused { IfErr result (LacksBytes pool.new) }
    ensures short { IfErr result (λ full. free_of pool.old < next_room next.now (forest pool.old)) }
    ensures stands { Stands pool.new }
{
    let node = place_node(pool, next)?;
    let children = children_of(next);
    notes.push(Noted { node, children }).unwrap();
    Ok(())
}

/// A new last tree of one node.
#[tactic(auto, using(crate::proofs::Steps::one_placed, crate::proofs::Steps::one_refused))]
fn place_node(pool: &mut Pool, next: &Pending) -> Result<Handle, Full>
    requires stands { Stands pool.old }
    requires node { IsNode next.now }
    requires ready { (us : Trees) × IsReady next.now (forest pool.old) us }
    ensures ok { IfOk result (λ h. (x : Payload) × IsWritten next.now (forest pool.old) x × Ends h (one_tree h x empty) (forest pool.old) (forest pool.new)) }
    ensures kept { OnOk result (KeepsRefusals pool.old pool.new) }
    ensures full { IfErr result (λ full. (n : ℕ) × IsRefused n pool.old pool.new full × (n ≤ next_room next.now (forest pool.old))) }
    ensures stands { Stands pool.new }
{
    match *next {
        Pending::Over { kind, .. } => node(pool, kind),
        Pending::One => number(pool, Rat::whole(1)),
        Pending::Name(id) => {
            let name = name(pool, id);
            symbol(pool, name)
        }
        Pending::Numerator(id) => {
            let value = numerator(rational(pool, id));
            number(pool, Rat::whole(value as i128))
        }
        Pending::Denominator(id) => {
            let value = denominator(rational(pool, id));
            number(pool, Rat::whole(value as i128))
        }
        Pending::Part(..) => unreachable!(),
    }
}

/// How many of the trees behind it a node takes.
fn children_of(next: &Pending) -> u16
    ensures { result ≡ children_taken next.now }
{
    match *next {
        Pending::Over { children, .. } => children,
        _ => 0,
    }
}

/// The noted nodes take their children, from the last to the first, and become one tree.
pub(crate) fn join_notes(pool: &mut Pool, notes: &mut Vec<Noted>) -> Handle
    requires stands { Stands pool.old }
    requires draft { (base : Forest) × (t : Tree) × IsDraft base (more t none) none notes.old.items pool.old }
    ensures ok { (base : Forest) (t : Tree) → IsDraft base (more t none) none notes.old.items pool.old → Gives base (forest pool.new) result (λ u. u ≡ t) }
    ensures kept { KeepsRefusals pool.old pool.new }
    ensures capacity { vec_capacity notes.old ≤ vec_capacity notes.new }
    ensures stands { Stands pool.new }
{
    let mut root = None;
    while let Some(noted) = notes.pop() {
        adopt(pool, &noted.node, noted.children);
        root = Some(noted.node);
    }
    root.unwrap()
}
