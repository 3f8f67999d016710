//! The tree of a line, in the pool.
ghost use Rattle.std.specs.Prelude.{◌≡◌, ◌<◌, ◌≤◌, ◌-◌, ◌+◌, ◌↔◌, ℕ, List, length, map, take, slice_index_or, true, Err, IfOk, IfErr, IsOk, OnOk, Ok, []};
ghost use Rattle.arrayvec.specs.ArrayVec.{array_vec_len};
ghost use Rattle.calc_terms.specs.Trees.{Tree};
ghost use Rattle.calc_tokens.specs.Placed.{bare};
ghost use Rattle.calc_tokens.specs.Tokens.{token_of, tokens_of};
ghost use Rattle.node_pool.specs.State.{free_of};
ghost use Rattle.tree_handles.specs.Standing.{LacksBytes, Stands, forest, KeepsRefusals, IsRefused, Refuses};
ghost use Rattle.tree_handles.specs.Forest.{arity, bytes_in, before_last};
ghost use Rattle.tree_handles.specs.Handed.{Gives, KeepsFront};
ghost use Rattle.calc_parser.specs.Building.{building, placing, bytes_of_node};
ghost use Rattle.calc_parser.specs.Growing.{children_in, takes_children, Grows};
ghost use Rattle.calc_parser.specs.Lines.{IsTreeOf};
ghost use Rattle.calc_parser.specs.Postfix.{leaf, parent, postfix as postfix_of, step_limit};
ghost use Rattle.calc_parser.specs.Reader.{node_of, token_in, tokens_in};
ghost use Rattle.calc_parser.specs.Steps.{AreStepsOf};

use crate::checking::read_line;
use crate::postfix::{STEP_LIMIT, Step};
use crate::reader::Reader;
use arrayvec::ArrayVec;
use calc_terms::Kind;
use calc_tokens::{Token, Tokens, What};
use node_pool::{Full, Pool};
use tree_handles::{Handle, node, node_over_last, number, symbol};

/// The tree of a line as a new last root. Its nodes are placed in postfix order: the children from
/// left to right, and then their parent.
#[tactic(auto, using(std::proofs::lemmas::Grind::common_steps))]
pub fn build(pool: &mut Pool, tokens: &Tokens) -> Result<Handle, Full>
    requires stands { Stands pool.old }
    requires line { (t : Tree) × IsTreeOf (bare (tokens_of tokens.now)) t }
    ensures ok { IfOk result (λ h. Gives (forest pool.old) (forest pool.new) h (IsTreeOf (bare (tokens_of tokens.now)))) }
    ensures front { KeepsFront [] (forest pool.old) (forest pool.new) }
    ensures kept { OnOk result (KeepsRefusals pool.old pool.new) }

    // Refused exactly where a node finds no room, with the bytes that it needs and those left.
    ensures room { (t : Tree) → IsTreeOf (bare (tokens_of tokens.now)) t → OnOk result (building (free_of pool.old) t ≡ Ok (free_of pool.new)) }
    ensures full { (t : Tree) → IsTreeOf (bare (tokens_of tokens.now)) t → IfErr result (λ full. building (free_of pool.old) t ≡ Err full) }
    ensures refuses { IfErr result (Refuses pool.old pool.new) }
    ensures caused { IfErr result (LacksBytes pool.new) }

    ensures stands { Stands pool.new }
{
    let mut reader = Reader::new();
    let Ok(_) = read_line(tokens, &mut reader) else {
        unreachable!()
    };
    let mut places = ArrayVec::new();
    place_line(pool, tokens, reader.steps(), &mut places)
}

/// The tree of tokens that are a line, by its steps.
pub(crate) fn place_line(
    pool: &mut Pool,
    tokens: &Tokens,
    steps: &[Step],
    places: &mut ArrayVec<u32, STEP_LIMIT>,
) -> Result<Handle, Full>
    requires stands { Stands pool.old }
    requires few { length steps.now ≤ step_limit }
    requires line { (t : Tree) × IsTreeOf (bare (tokens_of tokens.now)) t }
    requires made { AreStepsOf steps.now (bare (tokens_of tokens.now)) }
    ensures ok { IfOk result (λ h. Gives (forest pool.old) (forest pool.new) h (IsTreeOf (bare (tokens_of tokens.now)))) }
    ensures front { KeepsFront [] (forest pool.old) (forest pool.new) }
    ensures kept { OnOk result (KeepsRefusals pool.old pool.new) }
    ensures room { (t : Tree) → IsTreeOf (bare (tokens_of tokens.now)) t → OnOk result (building (free_of pool.old) t ≡ Ok (free_of pool.new)) }
    ensures full { (t : Tree) → IsTreeOf (bare (tokens_of tokens.now)) t → IfErr result (λ full. building (free_of pool.old) t ≡ Err full) }
    ensures refuses { IfErr result (Refuses pool.old pool.new) }
    ensures caused { IfErr result (LacksBytes pool.new) }
    ensures stands { Stands pool.new }
{
    place_nodes(pool, tokens.items(), steps, places)
}

/// The tree that these steps make, by the places of the trees that stand so far, which take the places of
/// those in the list.
#[tactic(auto, using(std::proofs::lemmas::Grind::common_steps, crate::proofs::UnderWay::some_root))]
fn place_nodes(
    pool: &mut Pool,
    tokens: &[Token],
    steps: &[Step],
    places: &mut ArrayVec<u32, STEP_LIMIT>,
) -> Result<Handle, Full>
    requires stands { Stands pool.old }
    requires few { length steps.now ≤ step_limit }
    requires tree { (t : Tree) × (map (node_of (tokens_in tokens.now)) steps.now ≡ postfix_of t) }
    ensures ok { IfOk result (λ h. Gives (forest pool.old) (forest pool.new) h (λ t. map (node_of (tokens_in tokens.now)) steps.now ≡ postfix_of t)) }
    ensures front { KeepsFront [] (forest pool.old) (forest pool.new) }
    ensures kept { OnOk result (KeepsRefusals pool.old pool.new) }
    ensures room { OnOk result (placing (free_of pool.old) (map (node_of (tokens_in tokens.now)) steps.now) ≡ Ok (free_of pool.new)) }
    ensures full { IfErr result (λ full. placing (free_of pool.old) (map (node_of (tokens_in tokens.now)) steps.now) ≡ Err full) }
    ensures refuses { IfErr result (Refuses pool.old pool.new) }
    ensures caused { IfErr result (LacksBytes pool.new) }
    ensures stands { Stands pool.new }
{
    places.clear();
    let mut root = None;
    for step in steps {
        let from = begin_of_last(places, step.children(), pool.used());
        let handle = place(pool, tokens, *step, from)?;
        places.push(from);
        root = Some(handle);
    }
    Ok(root.unwrap())
}

/// Where the last trees begin, so many of those that begin at these places and end with the last.
/// Their places go.
fn begin_of_last(places: &mut ArrayVec<u32, STEP_LIMIT>, trees: u16, end: u32) -> u32
    ensures kept { places.new.items ≡ take (length places.old.items - trees) places.old.items }
    ensures begin { result ≡ slice_index_or places.old.items (length places.old.items - trees) end }
{
    let first = places.len().saturating_sub(usize::from(trees));
    let begin = places.as_slice().get(first).copied().unwrap_or(end);
    places.truncate(first);
    begin
}

/// Places the node of a step behind all trees, and before those that become its children, which
/// begin at a place.
fn place(pool: &mut Pool, tokens: &[Token], step: Step, from: u32) -> Result<Handle, Full>
    requires stands { Stands pool.old }
    requires takes { takes_children (node_of (tokens_in tokens.now) step) ≡ true }
    requires few { children_in (node_of (tokens_in tokens.now) step) ≤ arity (forest pool.old) }
    requires begin { from ≡ bytes_in (before_last (children_in (node_of (tokens_in tokens.now) step)) (forest pool.old)) }
    ensures ok { IfOk result (Grows (node_of (tokens_in tokens.now) step) (forest pool.old) (forest pool.new)) }
    ensures kept { OnOk result (KeepsRefusals pool.old pool.new) }
    ensures full { IfErr result (IsRefused (bytes_of_node (node_of (tokens_in tokens.now) step)) pool.old pool.new) }
    ensures exactly { IsOk result ↔ (bytes_of_node (node_of (tokens_in tokens.now) step) ≤ free_of pool.old) }
    ensures stands { Stands pool.new }
{
    match step {
        Step::Leaf(at) => place_leaf(pool, what_at(tokens, at)),
        Step::Node(kind, children) => node_over_last(pool, kind, children, from),
    }
}

/// What the token at this place is; `undef` where there is none.
pub(crate) fn what_at(tokens: &[Token], at: u16) -> What
    ensures { token_of result ≡ token_in (tokens_in tokens.now) at }
{
    match tokens.get(usize::from(at)) {
        Some(token) => token.what,
        None => What::Undef,
    }
}

/// Places the leaf of a token behind all trees.
#[tactic(auto, using(std::proofs::lemmas::Grind::common_steps, crate::proofs::Leaves::other, crate::proofs::Leaves::ok_as, crate::proofs::Leaves::other_grows))]
fn place_leaf(pool: &mut Pool, what: What) -> Result<Handle, Full>
    requires stands { Stands pool.old }
    ensures ok { IfOk result (Grows (leaf (token_of what)) (forest pool.old) (forest pool.new)) }
    ensures kept { OnOk result (KeepsRefusals pool.old pool.new) }
    ensures full { IfErr result (IsRefused (bytes_of_node (leaf (token_of what))) pool.old pool.new) }
    ensures exactly { IsOk result ↔ (bytes_of_node (leaf (token_of what)) ≤ free_of pool.old) }
    ensures stands { Stands pool.new }
{
    match what {
        What::Number(value) => number(pool, value),
        What::Name(name) => symbol(pool, name),
        _ => node(pool, Kind::Undef),
    }
}
