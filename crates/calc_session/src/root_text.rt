//! The texts of roots.
ghost use Rattle.std.specs.Prelude.{◌≡◌, ◌≤◌, ◌<◌, ◌+◌, ◌*◌, ◌++◌, [], ◌∷◌, map, length, IfOk, IfErr, IsOk, OnOk};
ghost use Rattle.calc_language.specs.Faces.{face};
ghost use Rattle.calc_language.specs.Texts.{text as text_of};
ghost use Rattle.calc_terms.specs.Fractions.{negative};
ghost use Rattle.calc_terms.specs.Leaf.{name_of};
ghost use Rattle.calc_terms.specs.Rat.{value_of};
ghost use Rattle.calc_terms.specs.Trees.{num, size};
ghost use Rattle.dual_diff.specs.Placing.{Adds};
ghost use Rattle.equation_roots.specs.Pairs.{beside_of, middle_of, radicand_of};
ghost use Rattle.equation_roots.specs.Rationals.{rationals_of};
ghost use Rattle.equation_roots.specs.Roots.{rationals_in, rest_in};
ghost use Rattle.line_text.specs.Content.{extended, spare_of};
ghost use Rattle.node_pool.specs.State.{free_of};
ghost use Rattle.surd_terms.specs.Terms.{term_of};
ghost use Rattle.tree_handles.specs.Handed.{KeepsFront};
ghost use Rattle.tree_handles.specs.Standing.{LacksBytes, Refuses, Stands, forest};
ghost use Rattle.calc_session.specs.Answers.{CountsRefusal};
ghost use Rattle.calc_session.specs.Forms.{lack_of, solution_room};
ghost use Rattle.calc_session.specs.Kept.{IsReady};
ghost use Rattle.calc_session.specs.Pools.{IsRolledBack, after};
ghost use Rattle.calc_session.specs.RootTexts.{IsIrrational, next_text, root_room, root_text, root_trees, roots_text, semicolon_before as semicolon_before_text, surd_tree, tree_in, with_semicolons};

use crate::parts::Workspace;
use calc_terms::{Kind, Name, Rat};
use equation_roots::{Rationals, RootPair, Roots};
use line_text::{Text, write_text};
use node_pool::{Full, Pool};
use number_forms::place_term;
use pool_checkpoints::{open_mark, roll_back};
use rational128::neg;
use surd_terms::Term;
use tree_handles::{Handle, node_over_last, number};

/// A rational, or a rational and a multiple of the square root of 2 or more.
#[derive(Clone, Copy)]
enum Root {
    Rational(Rat),
    Irrational(Rat, Term),
}

/// Writes the roots of an equation in this name, and `none` where there are none.
#[inline(never)]
pub fn write_roots(
    work: &mut Workspace,
    name: Name,
    roots: &Roots,
    text: &mut Text,
) -> Result<(), Full>
    requires ready { IsReady work.old }
    requires empty { text.old.bytes ≡ [] }
    requires room { solution_room ≤ text.old.capacity }
    ensures told { OnOk result (text.new.bytes ≡ roots_text (name_of name) (root_trees (rationals_in roots.now) (rest_in roots.now))) }
    ensures lacks { IfErr result (λ full. (full.free < full.needed) × (free_of work.old.pool < root_room)) }
    ensures counted { CountsRefusal (lack_of result) work.old.pool work.new.pool }
    ensures as_before { work.new.pool ≡ after (lack_of result) work.old.pool.nodes work.old.pool }
    ensures capacity { text.new.capacity ≡ text.old.capacity }
    ensures ready { IsReady work.new }
{
    let rationals = roots.rationals();
    write_rationals(work, name, rationals, text)?;
    match roots.pair() {
        Some(pair) => write_pair(work, name, pair, rationals.len(), text),
        None => {
            if rationals.len() == 0 {
                text.push(b"none");
            }
            Ok(())
        }
    }
}

/// Writes the rational roots: at most 201 bytes for each.
fn write_rationals(
    work: &mut Workspace,
    name: Name,
    rationals: &Rationals,
    text: &mut Text,
) -> Result<(), Full>
    requires ready { IsReady work.old }
    requires empty { text.old.bytes ≡ [] }
    requires room { 6432 ≤ text.old.capacity }
    ensures told { OnOk result (text.new.bytes ≡ with_semicolons (map (root_text (name_of name)) (map num (rationals_of rationals.now)))) }
    ensures short { OnOk result (length text.new.bytes ≤ 6432) }
    ensures lacks { IfErr result (λ full. (full.free < full.needed) × (free_of work.old.pool < root_room)) }
    ensures undone { IsRolledBack (lack_of result) work.old.pool work.new.pool }
    ensures capacity { text.new.capacity ≡ text.old.capacity }
    ensures ready { IsReady work.new }
{
    for at in 0..rationals.len() {
        write_root(work, name, at, Root::Rational(rationals.get(at)), text)?;
    }
    Ok(())
}

/// Appends the two irrational roots, after as many others: at most 617 bytes for each.
fn write_pair(
    work: &mut Workspace,
    name: Name,
    pair: RootPair,
    at: usize,
    text: &mut Text,
) -> Result<(), Full>
    requires ready { IsReady work.old }
    requires few { at ≤ 32 }
    requires room { 1234 ≤ spare_of text.old }
    ensures told { OnOk result (text.new ≡ extended text.old (next_text (name_of name) at (surd_tree (middle_of pair) (negative (beside_of pair)) (radicand_of pair)) ++ next_text (name_of name) (at + 1) (surd_tree (middle_of pair) (beside_of pair) (radicand_of pair)))) }
    ensures lacks { IfErr result (λ full. (full.free < full.needed) × (free_of work.old.pool < root_room)) }
    ensures undone { IsRolledBack (lack_of result) work.old.pool work.new.pool }
    ensures capacity { text.new.capacity ≡ text.old.capacity }
    ensures ready { IsReady work.new }
{
    let beside = pair.beside();
    let below = Term::new(neg(beside), pair.radicand());
    let above = Term::new(beside, pair.radicand());
    write_root(work, name, at, Root::Irrational(pair.middle(), below), text)?;
    write_root(
        work,
        name,
        at + 1,
        Root::Irrational(pair.middle(), above),
        text,
    )
}

/// Appends a root, after as many others: at most 9 bytes more than those of its value.
fn write_root(
    work: &mut Workspace,
    name: Name,
    at: usize,
    root: Root,
    text: &mut Text,
) -> Result<(), Full>
    requires ready { IsReady work.old }
    requires irrational { IsIrrational root }
    requires room { 9 + 2 * size (face (tree_in root)) ≤ spare_of text.old }
    ensures told { OnOk result (text.new ≡ extended text.old (next_text (name_of name) at (tree_in root))) }
    ensures short { OnOk result (length text.new.bytes ≤ length text.old.bytes + (9 + 2 * size (face (tree_in root)))) }
    ensures lacks { IfErr result (λ full. (full.free < full.needed) × (free_of work.old.pool < root_room)) }
    ensures undone { IsRolledBack (lack_of result) work.old.pool work.new.pool }
    ensures capacity { text.new.capacity ≡ text.old.capacity }
    ensures ready { IsReady work.new }
{
    text.push(semicolon_before(at));
    text.push(name.bytes());
    text.push(b"=");
    write_value(work, root, text)
}

/// A semicolon, but not before the first.
fn semicolon_before(at: usize) -> &'static [u8]
    ensures { result.now ≡ semicolon_before_text at }
{
    if at == 0 { b"" } else { b";" }
}

/// Appends the value of a root. Its tree stands in the pool for so long.
fn write_value(work: &mut Workspace, root: Root, text: &mut Text) -> Result<(), Full>
    requires ready { IsReady work.old }
    requires irrational { IsIrrational root }
    requires room { 2 * size (face (tree_in root)) ≤ spare_of text.old }
    ensures told { OnOk result (text.new ≡ extended text.old (text_of (face (tree_in root)))) }
    ensures short { OnOk result (length text.new.bytes ≤ length text.old.bytes + 2 * size (face (tree_in root))) }
    ensures lacks { IfErr result (λ full. (full.free < full.needed) × (free_of work.old.pool < root_room)) }
    ensures undone { IsRolledBack (lack_of result) work.old.pool work.new.pool }
    ensures capacity { text.new.capacity ≡ text.old.capacity }
    ensures ready { IsReady work.new }
{
    let mark = open_mark(&work.pool);
    let tree = match place_root(&mut work.pool, root) {
        Ok(tree) => tree,
        Err(full) => {
            roll_back(&mut work.pool, mark);
            return Err(full);
        }
    };
    match work.faces.face_of(&mut work.pool, tree) {
        Ok(face) => {
            write_text(&work.pool, face.id(), text);
            roll_back(&mut work.pool, mark);
            Ok(())
        }
        Err(full) => {
            roll_back(&mut work.pool, mark);
            Err(full)
        }
    }
}

/// The reduced tree of a root, after all other trees.
fn place_root(pool: &mut Pool, root: Root) -> Result<Handle, Full>
    requires stands { Stands pool.old }
    ensures ok { IfOk result (λ h. Adds pool.old pool.new (tree_in root) h) }
    ensures enough { 144 ≤ free_of pool.old → IsOk result }
    ensures refused { IfErr result (Refuses pool.old pool.new) }
    ensures caused { IfErr result (LacksBytes pool.new) }
    ensures front { KeepsFront [] (forest pool.old) (forest pool.new) }
    ensures stands { Stands pool.new }
{
    match root {
        Root::Rational(value) => number(pool, value),
        Root::Irrational(constant, multiple) => place_surd(pool, constant, multiple),
    }
}

/// A constant, unless it is 0, and a multiple of a square root, after all other trees.
fn place_surd(pool: &mut Pool, constant: Rat, multiple: Term) -> Result<Handle, Full>
    requires stands { Stands pool.old }
    ensures ok { IfOk result (λ h. Adds pool.old pool.new (surd_tree (value_of constant) (term_of multiple).coefficient (term_of multiple).radicand) h) }
    ensures enough { 144 ≤ free_of pool.old → IsOk result }
    ensures refused { IfErr result (Refuses pool.old pool.new) }
    ensures caused { IfErr result (LacksBytes pool.new) }
    ensures front { KeepsFront [] (forest pool.old) (forest pool.new) }
    ensures stands { Stands pool.new }
{
    if constant.is_zero() {
        return place_term(pool, multiple);
    }
    let begin = pool.used();
    number(pool, constant)?;
    place_term(pool, multiple)?;
    node_over_last(pool, Kind::Add, 2, begin)
}
