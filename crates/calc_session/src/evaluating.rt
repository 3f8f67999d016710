//! Trees of lines, evaluated in the pool.
ghost use Rattle.std.specs.Prelude.{◌≡◌, ◌≤◌, ◌+◌, ◌*◌, ⊤, ℕ, List, Option, [], ◌∷◌, true, ◌↔◌, Err, IfOk, IfErr, OnOk};
ghost use Rattle.breakers.specs.Breakers.{CalmChecks, TripsRose};
ghost use Rattle.breakers.specs.Watch.{states};
ghost use Rattle.calc_algebra.specs.Reduced.{is_reduced};
ghost use Rattle.calc_parser.specs.Lines.{IsTreeOf};
ghost use Rattle.calc_terms.specs.Trees.{Tree, nodes, size};
ghost use Rattle.calc_tokens.specs.Placed.{bare};
ghost use Rattle.calc_tokens.specs.Tokens.{tokens_of};
ghost use Rattle.name_table.specs.Filling.{fills, values, LacksNames};
ghost use Rattle.name_table.specs.Held.{HasEntries};
ghost use Rattle.name_table.specs.Storing.{IsKeepable, name_in};
ghost use Rattle.node_pool.specs.State.{free_of};
ghost use Rattle.reduce_port.specs.Bounds.{Covers};
ghost use Rattle.tree_handles.specs.Handed.{tree_of, Gives, IsHanded, KeepsFront};
ghost use Rattle.tree_handles.specs.Roots.{without_root};
ghost use Rattle.name_table.specs.Tables.{table_names};
ghost use Rattle.tree_handles.specs.Standing.{Stands, forest, KeepsRefusals};
ghost use Rattle.calc_session.specs.Answers.{ComesTo, CountsRefusal, refusal_of as refusal_for, refusal_of_evaluation, refusal_to_fill, reason_of, reply_of};
ghost use Rattle.calc_session.specs.Evaluations.{IsAnswerTo, IsReduction, Unmade, made};
ghost use Rattle.calc_session.specs.Faces.{Shows};
ghost use Rattle.calc_session.specs.Kept.{IsKept, IsReady, state_in};
ghost use Rattle.calc_session.specs.Replies.{refusal_in};
ghost use Rattle.calc_session.specs.Steps.{IsReplyToTree};

use crate::Refusal;
use crate::estimating::Finding;
use crate::parts::{Parts, Workspace};
use breakers::{Breaker, Watch};
use calc_parser::Parser;
use calc_terms::{Kind, Name};
use name_table::{FillFault, NameTable};
use node_pool::{Full, Pool};
use reduce_port::{ReduceFault, Reducer};
use tree_handles::{Handle, kind};
use tree_walks::holds_name;

/// What a line comes to.
#[derive(Drop)]
pub enum Evaluation {
    /// This tree is displayed, and stored where the line says so.
    Face(Handle),
    /// The line is `undef`.
    Undefined,
    /// This is found of the Number that it is reduced to.
    Found(Finding),
    Refused(Refusal),
}

impl Parts {
    /// What the line that was read last comes to, to be stored under the name where there is one: its tree is built behind all
    /// others, the stored trees take the places of their names, and it is reduced. A tree that is displayed stands behind all others.
    pub fn evaluate<R: Reducer, B: Breaker>(
        &mut self,
        store: Option<Name>,
        reducer: &R,
        watch: &mut Watch<B>,
    ) -> Evaluation
        requires kept { IsKept self.old }
        requires line { (t : Tree) × IsTreeOf (bare (tokens_of self.old.parser)) t }
        ensures reply { (t : Tree) → IsTreeOf (bare (tokens_of self.old.parser)) t
            → ComesTo (IsReplyToTree R.room R.bits (state_in self.old) (states B.state watch.old) (states B.state watch.new) (name_in store) t)
            (IsKeepable (name_in store) self.old.table) (name_in store) (forest self.old.work.pool) (forest self.new.work.pool) result }
        ensures interrupted { (place : ℕ) → (result ≡ Evaluation.Refused (Refusal.Interrupted place))
            ↔ TripsRose (states B.state watch.old) (states B.state watch.new) place }
        ensures counted { CountsRefusal (refusal_of_evaluation result) self.old.work.pool self.new.work.pool }
        ensures front { KeepsFront [] (forest self.old.work.pool) (forest self.new.work.pool) }
        ensures ready { IsReady self.new.work }
        ensures table { self.new.table ≡ self.old.table }
        ensures text { self.new.text ≡ self.old.text }
        ensures drafter { self.new.drafter ≡ self.old.drafter }
    {
        let filled = match build_and_fill(&mut self.work.pool, &self.table, &mut self.parser) {
            Ok(filled) => filled,
            Err(refusal) => return Evaluation::Refused(refusal),
        };
        let answer = match reduce_tree(&mut self.work.pool, filled, reducer, watch) {
            Ok(answer) => answer,
            Err(refusal) => return Evaluation::Refused(refusal),
        };
        if let Some(name) = store {
            if holds_name(&self.work.pool, answer.id(), name) {
                return Evaluation::Refused(Refusal::Circular { name });
            }
        }
        show(&mut self.work, answer)
    }
}

/// The tree of the line that was read last, once the stored trees have taken the places of their names. It stands
/// behind all others.
pub fn build_and_fill(
    pool: &mut Pool,
    table: &NameTable,
    parser: &mut Parser,
) -> Result<Handle, Refusal>
    requires stands { Stands pool.old }
    requires entries { HasEntries table.now (forest pool.old) }
    requires line { (t : Tree) × IsTreeOf (bare (tokens_of parser.old)) t }
    ensures ok { IfOk result (λ h. Gives (forest pool.old) (forest pool.new) h (LacksNames (table_names table.now))) }
    ensures made { (t : Tree) → IsTreeOf (bare (tokens_of parser.old)) t
        → IfOk result (λ h. made (free_of pool.old) (values table.now (forest pool.old)) t ≡ fills (free_of pool.new) (tree_of h pool.new)) }
    ensures refused { (t : Tree) → IsTreeOf (bare (tokens_of parser.old)) t
        → IfErr result (λ refusal. Unmade (made (free_of pool.old) (values table.now (forest pool.old)) t) (reason_of refusal)) }
    ensures kept { OnOk result (KeepsRefusals pool.old pool.new) }
    ensures counted { IfErr result (λ refusal. CountsRefusal (refusal_in (reason_of refusal)) pool.old pool.new) }
    ensures no_breaker { IfErr result (λ refusal. (place : ℕ) → refusal ≡ Refusal.Interrupted place → ⊥) }
    ensures front { KeepsFront [] (forest pool.old) (forest pool.new) }
    ensures stands { Stands pool.new }
{
    let tree = match parser.build(pool) {
        Ok(tree) => tree,
        Err(full) => return Err(refused(full)),
    };
    match table.fill(pool, tree) {
        Ok(filled) => Ok(filled),
        Err(fault) => Err(unfilled(fault)),
    }
}

/// The last tree, reduced in its place; it is handed in.
pub fn reduce_tree<R: Reducer, B: Breaker>(
    pool: &mut Pool,
    tree: Handle,
    reducer: &R,
    watch: &mut Watch<B>,
) -> Result<Handle, Refusal>
    requires stands { Stands pool.old }
    requires last { Gives (without_root tree (forest pool.old)) (forest pool.old) tree (λ t. ⊤) }
    ensures answer { let t = tree_of tree pool.old in IfOk result (λ answer.
        Gives (without_root tree (forest pool.old)) (forest pool.new) answer (λ u. IsAnswerTo (free_of pool.old + size t) t u × Covers R.room t (5 * size u))) }
    ensures calm { OnOk result (CalmChecks (nodes (tree_of tree pool.old)) (states B.state watch.old) (states B.state watch.new)) }
    ensures refused { (store : Option (List ℕ)) → let t = tree_of tree pool.old in IfErr result (λ refusal.
        IsReduction R.room R.bits (free_of pool.old + size t) t (states B.state watch.old) (states B.state watch.new) store (reply_of refusal)) }
    ensures interrupted { (place : ℕ) → (result ≡ Err (Refusal.Interrupted place)) ↔ TripsRose (states B.state watch.old) (states B.state watch.new) place }
    ensures kept { OnOk result (KeepsRefusals pool.old pool.new) }
    ensures counted { IfErr result (λ refusal. CountsRefusal (refusal_in (reason_of refusal)) pool.old pool.new) }
    ensures front { KeepsFront (tree ∷ []) (forest pool.old) (forest pool.new) }
    ensures stands { Stands pool.new }
{
    match reducer.reduce(pool, tree, watch) {
        Ok(answer) => Ok(answer),
        Err(fault) => Err(refusal_of(fault)),
    }
}

/// What is displayed of a reduced tree: its face, which takes its place, unless it is Undef.
pub fn show(work: &mut Workspace, answer: Handle) -> Evaluation
    requires ready { IsReady work.old }
    requires handed { IsHanded answer (forest work.old.pool) }
    requires reduced { is_reduced (tree_of answer work.old.pool) ≡ true }
    ensures shows { Shows answer work.old.pool work.new.pool result }
    ensures counted { CountsRefusal (refusal_of_evaluation result) work.old.pool work.new.pool }
    ensures front { KeepsFront (answer ∷ []) (forest work.old.pool) (forest work.new.pool) }
    ensures ready { IsReady work.new }
{
    match kind(&work.pool, answer.id()) {
        Kind::Undef => Evaluation::Undefined,
        _ => match work.faces.face_of(&mut work.pool, answer) {
            Ok(face) => Evaluation::Face(face),
            Err(full) => Evaluation::Refused(refused(full)),
        },
    }
}

/// The refusal that passes on a fault of a reduction or an expansion.
pub fn refusal_of(fault: ReduceFault) -> Refusal
    ensures { result ≡ refusal_for fault }
{
    match fault {
        ReduceFault::Full(full) => refused(full),
        ReduceFault::Overflow(overflow) => Refusal::Overflow {
            op: overflow.op,
            a: overflow.a,
            b: overflow.b,
        },
        ReduceFault::Interrupted(interrupted) => Refusal::Interrupted { by: interrupted.by },
    }
}

fn unfilled(fault: FillFault) -> Refusal
    ensures { result ≡ refusal_to_fill fault }
{
    match fault {
        FillFault::Full(full) => refused(full),
        FillFault::Deep => Refusal::Deep,
    }
}

/// The refusal that passes on that of the pool.
pub fn refused(full: Full) -> Refusal
    ensures { result ≡ Refusal.Full full.needed full.free }
{
    Refusal::Full {
        needed: full.needed,
        free: full.free,
    }
}
