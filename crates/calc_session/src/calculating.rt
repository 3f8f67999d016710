//! Calculations with an expression that stands in a line.
ghost use Rattle.std.specs.Prelude.{◌≡◌, ◌≤◌, ◌↔◌, ℕ, [], length};
ghost use Rattle.breakers.specs.Breakers.{TripsRose};
ghost use Rattle.breakers.specs.Watch.{states};
ghost use Rattle.calc_tokens.specs.Limits.{line_limit};
ghost use Rattle.node_pool.specs.State.{free_of};
ghost use Rattle.calc_session.specs.Answers.{CountsRefusal, TellsAs, refusal_of_pool};
ghost use Rattle.calc_session.specs.Arguments.{bytes_before as bytes_before_text};
ghost use Rattle.calc_session.specs.Calculating.{IsReplyToExpression};
ghost use Rattle.calc_session.specs.Counting.{IsCountedBut, IsKnownOf};
ghost use Rattle.calc_session.specs.Kept.{IsKept, state_in};

use crate::evaluating::{Evaluation, build_and_fill};
use crate::parts::{Parts, Workspace};
use crate::reading::{bytes_before, read_expression};
use crate::telling::tell;
use crate::{LineAnswer, Refusal};
use breakers::{Breaker, Watch};
use pool_checkpoints::{open_mark, roll_back};
use tree_handles::Handle;

/// A calculation with one tree.
pub trait Calculation {
    ghost use Rattle.std.specs.Prelude.{◌≡◌, ◌+◌, ◌↔◌, ⊤, ℕ, List, None, ◌∷◌, []};
    ghost use Rattle.breakers.specs.Breakers.{TripsRose};
    ghost use Rattle.breakers.specs.State.{State as BreakerState};
    ghost use Rattle.breakers.specs.Watch.{states};
    ghost use Rattle.calc_language.specs.Texts.{IsWritable};
    ghost use Rattle.calc_terms.specs.Trees.{Tree, size};
    ghost use Rattle.node_pool.specs.declared.full.Full.{Full};
    ghost use Rattle.node_pool.specs.State.{free_of};
    ghost use Rattle.tree_handles.specs.Handed.{tree_of, Gives, KeepsFront};
    ghost use Rattle.tree_handles.specs.Roots.{without_root};
    ghost use Rattle.tree_handles.specs.Standing.{forest};
    ghost use Rattle.calc_session.specs.Answers.{ComesTo, CountsRefusal, refusal_of_evaluation};
    ghost use Rattle.calc_session.specs.Counting.{IsCountedBut};
    ghost use Rattle.calc_session.specs.Kept.{IsReady};
    ghost use Rattle.calc_session.specs.Replies.{Reply, reported};

    // The replies to a tree: by the bytes that are free without it, the breakers before and after, and the bytes that are left with it.
    ghost rule: { Self → ℕ → List BreakerState → List BreakerState → ℕ → Tree → Reply → Type 0 };

    // The refusals that are known of a tree before the pool is asked, by the bytes that are left with it.
    ghost known: { Self → ℕ → Tree → Full → Type 0 };

    /// What is calculated of the last tree; the tree is handed in. What is shown of it takes its place.
    fn run<B: Breaker>(
        &self,
        work: &mut Workspace,
        tree: Handle,
        watch: &mut Watch<B>,
    ) -> Evaluation
        requires ready { IsReady work.old }
        requires last { Gives (without_root tree (forest work.old.pool)) (forest work.old.pool) tree (λ t. ⊤) }
        ensures reply { let t = tree_of tree work.old.pool in
            ComesTo (λ reply. rule self.now (free_of work.old.pool + size t) (states B.state watch.old) (states B.state watch.new) (free_of work.old.pool) t (reported reply))
            IsWritable None (without_root tree (forest work.old.pool)) (forest work.new.pool) result }
        ensures interrupted { (place : ℕ) → (result ≡ Evaluation.Refused (Refusal.Interrupted place))
            ↔ TripsRose (states B.state watch.old) (states B.state watch.new) place }
        ensures counted { IsCountedBut (known self.now (free_of work.old.pool) (tree_of tree work.old.pool)) (λ refusal. CountsRefusal refusal work.old.pool work.new.pool) (refusal_of_evaluation result) }
        ensures front { KeepsFront (tree ∷ []) (forest work.old.pool) (forest work.new.pool) }
        ensures size { work.new.pool.size ≡ work.old.pool.size }
        ensures ready { IsReady work.new };
}

impl Parts {
    /// Calculates with the expression in a text at the end of a line: it is read, built and filled, and what is
    /// calculated of it is told. The nodes are as before. It is not inlined, so that other lines take none of the machine's stack
    /// that a calculation needs.
    #[inline(never)]
    pub fn calculate<C: Calculation, B: Breaker>(
        &mut self,
        calculation: &C,
        line: &[u8],
        expression: &[u8],
        watch: &mut Watch<B>,
    ) -> LineAnswer
        requires kept { IsKept self.old }
        requires empty { self.old.text.bytes ≡ [] }
        requires short { length line.now ≤ line_limit }
        requires behind { length expression.now ≤ length line.now }
        ensures told { TellsAs (IsReplyToExpression (state_in self.old) (states B.state watch.old) (states B.state watch.new) (bytes_before_text line.now expression.now) expression.now
            (C.rule calculation.now (free_of self.old.work.pool) (states B.state watch.old) (states B.state watch.new))) result self.new.text.bytes }
        ensures interrupted { (place : ℕ) → (result ≡ LineAnswer.Refused (Refusal.Interrupted place))
            ↔ TripsRose (states B.state watch.old) (states B.state watch.new) place }
        ensures counted { IsCountedBut (IsKnownOf (C.known calculation.now) (state_in self.old) expression.now) (λ refusal. CountsRefusal refusal self.old.work.pool self.new.work.pool) (refusal_of_pool result) }
        ensures same { state_in self.new ≡ state_in self.old }
        ensures kept { IsKept self.new }
    {
        let before = bytes_before(line, expression);
        match read_expression(expression, before, &mut self.parser) {
            Ok(()) => {
                let mark = open_mark(&self.work.pool);
                match build_and_fill(&mut self.work.pool, &self.table, &mut self.parser) {
                    Ok(tree) => {
                        let evaluation = calculation.run(&mut self.work, tree, watch);
                        let answer = tell(&self.work.pool, &mut self.text, evaluation);
                        roll_back(&mut self.work.pool, mark);
                        answer
                    }
                    Err(refusal) => {
                        roll_back(&mut self.work.pool, mark);
                        LineAnswer::Refused(refusal)
                    }
                }
            }
            Err(refusal) => LineAnswer::Refused(refusal),
        }
    }
}
