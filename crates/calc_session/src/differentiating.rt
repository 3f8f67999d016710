//! Derivatives of trees.
ghost use Rattle.calc_terms.specs.Leaf.{name_of};
ghost use Rattle.calc_session.specs.Deriving.{IsReplyToDerivative, LacksDerivative};

use crate::Refusal;
use crate::calculating::Calculation;
use crate::evaluating::{Evaluation, reduce_tree, refused, show};
use crate::parts::Workspace;
use breakers::{Breaker, Watch};
use calc_terms::Name;
use dual_diff::{derive, has_derivative};
use reduce_port::Reducer;
use tree_handles::{Handle, release};

/// The derivative with respect to a name, which is reduced.
#[derive(Drop)]
pub struct Derivative<'a, R> {
    pub name: Name,
    pub reducer: &'a R,
}

impl<R: Reducer> Calculation for Derivative<'_, R> {
    ghost rule = { λ d free before after left t. IsReplyToDerivative R.room R.bits free before after (name_of d.name) left t };

    ghost known = { λ d left t. LacksDerivative (name_of d.name) left t };

    /// The tree is released once its derivative is made.
    #[tactic(auto, using(crate::proofs::EvaluationLemmas::size_kept))]
    fn run<B: Breaker>(
        &self,
        work: &mut Workspace,
        tree: Handle,
        watch: &mut Watch<B>,
    ) -> Evaluation {
        let id = tree.id();
        if !has_derivative(&work.pool, id, self.name) {
            return Evaluation::Refused(Refusal::NoDerivative);
        }
        match derive(&mut work.pool, id, self.name) {
            Ok(derivative) => {
                release(&mut work.pool, tree);
                match reduce_tree(&mut work.pool, derivative, self.reducer, watch) {
                    Ok(answer) => show(work, answer),
                    Err(refusal) => Evaluation::Refused(refusal),
                }
            }
            Err(full) => Evaluation::Refused(refused(full)),
        }
    }
}
