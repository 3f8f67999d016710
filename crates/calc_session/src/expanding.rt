//! Expanded forms of trees.
ghost use Rattle.calc_session.specs.Expanding.{IsReplyToExpansion};

use crate::Refusal;
use crate::calculating::Calculation;
use crate::evaluating::{Evaluation, refusal_of, refused};
use crate::parts::Workspace;
use breakers::{Breaker, Watch};
use expand_forms::{expand, is_polynomial};
use tree_handles::Handle;

/// The expanded form.
#[derive(Clone, Copy)]
pub struct Expansion;

impl Calculation for Expansion {
    ghost rule = { λ e free before after left t. IsReplyToExpansion free before after left t };

    ghost known = { λ e left t refusal. ⊥ };

    /// The face of the expanded tree takes the tree's place.
    fn run<B: Breaker>(
        &self,
        work: &mut Workspace,
        tree: Handle,
        watch: &mut Watch<B>,
    ) -> Evaluation {
        if !is_polynomial(&work.pool, tree.id()) {
            return Evaluation::Refused(Refusal::NotPolynomial);
        }
        match expand(&mut work.pool, tree, &mut work.lists, watch) {
            Ok(expansion) => match work.faces.face_of(&mut work.pool, expansion) {
                Ok(face) => Evaluation::Face(face),
                Err(full) => Evaluation::Refused(refused(full)),
            },
            Err(fault) => Evaluation::Refused(refusal_of(fault)),
        }
    }
}
