//! Decimals and signs of trees.
ghost use Rattle.std.specs.Prelude.{◌≡◌, ◌≤◌, ◌+◌, ◌↔◌, ⊤, ℕ, [], ◌∷◌, true, Err, IfOk, IfErr, OnOk};
ghost use Rattle.breakers.specs.Breakers.{CalmChecks, TripsRose};
ghost use Rattle.breakers.specs.Watch.{states};
ghost use Rattle.calc_algebra.specs.Numbers.{is_number};
ghost use Rattle.calc_terms.specs.Trees.{nodes, size};
ghost use Rattle.node_pool.specs.State.{free_of};
ghost use Rattle.tree_handles.specs.Handed.{tree_of, Gives, KeepsFront};
ghost use Rattle.tree_handles.specs.Roots.{without_root};
ghost use Rattle.tree_handles.specs.Standing.{Stands, forest, KeepsRefusals};
ghost use Rattle.calc_session.specs.Answers.{CountsRefusal, refusal_of_evaluation};
ghost use Rattle.calc_session.specs.Estimating.{IsReplyToDecimal, IsReplyToSign};
ghost use Rattle.calc_session.specs.Evaluations.{IsAnswerTo};
ghost use Rattle.calc_session.specs.Findings.{finding_text};
ghost use Rattle.calc_session.specs.Lacking.{LacksNumber};

use crate::Refusal;
use crate::calculating::Calculation;
use crate::evaluating::{Evaluation, reduce_tree};
use crate::parts::Workspace;
use breakers::{Breaker, Watch};
use calc_terms::Kind;
use decimals::{Decimal, Sign, decimal_of, sign_of, write_decimal};
use line_text::Text;
use node_pool::Pool;
use number_forms::is_reduced_number;
use reduce_port::Reducer;
use tree_handles::{Handle, kind};

/// What is found of a Number.
#[derive(Clone, Copy)]
pub enum Finding {
    Decimal(Decimal),
    Sign(Sign),
}

/// The decimal of the Number that a tree is reduced to, with at most so many places.
#[derive(Drop)]
pub struct DecimalPlaces<'a, R> {
    pub places: u32,
    pub reducer: &'a R,
    ghost few: { places ≤ 38 },
}

impl<R: Reducer> Calculation for DecimalPlaces<'_, R> {
    ghost rule = { λ d free before after left t. IsReplyToDecimal R.room R.bits d.places free before after left t };

    ghost known = { λ d left t refusal. ⊥ };

    fn run<B: Breaker>(
        &self,
        work: &mut Workspace,
        tree: Handle,
        watch: &mut Watch<B>,
    ) -> Evaluation {
        match reduce_to_number(&mut work.pool, tree, self.reducer, watch) {
            Ok(number) => match decimal_of(&work.pool, number.id(), self.places) {
                Some(decimal) => Evaluation::Found(Finding::Decimal(decimal)),
                None => Evaluation::Refused(Refusal::Undecided),
            },
            Err(evaluation) => evaluation,
        }
    }
}

/// The sign of the Number that a tree is reduced to.
#[derive(Drop)]
pub struct NumberSign<'a, R> {
    pub reducer: &'a R,
}

impl<R: Reducer> Calculation for NumberSign<'_, R> {
    ghost rule = { λ d free before after left t. IsReplyToSign R.room R.bits free before after left t };

    ghost known = { λ d left t refusal. ⊥ };

    fn run<B: Breaker>(
        &self,
        work: &mut Workspace,
        tree: Handle,
        watch: &mut Watch<B>,
    ) -> Evaluation {
        match reduce_to_number(&mut work.pool, tree, self.reducer, watch) {
            Ok(number) => match sign_of(&work.pool, number.id()) {
                Some(sign) => Evaluation::Found(Finding::Sign(sign)),
                None => Evaluation::Refused(Refusal::Undecided),
            },
            Err(evaluation) => evaluation,
        }
    }
}

/// The Number that the last tree is reduced to, in its place. There is none where the reduction is refused, and where the tree
/// is reduced to Undef or to what is no Number.
fn reduce_to_number<R: Reducer, B: Breaker>(
    pool: &mut Pool,
    tree: Handle,
    reducer: &R,
    watch: &mut Watch<B>,
) -> Result<Handle, Evaluation>
    requires stands { Stands pool.old }
    requires last { Gives (without_root tree (forest pool.old)) (forest pool.old) tree (λ t. ⊤) }
    ensures number { let t = tree_of tree pool.old in IfOk result (λ number.
        Gives (without_root tree (forest pool.old)) (forest pool.new) number (λ u. IsAnswerTo (free_of pool.old + size t) t u × (is_number u ≡ true))) }
    ensures calm { OnOk result (CalmChecks (nodes (tree_of tree pool.old)) (states B.state watch.old) (states B.state watch.new)) }
    ensures none { let t = tree_of tree pool.old in IfErr result (LacksNumber R.room R.bits (free_of pool.old + size t) t (states B.state watch.old) (states B.state watch.new)) }
    ensures interrupted { (place : ℕ) → (result ≡ Err (Evaluation.Refused (Refusal.Interrupted place))) ↔ TripsRose (states B.state watch.old) (states B.state watch.new) place }
    ensures kept { OnOk result (KeepsRefusals pool.old pool.new) }
    ensures counted { IfErr result (λ evaluation. CountsRefusal (refusal_of_evaluation evaluation) pool.old pool.new) }
    ensures front { KeepsFront (tree ∷ []) (forest pool.old) (forest pool.new) }
    ensures stands { Stands pool.new }
{
    match reduce_tree(pool, tree, reducer, watch) {
        Ok(answer) => {
            let id = answer.id();
            match kind(pool, id) {
                Kind::Undef => Err(Evaluation::Undefined),
                _ => {
                    if is_reduced_number(pool, id) {
                        Ok(answer)
                    } else {
                        Err(Evaluation::Refused(Refusal::NoDecimal))
                    }
                }
            }
        }
        Err(refusal) => Err(Evaluation::Refused(refusal)),
    }
}

/// Writes what is found: at most 128 bytes.
pub fn write_finding(finding: &Finding, text: &mut Text)
    requires empty { text.old.bytes ≡ [] }
    requires room { 256 ≤ text.old.capacity }
    ensures text { text.new.bytes ≡ finding_text finding.now }
    ensures capacity { text.new.capacity ≡ text.old.capacity }
{
    match finding {
        Finding::Decimal(decimal) => write_decimal(decimal, text),
        Finding::Sign(Sign::Positive) => text.push(b"positive"),
        Finding::Sign(Sign::Negative) => text.push(b"negative"),
        Finding::Sign(Sign::Zero) => text.push(b"zero"),
    }
}
