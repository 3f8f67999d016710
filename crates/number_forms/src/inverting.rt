//! Inverses of Numbers.
ghost use Rattle.std.specs.Prelude.{ℕ, List, ◌≡◌, ◌↔◌, ◌≤◌, ◌+◌, ◌∷◌, [], true, Err, IfOk, IfErr, IsOk, OnOk};
ghost use Rattle.calc_terms.specs.Fractions.{Fraction};
ghost use Rattle.calc_room.specs.Needs.{inverse_need};
ghost use Rattle.calc_room.specs.Spans.{SpansTree};
ghost use Rattle.calc_terms.specs.Trees.{num, size};
ghost use Rattle.calc_algebra.specs.Numbers.{is_number, value, classes};
ghost use Rattle.calc_bits.specs.Bounds.{HasFewBits};
ghost use Rattle.node_pool.specs.State.{free_of};
ghost use Rattle.number_forms.specs.Inverses.{AnswersInverse, HasInverse, IfValue, IsInverseOf, LacksInverse, tree_of_terms};
ghost use Rattle.tree_handles.specs.Lacking.{OfFull};
ghost use Rattle.number_forms.specs.Overflows.{InverseOverflows, inverting_calculations};
ghost use Rattle.number_forms.specs.Rooms.{LacksRoom, SpansInverse};
ghost use Rattle.number_forms.specs.Shapes.{sum_of_terms};
ghost use Rattle.number_forms.specs.Safety.{IsSafePlacing};
ghost use Rattle.tree_handles.specs.Building.{building};
ghost use Rattle.tree_handles.specs.Causes.{IsCaused, OnlyLacksLongForm, Overflows};
ghost use Rattle.tree_handles.specs.Handed.{tree_of, IsHanded, Gives, KeepsFront};
ghost use Rattle.surd_bits.specs.Inverted.{IsNoLargerThanInverse};
ghost use Rattle.surd_terms.specs.Calculations.{first_misfit, misfit_of};
ghost use Rattle.surd_terms.specs.Terms.{term_of};
ghost use Rattle.tree_handles.specs.Faults.{Faults, OfOverflow};
ghost use Rattle.tree_handles.specs.Standing.{Stands, forest, KeepsRefusals};

use crate::placing::place_term;
use crate::roots;
use calc_terms::Kind;
use node_pool::{Full, Pool};
use rational128::Overflow;
use surd_terms::{Term, inverse, inverse_of_sum};
use tree_handles::{Handle, NumberFault, node_over_two, release};

/// What inverting a Number comes to.
#[derive(Drop)]
pub enum Inverse {
    /// The inverse.
    Value(Handle),
    /// The Number was 0.
    Zero,
    /// The Number itself, which has three classes or more.
    Wide(Handle),
}

/// The terms of an inverse, whose radicands rise.
#[derive(Clone, Copy)]
enum Terms {
    One(Term),
    Two(Term, Term),
}

/// The inverse of a Number of one class or two, by the conjugate. The Number is consumed, but for three
/// classes or more: its bytes are free again before the inverse is placed.
pub fn invert_number(pool: &mut Pool, a: Handle) -> Result<Inverse, NumberFault>
    requires stands { Stands pool.old }
    requires handed { IsHanded a (forest pool.old) }
    requires number { is_number (tree_of a pool.old) ≡ true }
    ensures ok { IfOk result (AnswersInverse a (tree_of a pool.old) (forest pool.old) (forest pool.new)) }
    ensures front { KeepsFront (a ∷ []) (forest pool.old) (forest pool.new) }
    ensures kept { OnOk result (KeepsRefusals pool.old pool.new) }
    ensures faults { IfErr result (Faults pool.old pool.new) }
    ensures rational { (q : Fraction) → tree_of a pool.old ≡ num q → IfErr result OnlyLacksLongForm }
    ensures exactly { IsOk result ↔ HasInverse (value (tree_of a pool.old)) (free_of pool.old + size (tree_of a pool.old)) }
    ensures overflow { IfErr result (OfOverflow (InverseOverflows (value (tree_of a pool.old)))) }
    ensures measured { IfOk result (λ i. IfValue i (λ h. IsNoLargerThanInverse (value (tree_of a pool.old)) (value (tree_of h pool.new)))) }
    ensures bits { HasFewBits (value (tree_of a pool.old)) → IfErr result (OfOverflow (λ o. ⊥)) }
    ensures first_lack { IfErr result (OfFull (LacksInverse (value (tree_of a pool.old)) (free_of pool.old + size (tree_of a pool.old)))) }
    ensures caused { IfErr result (IsCaused pool.new) }
    ensures room { (gs : List ℕ) → IfErr result (LacksRoom inverse_need (free_of pool.old + size (tree_of a pool.old)) gs) }
    ensures spanned { (gs : List ℕ) → SpansTree gs (tree_of a pool.old) → IfOk result (SpansInverse gs pool.new) }
    ensures stands { Stands pool.new }
{
    let terms = roots::term_count(pool, &a);
    if terms == 0 {
        release(pool, a);
        return Ok(Inverse::Zero);
    }
    if terms > 2 {
        return Ok(Inverse::Wide(a));
    }
    let inverse = inverse_terms(pool, &a, terms)?;
    release(pool, a);
    let placed = place_inverse(pool, inverse)?;
    Ok(Inverse::Value(placed))
}

/// The terms of the inverse of a Number of one class or two.
fn inverse_terms(pool: &Pool, a: &Handle, terms: u16) -> Result<Terms, Overflow>
    requires stands { Stands pool.now }
    requires handed { IsHanded a.now (forest pool.now) }
    requires number { is_number (tree_of a.now pool.now) ≡ true }
    requires classes { terms ≡ classes (tree_of a.now pool.now) }
    requires some { 1 ≤ terms }
    requires few { terms ≤ 2 }
    ensures ok { IfOk result (λ t. IsInverseOf (value (tree_of a.now pool.now)) (tree_of_terms t)) }
    ensures overflow { misfit_of result ≡ first_misfit (inverting_calculations (value (tree_of a.now pool.now))) }
    ensures rational { (q : Fraction) → tree_of a.now pool.now ≡ num q → IsOk result }
    ensures caused { IfErr result Overflows }
{
    let first = roots::nth_term(pool, a, 0);
    if terms == 1 {
        let one = inverse(first)?;
        return Ok(Terms::One(one));
    }
    let second = roots::nth_term(pool, a, 1);
    let inverse = inverse_of_sum(first, second)?;
    Ok(Terms::Two(inverse.0, inverse.1))
}

/// A new last tree: the Number whose terms these are.
fn place_inverse(pool: &mut Pool, terms: Terms) -> Result<Handle, Full>
    requires stands { Stands pool.old }
    ensures ok { IfOk result (λ h. Gives (forest pool.old) (forest pool.new) h (λ t. t ≡ tree_of_terms terms)) }
    ensures first_lack { IfErr result (λ full. building (free_of pool.old) (tree_of_terms terms) ≡ Err full) }
    ensures safe { IsSafePlacing [] pool.old pool.new result }
{
    match terms {
        Terms::One(term) => place_term(pool, term),
        Terms::Two(a, b) => place_sum(pool, a, b),
    }
}

/// A new last tree that is the sum of two terms.
fn place_sum(pool: &mut Pool, a: Term, b: Term) -> Result<Handle, Full>
    requires stands { Stands pool.old }
    ensures ok { IfOk result (λ h. Gives (forest pool.old) (forest pool.new) h (λ t. t ≡ sum_of_terms (term_of a) (term_of b))) }
    ensures first_lack { IfErr result (λ full. building (free_of pool.old) (sum_of_terms (term_of a) (term_of b)) ≡ Err full) }
    ensures safe { IsSafePlacing [] pool.old pool.new result }
{
    let first = place_term(pool, a)?;
    let second = place_term(pool, b)?;
    node_over_two(pool, Kind::Add, first, second)
}
