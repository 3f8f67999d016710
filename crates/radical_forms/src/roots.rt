//! The root of a reduced tree.
ghost use Rattle.std.specs.Prelude.{ℕ, List, ◌≡◌, ◌↔◌, ◌<◌, ◌≤◌, ◌<ℤ◌, ◌+◌, ◌*◌, pos, true, IfOk, IfErr, OnOk, [], ◌∷◌, false};
ghost use Rattle.calc_terms.specs.Fractions.{Fraction};
ghost use Rattle.calc_terms.specs.Rat.{value_of};
ghost use Rattle.calc_algebra.specs.Numbers.{natural_of, value};
ghost use Rattle.calc_algebra.specs.Reduced.{is_reduced};
ghost use Rattle.calc_room.specs.Spans.{SpansTree};
ghost use Rattle.calc_terms.specs.Integers.{int_is_negative};
ghost use Rattle.calc_bits.specs.Bounds.{HasFewBits};
ghost use Rattle.calc_terms.specs.Trees.{num, root as root_tree_of, is_root, is_num, size};
ghost use Rattle.node_pool.specs.State.{free_of};
ghost use Rattle.tree_handles.specs.Lacking.{OfFull};
ghost use Rattle.radical_forms.specs.Refusals.{HasWideRoot, LacksRoot, NamesProduct, IsOverflow, IsFull};
ghost use Rattle.radical_forms.specs.RootAnswers.{argument_of, IfRational, IsRootAnswer};
ghost use Rattle.surd_bits.specs.Rooted.{IsNoLargerThanRoot};
ghost use Rattle.tree_handles.specs.Causes.{IsCaused};
ghost use Rattle.tree_handles.specs.Handed.{tree_of, IsHanded, Gives, KeepsFront};
ghost use Rattle.tree_handles.specs.Faults.{Faults, IfOverflow, OfOverflow};
ghost use Rattle.tree_handles.specs.Roots.{without_root};
ghost use Rattle.tree_handles.specs.Standing.{Stands, forest, KeepsRefusals};

use calc_terms::{Kind, Rat};
use node_pool::Pool;
use number_forms::place_term;
use surd_terms::square_root;
use tree_handles::{
    Handle, NumberFault, child_id, kind, move_last, number, rational, release, undefined,
};

/// The root of a reduced tree: of a rational it is a Number, or Undef below 0; the root of Undef is Undef, and
/// any other is kept. The bytes of the handed tree are free again before the answer is placed.
pub fn reduce_root(pool: &mut Pool, root: Handle) -> Result<Handle, NumberFault>
    requires stands { Stands pool.old }
    requires handed { IsHanded root (forest pool.old) }
    requires root { is_root (tree_of root pool.old) ≡ true }
    requires reduced { is_reduced (argument_of (tree_of root pool.old)) ≡ true }

    ensures ok { IfOk result (λ h. Gives (without_root root (forest pool.old)) (forest pool.new) h (IsRootAnswer (argument_of (tree_of root pool.old)))) }

    // It overflows exactly where the argument is a rational p/q above 0 and p * q does not fit.
    ensures overflows { IsOverflow result ↔ HasWideRoot (argument_of (tree_of root pool.old)) }
    ensures named { IfOverflow result (NamesProduct (argument_of (tree_of root pool.old))) }

    // The root of a rational is no larger than the rational.
    ensures measured { IfRational (argument_of (tree_of root pool.old)) (λ q. int_is_negative q.num ≡ false → IfOk result (λ h. IsNoLargerThanRoot q (value (tree_of h pool.new)))) }
    ensures bits { HasFewBits (value (argument_of (tree_of root pool.old))) → IfErr result (OfOverflow (λ o. ⊥)) }

    // The answer has room in the free bytes and those of the handed tree. Bytes are lacking exactly where it has
    // none: for a rational argument at most, and only where fewer than 96 are free.
    ensures room { IfOk result (λ h. size (tree_of h pool.new) ≤ free_of pool.old + size (tree_of root pool.old)) }
    ensures first_lack { IfErr result (OfFull (LacksRoot (argument_of (tree_of root pool.old)) (free_of pool.old + size (tree_of root pool.old)))) }
    ensures full_of_a_rational { IsFull result → is_num (argument_of (tree_of root pool.old)) ≡ true }
    ensures full_below_96_bytes { IsFull result → free_of pool.old < 96 }

    ensures front { KeepsFront (root ∷ []) (forest pool.old) (forest pool.new) }
    ensures kept { OnOk result (KeepsRefusals pool.old pool.new) }
    ensures faults { IfErr result (Faults pool.old pool.new) }
    ensures caused { IfErr result (IsCaused pool.new) }

    // What spans the root spans the answer; for a rational p/q above 0, p * q does.
    ensures spanned { (gs : List ℕ) → SpansTree gs (tree_of root pool.old) → IfOk result (λ h. SpansTree gs (tree_of h pool.new)) }
    ensures spanned_alone { (q : Fraction) → argument_of (tree_of root pool.old) ≡ num q → pos 0 <ℤ q.num → IfOk result (λ h. SpansTree (natural_of q.num * q.den ∷ []) (tree_of h pool.new)) }

    ensures stands { Stands pool.new }
{
    let argument = child_id(pool, root.id(), 0);
    match kind(pool, argument) {
        Kind::Num => {
            let q = rational(pool, argument);
            root_of_rational(pool, root, q)
        }
        Kind::Undef => Ok(undefined(pool, root)),
        _ => {
            move_last(pool, &root);
            Ok(root)
        }
    }
}

/// The root of q, which stands under the root.
fn root_of_rational(pool: &mut Pool, root: Handle, q: Rat) -> Result<Handle, NumberFault>
    requires stands { Stands pool.old }
    requires handed { IsHanded root (forest pool.old) }
    requires root { tree_of root pool.old ≡ root_tree_of (num (value_of q)) }
    ensures ok { IfOk result (λ h. Gives (without_root root (forest pool.old)) (forest pool.new) h (IsRootAnswer (num (value_of q)))) }
    ensures overflows { IsOverflow result ↔ HasWideRoot (num (value_of q)) }
    ensures named { IfOverflow result (NamesProduct (num (value_of q))) }
    ensures measured { int_is_negative (value_of q).num ≡ false → IfOk result (λ h. IsNoLargerThanRoot (value_of q) (value (tree_of h pool.new))) }
    ensures room { IfOk result (λ h. size (tree_of h pool.new) ≤ free_of pool.old + size (tree_of root pool.old)) }
    ensures first_lack { IfErr result (OfFull (LacksRoot (num (value_of q)) (free_of pool.old + size (tree_of root pool.old)))) }
    ensures full_below_96_bytes { IsFull result → free_of pool.old < 96 }
    ensures front { KeepsFront (root ∷ []) (forest pool.old) (forest pool.new) }
    ensures kept { OnOk result (KeepsRefusals pool.old pool.new) }
    ensures faults { IfErr result (Faults pool.old pool.new) }
    ensures caused { IfErr result (IsCaused pool.new) }
    ensures stands { Stands pool.new }
{
    if q.num() < 0 {
        return Ok(undefined(pool, root));
    }
    if q.num() == 0 {
        release(pool, root);
        let zero = number(pool, q)?;
        return Ok(zero);
    }
    let term = square_root(q)?;
    release(pool, root);
    let value = place_term(pool, term)?;
    Ok(value)
}
