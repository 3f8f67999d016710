//! A coefficient is put back before a part.
ghost use Rattle.std.specs.Prelude.{◌≡◌, ◌==◌, ◌+◌, ℕ, List, IfOk, IfErr, OnOk, [], ◌∷◌, true, false};
ghost use Rattle.calc_terms.specs.Fractions.{is_one_fraction, is_zero_fraction};
ghost use Rattle.calc_terms.specs.Rat.{value_of};
ghost use Rattle.calc_algebra.specs.Numbers.{is_number};
ghost use Rattle.calc_algebra.specs.Reduced.{is_reduced};
ghost use Rattle.calc_room.specs.Counts.{counted};
ghost use Rattle.calc_room.specs.Spans.{SpansTree};
ghost use Rattle.calc_terms.specs.Trees.{num, size};
ghost use Rattle.coefficients.specs.Coefficients.{rational_before, with_coefficient};
ghost use Rattle.coefficients.specs.Overflows.{NamesPut};
ghost use Rattle.coefficients.specs.Rooms.{LacksRoom};
ghost use Rattle.node_pool.specs.State.{free_of};
ghost use Rattle.tree_handles.specs.Causes.{IsCaused};
ghost use Rattle.tree_handles.specs.Handed.{tree_of, IsHanded, Gives, KeepsFront};
ghost use Rattle.tree_handles.specs.Faults.{Faults, OfOverflow};
ghost use Rattle.tree_handles.specs.Roots.{without_root};
ghost use Rattle.tree_handles.specs.Standing.{Stands, forest, KeepsRefusals};

use crate::multiples::{distribute, put_before};
use crate::splicing::splice;
use calc_terms::{Kind, Rat};
use node_pool::Pool;
use tree_handles::{Handle, NumberFault, kind, move_last, number, rational, release};

/// A coefficient times a reduced part, as it is written: zero is the answer itself, 1 is not
/// written, another rational is multiplied into each term of a sum, and any other coefficient is spliced
/// before the factors.
pub fn put_coefficient(
    pool: &mut Pool,
    coefficient: Handle,
    part: Handle,
) -> Result<Handle, NumberFault>
    requires stands { Stands pool.old }
    requires first { IsHanded coefficient (forest pool.old) }
    requires second { IsHanded part (forest pool.old) }
    requires apart { (coefficient == part) ≡ false }
    requires reduced { is_reduced (tree_of part pool.old) ≡ true }
    ensures ok { IfOk result (λ h. Gives (without_root coefficient (without_root part (forest pool.old))) (forest pool.new) h (λ t. t ≡ with_coefficient (tree_of coefficient pool.old) (tree_of part pool.old))) }
    ensures front { KeepsFront (coefficient ∷ part ∷ []) (forest pool.old) (forest pool.new) }
    ensures kept { OnOk result (KeepsRefusals pool.old pool.new) }
    ensures faults { IfErr result (Faults pool.old pool.new) }
    ensures caused { IfErr result (IsCaused pool.new) }
    ensures named { IfErr result (OfOverflow (NamesPut (tree_of coefficient pool.old) (tree_of part pool.old))) }
    ensures room { (gs : List ℕ) → is_number (tree_of coefficient pool.old) ≡ true → SpansTree gs (tree_of coefficient pool.old) → SpansTree gs (tree_of part pool.old)
        → IfErr result (LacksRoom (counted (tree_of part pool.old)) (free_of pool.old + size (tree_of coefficient pool.old) + size (tree_of part pool.old)) gs) }
    ensures stands { Stands pool.new }
{
    match kind(pool, coefficient.id()) {
        Kind::Num => {
            let q = rational(pool, coefficient.id());
            release(pool, coefficient);
            put_rational(pool, q, part)
        }
        _ => Ok(splice(pool, coefficient, part)?),
    }
}

/// A rational times a reduced part, as it is written.
fn put_rational(pool: &mut Pool, q: Rat, part: Handle) -> Result<Handle, NumberFault>
    requires stands { Stands pool.old }
    requires handed { IsHanded part (forest pool.old) }
    requires reduced { is_reduced (tree_of part pool.old) ≡ true }
    ensures ok { IfOk result (λ h. Gives (without_root part (forest pool.old)) (forest pool.new) h (λ t. t ≡ with_coefficient (num (value_of q)) (tree_of part pool.old))) }
    ensures front { KeepsFront (part ∷ []) (forest pool.old) (forest pool.new) }
    ensures kept { OnOk result (KeepsRefusals pool.old pool.new) }
    ensures faults { IfErr result (Faults pool.old pool.new) }
    ensures caused { IfErr result (IsCaused pool.new) }
    ensures named { IfErr result (OfOverflow (NamesPut (num (value_of q)) (tree_of part pool.old))) }
    ensures room { (gs : List ℕ) → SpansTree gs (tree_of part pool.old)
        → IfErr result (LacksRoom (counted (tree_of part pool.old)) (free_of pool.old + size (tree_of part pool.old)) gs) }
    ensures stands { Stands pool.new }
{
    if q.is_zero() {
        release(pool, part);
        return Ok(number(pool, Rat::whole(0))?);
    }
    if q.is_one() {
        move_last(pool, &part);
        return Ok(part);
    }
    put_other_rational(pool, q, part)
}

/// A rational, neither 0 nor 1, before a reduced part.
fn put_other_rational(pool: &mut Pool, q: Rat, part: Handle) -> Result<Handle, NumberFault>
    requires stands { Stands pool.old }
    requires handed { IsHanded part (forest pool.old) }
    requires reduced { is_reduced (tree_of part pool.old) ≡ true }
    ensures ok { IfOk result (λ h. Gives (without_root part (forest pool.old)) (forest pool.new) h (λ t. t ≡ rational_before (value_of q) (tree_of part pool.old))) }
    ensures front { KeepsFront (part ∷ []) (forest pool.old) (forest pool.new) }
    ensures kept { OnOk result (KeepsRefusals pool.old pool.new) }
    ensures faults { IfErr result (Faults pool.old pool.new) }
    ensures caused { IfErr result (IsCaused pool.new) }
    ensures named { IfErr result (OfOverflow (NamesPut (num (value_of q)) (tree_of part pool.old))) }
    ensures room { (gs : List ℕ) → is_zero_fraction (value_of q) ≡ false → is_one_fraction (value_of q) ≡ false → SpansTree gs (tree_of part pool.old)
        → IfErr result (LacksRoom (counted (tree_of part pool.old)) (free_of pool.old + size (tree_of part pool.old)) gs) }
    ensures stands { Stands pool.new }
{
    match kind(pool, part.id()) {
        Kind::Add => distribute(pool, q, part),
        _ => Ok(put_before(pool, q, part)?),
    }
}
