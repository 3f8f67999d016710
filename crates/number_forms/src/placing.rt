//! Terms as trees.
ghost use Rattle.std.specs.Prelude.{◌≡◌, ◌↔◌, ◌≤◌, ◌<◌, ◌+◌, ◌*◌, ◌^◌, pos, true, IsTrue, IfOk, IfErr, IsOk, OnOk, Err, [], length};
ghost use Rattle.calc_terms.specs.Fractions.{whole_fraction};
ghost use Rattle.calc_algebra.specs.Numbers.{is_term, term_of as term_of_tree};
ghost use Rattle.calc_terms.specs.Rat.{value_of};
ghost use Rattle.calc_terms.specs.Trees.{num, root, mult, none, more, size};
ghost use Rattle.node_pool.specs.State.{free_of};
ghost use Rattle.number_forms.specs.Placed.{Adds};
ghost use Rattle.number_forms.specs.Shapes.{term_tree};
ghost use Rattle.number_forms.specs.Values.{number_tree, trees_of};
ghost use Rattle.number_forms.specs.Safety.{IsSafePlacing};
ghost use Rattle.tree_handles.specs.Building.{building};
ghost use Rattle.tree_handles.specs.Standing.{LacksBytes, Stands, forest, KeepsRefusals, Refuses};
ghost use Rattle.surd_terms.specs.Terms.{term_of};
ghost use Rattle.tree_handles.specs.Handed.{tree_of, Gives, KeepsFront};

use calc_terms::{Kind, Rat};
use node_pool::{Full, Pool};
use surd_terms::Term;
use tree_handles::{Handle, adopt, node, node_over, node_over_two, number};

/// A root of a whole number takes so many bytes at most.
const ROOT_BYTES: u32 = 48;

/// A rational takes so many bytes at most, and a sum without its terms fewer.
const NUMBER_BYTES: u32 = 40;

/// A term takes so many bytes at most.
pub(crate) const TERM_BYTES: u32 = 96;

/// A new last tree that is the term: a rational, a root, or a rational other than 1 times a root. It takes 96
/// bytes at most. Where fewer are free numbers are placed first, and a refusal names the first node that lacks bytes.
pub fn place_term(pool: &mut Pool, term: Term) -> Result<Handle, Full>
    requires stands { Stands pool.old }
    ensures ok { IfOk result (λ h. Gives (forest pool.old) (forest pool.new) h (λ t. (is_term t ≡ true) × (term_of_tree t ≡ term_of term))) }
    ensures tree { IfOk result (λ h. tree_of h pool.new ≡ term_tree (term_of term)) }
    ensures front { KeepsFront [] (forest pool.old) (forest pool.new) }
    ensures kept { OnOk result (KeepsRefusals pool.old pool.new) }
    ensures full { IfErr result (Refuses pool.old pool.new) }
    ensures caused { IfErr result (LacksBytes pool.new) }
    ensures room { 96 ≤ free_of pool.old → IsOk result }
    ensures exactly { IsOk result ↔ (size (term_tree (term_of term)) ≤ free_of pool.old) }
    ensures first_lack { IfErr result (λ full. building (free_of pool.old) (term_tree (term_of term)) ≡ Err full) }
    ensures stands { Stands pool.new }
{
    let coefficient = term.coefficient();
    if term.radicand() == 1 {
        number(pool, coefficient)
    } else if coefficient.is_one() {
        place_root(pool, term.radicand())
    } else {
        place_multiple(pool, coefficient, term.radicand())
    }
}

/// Whether there is room for the Number whose terms these are.
pub(crate) fn has_room(pool: &Pool, terms: &[Term]) -> bool
    requires stands { Stands pool.now }
    requires few { length terms.now ≤ 8 }
    ensures { IsTrue result ↔ (40 + 96 * length terms.now ≤ free_of pool.now) }
{
    NUMBER_BYTES + TERM_BYTES * terms.len() as u32 <= pool.free()
}

/// A new last tree: the Number whose terms these are.
pub(crate) fn place_terms(pool: &mut Pool, terms: &[Term]) -> Result<Handle, Full>
    requires stands { Stands pool.old }
    requires few { length terms.now ≤ 8 }
    ensures ok { IfOk result (λ h. Gives (forest pool.old) (forest pool.new) h (λ t. t ≡ number_tree terms.now)) }
    ensures room { IfErr result (λ full. free_of pool.old < 40 + 96 * length terms.now) }
    ensures safe { IsSafePlacing [] pool.old pool.new result }
{
    if terms.is_empty() {
        return number(pool, Rat::whole(0));
    }
    if terms.len() == 1 {
        return place_term(pool, terms[0]);
    }
    let sum = node(pool, Kind::Add)?;
    let placed = place_all(pool, terms)?;
    adopt(pool, &sum, placed);
    Ok(sum)
}

/// New last trees: terms. Tells how many.
fn place_all(pool: &mut Pool, terms: &[Term]) -> Result<u16, Full>
    requires stands { Stands pool.old }
    requires few { length terms.now ≤ 8 }
    ensures count { IfOk result (λ many. many ≡ length terms.now) }
    ensures ok { OnOk result (Adds (trees_of terms.now) (forest pool.old) (forest pool.new)) }
    ensures room { IfErr result (λ full. free_of pool.old < 96 * length terms.now) }
    ensures safe { IsSafePlacing [] pool.old pool.new result }
{
    let mut placed = 0u16;
    for term in terms {
        let _term = place_term(pool, *term)?;
        placed += 1;
    }
    Ok(placed)
}

/// A new last tree `Root(Num radicand)`.
fn place_root(pool: &mut Pool, radicand: u128) -> Result<Handle, Full>
    requires stands { Stands pool.old }
    requires fits { radicand < 2 ^ 127 }
    ensures ok { IfOk result (λ h. Gives (forest pool.old) (forest pool.new) h (λ t. t ≡ root (num (whole_fraction (pos radicand))))) }
    ensures first_lack { IfErr result (λ full. building (free_of pool.old) (root (num (whole_fraction (pos radicand)))) ≡ Err full) }
    ensures safe { IsSafePlacing [] pool.old pool.new result }
{
    if pool.free() >= ROOT_BYTES {
        return plant_root(pool, radicand);
    }
    let rational = number(pool, whole(radicand))?;
    node_over(pool, Kind::Root, rational)
}

/// The same, each node before those below it, so that nothing is moved.
fn plant_root(pool: &mut Pool, radicand: u128) -> Result<Handle, Full>
    requires stands { Stands pool.old }
    requires fits { radicand < 2 ^ 127 }
    ensures ok { IfOk result (λ h. Gives (forest pool.old) (forest pool.new) h (λ t. t ≡ root (num (whole_fraction (pos radicand))))) }
    ensures room { IfErr result (λ full. free_of pool.old < 48) }
    ensures safe { IsSafePlacing [] pool.old pool.new result }
{
    let root = node(pool, Kind::Root)?;
    let _radicand = number(pool, whole(radicand))?;
    adopt(pool, &root, 1);
    Ok(root)
}

/// A new last tree `Mult(Num coefficient, Root(Num radicand))`.
fn place_multiple(pool: &mut Pool, coefficient: Rat, radicand: u128) -> Result<Handle, Full>
    requires stands { Stands pool.old }
    requires fits { radicand < 2 ^ 127 }
    ensures ok { IfOk result (λ h. Gives (forest pool.old) (forest pool.new) h (λ t. t ≡ mult (more (num (value_of coefficient)) (more (root (num (whole_fraction (pos radicand)))) none)))) }
    ensures first_lack { IfErr result (λ full. building (free_of pool.old) (mult (more (num (value_of coefficient)) (more (root (num (whole_fraction (pos radicand)))) none))) ≡ Err full) }
    ensures safe { IsSafePlacing [] pool.old pool.new result }
{
    if pool.free() >= TERM_BYTES {
        return plant_multiple(pool, coefficient, radicand);
    }
    let rational = number(pool, coefficient)?;
    let root = place_root(pool, radicand)?;
    node_over_two(pool, Kind::Mult, rational, root)
}

/// The same, each node before those below it, so that nothing is moved.
fn plant_multiple(pool: &mut Pool, coefficient: Rat, radicand: u128) -> Result<Handle, Full>
    requires stands { Stands pool.old }
    requires fits { radicand < 2 ^ 127 }
    ensures ok { IfOk result (λ h. Gives (forest pool.old) (forest pool.new) h (λ t. t ≡ mult (more (num (value_of coefficient)) (more (root (num (whole_fraction (pos radicand)))) none)))) }
    ensures room { IfErr result (λ full. free_of pool.old < 96) }
    ensures safe { IsSafePlacing [] pool.old pool.new result }
{
    let product = node(pool, Kind::Mult)?;
    let _coefficient = number(pool, coefficient)?;
    let _root = plant_root(pool, radicand)?;
    adopt(pool, &product, 2);
    Ok(product)
}

/// The whole number n.
fn whole(n: u128) -> Rat
    requires { n < 2 ^ 127 }
    ensures { value_of result ≡ whole_fraction (pos n) }
{
    Rat::whole(n as i128)
}
