//! The monomials of terms, packed into 64 bits.
ghost use Rattle.std.specs.Prelude.{◌≡◌, ◌≤◌, ◌<◌, ◌*◌, ◌^◌, ◌-◌, IfOk, length};
ghost use Rattle.calc_terms.specs.Leaf.{name_of};
ghost use Rattle.expansions.specs.ExpansionRoom.{IsNamed};
ghost use Rattle.expansions.specs.Named.{AreNames, IsOfNames, named, names_of};
ghost use Rattle.expansions.specs.Polynomials.{Factor as FactorOf, Monomial};
ghost use Rattle.expand_forms.specs.Reading.{AreComing, IsTaken};
ghost use Rattle.expansions.specs.Terms.{HasMonomial};
ghost use Rattle.expand_forms.specs.Terms.{IsRead};
ghost use Rattle.polynomials.specs.Packed.{monomial_of};
ghost use Rattle.tree_handles.specs.Expressions.{IsExpression, plain};
ghost use Rattle.tree_handles.specs.Inside.{tree_at};
ghost use Rattle.tree_handles.specs.Standing.{Stands, forest};

use crate::factors::Factor;
use crate::unlisted::Unlisted;
use crate::walking::{factor_nodes, next_read};
use calc_terms::Name;
use node_pool::{Id, Pool};
use tree_handles::Nodes;

/// The packed monomial of a term whose names are among these. The exponent of the first name stands in the highest bits.
pub(crate) fn packed_monomial(pool: &Pool, term: Id, names: &[Name]) -> Result<u64, Unlisted>
    requires stands { Stands pool.now }
    requires expression { IsExpression term (forest pool.now) }
    requires names { AreNames (names_of names.now) }
    requires few { length names.now ≤ 8 }
    requires monomial { (m : Monomial) × HasMonomial m (plain (tree_at term (forest pool.now))) × IsNamed (names_of names.now) m }
    ensures monomial { (m : Monomial) → HasMonomial m (plain (tree_at term (forest pool.now))) → IsNamed (names_of names.now) m
        → IfOk result (λ k. named (names_of names.now) (monomial_of k) ≡ m) }
    ensures names { IfOk result (λ k. IsOfNames (names_of names.now) (monomial_of k)) }
{
    let mut nodes = factor_nodes(pool, term);
    let mut next = next_read(pool, &mut nodes);
    let mut packed: u64 = 0;
    for name in names {
        let exponent = take_exponent(pool, &mut nodes, &mut next, *name)?;
        packed = packed * 256 + u64::from(exponent);
    }
    Ok(shifted(packed, names.len()))
}

/// The exponents of so many names, with zeros behind them to those of eight.
fn shifted(packed: u64, names: usize) -> u64
    requires few { names ≤ 8 }
    requires fits { packed < 256 ^ names }
    ensures { result ≡ packed * 256 ^ (8 - names) }
{
    let mut shifted = packed;
    for place in names..8 {
        shifted *= 256;
    }
    shifted
}

/// The exponent of a name in a monomial, of which the next factor is read already and the others are ahead. It is 0 where the next
/// factor has another name.
#[inline(always)]
fn take_exponent(
    pool: &Pool,
    nodes: &mut Nodes<'_>,
    next: &mut Option<Factor>,
    name: Name,
) -> Result<u8, Unlisted>
    requires stands { Stands pool.now }
    requires coming { (m : Monomial) × AreComing m next.old nodes.old (forest pool.now) }
    ensures taken { (m : Monomial) → AreComing m next.old nodes.old (forest pool.now) → IfOk result (λ e. IsTaken m (name_of name) e next.new nodes.new (forest pool.now)) }
{
    match *next {
        None => Ok(0),
        Some(factor) => {
            if factor.name != name {
                return Ok(0);
            }
            let exponent = small_exponent(factor)?;
            *next = next_read(pool, nodes);
            Ok(exponent)
        }
    }
}

/// The exponent of a factor, where eight bits hold it.
fn small_exponent(factor: Factor) -> Result<u8, Unlisted>
    requires read { (f : FactorOf) × IsRead factor f }
    ensures value { (f : FactorOf) → IsRead factor f → IfOk result (λ e. e ≡ f.exponent) }
{
    let exponent = factor.exponent.num();
    if exponent > 255 {
        return Err(Unlisted::Exponents);
    }
    Ok(exponent as u8)
}
