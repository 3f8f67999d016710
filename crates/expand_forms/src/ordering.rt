//! The order of monomials, and the place of one in a sum.
ghost use Rattle.std.specs.Prelude.{◌≡◌, ◌<◌, ◌≤◌, true, IfOk, IfErr};
ghost use Rattle.std.specs.declared.cmp.Ordering.TheVariants.{Equal};
ghost use Rattle.calc_terms.specs.Trees.{Tree, count, is_mult};
ghost use Rattle.child_lists.specs.Lists.{Lists};
ghost use Rattle.expansions.specs.ExpandedTrees.{monomial_cmp};
ghost use Rattle.expansions.specs.Polynomials.{Monomial};
ghost use Rattle.expand_forms.specs.Sums.{IsPlace};
ghost use Rattle.expansions.specs.Sums.{IsSum};
ghost use Rattle.expansions.specs.Terms.{HasMonomial, term_cmp};
ghost use Rattle.expand_forms.specs.Terms.{IsMonomialKey};
ghost use Rattle.tree_handles.specs.Expressions.{IsExpression, children_of, nth, plain};
ghost use Rattle.tree_handles.specs.Inside.{tree_at};
ghost use Rattle.tree_handles.specs.Standing.{Stands, forest};

use crate::factors::first_factor;
use calc_terms::Kind;
use child_lists::ChildList;
use node_order::{Key, compare_keys};
use node_pool::{Id, Pool};
use std::cmp::Ordering;
use tree_handles::{child_id, children, kind};

/// The key of the monomial of a term, or of a product of any number of factors.
fn monomial_key(pool: &Pool, term: Id) -> Option<Key>
    requires stands { Stands pool.now }
    requires expression { IsExpression term (forest pool.now) }
    ensures { (m : Monomial) → HasMonomial m (plain (tree_at term (forest pool.now))) → IsMonomialKey m (forest pool.now) result }
{
    match kind(pool, term) {
        Kind::Num => None,
        Kind::Mult => product_key(pool, term),
        _ => Some(Key {
            id: term,
            behind: 0,
        }),
    }
}

/// The same of a product.
fn product_key(pool: &Pool, product: Id) -> Option<Key>
    requires stands { Stands pool.now }
    requires expression { IsExpression product (forest pool.now) }
    requires product { is_mult (plain (tree_at product (forest pool.now))) ≡ true }
    ensures { (m : Monomial) → HasMonomial m (plain (tree_at product (forest pool.now))) → IsMonomialKey m (forest pool.now) result }
{
    let behind = first_factor(pool, product);
    let factors = children(pool, product) - behind;
    if factors == 0 {
        return None;
    }
    if factors == 1 {
        let id = child_id(pool, product, behind);
        return Some(Key { id, behind: 0 });
    }
    Some(Key {
        id: product,
        behind,
    })
}

/// The order of two monomials.
#[tactic(auto, using(crate::proofs::TermKeys::one_last, crate::proofs::TermKeys::one_first))]
fn compare_monomials(pool: &Pool, a: &Option<Key>, b: &Option<Key>) -> Ordering
    requires stands { Stands pool.now }
    requires first { (m : Monomial) × IsMonomialKey m (forest pool.now) a.now }
    requires second { (n : Monomial) × IsMonomialKey n (forest pool.now) b.now }
    ensures { (m n : Monomial) → IsMonomialKey m (forest pool.now) a.now → IsMonomialKey n (forest pool.now) b.now → result ≡ monomial_cmp m n }
{
    match (a, b) {
        (Some(left), Some(right)) => compare_keys(pool, *left, *right),
        (Some(_), None) => Ordering::Greater,
        (None, Some(_)) => Ordering::Less,
        (None, None) => Ordering::Equal,
    }
}

/// Where a sum has a term with the monomial of a product, or else the place for one.
pub(crate) fn place_of<const N: usize>(
    pool: &Pool,
    sum: Id,
    list: &ChildList<N>,
    product: Id,
) -> Result<u16, u16>
    requires stands { Stands pool.now }
    requires expression { IsExpression sum (forest pool.now) }
    requires sum { IsSum (plain (tree_at sum (forest pool.now))) }
    requires lists { Lists list.now sum (forest pool.now) }
    requires product { IsExpression product (forest pool.now) }
    requires monomial { (m : Monomial) × HasMonomial m (plain (tree_at product (forest pool.now))) }
    ensures found { let ts = children_of (plain (tree_at sum (forest pool.now))) in
        (m : Monomial) (t : Tree) → HasMonomial m (plain (tree_at product (forest pool.now))) → HasMonomial m t → IfOk result (λ at. (at < count ts) × (term_cmp (nth at ts) t ≡ Equal)) }
    ensures place { (m : Monomial) (t : Tree) → HasMonomial m (plain (tree_at product (forest pool.now))) → HasMonomial m t
        → IfErr result (λ at. IsPlace at t (children_of (plain (tree_at sum (forest pool.now))))) }
{
    let key = monomial_key(pool, product);
    let mut low = 0;
    let mut high = children(pool, sum);
    while low < high {
        let at = middle(low, high);
        let other = monomial_key(pool, list.child(pool, sum, at));
        match compare_monomials(pool, &other, &key) {
            Ordering::Less => low = at + 1,
            Ordering::Equal => return Ok(at),
            Ordering::Greater => high = at,
        }
    }
    Err(low)
}

/// The place in the middle between two.
fn middle(low: u16, high: u16) -> u16
    requires { low < high }
    ensures from { low ≤ result }
    ensures below { result < high }
{
    low + (high - low) / 2
}
