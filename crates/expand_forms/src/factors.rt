//! The coefficient and the factors of a term.
ghost use Rattle.std.specs.Prelude.{◌≡◌, ◌≤◌, ◌<◌, drop, true};
ghost use Rattle.calc_terms.specs.Rat.{value_of};
ghost use Rattle.calc_terms.specs.Trees.{count, is_mult, power, symbol, whole_num};
ghost use Rattle.expansions.specs.ExpandedTrees.{factor_tree};
ghost use Rattle.expand_forms.specs.Merging.{AreFactors, BeginsWith};
ghost use Rattle.expansions.specs.Polynomials.{Factor as FactorOf, Monomial};
ghost use Rattle.expansions.specs.Terms.{HasMonomial, coefficient_in, factors_in, first_place};
ghost use Rattle.expand_forms.specs.Terms.{IsRead};
ghost use Rattle.tree_handles.specs.Expressions.{IsExpression, children_of, nth, plain};
ghost use Rattle.tree_handles.specs.Inside.{tree_at};
ghost use Rattle.tree_handles.specs.Standing.{Stands, forest};

use arrayvec::ArrayVec;
use calc_terms::{Kind, Name, Rat};
use child_lists::{ChildList, FEW};
use node_pool::{Id, Pool};
use tree_handles::{child_id, children, kind, name, rational};

/// A name and its exponent, which is a whole number of at least 1.
#[derive(Clone, Copy)]
pub(crate) struct Factor {
    pub name: Name,
    pub exponent: Rat,
}

impl Default for Factor {
    fn default() -> Factor {
        Factor {
            name: Name::ans(),
            exponent: Rat::whole(1),
        }
    }
}

/// So many factors are listed at most.
const LISTED: usize = 8;

/// The factors of a monomial, in the order of their names.
pub(crate) type FactorList = ArrayVec<Factor, LISTED>;

/// The place of a product's first factor among its children: behind the coefficient, where there is one.
pub(crate) fn first_factor(pool: &Pool, product: Id) -> u16
    requires stands { Stands pool.now }
    requires expression { IsExpression product (forest pool.now) }
    ensures value { result ≡ first_place (children_of (plain (tree_at product (forest pool.now)))) }
    ensures within { result ≤ count (children_of (plain (tree_at product (forest pool.now)))) }
{
    if children(pool, product) == 0 {
        return 0;
    }
    match kind(pool, child_id(pool, product, 0)) {
        Kind::Num => 1,
        _ => 0,
    }
}

/// How many factors a term has.
fn factor_count(pool: &Pool, term: Id) -> u16
    requires stands { Stands pool.now }
    requires expression { IsExpression term (forest pool.now) }
    ensures { result ≡ count (factors_in (plain (tree_at term (forest pool.now)))) }
{
    match kind(pool, term) {
        Kind::Num => 0,
        Kind::Mult => children(pool, term) - first_factor(pool, term),
        _ => 1,
    }
}

/// The factors of a term, each of which is found at once by its place.
#[derive(Drop)]
pub(crate) struct Factors {
    is_product: bool,
    first: u16,
    count: u16,
    list: ChildList<FEW>,
}

impl Factors {
    /// The factors of a term.
    pub(crate) fn of(pool: &Pool, term: Id) -> Factors
        requires stands { Stands pool.now }
        requires expression { IsExpression term (forest pool.now) }
        ensures { AreFactors result term (forest pool.now) }
    {
        Factors {
            is_product: matches!(kind(pool, term), Kind::Mult),
            first: first_factor(pool, term),
            count: factor_count(pool, term),
            list: ChildList::of(pool, term),
        }
    }

    /// The factor of the term at a place, counted from 0.
    pub(crate) fn get(&self, pool: &Pool, term: Id, at: u16) -> Option<Factor>
        requires stands { Stands pool.now }
        requires expression { IsExpression term (forest pool.now) }
        requires factors { AreFactors self.now term (forest pool.now) }
        requires monomial { (m : Monomial) × HasMonomial m (plain (tree_at term (forest pool.now))) }
        ensures { (m : Monomial) → HasMonomial m (plain (tree_at term (forest pool.now))) → BeginsWith result (drop at m) }
    {
        if at >= self.count {
            return None;
        }
        Some(factor_at(pool, self.id(pool, term, at)))
    }

    /// The same, known where no factor was passed since it was read.
    pub(crate) fn following(
        &self,
        pool: &Pool,
        term: Id,
        at: u16,
        passed: u16,
        known: Option<Factor>,
    ) -> Option<Factor>
        requires stands { Stands pool.now }
        requires expression { IsExpression term (forest pool.now) }
        requires factors { AreFactors self.now term (forest pool.now) }
        requires monomial { (m : Monomial) × HasMonomial m (plain (tree_at term (forest pool.now))) }
        requires known { passed ≡ 0 → (m : Monomial) → HasMonomial m (plain (tree_at term (forest pool.now))) → BeginsWith known (drop at m) }
        ensures { (m : Monomial) → HasMonomial m (plain (tree_at term (forest pool.now))) → BeginsWith result (drop at m) }
    {
        if passed == 0 {
            return known;
        }
        self.get(pool, term, at)
    }

    /// Its identifier.
    fn id(&self, pool: &Pool, term: Id, at: u16) -> Id
        requires stands { Stands pool.now }
        requires expression { IsExpression term (forest pool.now) }
        requires factors { AreFactors self.now term (forest pool.now) }
        requires within { at < count (factors_in (plain (tree_at term (forest pool.now)))) }
        ensures expression { IsExpression result (forest pool.now) }
        ensures tree { plain (tree_at result (forest pool.now)) ≡ nth at (factors_in (plain (tree_at term (forest pool.now)))) }
    {
        if self.is_product {
            self.list.child(pool, term, self.first + at)
        } else {
            term
        }
    }
}

/// The coefficient of a term, 1 where none is written.
pub(crate) fn coefficient(pool: &Pool, term: Id) -> Rat
    requires stands { Stands pool.now }
    requires expression { IsExpression term (forest pool.now) }
    ensures { value_of result ≡ coefficient_in (plain (tree_at term (forest pool.now))) }
{
    match kind(pool, term) {
        Kind::Num => rational(pool, term),
        Kind::Mult => leading(pool, term),
        _ => Rat::whole(1),
    }
}

/// The coefficient of a product.
fn leading(pool: &Pool, product: Id) -> Rat
    requires stands { Stands pool.now }
    requires expression { IsExpression product (forest pool.now) }
    requires product { is_mult (plain (tree_at product (forest pool.now))) ≡ true }
    ensures { value_of result ≡ coefficient_in (plain (tree_at product (forest pool.now))) }
{
    if first_factor(pool, product) == 0 {
        return Rat::whole(1);
    }
    rational(pool, child_id(pool, product, 0))
}

/// The factor that a tree is.
fn factor_at(pool: &Pool, id: Id) -> Factor
    requires stands { Stands pool.now }
    requires expression { IsExpression id (forest pool.now) }
    requires factor { (f : FactorOf) × (1 ≤ f.exponent) × (plain (tree_at id (forest pool.now)) ≡ factor_tree f) }
    ensures { (f : FactorOf) → 1 ≤ f.exponent → plain (tree_at id (forest pool.now)) ≡ factor_tree f → IsRead result f }
{
    match kind(pool, id) {
        Kind::Sym => Factor {
            name: name(pool, id),
            exponent: Rat::whole(1),
        },
        _ => power_at(pool, id),
    }
}

/// The factor that a power is.
fn power_at(pool: &Pool, id: Id) -> Factor
    requires stands { Stands pool.now }
    requires expression { IsExpression id (forest pool.now) }
    requires power { (f : FactorOf) × (1 ≤ f.exponent) × (plain (tree_at id (forest pool.now)) ≡ power (symbol f.name) (whole_num f.exponent)) }
    ensures { (f : FactorOf) → 1 ≤ f.exponent → plain (tree_at id (forest pool.now)) ≡ power (symbol f.name) (whole_num f.exponent) → IsRead result f }
{
    let base = child_id(pool, id, 0);
    let exponent = child_id(pool, id, 1);
    Factor {
        name: name(pool, base),
        exponent: rational(pool, exponent),
    }
}
