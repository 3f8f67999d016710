//! The order of packed monomials, which is that of their trees.
ghost use Rattle.std.specs.Prelude.{◌≡◌, ◌<◌, ◌^◌, ℕ, [], IsPermutation, IsSorted, length, reverse, slice_index_or};
ghost use Rattle.expansions.specs.PackedOrder.{behind_cmp, exponents_cmp, first_cmp, first_exponent, kind_with, packed_cmp, packed_term_cmp};
ghost use Rattle.polynomials.specs.Packed.{monomial_of};
ghost use Rattle.polynomials.specs.declared.term.Term.{Term as TermOf};

use calc_terms::Kind;
use polynomials::Term;
use std::cmp::Ordering;

/// Puts terms in the order of their trees.
pub(crate) fn sort_terms(terms: &mut [Term])
    ensures moved { IsPermutation terms.old terms.new }
    ensures rising { IsSorted packed_term_cmp terms.new }
{
    terms.sort_unstable_by(
        |a: &Term, b: &Term| -> Ordering
            ensures { result ≡ packed_term_cmp a.now b.now }
        { compare_packed(a.monomial, b.monomial) },
    );
}

/// Each monomial has 64 bits, as its type says.
pub(crate) fn know_monomials(terms: &[Term])
    ensures { (k : ℕ) (d : TermOf) → k < length terms.now → (slice_index_or terms.now k d).monomial < 2 ^ 64 }
{
    for term in terms {
        know_bits(term.monomial);
    }
}

/// It has 64 bits.
#[inline(always)]
fn know_bits(monomial: u64)
    ensures { monomial < 2 ^ 64 }
{}

/// The exponents of a packed monomial, in the order of their names.
#[inline(always)]
#[tactic(auto, using(expansions::proofs::PackedOrders::be_bytes))]
pub(crate) fn exponents_of(monomial: u64) -> [u8; 8]
    ensures { result ≡ reverse (monomial_of monomial) }
{
    monomial.to_be_bytes()
}

/// The order of the trees of two packed monomials.
fn compare_packed(a: u64, b: u64) -> Ordering
    ensures { result ≡ packed_cmp a b }
{
    let left = exponents_of(a);
    let right = exponents_of(b);
    let kinds = monomial_kind(&left)
        .code()
        .cmp(&monomial_kind(&right).code());
    if kinds != Ordering::Equal {
        return kinds;
    }
    compare_exponents(&left, &right)
}

/// The kind of the tree of a monomial with these exponents.
fn monomial_kind(exponents: &[u8]) -> Kind
    ensures { result ≡ kind_with 0 exponents.now }
{
    let mut only = 0;
    for exponent in exponents {
        if *exponent != 0 {
            if only != 0 {
                return Kind::Mult;
            }
            only = *exponent;
        }
    }
    kind_of_only(only)
}

/// The kind of the tree of a monomial of one factor with an exponent, or of none where that is 0.
fn kind_of_only(exponent: u8) -> Kind
    ensures { result ≡ kind_with exponent [] }
{
    if exponent == 0 {
        Kind::Num
    } else if exponent == 1 {
        Kind::Sym
    } else {
        Kind::Pow
    }
}

/// The order of the factors of two monomials with these exponents, one by one.
fn compare_exponents(left: &[u8], right: &[u8]) -> Ordering
    requires { length left.now ≡ length right.now }
    ensures { result ≡ exponents_cmp left.now right.now }
{
    for at in 0..left.len() {
        if left[at] != right[at] {
            return compare_first(left[at], &left[at + 1..], right[at], &right[at + 1..]);
        }
    }
    Ordering::Equal
}

/// The order of factors by the first exponents in which they differ, and those behind.
fn compare_first(left: u8, left_rest: &[u8], right: u8, right_rest: &[u8]) -> Ordering
    ensures { result ≡ first_cmp left left_rest.now right right_rest.now }
{
    if left == 0 {
        compare_behind(first_exponent(left_rest), right)
    } else if right == 0 {
        compare_behind(first_exponent(right_rest), left).reverse()
    } else {
        left.cmp(&right)
    }
}

/// The order of a factor with an exponent, or of none where that is 0, and one with a lower name.
fn compare_behind(exponent: u8, lower: u8) -> Ordering
    ensures { result ≡ behind_cmp exponent lower }
{
    if exponent == 0 {
        Ordering::Less
    } else if exponent == 1 {
        if lower == 1 {
            Ordering::Greater
        } else {
            Ordering::Less
        }
    } else {
        Ordering::Greater
    }
}

/// The first exponent that is not 0, or else 0.
fn first_exponent(exponents: &[u8]) -> u8
    ensures { result ≡ first_exponent exponents.now }
{
    for exponent in exponents {
        if *exponent != 0 {
            return *exponent;
        }
    }
    0
}
