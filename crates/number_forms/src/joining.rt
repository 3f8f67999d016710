//! Terms joined to a sum of terms that stands last.
ghost use Rattle.std.specs.Prelude.{◌≡◌, ◌<◌, ◌-◌, ◌^◌, ◌∷◌, [], IsTrue, IfOk, IfErr, MatchOption, OnOk};
ghost use Rattle.calc_algebra.specs.Clean.{IsClean};
ghost use Rattle.calc_algebra.specs.Numbers.{value, term_of as term_of_tree, terms_of};
ghost use Rattle.calc_terms.specs.Trees.{count};
ghost use Rattle.node_pool.specs.State.{free_of};
ghost use Rattle.child_lists.specs.Lists.{Lists};
ghost use Rattle.number_forms.specs.Sums.{IsSum, IsSumOf, IsApart, IsPlace, AreBelow, removed};
ghost use Rattle.number_forms.specs.Joins.{IsMatch, IsOther};
ghost use Rattle.tree_handles.specs.Lacking.{OfFull};
ghost use Rattle.number_forms.specs.Overflows.{JoinOverflows};
ghost use Rattle.number_forms.specs.Safety.{IsSafe, IsSafePlacing};
ghost use Rattle.tree_handles.specs.Standing.{Stands, forest};
ghost use Rattle.tree_handles.specs.Causes.{Overflows};
ghost use Rattle.tree_handles.specs.Handed.{tree_of, Gives};
ghost use Rattle.surd_terms.specs.Terms.{term_of};
ghost use Rattle.tree_handles.specs.Expressions.{children_of, nth, plain, IsExpression};
ghost use Rattle.tree_handles.specs.Faults.{OfOverflow};
ghost use Rattle.tree_handles.specs.Inside.{tree_at};
ghost use Rattle.tree_handles.specs.Roots.{without_root};

use crate::placing::{TERM_BYTES, place_term};
use crate::term::term_at;
use child_lists::{ChildList, exchange_child, insert_child, remove_child};
use node_pool::{Full, Id, Pool};
use rational128::Overflow;
use surd_terms::{Joined, Term, join, undivided};
use tree_handles::{Handle, NumberFault, child_ids, children};

/// A clean number below this one is square-free, so that each class has one.
pub(crate) const SQUARE_FREE_BELOW: u128 = 1_000_000_000_000;

/// No sum has a term at this place.
pub(crate) const NOWHERE: u16 = u16::MAX;

/// How a term meets a sum: apart from all of its terms, with its place among them; or alike with the one at a
/// place, and what the two make.
#[derive(Clone, Copy)]
enum Match {
    Apart(u16),
    Zero(u16),
    Term(u16, Term),
}

/// Joins a term to a sum: with the term of its class, which may leave none, or at its place. Where one with its
/// radicand was seen at a place, that is found at once.
pub(crate) fn join_term<const N: usize>(
    pool: &mut Pool,
    sum: &Handle,
    list: &mut ChildList<N>,
    term: Term,
    seen: u16,
) -> Result<(), NumberFault>
    requires stands { Stands pool.old }
    requires sum { Gives (without_root sum.now (forest pool.old)) (forest pool.old) sum.now IsSum }
    requires lists { Lists list.old sum.now (forest pool.old) }
    ensures ok { OnOk result (Gives (without_root sum.now (forest pool.old)) (forest pool.new) sum.now (IsSumOf (term_of term ∷ value (tree_of sum.now pool.old)))) }
    ensures lists { OnOk result (Lists list.new sum.now (forest pool.new)) }
    ensures overflow { IfErr result (OfOverflow (JoinOverflows (tree_of sum.now pool.old) (term_of term))) }
    ensures room { IfErr result (OfFull (λ full. free_of pool.old < 96)) }
    ensures safe { IsSafe (sum.now ∷ []) pool.old pool.new result }
{
    match match_in(pool, sum.id(), list, term, seen)? {
        Match::Apart(at) => insert(pool, sum, list, at, term)?,
        Match::Zero(at) => remove_child(pool, sum, list, at),
        Match::Term(at, joined) => replace(pool, sum, list, at, joined)?,
    }
    Ok(())
}

/// How a term meets a sum.
fn match_in<const N: usize>(
    pool: &Pool,
    sum: Id,
    list: &ChildList<N>,
    term: Term,
    seen: u16,
) -> Result<Match, Overflow>
    requires stands { Stands pool.now }
    requires expression { IsExpression sum (forest pool.now) }
    requires sum { IsSum (plain (tree_at sum (forest pool.now))) }
    requires lists { Lists list.now sum (forest pool.now) }
    ensures ok { IfOk result (IsMatch (term_of term) (children_of (plain (tree_at sum (forest pool.now))))) }
    ensures overflow { IfErr result (JoinOverflows (plain (tree_at sum (forest pool.now))) (term_of term)) }
    ensures caused { IfErr result Overflows }
{
    let at = place_near(pool, sum, list, term.radicand(), seen);
    match match_equal(pool, sum, list, term, at) {
        Ok(Some(found)) => Ok(found),
        Ok(None) => match_other(pool, sum, list, term, at),
        Err(overflow) => Err(overflow),
    }
}

/// How a term meets the one of a sum that has its radicand, if there is one, which stands at its place.
fn match_equal<const N: usize>(
    pool: &Pool,
    sum: Id,
    list: &ChildList<N>,
    term: Term,
    at: u16,
) -> Result<Option<Match>, Overflow>
    requires stands { Stands pool.now }
    requires expression { IsExpression sum (forest pool.now) }
    requires sum { IsSum (plain (tree_at sum (forest pool.now))) }
    requires lists { Lists list.now sum (forest pool.now) }
    requires place { IsPlace at (term_of term).radicand (children_of (plain (tree_at sum (forest pool.now)))) }
    ensures ok { IfOk result (λ found. MatchOption found (IsOther at (term_of term).radicand (children_of (plain (tree_at sum (forest pool.now)))))
        (IsMatch (term_of term) (children_of (plain (tree_at sum (forest pool.now)))))) }
    ensures overflow { IfErr result (JoinOverflows (plain (tree_at sum (forest pool.now))) (term_of term)) }
    ensures caused { IfErr result Overflows }
{
    if at == children(pool, sum) {
        return Ok(None);
    }
    let other = term_at(pool, list.child(pool, sum, at));
    if other.radicand() != term.radicand() {
        return Ok(None);
    }
    let joined = join(other, term)?;
    match joined {
        Joined::Apart => Ok(None),
        Joined::Zero => Ok(Some(Match::Zero(at))),
        Joined::Term(one) => Ok(Some(Match::Term(at, one))),
    }
}

/// Whether each radicand of a sum is below the number below which clean ones are square-free: the
/// last one is the greatest.
fn are_square_free<const N: usize>(pool: &Pool, sum: Id, list: &ChildList<N>) -> bool
    requires stands { Stands pool.now }
    requires expression { IsExpression sum (forest pool.now) }
    requires sum { IsSum (plain (tree_at sum (forest pool.now))) }
    requires lists { Lists list.now sum (forest pool.now) }
    ensures { IsTrue result → AreBelow (10 ^ 12) (children_of (plain (tree_at sum (forest pool.now)))) }
{
    let many = children(pool, sum);
    if many == 0 {
        return true;
    }
    radicand_at(pool, sum, list, many - 1) < SQUARE_FREE_BELOW
}

/// The same where none has its radicand, whose place is told: only an equal one is alike where all are square-free.
fn match_other<const N: usize>(
    pool: &Pool,
    sum: Id,
    list: &ChildList<N>,
    term: Term,
    at: u16,
) -> Result<Match, Overflow>
    requires stands { Stands pool.now }
    requires expression { IsExpression sum (forest pool.now) }
    requires sum { IsSum (plain (tree_at sum (forest pool.now))) }
    requires lists { Lists list.now sum (forest pool.now) }
    requires place { IsPlace at (term_of term).radicand (children_of (plain (tree_at sum (forest pool.now)))) }
    requires other { IsOther at (term_of term).radicand (children_of (plain (tree_at sum (forest pool.now)))) }
    ensures ok { IfOk result (IsMatch (term_of term) (children_of (plain (tree_at sum (forest pool.now))))) }
    ensures overflow { IfErr result (JoinOverflows (plain (tree_at sum (forest pool.now))) (term_of term)) }
    ensures caused { IfErr result Overflows }
{
    if term.radicand() < SQUARE_FREE_BELOW && are_square_free(pool, sum, list) {
        Ok(Match::Apart(at))
    } else {
        match_anywhere(pool, sum, term, at)
    }
}

/// The same for any radicands: each term is looked at.
fn match_anywhere(pool: &Pool, sum: Id, term: Term, place: u16) -> Result<Match, Overflow>
    requires stands { Stands pool.now }
    requires expression { IsExpression sum (forest pool.now) }
    requires sum { IsSum (plain (tree_at sum (forest pool.now))) }
    requires place { IsPlace place (term_of term).radicand (children_of (plain (tree_at sum (forest pool.now)))) }
    ensures ok { IfOk result (IsMatch (term_of term) (children_of (plain (tree_at sum (forest pool.now))))) }
    ensures overflow { IfErr result (JoinOverflows (plain (tree_at sum (forest pool.now))) (term_of term)) }
    ensures caused { IfErr result Overflows }
{
    let mut at = 0;
    for child in child_ids(pool, sum, 0) {
        let other = term_at(pool, child);
        match join(other, term)? {
            Joined::Apart => at += 1,
            Joined::Zero => return Ok(Match::Zero(at)),
            Joined::Term(joined) => return Ok(Match::Term(at, joined)),
        }
    }
    Ok(Match::Apart(place))
}

/// Puts a term into a sum at its place, where none is alike with it.
fn insert<const N: usize>(
    pool: &mut Pool,
    sum: &Handle,
    list: &mut ChildList<N>,
    at: u16,
    term: Term,
) -> Result<(), Full>
    requires stands { Stands pool.old }
    requires sum { Gives (without_root sum.now (forest pool.old)) (forest pool.old) sum.now IsSum }
    requires lists { Lists list.old sum.now (forest pool.old) }
    requires apart { IsApart (term_of term).radicand (value (tree_of sum.now pool.old)) }
    requires place { IsPlace at (term_of term).radicand (children_of (tree_of sum.now pool.old)) }
    ensures ok { OnOk result (Gives (without_root sum.now (forest pool.old)) (forest pool.new) sum.now (IsSumOf (term_of term ∷ value (tree_of sum.now pool.old)))) }
    ensures lists { OnOk result (Lists list.new sum.now (forest pool.new)) }
    ensures room { IfErr result (λ full. free_of pool.old < 96) }
    ensures safe { IsSafePlacing (sum.now ∷ []) pool.old pool.new result }
{
    let child = place_term(pool, term)?;
    insert_child(pool, sum, list, at, child);
    Ok(())
}

/// Puts the one term that two make in the place of the one of them that stands in a sum.
fn replace<const N: usize>(
    pool: &mut Pool,
    sum: &Handle,
    list: &mut ChildList<N>,
    at: u16,
    term: Term,
) -> Result<(), Full>
    requires stands { Stands pool.old }
    requires sum { Gives (without_root sum.now (forest pool.old)) (forest pool.old) sum.now IsSum }
    requires lists { Lists list.old sum.now (forest pool.old) }
    requires within { at < count (children_of (tree_of sum.now pool.old)) }
    requires apart { IsApart (term_of term).radicand (terms_of (removed at (children_of (tree_of sum.now pool.old)))) }
    ensures ok { OnOk result (Gives (without_root sum.now (forest pool.old)) (forest pool.new) sum.now (IsSumOf (term_of term ∷ terms_of (removed at (children_of (tree_of sum.now pool.old)))))) }
    ensures lists { OnOk result (Lists list.new sum.now (forest pool.new)) }
    ensures room { IfErr result (λ full. free_of pool.old < 96) }
    ensures safe { IsSafePlacing (sum.now ∷ []) pool.old pool.new result }
{
    let stays = radicand_at(pool, sum.id(), list, at) == term.radicand();
    if stays && pool.free() >= TERM_BYTES {
        exchange(pool, sum, list, at, term)
    } else {
        remove_child(pool, sum, list, at);
        let place = place_of(pool, sum.id(), list, term.radicand());
        insert(pool, sum, list, place, term)
    }
}

/// The same where the radicand stays. The new term is placed before the old one is released, so that nothing else is
/// moved where it takes as many bytes.
fn exchange<const N: usize>(
    pool: &mut Pool,
    sum: &Handle,
    list: &mut ChildList<N>,
    at: u16,
    term: Term,
) -> Result<(), Full>
    requires stands { Stands pool.old }
    requires sum { Gives (without_root sum.now (forest pool.old)) (forest pool.old) sum.now IsSum }
    requires lists { Lists list.old sum.now (forest pool.old) }
    requires within { at < count (children_of (tree_of sum.now pool.old)) }
    requires radicand { (term_of_tree (nth at (children_of (tree_of sum.now pool.old)))).radicand ≡ (term_of term).radicand }
    requires apart { IsApart (term_of term).radicand (terms_of (removed at (children_of (tree_of sum.now pool.old)))) }
    ensures ok { OnOk result (Gives (without_root sum.now (forest pool.old)) (forest pool.new) sum.now (IsSumOf (term_of term ∷ terms_of (removed at (children_of (tree_of sum.now pool.old)))))) }
    ensures lists { OnOk result (Lists list.new sum.now (forest pool.new)) }
    ensures room { IfErr result (λ full. free_of pool.old < 96) }
    ensures safe { IsSafePlacing (sum.now ∷ []) pool.old pool.new result }
{
    let new = place_term(pool, term)?;
    exchange_child(pool, sum, list, at, new);
    Ok(())
}

/// The place of a radicand among those of a sum.
fn place_of<const N: usize>(pool: &Pool, sum: Id, list: &ChildList<N>, radicand: u128) -> u16
    requires stands { Stands pool.now }
    requires expression { IsExpression sum (forest pool.now) }
    requires sum { IsSum (plain (tree_at sum (forest pool.now))) }
    requires lists { Lists list.now sum (forest pool.now) }
    ensures { IsPlace result radicand (children_of (plain (tree_at sum (forest pool.now)))) }
{
    let mut low = 0;
    let mut high = children(pool, sum);
    while low < high {
        let mid = low + (high - low) / 2;
        if radicand_at(pool, sum, list, mid) < radicand {
            low = mid + 1;
        } else {
            high = mid;
        }
    }
    low
}

/// The same, where one with that radicand may have been seen at a place.
fn place_near<const N: usize>(
    pool: &Pool,
    sum: Id,
    list: &ChildList<N>,
    radicand: u128,
    seen: u16,
) -> u16
    requires stands { Stands pool.now }
    requires expression { IsExpression sum (forest pool.now) }
    requires sum { IsSum (plain (tree_at sum (forest pool.now))) }
    requires lists { Lists list.now sum (forest pool.now) }
    ensures { IsPlace result radicand (children_of (plain (tree_at sum (forest pool.now)))) }
{
    if seen < children(pool, sum) && radicand_at(pool, sum, list, seen) == radicand {
        seen
    } else {
        place_of(pool, sum, list, radicand)
    }
}

/// The radicand of a term of a sum.
fn radicand_at<const N: usize>(pool: &Pool, sum: Id, list: &ChildList<N>, at: u16) -> u128
    requires stands { Stands pool.now }
    requires expression { IsExpression sum (forest pool.now) }
    requires sum { IsSum (plain (tree_at sum (forest pool.now))) }
    requires lists { Lists list.now sum (forest pool.now) }
    requires within { at < count (children_of (plain (tree_at sum (forest pool.now)))) }
    ensures value { result ≡ (term_of_tree (nth at (children_of (plain (tree_at sum (forest pool.now)))))).radicand }
    ensures clean { IsClean result }
{
    term_at(pool, list.child(pool, sum, at)).radicand()
}

/// A clean number, which is what is left under the root of the product of two terms if a sum has that radicand; and the
/// place of its term.
pub(crate) fn clean_radicand<const N: usize>(
    pool: &Pool,
    sum: Id,
    list: &ChildList<N>,
    a: Term,
    b: Term,
) -> (u128, u16)
    requires stands { Stands pool.now }
    requires expression { IsExpression sum (forest pool.now) }
    requires sum { IsSum (plain (tree_at sum (forest pool.now))) }
    requires lists { Lists list.now sum (forest pool.now) }
    ensures { IsClean result.0 }
{
    let Some(rest) = undivided(a, b) else {
        return (1, NOWHERE);
    };
    let at = place_of(pool, sum, list, rest);
    if at == children(pool, sum) {
        return (1, NOWHERE);
    }
    (radicand_at(pool, sum, list, at), at)
}
