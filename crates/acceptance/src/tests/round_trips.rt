//! Trees of a table are written, and their texts are read and built again.
ghost use Rattle.std.specs.Prelude.{◌≡◌, IfSome};
ghost use Rattle.tree_handles.specs.Handed.{Gives};
ghost use Rattle.tree_handles.specs.Standing.{Stands, forest};

use super::fixtures::{is_tree_of, written};
use node_pool::Pool;
use std::alloc::{AllocError, Global};
use std::test::Fail;
use tree_handles::{Handle, open_pool};
use tree_shapes::{Pair, Shape, Single, grow};

/// The tree of a shape that a line can hold, which becomes the last one.
fn grown(pool: &mut Pool, shape: &Shape) -> Option<Handle>
    requires stands { Stands pool.old }
    ensures gives { IfSome result (λ h. Gives (forest pool.old) (forest pool.new) h (λ t. t ≡ t)) }
    ensures stands { Stands pool.new }
{
    if !shape.is_writable() {
        return None;
    }
    let Ok(tree) = grow(pool, shape) else {
        return None;
    };
    Some(tree)
}

/// Whether the tree of a shape has a text, and is read again from it.
fn is_read_again(alloc: Global, shape: &Shape, text: &str) -> Result<bool, AllocError> {
    let mut pool = open_pool(alloc, 1024)?;
    let Some(tree) = grown(&mut pool, shape) else {
        return Ok(false);
    };
    let found = written(alloc, &pool, &tree)?;
    let same = found.bytes() == text.as_bytes();
    Ok(same && is_tree_of(alloc, &mut pool, &tree, found.bytes()))
}

const A: Shape<'static> = Shape::Name(b"a");

const B: Shape<'static> = Shape::Name(b"b");

const C: Shape<'static> = Shape::Name(b"c");

const SUM: Shape<'static> = Shape::Two(Pair::Sum, &A, &B);

const PRODUCT: Shape<'static> = Shape::Two(Pair::Product, &A, &B);

const POWER: Shape<'static> = Shape::Two(Pair::Power, &A, &B);

const OPPOSITE: Shape<'static> = Shape::One(Single::Opposite, &A);

/// A tree of each level, and opposites of some.
const CHILDREN: [Shape<'static>; 11] = [
    SUM,
    Shape::Two(Pair::Difference, &A, &B),
    OPPOSITE,
    PRODUCT,
    Shape::Two(Pair::Quotient, &A, &B),
    POWER,
    Shape::One(Single::Root, &A),
    Shape::One(Single::Opposite, &SUM),
    Shape::One(Single::Opposite, &PRODUCT),
    Shape::One(Single::Opposite, &POWER),
    Shape::One(Single::Opposite, &OPPOSITE),
];

/// Where such a tree stands.
#[derive(Clone, Copy)]
enum Around {
    First(Pair),
    Later(Pair),
    Under(Single),
}

impl Around {
    fn over<'a>(self, child: &'a Shape<'a>, other: &'a Shape<'a>) -> Shape<'a> {
        match self {
            Around::First(pair) => Shape::Two(pair, child, other),
            Around::Later(pair) => Shape::Two(pair, other, child),
            Around::Under(single) => Shape::One(single, child),
        }
    }
}

/// Each place.
const AROUND: [Around; 12] = [
    Around::First(Pair::Sum),
    Around::Later(Pair::Sum),
    Around::First(Pair::Difference),
    Around::Later(Pair::Difference),
    Around::First(Pair::Product),
    Around::Later(Pair::Product),
    Around::First(Pair::Quotient),
    Around::Later(Pair::Quotient),
    Around::First(Pair::Power),
    Around::Later(Pair::Power),
    Around::Under(Single::Opposite),
    Around::Under(Single::Root),
];

/// A row for each place: the text of each child there, with `c` on the other side. The texts come from a model of its own.
const TEXTS: &str = "\
(a+b)+c a-b+c -a+c a×b+c a/b+c a^b+c √(a)+c -(a+b)+c -a×b+c -a^b+c --a+c
c+(a+b) c+(a-b) c+-a c+a×b c+a/b c+a^b c+√(a) c+-(a+b) c+-a×b c+-a^b c+--a
a+b-c a-b-c -a-c a×b-c a/b-c a^b-c √(a)-c -(a+b)-c -a×b-c -a^b-c --a-c
c-(a+b) c-(a-b) c--a c-a×b c-a/b c-a^b c-√(a) c--(a+b) c--a×b c--a^b c---a
(a+b)×c (a-b)×c (-a)×c (a×b)×c a/b×c a^b×c √(a)×c (-(a+b))×c (-a×b)×c (-a^b)×c (--a)×c
c×(a+b) c×(a-b) c×-a c×(a×b) c×(a/b) c×a^b c×√(a) c×(-(a+b)) c×(-a×b) c×-a^b c×--a
(a+b)/c (a-b)/c (-a)/c a×b/c a/b/c a^b/c √(a)/c (-(a+b))/c (-a×b)/c (-a^b)/c (--a)/c
c/(a+b) c/(a-b) c/-a c/(a×b) c/(a/b) c/a^b c/√(a) c/(-(a+b)) c/(-a×b) c/-a^b c/--a
(a+b)^c (a-b)^c (-a)^c (a×b)^c (a/b)^c (a^b)^c √(a)^c (-(a+b))^c (-a×b)^c (-a^b)^c (--a)^c
c^(a+b) c^(a-b) c^-a c^(a×b) c^(a/b) c^a^b c^√(a) c^(-(a+b)) c^(-a×b) c^-a^b c^--a
-(a+b) -(a-b) --a -a×b -a/b -a^b -√(a) --(a+b) --a×b --a^b ---a
√(a+b) √(a-b) √(-a) √(a×b) √(a/b) √(a^b) √(√(a)) √(-(a+b)) √(-a×b) √(-a^b) √(--a)";

#[test]
fn each_tree_is_read_again_from_its_text(rt: HostRuntime) -> Result<(), Fail> {
    assert_eq!(rt; TEXTS.lines().count(), AROUND.len());
    for (around, row) in AROUND.iter().zip(TEXTS.lines()) {
        assert_eq!(rt; row.split(' ').count(), CHILDREN.len(), "{row}");
        for (child, text) in CHILDREN.iter().zip(row.split(' ')) {
            let shape = around.over(child, &C);
            assert!(rt; is_read_again(rt.alloc(), &shape, text)?, "{text}");
        }
    }
    Ok(())
}

#[test]
fn leaves_are_read_again(rt: HostRuntime) -> Result<(), Fail> {
    let leaves = [
        (Shape::Name(b"x1Y2z3W"), "x1Y2z3W"),
        (Shape::Undef, "undef"),
        (Shape::Number(0), "0"),
        (Shape::Number(u64::MAX), "18446744073709551615"),
    ];
    for (leaf, text) in leaves {
        assert!(rt; is_read_again(rt.alloc(), &leaf, text)?, "{text}");
    }
    Ok(())
}
