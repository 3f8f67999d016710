//! Lines, and the texts of their trees as they were read: parentheses and signs tell the shapes.
use super::fixtures::{SIZE, read, written};
use std::alloc::{AllocError, Global};
use std::test::Fail;
use tree_handles::open_pool;

/// Lines, and the texts of their trees by the grammar.
const SHAPES: &str = "\
1 + 2 = 1+2\n\
1+2+3 = 1+2+3\n\
(1+2)+3 = (1+2)+3\n\
1+(2+3) = 1+(2+3)\n\
a-b+c = a-b+c\n\
a+b-c = a+b-c\n\
(a-b)+c = a-b+c\n\
a-(b+c) = a-(b+c)\n\
-2^2 = -2^2\n\
(-2)^2 = (-2)^2\n\
2^-3 = 2^-3\n\
2^-x^2 = 2^-x^2\n\
2^(-x)^2 = 2^(-x)^2\n\
2^3^2 = 2^3^2\n\
(2^3)^2 = (2^3)^2\n\
2--3 = 2--3\n\
2×-3 = 2×-3\n\
-a×b = -a×b\n\
(-a)×b = (-a)×b\n\
a×-b c = a×(-b×c)\n\
2x(x+1) = 2×x×(x+1)\n\
2x×y = (2×x)×y\n\
1/2x = 1/(2×x)\n\
a/b/c = a/b/c\n\
a*b·c×d = a×b×c×d\n\
a×b/c×d = a×b/c×d\n\
2^-x y = 2^-x×y\n\
√(x+1)^2 = √(x+1)^2\n\
sqrt(x) = √(x)\n\
(a+b)c-d = (a+b)×c-d\n\
x undef^2 = x×undef^2\n\
a--b--c = a--b--c\n\
((((1)))) = 1\n\
2-3^-x/(y) = 2-3^-x/y\n\
X x = X×x\n\
1e5 = 1×e5\n\
-2x^2/√(y) = -2×x^2/√(y)\n\
a×-b^-c = a×-b^-c\n\
1-(2+3) = 1-(2+3)\n\
x+1→y = x+1";

/// Whether the tree of a line is written as a text.
fn is_read_as(alloc: Global, line: &str, text: &str) -> Result<bool, AllocError> {
    let mut pool = open_pool(alloc, SIZE)?;
    let Some(tree) = read(alloc, &mut pool, line.as_bytes()) else {
        return Ok(false);
    };
    let found = written(alloc, &pool, &tree)?;
    Ok(found.bytes() == text.as_bytes())
}

/// The place of the first row whose line has a tree of another text, or none.
fn first_other(alloc: Global, table: &str) -> Result<Option<usize>, AllocError> {
    for (place, row) in table.lines().enumerate() {
        let (line, text) = row.split_once(" = ").unwrap_or((row, ""));
        if !is_read_as(alloc, line, text)? {
            return Ok(Some(place));
        }
    }
    Ok(None)
}

#[test]
fn lines_have_their_shapes(rt: HostRuntime) -> Result<(), Fail> {
    let other = first_other(rt.alloc(), SHAPES)?;
    assert_eq!(rt; other, None);
    Ok(())
}
