//! Trees of lines as they were read, their layouts written in one line, and the pictures of these, worked by hand.
ghost use Rattle.std.specs.Prelude.{◌≤◌};
ghost use Rattle.pool_layouts.specs.Drawings.{IsLayout};
ghost use Rattle.tree_handles.specs.Standing.{Stands, forest};

use super::fixtures::{SIZE, read};
use line_text::Text;
use node_pool::Pool;
use pool_layouts::{Drafter, layout_of, rows, write_row, write_serial};
use std::alloc::{AllocError, Global};
use std::test::Fail;
use tree_handles::{Handle, open_pool, tree_bytes};
use unicode_width::UnicodeWidthStr;

/// A line, the serial text of its layout, and the rows of its picture.
const FACES: &str = "\
1/2 = ((1)/(2))|1|-|2\n\
√(x)/2 = ((√(x))/(2))| _|√x|--|2\n\
x^2 = x^(2)| 2|x\n\
x+y-2×z = x+y-2×z|x+y-2×z\n\
(1/2+x)^(y/√(3)) = (((1)/(2))+x)^(((y)/(√(3))))|     y|     --|      _|(1  )√3|(-+x)|(2  )\n\
1/(1+1/(1+1/x)) = ((1)/(1+((1)/(1+((1)/(x))))))|  1|-----|   1|1+---|    1|  1+-|    x\n\
√(1/2) = √(((1)/(2)))| _| 1|√-| 2\n\
(1/√(2))^3 = (((1)/(√(2))))^(3)|(1 )3|(--)|( _)|(√2)\n\
(a+b)^2 = (a+b)^(2)|     2|(a+b)\n\
-x^(-y) = -x^(-y)|  -y|-x\n\
--x = --x|--x\n\
(-x)×(-y) = (-x)×-y|(-x)×-y\n\
(a/b)^2 = (((a)/(b)))^(2)|(a)2|(-)|(b)\n\
√(x^2+1/√(y)) = √(x^(2)+((1)/(√(y))))| _____|  2 1|√x +--|     _|    √y\n\
1+22/333+4444/5 = 1+((22)/(333))+((4444)/(5))|  22  4444|1+---+----|  333  5\n\
170141183460469231731687303715884105727/3 = ((170141183460469231731687303715884105727)/(3))|170141183460469231731687303715884105727|---------------------------------------|                   3\n\
√(√(x)) = √(√(x))| __|  _|√√x\n\
x^y^z = x^(y^(z))|  z| y|x\n\
abcdefg×(x+1/2) = abcdefg×(x+((1)/(2)))|        (  1)|abcdefg×(x+-)|        (  2)\n\
7 = 7|7\n\
x = x|x\n\
2×x = 2×x|2×x\n\
-(x+y) = -(x+y)|-(x+y)\n\
-(x-y) = -(x-y)|-(x-y)\n\
x-(y-z) = x-(y-z)|x-(y-z)\n\
x-(y+z) = x-(y+z)|x-(y+z)\n\
(x+y)×(x-y) = (x+y)×(x-y)|(x+y)×(x-y)\n\
(x-y)+z = x-y+z|x-y+z\n\
x+(y-z) = x+(y-z)|x+(y-z)\n\
(x/y)×z = ((x)/(y))×z|x|-×z|y\n\
x×(y/z) = x×((y)/(z))|  y|x×-|  z\n\
(-x)/y = ((-x)/(y))|-x|--|y\n\
-(x/y) = -((x)/(y))| x|--| y\n\
x/(-y) = ((x)/(-y))|x|--|-y\n\
(1/2)/(3/4) = ((((1)/(2)))/(((3)/(4))))|1|-|2|-|3|-|4\n\
((a/b)/(c/d))/(e/f) = ((((((a)/(b)))/(((c)/(d)))))/(((e)/(f))))|a|-|b|-|c|-|d|-|e|-|f\n\
x^(1/2) = x^(((1)/(2)))| 1| -| 2|x\n\
2^(x+1) = 2^(x+1)| x+1|2\n\
(2^x)^y = (2^(x))^(y)|( x)y|(2 )\n\
(x×y)^2 = (x×y)^(2)|     2|(x×y)\n\
√(x)^2 = √(x)^(2)| _2|√x\n\
(-x)^2 = (-x)^(2)|    2|(-x)\n\
x^(-(y+z)) = x^(-(y+z))| -(y+z)|x\n\
√((a+b)/(c-d)) = √(((a+b)/(c-d)))| ___| a+b|√---| c-d\n\
√(√(1/x)+1) = √(√(((1)/(x)))+1)| ____|  _|  1|√√-+1|  x\n\
1/√(1/√(x)) = ((1)/(√(((1)/(√(x))))))| 1|---| __| 1|√--|  _| √x\n\
√(1/2)/(1+√(3)/3) = ((√(((1)/(2))))/(1+((√(3))/(3))))|  _|  1| √-|  2|----|   _|  √3|1+--|  3\n\
(√(x/2)/3)^2 = (((√(((x)/(2))))/(3)))^(2)|( _)|( x)|(√-)|( 2)2|(--)|(3 )\n\
((1/√(x))/2)^(1/3) = (((((1)/(√(x))))/(2)))^(((1)/(3)))|(1 )|(--)1|( _)-|(√x)3|(--)|(2 )\n\
(x+1/y)^2×z = (x+((1)/(y)))^(2)×z|(  1)2|(x+-) ×z|(  y)\n\
a+b+c+d+e+f+g+h+i+j+k+l+m+n+o+p+q+r+s+t+u+v+w+x+y+z = a+b+c+d+e+f+g+h+i+j+k+l+m+n+o+p+q+r+s+t+u+v+w+x+y+z|a+b+c+d+e+f+g+h+i+j+k+l+m+n+o+p+q+r+s+t+u+v+w+x+y+z\n\
1/10+22/7-333/106+103993/33102 = ((1)/(10))+((22)/(7))-((333)/(106))+((103993)/(33102))|1  22 333 103993|--+------+------|10 7  106 33102\n\
170141183460469231731687303715884105727×170141183460469231731687303715884105727 = 170141183460469231731687303715884105727×170141183460469231731687303715884105727|170141183460469231731687303715884105727×170141183460469231731687303715884105727\n\
170141183460469231731687303715884105727^x = 170141183460469231731687303715884105727^(x)|                                       x|170141183460469231731687303715884105727\n\
x^170141183460469231731687303715884105727 = x^(170141183460469231731687303715884105727)| 170141183460469231731687303715884105727|x\n\
1/(x+170141183460469231731687303715884105727) = ((1)/(x+170141183460469231731687303715884105727))|                    1|-----------------------------------------|x+170141183460469231731687303715884105727\n\
abcdefg/abc = ((abcdefg)/(abc))|abcdefg|-------|  abc\n\
x×(-y)^2 = x×(-y)^(2)|      2|x×(-y)\n\
x×--y = x×--y|x×--y\n\
(x^(y/z))^(1/2) = (x^(((y)/(z))))^(((1)/(2)))|( y)1|( -)-|( z)2|(x )";

/// Appends the serial text of a layout; whether there was room for it.
fn push_serial(pool: &Pool, layout: &Handle, text: &mut Text) -> bool
    requires stands { Stands pool.now }
    requires layout { IsLayout layout.now (forest pool.now) }
{
    let id = layout.id();
    if text.spare() / 2 < tree_bytes(pool, id) {
        return false;
    }
    write_serial(pool, id, text);
    true
}

/// Appends the rows of a picture, each behind a bar; whether there was room for them.
fn push_rows(pool: &Pool, layout: &Handle, drafter: &mut Drafter, text: &mut Text) -> bool
    requires stands { Stands pool.now }
    requires layout { IsLayout layout.now (forest pool.now) }
    requires served { pool.now.size ≤ drafter.old.pool_size }
{
    let id = layout.id();
    for row in 0..rows(pool, id, drafter) {
        if text.spare() / 2 <= tree_bytes(pool, id) {
            return false;
        }
        text.push(b"|");
        write_row(pool, id, row, drafter, text);
    }
    true
}

/// Appends the serial text of a line's layout and the rows of its picture; whether all of it was.
fn draw(alloc: Global, pool: &mut Pool, line: &[u8], text: &mut Text) -> bool
    requires { Stands pool.old }
{
    let Some(face) = read(alloc, pool, line) else {
        return false;
    };
    let Ok(mut drafter) = Drafter::open(alloc, pool.size()) else {
        return false;
    };
    let Ok(layout) = layout_of(pool, face.id(), &mut drafter) else {
        return false;
    };
    push_serial(pool, &layout, text) && push_rows(pool, &layout, &mut drafter, text)
}

/// Whether a line is drawn so.
fn is_drawn(alloc: Global, line: &str, drawing: &str) -> Result<bool, AllocError> {
    let mut pool = open_pool(alloc, SIZE)?;
    let mut text = Text::open(alloc, SIZE)?;
    Ok(draw(alloc, &mut pool, line.as_bytes(), &mut text) && text.bytes() == drawing.as_bytes())
}

/// Whether each character of a text takes one column.
fn is_narrow(text: &str) -> bool {
    text.width() == text.chars().count()
}

/// The place of the first row whose line is drawn otherwise, or has a wide character.
fn first_other(alloc: Global, table: &str) -> Result<Option<usize>, AllocError> {
    for (place, row) in table.lines().enumerate() {
        let (line, drawing) = row.split_once(" = ").unwrap_or((row, ""));
        if !is_drawn(alloc, line, drawing)? || !is_narrow(drawing) {
            return Ok(Some(place));
        }
    }
    Ok(None)
}

#[test]
fn trees_are_drawn(rt: HostRuntime) -> Result<(), Fail> {
    let other = first_other(rt.alloc(), FACES)?;
    assert_eq!(rt; other, None);
    Ok(())
}
