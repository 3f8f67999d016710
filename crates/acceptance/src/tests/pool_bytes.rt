//! The bytes of pools, written down by hand from the format of nodes.
ghost use Rattle.tree_handles.specs.Standing.{Stands};

use super::fixtures::{SIZE, armed, read};
use breakers::{CountBreaker, Watch};
use deep_reduce::DeepReducer;
use node_pool::Pool;
use reduce_port::Reducer;
use std::alloc::{AllocError, Global};
use std::test::Fail;
use tree_handles::open_pool;

/// Lines that are reduced in a pool of their own, and the bytes of its nodes in hexadecimal; behind them are zeros. A node has the
/// code of its kind, its form, and in two bytes each its identifier, its count and its children, the lower byte first. A
/// whole number of 64 bits has the form 1 and its value in eight bytes; another number has numerator and denominator in
/// sixteen each, a name its bytes. Nodes are placed children first under the least identifiers that are free, and a parent
/// comes before its children.
const BYTES: &str = "\
7 = 0101000001000000 0700000000000000\n\
-1 = 0101000001000000 ffffffffffffffff\n\
9223372036854775807 = 0101000001000000 ffffffffffffff7f\n\
-9223372036854775808 = 0101000001000000 0000000000000080\n\
9223372036854775808 = 0100000001000000 0000000000000080 0000000000000000 0100000000000000 0000000000000000\n\
-9223372036854775809 = 0100000001000000 ffffffffffffff7f ffffffffffffffff 0100000000000000 0000000000000000\n\
0.5 = 0100000001000000 0100000000000000 0000000000000000 0200000000000000 0000000000000000\n\
3/2 = 0100000001000000 0300000000000000 0000000000000000 0200000000000000 0000000000000000\n\
-6/4 = 0100000001000000 fdffffffffffffff ffffffffffffffff 0200000000000000 0000000000000000\n\
4/2 = 0101000001000000 0200000000000000\n\
ans = 0200000001000000 616e730000000000\n\
abcdefg = 0200000001000000 6162636465666700\n\
undef = 0300000001000000\n\
√(x) = 0700010001000100 0200000001000000 7800000000000000\n\
x+y = 0400020001000200 0200000001000000 7800000000000000 0200010001000000 7900000000000000\n\
y+x = 0400020001000200 0200010001000000 7800000000000000 0200000001000000 7900000000000000\n\
x^(y+z) = 0600040001000200 0200000001000000 7800000000000000 0400030001000200 0200010001000000 7900000000000000 \
0200020001000000 7a00000000000000\n\
z^2+y = 0400040001000200 0200030001000000 7900000000000000 0600020001000200 0200000001000000 7a00000000000000 0101010001000000 \
0200000000000000\n\
y^2+1 = 0400040001000200 0101030001000000 0100000000000000 0600020001000200 0200000001000000 7900000000000000 0101010001000000 \
0200000000000000\n\
0+0+0+0+0+0+0+0+0+0+0+0+0+0+0+0+0+0+0+0+0+0+0+0+0+0+0+0+0+0+0+0+0+0+0+0+0+0+0+0+0+0+0+0+0+0+0+0+0+0+0+0+0+0+0+0+0+0+0+0+0+0+0+0+\
0+0+0+0+0+0+0+0+0+0+0+0+0+0+0+0+0+0+0+0+0+0+0+0+0+0+0+0+0+0+0+0+0+0+0+0+0+0+0+0+0+0+0+0+0+0+0+0+0+0+0+0+0+0+0+0+0+0+0+0+0+0+0+0+\
0+0+0+0+0+0+0+0+0+0+0+0+0+0+0+0+0+0+0+0+0+0+0+0+0+0+0+0+0+0+0+0+0+0+0+0+0+0+0+0+0+0+0+0+0+0+0+0+0+0+0+0+0+0+0+0+0+0+0+0+0+0+0+0+\
0+0+0+0+0+0+0+0+0+0+0+0+0+0+0+0+0+0+0+0+0+0+0+0+0+0+0+0+0+0+0+0+0+0+0+0+0+0+0+0+0+0+0+0+0+0+0+0+0+0+0+0+0+0+0+0+0+0+0+0+0+0+0+0+\
0+0+0+0+0+0+0+0+0+0+0+0+0+0+0+0+0+0+0+0+0+0+0+0+0+0+0+0+0+0+0+0+0+0+0+0+0+0+0+0+0+0+0+0+b = 02002c0101000000 6200000000000000\n\
aa+ab+ac+ad+ae+af+ag+ah+ai+aj+ak+al+am+an+ao+ap+aq+ar+as+at+au+av+aw+ax+ay+az+ba+bb+bc+bd+be+bf+bg+bh+bi+bj+bk+bl+bm+bn+bo+bp+\
bq+br+bs+bt+bu+bv+bw+bx+by+bz+ca+cb+cc+cd+ce+cf+cg+ch+ci+cj+ck+cl+cm+cn+co+cp+cq+cr+cs+ct+cu+cv+cw+cx+cy+cz+da+db+dc+dd+de+df+\
dg+dh+di+dj+dk+dl+dm+dn+do+dp+dq+dr+ds+dt+du+dv+dw+dx+dy+dz+ea+eb+ec+ed+ee+ef+eg+eh+ei+ej+ek+el+em+en+eo+ep+eq+er+es+et+eu+ev+\
ew+ex+ey+ez+fa+fb+fc+fd+fe+ff+fg+fh+fi+fj+fk+fl+fm+fn+fo+fp+fq+fr+fs+ft+fu+fv+fw+fx+fy+fz+ga+gb+gc+gd+ge+gf+gg+gh+gi+gj+gk+gl+\
gm+gn+go+gp+gq+gr+gs+gt+gu+gv+gw+gx+gy+gz+ha+hb+hc+hd+he+hf+hg+hh+hi+hj+hk+hl+hm+hn+ho+hp+hq+hr+hs+ht+hu+hv+hw+hx+hy+hz+ia+ib+\
ic+id+ie+if+ig+ih+ii+ij+ik+il+im+in+io+ip+iq+ir+is+it+iu+iv+iw+ix+iy+iz+ja+jb+jc+jd+je+jf+jg+jh+ji+jj+jk+jl+jm+jn+jo+jp+jq+jr+\
js+jt+ju+jv+jw+jx = 0400020101000201 ..";

/// The bytes that a text names, eight in each word.
fn named(alloc: Global, text: &str) -> Result<Vec<u8>, AllocError> {
    let mut bytes = Vec::new(alloc);
    for word in text.split(' ') {
        let eight = u64::from_str_radix(word, 16).unwrap_or(u64::MAX);
        bytes.extend_from_slice(&eight.to_be_bytes())?;
    }
    Ok(bytes)
}

/// Whether the bytes are those that a text names, and zeros behind them. A text that ends with two points names the first
/// bytes alone.
fn are_named(alloc: Global, bytes: &[u8], text: &str) -> Result<bool, AllocError> {
    if let Some(front) = text.strip_suffix(" ..") {
        return Ok(bytes.starts_with(&named(alloc, front)?));
    }
    let mut all = named(alloc, text)?;
    all.resize(bytes.len(), 0)?;
    Ok(bytes == all.as_slice())
}

/// Whether a pool has these bytes once a line's tree has been reduced in it.
fn has_bytes<R: Reducer>(
    alloc: Global,
    reducer: &R,
    pool: &mut Pool,
    line: &str,
    text: &str,
    watch: &mut Watch<CountBreaker>,
) -> Result<bool, AllocError>
    requires stands { Stands pool.old }
{
    let Some(tree) = read(alloc, pool, line.as_bytes()) else {
        return Ok(false);
    };
    match reducer.reduce(pool, tree, watch) {
        Ok(_reduced) => are_named(alloc, pool.bytes(), text),
        Err(_) => Ok(false),
    }
}

/// Whether a pool of its own has these bytes once a line's tree has been reduced in it.
fn is_laid(alloc: Global, line: &str, text: &str) -> Result<bool, AllocError> {
    let mut watch = armed(alloc, u64::MAX)?;
    let mut pool = open_pool(alloc, SIZE)?;
    has_bytes(alloc, &DeepReducer, &mut pool, line, text, &mut watch)
}

/// The place of the first row whose pool has other bytes.
fn first_other(alloc: Global, table: &str) -> Result<Option<usize>, AllocError> {
    for (place, row) in table.lines().enumerate() {
        let (line, text) = row.split_once(" = ").unwrap_or((row, ""));
        if !is_laid(alloc, line, text)? {
            return Ok(Some(place));
        }
    }
    Ok(None)
}

#[test]
fn pools_have_their_bytes(rt: HostRuntime) -> Result<(), Fail> {
    let other = first_other(rt.alloc(), BYTES)?;
    assert_eq!(rt; other, None);
    Ok(())
}
