//! Every rotation and every slide in a short region, against the same on a list.
ghost use Rattle.std.specs.Prelude.{◌+◌, ◌≤◌};

use raw_region::Region;
use std::alloc::{AllocError, Global};
use std::test::Fail;

const COUNT: [u8; 24] = [
    0, 1, 2, 3, 4, 5, 6, 7, 8, 9, 10, 11, 12, 13, 14, 15, 16, 17, 18, 19, 20, 21, 22, 23,
];

/// Whether the region holds what the list holds once both have turned.
fn turns(alloc: Global, start: u8, mid: u8, end: u8) -> Result<bool, AllocError>
    requires low { start ≤ mid }
    requires high { mid ≤ end }
    requires inside { end ≤ 24 }
{
    let mut region = Region::new(alloc, 24)?;
    region.write(0, &COUNT);
    region.rotate(u32::from(start), u32::from(mid), u32::from(end));
    let mut list = COUNT;
    list[usize::from(start)..usize::from(end)].rotate_left(usize::from(mid - start));
    Ok(region.bytes() == list.as_slice())
}

/// Whether every rotation is that of a list.
fn all_turn(alloc: Global) -> Result<bool, AllocError> {
    for end in 0..25u8 {
        for mid in 0..end + 1 {
            for start in 0..mid + 1 {
                if !turns(alloc, start, mid, end)? {
                    return Ok(false);
                }
            }
        }
    }
    Ok(true)
}

/// Whether the region holds what the list holds once both have slid.
fn slides(alloc: Global, from: u8, to: u8, len: u8) -> Result<bool, AllocError>
    requires source { from + len ≤ 24 }
    requires target { to + len ≤ 24 }
{
    let mut region = Region::new(alloc, 24)?;
    region.write(0, &COUNT);
    region.slide(u32::from(from), u32::from(to), u32::from(len));
    let mut list = COUNT;
    let start = usize::from(from);
    list.copy_within(start..start + usize::from(len), usize::from(to));
    Ok(region.bytes() == list.as_slice())
}

/// Whether every slide is that of a list.
fn all_slide(alloc: Global) -> Result<bool, AllocError> {
    for len in 0..25u8 {
        for from in 0..25 - len {
            for to in 0..25 - len {
                if !slides(alloc, from, to, len)? {
                    return Ok(false);
                }
            }
        }
    }
    Ok(true)
}

#[test]
fn regions_move_as_lists_do(rt: HostRuntime) -> Result<(), Fail> {
    assert!(rt; Region::new(rt.alloc(), 0)?.bytes().is_empty());
    assert!(rt; all_turn(rt.alloc())?);
    assert!(rt; all_slide(rt.alloc())?);
    Ok(())
}
