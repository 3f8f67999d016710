//! How long sums of distinct names take to be put in order.

ghost use Rattle.std.specs.Prelude.{◌≡◌, ◌≤◌, IfOk, true};
ghost use Rattle.calc_terms.specs.Trees.{count, is_add};
ghost use Rattle.calc_algebra.specs.Reduced.{are_reduced};
ghost use Rattle.tree_handles.specs.Handed.{tree_of, IsHanded};
ghost use Rattle.tree_handles.specs.Expressions.{children_of};
ghost use Rattle.tree_handles.specs.Standing.{Stands, forest};

use anyhow::Context;
use calc_terms::{Kind, Name};
use node_pool::{Full, Pool};
use std::io;
use std::rt::Clock;
use std::time::Instant;
use sum_reduce::reduce_sum;
use tree_handles::{Handle, add_child, node, open_pool, release, symbol};

/// Names that are put in order in all, whatever the number of names of a sum.
const NAMES: u32 = 20_000;

/// Sums that were put in order, and their nanoseconds.
#[derive(Drop)]
struct Times {
    sums: u128,
    nanos: u128,
}

/// Measures sums of that many names.
pub fn measure(rt: &HostRuntime, word: &str) -> anyhow::Result<()> {
    let names: u16 = word.parse().context("no number of names")?;
    if names < 1 {
        println!(rt; "{names} names: at least 1 is wanted")?;
        return Ok(());
    }
    let mut pool = open_pool(rt.alloc(), 524_280)?;
    let times = sums(rt, &mut pool, names)?;
    let nanos = times.nanos / times.sums.max(1);
    let each = nanos / u128::from(names).max(1);
    println!(rt;
        "{names} names: {} sums, {nanos} nanoseconds for each, {each} for a name",
        times.sums
    )?;
    Ok(())
}

/// Sums of so many names that are put in order, time after time.
fn sums(rt: &impl Clock, pool: &mut Pool, names: u16) -> io::Result<Times>
    requires stands { Stands pool.old }
    requires some { 1 ≤ names }
    ensures { Stands pool.new }
{
    let mut times = Times { sums: 0, nanos: 0 };
    for _ in 0..NAMES / u32::from(names) {
        let Ok(sum) = sum_of_names(pool, names) else {
            break;
        };
        let start = Instant::now(rt)?;
        let Ok(answer) = reduce_sum(pool, sum) else {
            break;
        };
        times.nanos = times.nanos.saturating_add(start.elapsed(rt)?.as_nanos());
        times.sums = times.sums.saturating_add(1);
        release(pool, answer);
    }
    Ok(times)
}

/// A name for each number; the names of neighbours are far apart.
fn name_of(number: u16) -> Name {
    let code = number.wrapping_mul(7919);
    let letters = [
        b'n',
        b'a' + (code / 4096 % 16) as u8,
        b'a' + (code / 256 % 16) as u8,
        b'a' + (code / 16 % 16) as u8,
        b'a' + (code % 16) as u8,
    ];
    Name::read(&letters).unwrap_or(Name::ans())
}

/// The sum of so many names.
fn sum_of_names(pool: &mut Pool, names: u16) -> Result<Handle, Full>
    requires stands { Stands pool.old }
    requires some { 1 ≤ names }
    ensures handed { IfOk result (λ h. IsHanded h (forest pool.new)) }
    ensures sum { IfOk result (λ h. is_add (tree_of h pool.new) ≡ true) }
    ensures some { IfOk result (λ h. 1 ≤ count (children_of (tree_of h pool.new))) }
    ensures reduced { IfOk result (λ h. are_reduced (children_of (tree_of h pool.new)) ≡ true) }
    ensures stands { Stands pool.new }
{
    let sum = node(pool, Kind::Add)?;
    for number in 0..names {
        let term = symbol(pool, name_of(number))?;
        add_child(pool, &sum, 0, term);
    }
    Ok(sum)
}
