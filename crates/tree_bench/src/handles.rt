//! How many copies, swaps and releases a second holds, in trees of about one number of nodes.

ghost use Rattle.std.specs.Prelude.{◌≡◌, ◌≤◌, IfOk};
ghost use Rattle.tree_handles.specs.Handed.{IsHanded};
ghost use Rattle.tree_handles.specs.Standing.{Stands, forest};

use anyhow::Context;
use calc_terms::{Kind, Rat};
use node_pool::{Full, Pool};
use std::io;
use std::rt::Clock;
use std::time::Instant;
use tree_handles::{
    Handle, children, copy_tree, node_over_two, number, open_pool, release, swap_children,
};

/// Nodes that are copied in all, and as many that are released, whatever the size of the tree.
const COPIED: u32 = 1_000_000;

/// Children of a tree that change places in all.
const SWAPPED: u32 = 20_000;

/// Times of many calls, in nanoseconds.
#[derive(Drop)]
struct Times {
    copying: u128,
    releasing: u128,
    calls: u128,
}

/// Measures trees of about that many nodes.
pub fn measure(rt: &HostRuntime, word: &str) -> anyhow::Result<()> {
    let nodes: u16 = word.parse().context("no number of nodes")?;
    if nodes < 3 {
        println!(rt; "{nodes} nodes: at least 3 are wanted")?;
        return Ok(());
    }
    let mut pool = open_pool(rt.alloc(), 524_280)?;
    match nested_sums(&mut pool, nodes) {
        Ok(sum) => report(rt, &mut pool, &sum, nodes)?,
        Err(full) => println!(rt;
            "{nodes} nodes: {} bytes needed, {} free",
            full.needed, full.free
        )?,
    }
    Ok(())
}

fn report(rt: &HostRuntime, pool: &mut Pool, sum: &Handle, nodes: u16) -> anyhow::Result<()>
    requires stands { Stands pool.old }
    requires handed { IsHanded sum.now (forest pool.old) }
    requires many { 3 ≤ nodes }
{
    let times = copies(rt, pool, sum, COPIED / u32::from(nodes))?;
    let copies = per_second(times.calls, times.copying);
    let releases = per_second(times.calls, times.releasing);
    let swaps = per_second(u128::from(SWAPPED), swaps(rt, pool, sum)?);
    println!(rt; "{nodes} nodes: {copies} copies, {swaps} swaps and {releases} releases a second")?;
    Ok(())
}

fn per_second(calls: u128, nanos: u128) -> u128 {
    calls.saturating_mul(1_000_000_000) / nanos.max(1)
}

/// Sums in sums, of about that many nodes in all.
fn nested_sums(pool: &mut Pool, nodes: u16) -> Result<Handle, Full>
    requires stands { Stands pool.old }
    ensures handed { IfOk result (λ h. IsHanded h (forest pool.new)) }
    ensures stands { Stands pool.new }
{
    let mut sum = number(pool, Rat::whole(1))?;
    for _ in 0..nodes / 2 {
        let term = number(pool, Rat::whole(1))?;
        sum = node_over_two(pool, Kind::Add, term, sum)?;
    }
    Ok(sum)
}

/// Copies the tree and releases the copy, time after time.
fn copies(rt: &impl Clock, pool: &mut Pool, sum: &Handle, rounds: u32) -> io::Result<Times>
    requires stands { Stands pool.old }
    requires handed { IsHanded sum.now (forest pool.old) }
    ensures forest { IfOk result (λ _. forest pool.new ≡ forest pool.old) }
    ensures stands { Stands pool.new }
{
    let mut times = Times {
        copying: 0,
        releasing: 0,
        calls: 0,
    };
    for _ in 0..rounds {
        let start = Instant::now(rt)?;
        if let Ok(copy) = copy_tree(pool, sum.id()) {
            let copied = start.elapsed(rt)?.as_nanos();
            release(pool, copy);
            let released = start.elapsed(rt)?.as_nanos();
            times.calls = times.calls.saturating_add(1);
            times.copying = times.copying.saturating_add(copied);
            times.releasing = times
                .releasing
                .saturating_add(released.saturating_sub(copied));
        }
    }
    Ok(times)
}

/// The nanoseconds in which the first and the last child change places, time after time.
fn swaps(rt: &impl Clock, pool: &mut Pool, sum: &Handle) -> io::Result<u128>
    requires stands { Stands pool.old }
    requires handed { IsHanded sum.now (forest pool.old) }
    ensures stands { Stands pool.new }
{
    let start = Instant::now(rt)?;
    for _ in 0..SWAPPED {
        let children = children(pool, sum.id());
        if children > 1 {
            swap_children(pool, sum, 0, children - 1);
        }
    }
    Ok(start.elapsed(rt)?.as_nanos())
}
