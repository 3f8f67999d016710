//! How many nodes a pool places and removes in a second.

ghost use Rattle.std.specs.Prelude.{◌<◌};

use anyhow::Context;
use calc_terms::{Kind, Leaf};
use node_pool::Pool;
use std::rt::Clock;
use std::time::Instant;

/// Nodes that are placed in all, whatever the number in the pool.
const PLACED: u32 = 65_520;

/// Measures a pool with that many nodes.
pub fn measure(rt: &HostRuntime, word: &str) -> anyhow::Result<()> {
    let nodes: u32 = word.parse().context("no number of nodes")?;
    if nodes == 0 || nodes > 65_535 {
        println!(rt; "{nodes} nodes: from 1 to 65535 fit")?;
        return Ok(());
    }
    let mut pool = Pool::open(rt.alloc(), 524_280)?;
    let whole = per_second(rt, &mut pool, nodes, false)?;
    let single = per_second(rt, &mut pool, nodes, true)?;
    println!(rt;
        "{nodes} nodes: {whole} a second, removed at once; {single}, removed from the front"
    )?;
    Ok(())
}

/// Nodes a second that are placed and removed, in rounds of `nodes`.
fn per_second(rt: &impl Clock, pool: &mut Pool, nodes: u32, singly: bool) -> anyhow::Result<u128>
    requires { 0 < nodes }
{
    let start = Instant::now(rt)?;
    let mut count: u128 = 0;
    for _ in 0..PLACED / nodes {
        for _ in 0..nodes {
            if pool.place(Leaf::Plain(Kind::Add)).is_ok() {
                count = count.saturating_add(1);
            }
        }
        if singly {
            remove_from_the_front(pool);
        } else {
            remove_at_once(pool);
        }
    }
    let micros = start.elapsed(rt)?.as_micros().max(1);
    Ok(count.saturating_mul(1_000_000) / micros)
}

fn remove_at_once(pool: &mut Pool) {
    let used = pool.used();
    pool.remove_block(0, used);
}

fn remove_from_the_front(pool: &mut Pool) {
    for _ in 0..pool.nodes() {
        if pool.used() > 0 {
            let size = pool.header(0).size();
            pool.remove_block(0, size);
        }
    }
}
