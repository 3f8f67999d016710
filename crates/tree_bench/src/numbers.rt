//! How many sums, products and inverses a second holds, of Numbers with one number of classes.

ghost use Rattle.std.specs.Prelude.{◌≡◌, IfOk, true};
ghost use Rattle.calc_algebra.specs.Numbers.{is_number};
ghost use Rattle.tree_handles.specs.Handed.{Gives};
ghost use Rattle.tree_handles.specs.Standing.{Stands, forest};

use anyhow::Context;
use calc_terms::Rat;
use node_pool::Pool;
use number_forms::{Inverse, add_numbers, invert_number, multiply_numbers, place_term};
use std::rt::Clock;
use std::time::Instant;
use std::{fmt, io};
use surd_terms::square_root;
use tree_handles::{Handle, NumberFault, number, open_pool, release};

/// Calls for Numbers of one class, of which those with more have fewer, by the square of the classes.
const CALLS: u32 = 4_000;

/// The first primes, the roots of which are the classes.
const PRIMES: [u8; 32] = [
    2, 3, 5, 7, 11, 13, 17, 19, 23, 29, 31, 37, 41, 43, 47, 53, 59, 61, 67, 71, 73, 79, 83, 89, 97,
    101, 103, 107, 109, 113, 127, 131,
];

/// Calls that were answered, and their nanoseconds.
#[derive(Drop)]
struct Times {
    calls: u128,
    nanos: u128,
}

impl Times {
    fn none() -> Times {
        Times { calls: 0, nanos: 0 }
    }

    fn and(self, nanos: u128) -> Times {
        Times {
            calls: self.calls.saturating_add(1),
            nanos: self.nanos.saturating_add(nanos),
        }
    }

    fn per_second(&self) -> Rate {
        Rate {
            thousandths: self.calls.saturating_mul(1_000_000_000_000) / self.nanos.max(1),
        }
    }
}

/// Calls a second, in thousandths, so that calls of many seconds show too.
#[derive(Drop)]
struct Rate {
    thousandths: u128,
}

impl fmt::Display for Rate {
    fn fmt<W: fmt::Write>(&self, f: &mut fmt::Formatter<W>) -> fmt::Result {
        let (whole, decimals) = (self.thousandths / 1000, self.thousandths % 1000);
        write!(f, "{whole}.{decimals:03}")
    }
}

/// Measures Numbers of that many classes.
pub fn measure(rt: &HostRuntime, word: &str) -> anyhow::Result<()> {
    let classes: usize = word.parse().context("no number of classes")?;
    let mut pool = open_pool(rt.alloc(), 524_280)?;
    let sums = sums(rt, &mut pool, classes)?.per_second();
    let products = products(rt, &mut pool, classes)?.per_second();
    let inverses = inverses(rt, &mut pool, classes)?.per_second();
    println!(rt;
        "{classes} classes: {sums} sums, {products} products and {inverses} inverses a second"
    )?;
    Ok(())
}

/// The calls that are made for Numbers of this many classes.
fn rounds(classes: usize) -> u32 {
    let classes = classes.min(PRIMES.len()) as u32;
    CALLS / (classes * classes).max(1)
}

/// A new last tree, the sum of the roots of the first primes.
fn roots(pool: &mut Pool, classes: usize) -> Result<Handle, NumberFault>
    requires { Stands pool.old }
    ensures ok { IfOk result (λ h. Gives (forest pool.old) (forest pool.new) h (λ t. is_number t ≡ true)) }
    ensures stands { Stands pool.new }
{
    let mut sum = number(pool, Rat::whole(0))?;
    for prime in PRIMES.iter().take(classes) {
        let root = root(pool, *prime)?;
        sum = add_numbers(pool, sum, root)?;
    }
    Ok(sum)
}

/// A new last tree, the root of a number, and of 1 for 0.
fn root(pool: &mut Pool, n: u8) -> Result<Handle, NumberFault>
    requires { Stands pool.old }
    ensures ok { IfOk result (λ h. Gives (forest pool.old) (forest pool.new) h (λ t. is_number t ≡ true)) }
    ensures stands { Stands pool.new }
{
    let term = square_root(Rat::whole(i128::from(n.max(1))))?;
    let root = place_term(pool, term)?;
    Ok(root)
}

/// Sums of two Numbers that are made for each.
fn sums(rt: &impl Clock, pool: &mut Pool, classes: usize) -> io::Result<Times>
    requires { Stands pool.old }
    ensures { Stands pool.new }
{
    let mut times = Times::none();
    for _ in 0..rounds(classes) {
        let Ok(a) = roots(pool, classes) else {
            break;
        };
        let Ok(b) = roots(pool, classes) else {
            break;
        };
        let start = Instant::now(rt)?;
        let Ok(sum) = add_numbers(pool, a, b) else {
            break;
        };
        times = times.and(start.elapsed(rt)?.as_nanos());
        release(pool, sum);
    }
    Ok(times)
}

/// Products of two Numbers that are made for each.
fn products(rt: &impl Clock, pool: &mut Pool, classes: usize) -> io::Result<Times>
    requires { Stands pool.old }
    ensures { Stands pool.new }
{
    let mut times = Times::none();
    for _ in 0..rounds(classes) {
        let Ok(a) = roots(pool, classes) else {
            break;
        };
        let Ok(b) = roots(pool, classes) else {
            break;
        };
        let start = Instant::now(rt)?;
        let Ok(product) = multiply_numbers(pool, a, b) else {
            break;
        };
        times = times.and(start.elapsed(rt)?.as_nanos());
        release(pool, product);
    }
    Ok(times)
}

/// Inverses of Numbers that are made for each; three classes and more have none, which is counted as well.
fn inverses(rt: &impl Clock, pool: &mut Pool, classes: usize) -> io::Result<Times>
    requires { Stands pool.old }
    ensures { Stands pool.new }
{
    let mut times = Times::none();
    for _ in 0..rounds(classes) {
        let Ok(a) = roots(pool, classes) else {
            break;
        };
        let start = Instant::now(rt)?;
        let Ok(inverse) = invert_number(pool, a) else {
            break;
        };
        times = times.and(start.elapsed(rt)?.as_nanos());
        match inverse {
            Inverse::Value(answer) => release(pool, answer),
            Inverse::Wide(answer) => release(pool, answer),
            Inverse::Zero => {}
        }
    }
    Ok(times)
}
