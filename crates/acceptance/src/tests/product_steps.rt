//! The step on a product of two names, which the program does not call by itself.
ghost use Rattle.tree_handles.specs.Standing.{Stands};

use calc_terms::{Kind, Name};
use node_pool::Pool;
use product_reduce::product_step;
use reduce_port::Step;
use std::test::Fail;
use tree_handles::{NumberFault, node_over_two, open_pool, symbol};

/// The step on the product of two names.
fn stepped(pool: &mut Pool, a: Name, b: Name) -> Result<Step, NumberFault>
    requires { Stands pool.old }
    ensures { Stands pool.new }
{
    let first = symbol(pool, a)?;
    let second = symbol(pool, b)?;
    let product = node_over_two(pool, Kind::Mult, first, second)?;
    product_step(pool, product)
}

#[test]
fn equal_names_are_joined(rt: HostRuntime) -> Result<(), Fail> {
    let x = Name::read(b"x").unwrap_or(Name::ans());
    let mut pool = open_pool(rt.alloc(), 512)?;
    let joined = stepped(&mut pool, x, x)?;
    assert!(rt; matches!(joined, Step::Again(_)));
    let kept = stepped(&mut pool, x, Name::ans())?;
    assert!(rt; matches!(kept, Step::Done(_)));
    Ok(())
}
