//! Which trees are linear.
ghost use Rattle.std.specs.Prelude.{◌≡◌};
ghost use Rattle.linear_solve.specs.Linear.{is_divisor, is_linear, is_nonzero, joined_name, name_where_linear, root_name};
ghost use Rattle.tree_handles.specs.Expressions.{IsExpression, plain};
ghost use Rattle.tree_handles.specs.Inside.{tree_at};
ghost use Rattle.tree_handles.specs.Standing.{Stands, forest};

use calc_terms::Kind;
use node_pool::{Id, Pool};
use tree_handles::{child_id, children, kind, rational};

/// Whether a tree is linear.
///
/// A child is asked by a call within its parent's, so the machine's stack that it takes grows with the tree's depth.
pub fn is_linear(pool: &Pool, t: Id) -> bool
    requires stands { Stands pool.now }
    requires expression { IsExpression t (forest pool.now) }
    ensures { result ≡ is_linear (plain (tree_at t (forest pool.now))) }
{
    name_where_linear(pool, t).is_some()
}

/// Whether a linear tree holds a name. A tree that is not linear has no answer.
fn name_where_linear(pool: &Pool, t: Id) -> Option<bool>
    requires stands { Stands pool.now }
    requires expression { IsExpression t (forest pool.now) }
    ensures { result ≡ name_where_linear (plain (tree_at t (forest pool.now))) }
{
    let kind = kind(pool, t);
    let mut named = root_name(pool, t)?;
    for at in 0..children(pool, t) {
        let child = name_where_linear(pool, child_id(pool, t, at))?;
        named = joined_name(kind, named, child)?;
    }
    Some(named)
}

/// Whether a root holds a name, where it may be that of a linear tree.
fn root_name(pool: &Pool, t: Id) -> Option<bool>
    requires stands { Stands pool.now }
    requires expression { IsExpression t (forest pool.now) }
    ensures { result ≡ root_name (plain (tree_at t (forest pool.now))) }
{
    match kind(pool, t) {
        Kind::Num | Kind::Add | Kind::Mult | Kind::Neg | Kind::Sub => Some(false),
        Kind::Sym => Some(true),
        Kind::Div => is_divisor(pool, child_id(pool, t, 1)).then_some(false),
        _ => None,
    }
}

/// Whether one of the children so far and the next one hold a name.
fn joined_name(kind: Kind, named: bool, child: bool) -> Option<bool>
    ensures { result ≡ joined_name kind named child }
{
    match kind {
        Kind::Mult => (!(named && child)).then_some(named || child),
        _ => Some(named || child),
    }
}

/// Whether a tree is a rational other than 0, or the opposite of one.
fn is_divisor(pool: &Pool, t: Id) -> bool
    requires stands { Stands pool.now }
    requires expression { IsExpression t (forest pool.now) }
    ensures { result ≡ is_divisor (plain (tree_at t (forest pool.now))) }
{
    match kind(pool, t) {
        Kind::Neg => is_nonzero(pool, child_id(pool, t, 0)),
        _ => is_nonzero(pool, t),
    }
}

/// Whether a tree is a rational other than 0.
fn is_nonzero(pool: &Pool, t: Id) -> bool
    requires stands { Stands pool.now }
    requires expression { IsExpression t (forest pool.now) }
    ensures { result ≡ is_nonzero (plain (tree_at t (forest pool.now))) }
{
    match kind(pool, t) {
        Kind::Num => !rational(pool, t).is_zero(),
        _ => false,
    }
}
