//! The derivative of a tree, written node by node.
ghost use Rattle.std.specs.Prelude.{◌≡◌, ◌<◌, ◌≤◌, ◌+◌, ◌^◌, nat_abs, true};
ghost use Rattle.calc_terms.specs.Fractions.{whole_fraction};
ghost use Rattle.calc_terms.specs.Leaf.{name_of};
ghost use Rattle.calc_terms.specs.Trees.{count, num, power, root_kind, size, sizes};
ghost use Rattle.calc_terms.specs.declared.kind.Kind.TheVariants as kinds;
ghost use Rattle.dual_diff.specs.Derivatives.{derivative, exponent_limit, is_linear, lowered, numerator, with_derivative};
ghost use Rattle.dual_diff.specs.Lists.{behind, first};
ghost use Rattle.dual_diff.specs.Writing.{CanDerive, Holds, one, tree_of};
ghost use Rattle.tree_handles.specs.Expressions.{IsExpression, children_of};
ghost use Rattle.tree_handles.specs.Standing.{Stands, forest};

use crate::derivable::{is_one, is_zero, literal_exponent};
use crate::reading::{child_of, factor_bytes, holds};
use crate::writer::Writer;
use calc_terms::{Kind, Name};
use node_pool::{Id, Pool};
use tree_handles::{children, kind, tree_bytes};

/// The derivative of a tree.
#[cycle(writing)]
pub(crate) fn write_derivative<W: Writer>(writer: &mut W, pool: &mut Pool, tree: Id, name: Name)
    requires tree { CanDerive (name_of name) tree pool.old }
    requires room { W.has_room pool.old (size (derivative (name_of name) (tree_of tree pool.old))) }
    ensures { W.writes writer.old pool.old writer.new pool.new (one (derivative (name_of name) (tree_of tree pool.old))) }
{
    if !holds(pool, tree, name) {
        return writer.number(pool, 0);
    }
    match kind(pool, tree) {
        Kind::Sym => writer.number(pool, 1),
        Kind::Mult => write_products(writer, pool, tree, name),
        Kind::Div => write_quotient(writer, pool, tree, name),
        Kind::Pow => write_power(writer, pool, tree, name),
        Kind::Root => write_root(writer, pool, tree, name),
        kind => write_same(writer, pool, tree, kind, name),
    }
}

/// A node of the same kind over the derivatives of its children, for a sum, a difference or an opposite.
#[cycle(writing)]
#[inline(never)]
fn write_same<W: Writer>(writer: &mut W, pool: &mut Pool, tree: Id, kind: Kind, name: Name)
    requires tree { CanDerive (name_of name) tree pool.old }
    requires holds { Holds kind (name_of name) (tree_of tree pool.old) }
    requires linear { is_linear kind ≡ true }
    requires room { W.has_room pool.old (size (derivative (name_of name) (tree_of tree pool.old))) }
    ensures { W.writes writer.old pool.old writer.new pool.new (one (derivative (name_of name) (tree_of tree pool.old))) }
{
    let begin = pool.used();
    let children = children(pool, tree);
    for at in 0..children {
        let child = child_of(pool, tree, at);
        write_derivative(writer, pool, child, name);
    }
    writer.over(pool, kind, children, begin);
}

/// For each factor that holds the name the product with its derivative in its place, and the sum of these where they are
/// more than one.
#[cycle(writing)]
#[inline(never)]
fn write_products<W: Writer>(writer: &mut W, pool: &mut Pool, tree: Id, name: Name)
    requires tree { CanDerive (name_of name) tree pool.old }
    requires holds { Holds kinds.Mult (name_of name) (tree_of tree pool.old) }
    requires room { W.has_room pool.old (size (derivative (name_of name) (tree_of tree pool.old))) }
    ensures { W.writes writer.old pool.old writer.new pool.new (one (derivative (name_of name) (tree_of tree pool.old))) }
{
    let begin = pool.used();
    let factors = children(pool, tree);
    let whole = factor_bytes(pool, tree);
    let mut seen = 0u32;
    let mut products = 0u16;
    for at in 0..factors {
        let factor = child_of(pool, tree, at);
        let earlier = seen;
        seen += tree_bytes(pool, factor);
        if !holds(pool, factor, name) {
            continue;
        }
        write_product(writer, pool, tree, at, earlier, whole - seen, name);
        products += 1;
    }
    if products > 1 {
        writer.over(pool, Kind::Add, products, begin);
    }
}

/// A product with the derivative of the factor at a place in its place. The factors before it and those behind it have so
/// many bytes.
#[cycle(writing)]
#[inline(never)]
fn write_product<W: Writer>(
    writer: &mut W,
    pool: &mut Pool,
    tree: Id,
    at: u16,
    earlier: u32,
    later: u32,
    name: Name,
)
    requires tree { CanDerive (name_of name) tree pool.old }
    requires within { at < count (children_of (tree_of tree pool.old)) }
    requires earlier { earlier ≡ sizes (first at (children_of (tree_of tree pool.old))) }
    requires later { later ≡ sizes (behind (at + 1) (children_of (tree_of tree pool.old))) }
    requires room { W.has_room pool.old (size (with_derivative (name_of name) at (children_of (tree_of tree pool.old)))) }
    ensures { W.writes writer.old pool.old writer.new pool.new (one (with_derivative (name_of name) at (children_of (tree_of tree pool.old)))) }
{
    let begin = pool.used();
    let factors = children(pool, tree);
    let factor = child_of(pool, tree, at);
    writer.copies(pool, tree, 0, at, earlier);
    write_derivative(writer, pool, factor, name);
    writer.copies(pool, tree, at + 1, factors, later);
    writer.over(pool, Kind::Mult, factors, begin);
}

/// The derivative of a quotient.
#[cycle(writing)]
#[inline(never)]
#[tactic(auto, using(crate::proofs::Forms::two_children))]
fn write_quotient<W: Writer>(writer: &mut W, pool: &mut Pool, tree: Id, name: Name)
    requires tree { CanDerive (name_of name) tree pool.old }
    requires holds { Holds kinds.Div (name_of name) (tree_of tree pool.old) }
    requires room { W.has_room pool.old (size (derivative (name_of name) (tree_of tree pool.old))) }
    ensures { W.writes writer.old pool.old writer.new pool.new (one (derivative (name_of name) (tree_of tree pool.old))) }
{
    let dividend = child_of(pool, tree, 0);
    let divisor = child_of(pool, tree, 1);
    let begin = pool.used();
    if !holds(pool, divisor, name) {
        write_derivative(writer, pool, dividend, name);
        writer.copy(pool, divisor);
        return writer.over(pool, Kind::Div, 2, begin);
    }
    write_difference(writer, pool, dividend, divisor, name);
    write_power_of(writer, pool, divisor, 2);
    writer.over(pool, Kind::Div, 2, begin);
}

/// The numerator of a quotient's derivative: the derivative of the dividend times the divisor, less the dividend times the
/// derivative of the divisor.
#[cycle(writing)]
#[inline(never)]
fn write_difference<W: Writer>(
    writer: &mut W,
    pool: &mut Pool,
    dividend: Id,
    divisor: Id,
    name: Name,
)
    requires above { CanDerive (name_of name) dividend pool.old }
    requires below { CanDerive (name_of name) divisor pool.old }
    requires room { W.has_room pool.old (size (numerator (name_of name) (tree_of dividend pool.old) (tree_of divisor pool.old))) }
    ensures { W.writes writer.old pool.old writer.new pool.new (one (numerator (name_of name) (tree_of dividend pool.old) (tree_of divisor pool.old))) }
{
    let begin = pool.used();
    write_derivative(writer, pool, dividend, name);
    writer.copy(pool, divisor);
    writer.over(pool, Kind::Mult, 2, begin);
    let middle = pool.used();
    writer.copy(pool, dividend);
    write_derivative(writer, pool, divisor, name);
    writer.over(pool, Kind::Mult, 2, middle);
    writer.over(pool, Kind::Sub, 2, begin);
}

/// The derivative of a power.
#[cycle(writing)]
#[inline(never)]
#[tactic(auto, using(crate::proofs::Forms::base_and_exponent, crate::proofs::Numbers::told_fits))]
fn write_power<W: Writer>(writer: &mut W, pool: &mut Pool, tree: Id, name: Name)
    requires tree { CanDerive (name_of name) tree pool.old }
    requires holds { Holds kinds.Pow (name_of name) (tree_of tree pool.old) }
    requires room { W.has_room pool.old (size (derivative (name_of name) (tree_of tree pool.old))) }
    ensures { W.writes writer.old pool.old writer.new pool.new (one (derivative (name_of name) (tree_of tree pool.old))) }
{
    let base = child_of(pool, tree, 0);
    let exponent = child_of(pool, tree, 1);
    let number = literal_exponent(pool, exponent);
    if is_zero(number) {
        return writer.number(pool, 0);
    }
    if is_one(number) {
        return write_derivative(writer, pool, base, name);
    }
    write_lowered(writer, pool, base, number, name);
}

/// The exponent, times the power with the exponent less 1, times the derivative of the base.
#[cycle(writing)]
#[inline(never)]
#[tactic(auto, using(crate::proofs::Numbers::less_fits_signed))]
fn write_lowered<W: Writer>(writer: &mut W, pool: &mut Pool, base: Id, number: i128, name: Name)
    requires base { CanDerive (name_of name) base pool.old }
    requires small { nat_abs number ≤ exponent_limit }
    requires room { let b = tree_of base pool.old in W.has_room pool.old (size (lowered number b (derivative (name_of name) b))) }
    ensures { let b = tree_of base pool.old in W.writes writer.old pool.old writer.new pool.new (one (lowered number b (derivative (name_of name) b))) }
{
    let begin = pool.used();
    writer.number(pool, number);
    write_power_of(writer, pool, base, number - 1);
    write_derivative(writer, pool, base, name);
    writer.over(pool, Kind::Mult, 3, begin);
}

/// The derivative of a root.
#[cycle(writing)]
#[inline(never)]
#[tactic(auto, using(crate::proofs::Forms::one_argument))]
fn write_root<W: Writer>(writer: &mut W, pool: &mut Pool, tree: Id, name: Name)
    requires tree { CanDerive (name_of name) tree pool.old }
    requires holds { Holds kinds.Root (name_of name) (tree_of tree pool.old) }
    requires room { W.has_room pool.old (size (derivative (name_of name) (tree_of tree pool.old))) }
    ensures { W.writes writer.old pool.old writer.new pool.new (one (derivative (name_of name) (tree_of tree pool.old))) }
{
    let argument = child_of(pool, tree, 0);
    let begin = pool.used();
    write_derivative(writer, pool, argument, name);
    let middle = pool.used();
    writer.number(pool, 2);
    writer.copy(pool, tree);
    writer.over(pool, Kind::Mult, 2, middle);
    writer.over(pool, Kind::Div, 2, begin);
}

/// A copy of a tree, to the power of a whole number.
#[inline(never)]
fn write_power_of<W: Writer>(writer: &mut W, pool: &mut Pool, base: Id, exponent: i128)
    requires stands { Stands pool.old }
    requires expression { IsExpression base (forest pool.old) }
    requires fits { nat_abs exponent < 2 ^ 127 }
    requires room { W.has_room pool.old (size (power (tree_of base pool.old) (num (whole_fraction exponent)))) }
    ensures { W.writes writer.old pool.old writer.new pool.new (one (power (tree_of base pool.old) (num (whole_fraction exponent)))) }
{
    let begin = pool.used();
    writer.copy(pool, base);
    writer.number(pool, exponent);
    writer.over(pool, Kind::Pow, 2, begin);
}
