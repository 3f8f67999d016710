//! Shapes of trees, and the trees that they are.
ghost use Rattle.std.specs.Prelude.{◌≡◌, ◌↔◌, ◌<◌, ◌≤◌, IfErr, IfOk, IsOk, IsTrue, OnOk, nat_abs, true};
ghost use Rattle.calc_language.specs.Texts.{IsWritable};
ghost use Rattle.tree_handles.specs.Expressions.{takes_kind};
ghost use Rattle.tree_handles.specs.Handed.{Gives};
ghost use Rattle.tree_handles.specs.Standing.{KeepsRefusals, LacksBytes, Stands, forest};
ghost use Rattle.calc_terms.specs.Fractions.{whole_fraction};
ghost use Rattle.calc_terms.specs.Limits.{number_limit};
ghost use Rattle.calc_terms.specs.Trees.{num, size, symbol, undef};
ghost use Rattle.node_pool.specs.State.{free_of};
ghost use Rattle.tree_shapes.specs.Shapes.{tree_of, kind_of_pair, kind_of_single, name_or_ans};

use calc_terms::{Kind, Name, Rat};
use node_pool::{Full, Pool};
use tree_handles::{Handle, node, node_over, node_over_two, number, symbol};

/// A node with two children.
#[derive(Clone, Copy, Debug)]
pub enum Pair {
    Sum,
    Difference,
    Product,
    Quotient,
    Power,
}

impl Pair {
    fn kind(self) -> Kind
        ensures kind { result ≡ kind_of_pair self }
        ensures takes { takes_kind result 2 ≡ true }
    {
        match self {
            Pair::Sum => Kind::Add,
            Pair::Difference => Kind::Sub,
            Pair::Product => Kind::Mult,
            Pair::Quotient => Kind::Div,
            Pair::Power => Kind::Pow,
        }
    }
}

/// A node with one child.
#[derive(Clone, Copy, Debug)]
pub enum Single {
    Opposite,
    Root,
}

impl Single {
    fn kind(self) -> Kind
        ensures kind { result ≡ kind_of_single self }
        ensures takes { takes_kind result 1 ≡ true }
    {
        match self {
            Single::Opposite => Kind::Neg,
            Single::Root => Kind::Root,
        }
    }
}

/// A tree, by its root and its children. Bytes that are no name stand for `ans`.
#[derive(Clone, Copy)]
pub enum Shape<'a> {
    Name(&'a [u8]),
    Number(u64),
    /// The opposite of a number, as one node.
    Negative(u64),
    Undef,
    Two(Pair, &'a Shape<'a>, &'a Shape<'a>),
    One(Single, &'a Shape<'a>),
}

impl Shape<'_> {
    /// Whether a line can hold the tree, which has no negative number then.
    pub fn is_writable(&self) -> bool
        ensures { IsTrue result ↔ IsWritable (tree_of self.now) }
    {
        match self {
            Shape::Name(_) | Shape::Number(_) | Shape::Undef => true,
            Shape::Negative(value) => *value == 0,
            Shape::Two(_, left, right) => left.is_writable() && right.is_writable(),
            Shape::One(_, child) => child.is_writable(),
        }
    }
}

/// A new last tree of that shape. Its height on the machine's stack is that of the shape.
pub fn grow(pool: &mut Pool, shape: &Shape) -> Result<Handle, Full>
    requires { Stands pool.old }
    ensures ok { IfOk result (λ h. Gives (forest pool.old) (forest pool.new) h (λ t. t ≡ tree_of shape.now)) }
    ensures kept { OnOk result (KeepsRefusals pool.old pool.new) }
    ensures exactly { IsOk result ↔ (size (tree_of shape.now) ≤ free_of pool.old) }
    ensures caused { IfErr result (LacksBytes pool.new) }
    ensures stands { Stands pool.new }
{
    match shape {
        Shape::Name(bytes) => named(pool, bytes),
        Shape::Number(value) => whole(pool, i128::from(*value)),
        Shape::Negative(value) => whole(pool, -i128::from(*value)),
        Shape::Undef => undefined(pool),
        Shape::Two(pair, left, right) => {
            let left = grow(pool, left)?;
            let right = grow(pool, right)?;
            let tree = node_over_two(pool, pair.kind(), left, right)?;
            Ok(tree)
        }
        Shape::One(single, child) => {
            let child = grow(pool, child)?;
            let tree = node_over(pool, single.kind(), child)?;
            Ok(tree)
        }
    }
}

/// A symbol, `ans` where the bytes are no name.
fn named(pool: &mut Pool, bytes: &[u8]) -> Result<Handle, Full>
    requires { Stands pool.old }
    ensures ok { IfOk result (λ h. Gives (forest pool.old) (forest pool.new) h (λ t. t ≡ symbol (name_or_ans bytes.now))) }
    ensures kept { OnOk result (KeepsRefusals pool.old pool.new) }
    ensures exactly { IsOk result ↔ (size (symbol (name_or_ans bytes.now)) ≤ free_of pool.old) }
    ensures caused { IfErr result (LacksBytes pool.new) }
    ensures stands { Stands pool.new }
{
    let name = Name::read(bytes).unwrap_or(Name::ans());
    let tree = symbol(pool, name)?;
    Ok(tree)
}

fn whole(pool: &mut Pool, value: i128) -> Result<Handle, Full>
    requires stands { Stands pool.old }
    requires fits { nat_abs value < number_limit }
    ensures ok { IfOk result (λ h. Gives (forest pool.old) (forest pool.new) h (λ t. t ≡ num (whole_fraction value))) }
    ensures kept { OnOk result (KeepsRefusals pool.old pool.new) }
    ensures exactly { IsOk result ↔ (size (num (whole_fraction value)) ≤ free_of pool.old) }
    ensures caused { IfErr result (LacksBytes pool.new) }
    ensures stands { Stands pool.new }
{
    let tree = number(pool, Rat::whole(value))?;
    Ok(tree)
}

fn undefined(pool: &mut Pool) -> Result<Handle, Full>
    requires { Stands pool.old }
    ensures ok { IfOk result (λ h. Gives (forest pool.old) (forest pool.new) h (λ t. t ≡ undef)) }
    ensures kept { OnOk result (KeepsRefusals pool.old pool.new) }
    ensures exactly { IsOk result ↔ (size undef ≤ free_of pool.old) }
    ensures caused { IfErr result (LacksBytes pool.new) }
    ensures stands { Stands pool.new }
{
    let tree = node(pool, Kind::Undef)?;
    Ok(tree)
}
