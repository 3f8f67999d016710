//! What joins the children of a node.
ghost use Rattle.std.specs.Prelude.{◌≡◌};
ghost use Rattle.deep_reduce.specs.Connectives.{kind_of, neutral_of};

use calc_terms::Kind;

/// A sum or a product. A difference is the sum with an opposite, a quotient the product with an inverse.
#[derive(Clone, Copy, Debug)]
pub(crate) enum Connective {
    Sum,
    Product,
}

impl Connective {
    /// The kind of its nodes.
    pub(crate) fn kind(self) -> Kind
        ensures { result ≡ kind_of self }
    {
        match self {
            Connective::Sum => Kind::Add,
            Connective::Product => Kind::Mult,
        }
    }

    /// What no children are worth.
    pub(crate) fn neutral(self) -> i128
        ensures { result ≡ neutral_of self }
    {
        match self {
            Connective::Sum => 0,
            Connective::Product => 1,
        }
    }
}
