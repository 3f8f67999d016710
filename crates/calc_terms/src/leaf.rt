//! What nodes are made of.
ghost use Rattle.std.specs.Prelude.{◌≡◌, Bool};
ghost use Rattle.calc_terms.specs.Leaf.{payload_of};
ghost use Rattle.calc_terms.specs.Payload.{kind_of_payload, has_short_form, size_of_payload};
ghost use Rattle.calc_terms.specs.Node.{form_of, header_of, fresh, size_of_header};
ghost use Rattle.calc_terms.specs.Kind.{code_of, size_by_form};

use crate::kind::Kind;
use crate::name::Name;
use crate::rat::Rat;

/// What a node holds. `Plain` is for kinds other than `Num` and `Sym`.
#[derive(Clone, Copy, Debug)]
pub enum Leaf {
    Num(Rat),
    Sym(Name),
    Plain(Kind),
}

impl Leaf {
    pub fn kind(self) -> Kind
        ensures { result ≡ kind_of_payload (payload_of self) }
    {
        match self {
            Leaf::Num(_) => Kind::Num,
            Leaf::Sym(_) => Kind::Sym,
            Leaf::Plain(kind) => kind,
        }
    }

    /// Whether it is a number that has the short form.
    pub fn is_short(self) -> bool
        ensures { result ≡ has_short_form (payload_of self) }
    {
        match self {
            Leaf::Num(value) => value.is_short(),
            _ => false,
        }
    }

    /// The bytes of a node that holds it.
    pub fn size(self) -> u32
        ensures { result ≡ size_of_payload (payload_of self) }
    {
        self.header(0).size()
    }

    /// The header of a new node.
    pub fn header(self, id: u16) -> Header
        ensures { result ≡ header_of (fresh id (payload_of self)) }
    {
        Header {
            kind: self.kind(),
            short: self.is_short(),
            id,
            count: 1,
            children: 0,
        }
    }
}

/// The front of a node. `short` tells that it is a number in the short form, `count` how often it is held.
#[derive(Clone, Copy, Debug, PartialEq, Eq)]
pub struct Header {
    pub kind: Kind,
    pub short: bool,
    pub id: u16,
    pub count: u16,
    pub children: u16,
}

impl Header {
    /// The bytes of the whole node.
    pub fn size(self) -> u32
        ensures { result ≡ size_of_header self }
    {
        match self.kind {
            Kind::Num if self.short => 16,
            Kind::Num => 40,
            Kind::Sym => 16,
            _ => 8,
        }
    }
}

/// The bytes of a node, told by the first two bytes of its header: the code of its kind, and the form.
#[inline(always)]
pub fn size_by_code(code: u8, form: u8) -> u32
    ensures { (kind : Kind) (short : Bool) → code ≡ code_of kind → form ≡ form_of short → result ≡ size_by_form kind short }
{
    if code > 2 {
        return 8;
    }
    if code == 2 {
        return 16;
    }
    if form == 0 { 40 } else { 16 }
}
