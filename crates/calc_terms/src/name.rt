//! Names of symbols.
ghost use Rattle.std.specs.Prelude.{◌≡◌, ◌↔◌, IfSome, IsSome, is_some, length, codes};
ghost use Rattle.calc_terms.specs.Name.{HoldsName, before_zero, is_name, padded, IsName, begins_with_letter, is_name_byte, is_reserved};
ghost use Rattle.std.specs.List.{list_all};

/// A name of one to seven bytes, with zeros behind it to eight.
#[derive(Clone, Copy, Debug, PartialEq, Eq)]
pub struct Name {
    text: [u8; 8],
    ghost holds_name: { HoldsName text },
}

impl Name {
    ghost use Rattle.calc_terms.specs.Leaf.{name_of};

    /// The name that these bytes are.
    pub fn read(bytes: &[u8]) -> Option<Name>
        ensures value { IfSome result (λ name. name_of name ≡ bytes.now) }
        ensures exactly { is_some result ≡ is_name bytes.now }
        ensures in_words { IsSome result ↔ IsName bytes.now }
    {
        if !is_name(bytes) {
            return None;
        }
        let mut text = [0; 8];
        text[..bytes.len()].copy_from_slice(bytes);
        Some(Name { text })
    }

    /// The name of the last answer.
    pub fn ans() -> Name
        ensures { name_of result ≡ codes "ans" }
    {
        Name {
            text: *b"ans\0\0\0\0\0",
        }
    }

    pub fn len(&self) -> usize
        ensures { result ≡ length (name_of self.now) }
    {
        let mut len = 0;
        while len < 8 && self.text[len] != 0 {
            len += 1;
        }
        len
    }

    /// The name without the zeros.
    pub fn bytes(&self) -> &[u8]
        ensures value { result.now ≡ name_of self.now }
        ensures name { IsName result.now }
    {
        &self.text[..self.len()]
    }

    /// The name, and zeros to eight bytes.
    pub fn padded(self) -> [u8; 8]
        ensures value { result ≡ padded (name_of self) }
        ensures name { HoldsName result }
    {
        self.text
    }

    /// The name that eight bytes hold.
    pub fn from_padded(text: [u8; 8]) -> Name
        requires { HoldsName text }
        ensures { name_of result ≡ before_zero text }
    {
        Name { text }
    }
}

fn is_name(bytes: &[u8]) -> bool
    ensures { result ≡ is_name bytes.now }
{
    begins_with_letter(bytes) && is_spelled(bytes) && bytes.len() <= 7 && !is_reserved(bytes)
}

fn begins_with_letter(bytes: &[u8]) -> bool
    ensures { result ≡ begins_with_letter bytes.now }
{
    match bytes.first() {
        Some(first) => first.is_ascii_alphabetic(),
        None => false,
    }
}

fn is_spelled(bytes: &[u8]) -> bool
    ensures { result ≡ list_all is_name_byte bytes.now }
{
    bytes.iter().all(|b| b.is_ascii_alphanumeric())
}

fn is_reserved(bytes: &[u8]) -> bool
    ensures { result ≡ is_reserved bytes.now }
{
    bytes == b"sqrt".as_slice() || bytes == b"undef".as_slice()
}
