//! One node's bytes: a header of eight bytes, and then the payload. The header has the code of the
//! kind, the form, and in two bytes each the identifier, the count and the number of children, the
//! lower byte first. The form is 1 for a number in the short form, whose payload is its value in
//! eight bytes, and 0 for every other node. Another number's payload is numerator and denominator in
//! sixteen bytes each, a symbol's its name and zeros to eight bytes, and other nodes have none.
ghost use Rattle.std.specs.Prelude.{◌≡◌, ◌+◌, ◌<◌, ◌≤◌, ◌^◌, length, take, drop, true};
ghost use Rattle.calc_terms.specs.Ratio.{IsRat};
ghost use Rattle.calc_terms.specs.Rat.{ratio_of};
ghost use Rattle.calc_terms.specs.Name.{HoldsName, before_zero};
ghost use Rattle.calc_terms.specs.declared.kind.Kind.TheVariants.{Num};
ghost use Rattle.calc_terms.specs.Kind.{size_by_form};
ghost use Rattle.calc_terms.specs.Payload.{rational, has_short_form, size_of_payload};
ghost use Rattle.calc_terms.specs.Leaf.{payload_of, name_of, IsUsable};
ghost use Rattle.calc_terms.specs.Node.{header_in, header_of, kind_at, short_at, ratio_at, number_at, fresh, encoding, header_bytes, low_bytes, payload_bytes, ratio_bytes, from_bytes};
ghost use Rattle.raw_region.specs.Bytes.{put};

use calc_terms::{Header, Kind, Leaf, Name, Rat};
use raw_region::{Region, read};

/// What the low half of a number of sixteen bytes stays below.
const HALF: u128 = 1 << 64;

/// The header of the node whose bytes stand at a place. It is inlined, so that a caller decodes only the fields that it
/// uses.
#[inline(always)]
pub fn header_at(bytes: &[u8], at: u32) -> Header
    requires inside { at + 8 ≤ length bytes.now }
    ensures { result ≡ header_in (drop at bytes.now) }
{
    let front: [u8; 8] = read(bytes, at as usize);
    Header {
        kind: kind_in(front),
        short: front[1] == 1,
        id: pair_in(front, 2),
        count: pair_in(front, 4),
        children: pair_in(front, 6),
    }
}

/// The rational of the node whose bytes stand at a place.
pub fn rational_at(store: &Region, at: u32) -> Rat
    requires inside { at + size_by_form Num (short_at (drop at store.now)) ≤ length store.now }
    requires small { length store.now < 2 ^ 32 }
    requires rat { IsRat (number_at (short_at (drop at store.now)) (drop (at + 8) store.now)) }
    ensures { ratio_of result ≡ number_at (short_at (drop at store.now)) (drop (at + 8) store.now) }
{
    if is_short_at(store, at) {
        short_at(store, at)
    } else {
        long_at(store, at)
    }
}

/// The number of the short form.
fn short_at(store: &Region, at: u32) -> Rat
    requires inside { at + 8 + 8 ≤ length store.now }
    requires small { length store.now < 2 ^ 32 }
    ensures { ratio_of result ≡ number_at true (drop (at + 8) store.now) }
{
    let value = u64::from_le_bytes(store.read(at + 8));
    Rat::whole(i128::from(value.cast_signed()))
}

/// The number of the long form.
fn long_at(store: &Region, at: u32) -> Rat
    requires inside { at + 8 + 32 ≤ length store.now }
    requires small { length store.now < 2 ^ 32 }
    requires rat { IsRat (ratio_at (drop (at + 8) store.now)) }
    ensures { ratio_of result ≡ ratio_at (drop (at + 8) store.now) }
{
    let num = wide_at(store, at + 8);
    let den = wide_at(store, at + 24);
    Rat::lowest(num.cast_signed(), den.cast_signed())
}

/// The number in sixteen bytes, the lowest byte first.
fn wide_at(store: &Region, at: u32) -> u128
    requires { at + 16 ≤ length store.now }
    ensures { result ≡ from_bytes (take 16 (drop at store.now)) }
{
    u128::from_le_bytes(store.read(at))
}

/// The name of the node whose bytes stand at a place.
pub fn name_at(store: &Region, at: u32) -> Name
    requires inside { at + 8 + 8 ≤ length store.now }
    requires small { length store.now < 2 ^ 32 }
    requires name { HoldsName (take 8 (drop (at + 8) store.now)) }
    ensures { name_of result ≡ before_zero (take 8 (drop (at + 8) store.now)) }
{
    Name::from_padded(store.read(at + 8))
}

/// Writes a new node, held once and without children, of which the header is told.
pub fn write_node(store: &mut Region, at: u32, header: Header, leaf: Leaf)
    requires usable { IsUsable leaf }
    requires header { header ≡ header_of (fresh header.id (payload_of leaf)) }
    requires inside { at + size_of_payload (payload_of leaf) ≤ length store.old }
    requires small { length store.old < 2 ^ 32 }
    ensures { store.new ≡ put store.old at (encoding (fresh header.id (payload_of leaf))) }
{
    write_header(store, at, header);
    match leaf {
        Leaf::Num(value) => write_number(store, at + 8, value, header.short),
        Leaf::Sym(name) => store.write(at + 8, &name.padded()),
        Leaf::Plain(_) => {}
    }
}

/// Writes the count of the node at a place.
pub fn write_count(store: &mut Region, at: u32, count: u16)
    requires inside { at + 8 ≤ length store.old }
    requires small { length store.old < 2 ^ 32 }
    ensures { store.new ≡ put store.old (at + 4) (low_bytes 2 count) }
{
    store.write(at + 4, &count.to_le_bytes());
}

/// Writes the number of children of the node at a place.
pub fn write_children(store: &mut Region, at: u32, children: u16)
    requires inside { at + 8 ≤ length store.old }
    requires small { length store.old < 2 ^ 32 }
    ensures { store.new ≡ put store.old (at + 6) (low_bytes 2 children) }
{
    store.write(at + 6, &children.to_le_bytes());
}

/// The kind that a header's bytes tell.
#[inline(always)]
fn kind_in(front: [u8; 8]) -> Kind
    ensures { result ≡ kind_at front }
{
    match Kind::from_code(front[0]) {
        Some(kind) => kind,
        None => Kind::Undef,
    }
}

/// The number in two bytes of a header, the lower byte first.
#[inline(always)]
fn pair_in(front: [u8; 8], at: usize) -> u16
    requires { at + 2 ≤ 8 }
    ensures { result ≡ from_bytes (take 2 (drop at front)) }
{
    u16::from_le_bytes([front[at], front[at + 1]])
}

/// Whether the header at a place tells the short form.
fn is_short_at(store: &Region, at: u32) -> bool
    requires inside { at + 2 ≤ length store.now }
    requires small { length store.now < 2 ^ 32 }
    ensures { result ≡ short_at (drop at store.now) }
{
    store.get(at + 1) == 1
}

/// Writes the header of the node at a place, its eight bytes at once.
pub fn write_header(store: &mut Region, at: u32, header: Header)
    requires inside { at + 8 ≤ length store.old }
    requires small { length store.old < 2 ^ 32 }
    ensures put { store.new ≡ put store.old at (header_bytes header) }
    ensures len { length store.new ≡ length store.old }
{
    store.write(
        at,
        &[
            header.kind.code(),
            u8::from(header.short),
            (header.id % 256) as u8,
            (header.id / 256) as u8,
            (header.count % 256) as u8,
            (header.count / 256) as u8,
            (header.children % 256) as u8,
            (header.children / 256) as u8,
        ],
    );
}

/// Writes a number in its form.
fn write_number(store: &mut Region, at: u32, value: Rat, short: bool)
    requires form { short ≡ has_short_form (rational (ratio_of value)) }
    requires inside { at + size_of_payload (rational (ratio_of value)) ≤ length store.old + 8 }
    requires small { length store.old < 2 ^ 32 }
    ensures { store.new ≡ put store.old at (payload_bytes (rational (ratio_of value))) }
{
    if short {
        store.write(at, &(value.num() as i64).cast_unsigned().to_le_bytes());
    } else {
        write_rational(store, at, value);
    }
}

fn write_rational(store: &mut Region, at: u32, value: Rat)
    requires inside { at + 32 ≤ length store.old }
    requires small { length store.old < 2 ^ 32 }
    ensures { store.new ≡ put store.old at (ratio_bytes (ratio_of value)) }
{
    store.write(at, &wide_bytes(value.num().cast_unsigned()));
    store.write(at + 16, &wide_bytes(value.den().cast_unsigned()));
}

/// The halves one by one, since the machine writes eight bytes at once.
fn wide_bytes(number: u128) -> [u8; 16]
    ensures { result ≡ low_bytes 16 number }
{
    let low = (number % HALF) as u64;
    let high = (number / HALF) as u64;
    let mut bytes = [0; 16];
    bytes[..8].copy_from_slice(&low.to_le_bytes());
    bytes[8..].copy_from_slice(&high.to_le_bytes());
    bytes
}
