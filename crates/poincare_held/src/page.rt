//! A sink over bytes of the caller's.
ghost use Rattle.std.specs.Prelude.{◌≡◌, [], ◌∷◌, ◌++◌, length};
ghost use Rattle.poincare_held.specs.Pages.{IsFront, after, over};

use calc_edges::{Failed, History, Sink};

/// Bytes that are lent. It takes all that it is given, keeps what finds room from the front on, and counts all.
#[derive(Drop)]
pub struct Page<'a> {
    out: &'a mut [u8],
    count: usize,
    told: History,
    ghost kept: { IsFront count told.bytes out.now },
}

impl<'a> Page<'a> {
    ghost use Rattle.poincare_held.specs.Writing.{Writes, told_on};

    pub fn new(out: &'a mut [u8]) -> Page<'a>
        ensures told { told_on result ≡ [] }
        ensures lent { result.out.ghost_name ≡ out.entry.ghost_name }
    {
        Page {
            out,
            count: 0,
            told: History::new(),
        }
    }

    /// How many bytes it was given, up to 2^64 - 1.
    pub fn count(&self) -> usize
        ensures { result ≡ self.now.count }
    {
        self.count
    }

    pub fn push(&mut self, from: &[u8])
        ensures { Writes self.old from.now self.new }
    {
        lay(self.out, self.count, from);
        self.count = self.count.saturating_add(from.len());
        self.told = self.told.and(from);
    }
}

impl<'a> Sink for Page<'a> {
    ghost use Rattle.std.specs.Prelude.{Some, false};
    ghost use Rattle.poincare_held.specs.Writing.{told_on};

    ghost taken = { λ s. Some (told_on s) };

    // It never fails, so that its count of failures never changes. That a page writes to the same bytes from its
    // beginning to its end is known by this count, which names the borrow.
    ghost faults = { λ s. record { count = s.out.ghost_name; at_last = false } };

    fn write(&mut self, from: &[u8]) -> Result<usize, Failed> {
        self.push(from);
        Ok(from.len())
    }
}

/// Copies bytes behind the first `count`, as far as there is room.
fn lay(out: &mut [u8], count: usize, from: &[u8])
    ensures { out.new ≡ after count from.now out.old }
{
    let at = count.min(out.len());
    copy_front(&mut out[at..], from);
}

/// Copies bytes to the front, as far as there is room.
pub fn copy_front(out: &mut [u8], from: &[u8])
    ensures { out.new ≡ over from.now out.old }
{
    let fit = out.len().min(from.len());
    out[..fit].copy_from_slice(&from[..fit]);
}
