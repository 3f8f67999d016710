//! What is kept of a line while its bytes come.
ghost use Rattle.std.specs.Prelude.{◌≡◌, ℕ, List, [], ◌∷◌, ◌++◌, ◌↔◌, IsTrue};
ghost use Rattle.poincare_run.specs.Buffer.{Holds, StandsFor};

use arrayvec::ArrayVec;

/// One byte more than a line may have.
const KEPT_LIMIT: usize = 1025;

/// The first bytes of a line. A carriage return waits until it is known whether it ends the line.
#[derive(Drop)]
pub struct LineBuffer {
    pub kept: ArrayVec<u8, KEPT_LIMIT>,
    pub returned: bool,
}

impl LineBuffer {
    pub fn new() -> LineBuffer
        ensures { Holds result [] }
    {
        LineBuffer {
            kept: ArrayVec::new(),
            returned: false,
        }
    }

    pub fn clear(&mut self)
        ensures { Holds self.new [] }
    {
        self.kept.clear();
        self.returned = false;
    }

    pub fn push(&mut self, byte: u8)
        ensures { (bytes : List ℕ) → Holds self.old bytes → Holds self.new (bytes ++ byte ∷ []) }
    {
        if self.returned {
            keep(&mut self.kept, b'\r');
        }
        self.returned = byte == b'\r';
        if !self.returned {
            keep(&mut self.kept, byte);
        }
    }

    pub fn is_empty(&self) -> bool
        ensures { (bytes : List ℕ) → Holds self.now bytes → IsTrue result ↔ (bytes ≡ []) }
    {
        self.kept.is_empty() && !self.returned
    }
}

/// Keeps a byte more, where there is room.
fn keep(kept: &mut ArrayVec<u8, KEPT_LIMIT>, byte: u8)
    ensures { (line : List ℕ) → StandsFor kept.old.items line → StandsFor kept.new.items (line ++ byte ∷ []) }
{
    if !kept.is_full() {
        kept.push(byte);
    }
}
