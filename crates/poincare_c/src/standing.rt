//! What stands in a slot.
ghost use Rattle.std.specs.Prelude.{◌≡◌};
ghost use Rattle.poincare_c.specs.Standings.{ClosesStanding, is_open as is_open_standing};

use crate::codes::{CLOSED, DONE, NOT_OPENED};

#[derive(Drop)]
pub enum Standing<T> {
    /// Nothing was opened yet.
    New,
    Open(T),
    /// What was opened is closed.
    Closed,
}

impl<T: Drop> Standing<T> {
    pub fn is_open(&self) -> bool
        ensures { result ≡ is_open_standing self.now }
    {
        matches!(self, Standing::Open(_))
    }

    /// Drops what is open.
    pub fn close(&mut self) -> u32
        ensures { ClosesStanding self.old result self.new }
    {
        match self {
            Standing::New => NOT_OPENED,
            Standing::Closed => CLOSED,
            Standing::Open(_) => {
                *self = Standing::Closed;
                DONE
            }
        }
    }
}
