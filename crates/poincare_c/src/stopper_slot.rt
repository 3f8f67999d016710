//! Slots in memory of the caller's, in which a stopper stands, or none.
ghost use Rattle.std.specs.Prelude.{◌≡◌};
ghost use Rattle.poincare_c.specs.Slots.{ClosesStopper, IsNewStopper, OpensStopper, Stops};

use crate::codes::{CLOSED, DONE, NO_MEMORY, NOT_OPENED, OPEN};
use crate::slot::Slot;
use crate::standing::Standing;
use poincare_held::Stopper;

/// The slot of a stopper.
#[derive(Drop)]
pub struct StopperSlot {
    standing: Standing<Stopper>,
}

impl StopperSlot {
    pub fn new() -> StopperSlot
        ensures { IsNewStopper result }
    {
        StopperSlot {
            standing: Standing::New,
        }
    }

    pub fn open(&mut self, session: &mut Slot) -> u32
        ensures { OpensStopper self.old session.old result self.new session.new }
    {
        if self.standing.is_open() {
            return OPEN;
        }
        match &session.standing {
            Standing::New => NOT_OPENED,
            Standing::Closed => CLOSED,
            Standing::Open(held) => match held.stopper() {
                Ok(stopper) => {
                    self.standing = Standing::Open(stopper);
                    DONE
                }
                Err(_) => NO_MEMORY,
            },
        }
    }

    pub fn stop(&mut self) -> u32
        ensures { Stops self.old result self.new }
    {
        match &mut self.standing {
            Standing::New => NOT_OPENED,
            Standing::Closed => CLOSED,
            Standing::Open(stopper) => {
                stopper.stop();
                DONE
            }
        }
    }

    pub fn clear(&mut self) -> u32
        ensures { Stops self.old result self.new }
    {
        match &mut self.standing {
            Standing::New => NOT_OPENED,
            Standing::Closed => CLOSED,
            Standing::Open(stopper) => {
                stopper.clear();
                DONE
            }
        }
    }

    pub fn close(&mut self) -> u32
        ensures { ClosesStopper self.old result self.new }
    {
        self.standing.close()
    }
}
