//! Slots in memory of the caller's, in which a session stands, or none.
ghost use Rattle.std.specs.Prelude.{◌≡◌};
ghost use Rattle.poincare_c.specs.Slots.{AnswersIn, AnswersWithinIn, Closes, Draws, IsNew, Opens, PoolIn, TextIn};

use crate::codes::{CLOSED, DONE, FULL, NOT_OPENED, OPEN, code_of, code_of_len, code_of_open};
use crate::standing::Standing;
use poincare_held::{Drawn, Held};
use std::alloc::Global;

/// The slot of a session.
#[derive(Drop)]
pub struct Slot {
    pub standing: Standing<Held>,
}

impl Slot {
    pub fn new() -> Slot
        ensures { IsNew result }
    {
        Slot {
            standing: Standing::New,
        }
    }

    pub fn open(&mut self, alloc: Global, pool: u32) -> u32
        ensures { Opens self.old pool result self.new }
    {
        if self.standing.is_open() {
            return OPEN;
        }
        match Held::open(alloc, pool) {
            Ok(held) => {
                self.standing = Standing::Open(held);
                DONE
            }
            Err(fault) => code_of_open(fault),
        }
    }

    pub fn close(&mut self) -> u32
        ensures { Closes self.old result self.new }
    {
        self.standing.close()
    }

    pub fn line(&mut self, line: &[u8]) -> u32
        ensures { AnswersIn self.old line.now result self.new }
    {
        match &mut self.standing {
            Standing::New => NOT_OPENED,
            Standing::Closed => CLOSED,
            Standing::Open(held) => code_of(held.line(line)),
        }
    }

    pub fn line_within(&mut self, line: &[u8], checks: u64) -> u32
        ensures { AnswersWithinIn self.old line.now checks result self.new }
    {
        match &mut self.standing {
            Standing::New => NOT_OPENED,
            Standing::Closed => CLOSED,
            Standing::Open(held) => code_of(held.line_within(line, checks)),
        }
    }

    pub fn text(&mut self, out: &mut [u8], count: &mut usize) -> u32
        ensures { TextIn self.old out.old count.old result out.new count.new self.new }
    {
        match &mut self.standing {
            Standing::New => NOT_OPENED,
            Standing::Closed => CLOSED,
            Standing::Open(held) => {
                *count = held.text(out);
                code_of_len(*count, out.len())
            }
        }
    }

    pub fn draw(&mut self, out: &mut [u8], count: &mut usize) -> u32
        ensures { Draws self.old out.old count.old result out.new count.new self.new }
    {
        match &mut self.standing {
            Standing::New => NOT_OPENED,
            Standing::Closed => CLOSED,
            Standing::Open(held) => match held.draw(out) {
                Drawn::Picture { count: bytes } => {
                    *count = bytes;
                    code_of_len(bytes, out.len())
                }
                Drawn::Full { count: bytes } => {
                    *count = bytes;
                    FULL
                }
            },
        }
    }

    pub fn pool(&mut self, used: &mut u32, left: &mut u32) -> u32
        ensures { PoolIn self.old used.old left.old result used.new left.new self.new }
    {
        match &mut self.standing {
            Standing::New => NOT_OPENED,
            Standing::Closed => CLOSED,
            Standing::Open(held) => {
                let pool = held.pool();
                *used = pool.used;
                *left = pool.free;
                DONE
            }
        }
    }
}
