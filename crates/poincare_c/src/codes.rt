//! The numbers by which a C program is answered.
ghost use Rattle.std.specs.Prelude.{◌≡◌};
ghost use Rattle.poincare_c.specs.Codes.{code_of_answer, code_of_count, code_of_fault};

use calc_session::LineAnswer;
use poincare_held::OpenFault;

/// The call did what it says.
pub const DONE: u32 = 0;

/// The numbers of refusals begin behind this one.
const REFUSED: u32 = 100;

/// The layout of the last answer finds no room in the pool.
pub const FULL: u32 = 108;

/// There is not room for all bytes.
const NO_ROOM: u32 = 200;

/// No pool has this size.
const BAD_POOL: u32 = 201;

pub const NO_MEMORY: u32 = 202;

/// Nothing was opened in the slot yet.
pub const NOT_OPENED: u32 = 203;

/// What was opened in the slot is closed.
pub const CLOSED: u32 = 204;

/// Something is open in the slot.
pub const OPEN: u32 = 205;

/// The number of an answer: from 0 to 5, or 100 and the number of the refusal.
pub fn code_of(answer: LineAnswer) -> u32
    ensures { result ≡ code_of_answer answer }
{
    match answer {
        LineAnswer::Shown => 0,
        LineAnswer::Stored => 1,
        LineAnswer::Undef => 2,
        LineAnswer::Blank => 3,
        LineAnswer::Report => 4,
        LineAnswer::Draw => 5,
        LineAnswer::Refused(refusal) => REFUSED + u32::from(refusal.number()),
    }
}

pub fn code_of_open(fault: OpenFault) -> u32
    ensures { result ≡ code_of_fault fault }
{
    match fault {
        OpenFault::PoolSize => BAD_POOL,
        OpenFault::NoMemory => NO_MEMORY,
    }
}

/// Whether so many bytes have found room.
pub fn code_of_len(count: usize, room: usize) -> u32
    ensures { result ≡ code_of_count count room }
{
    if count <= room { DONE } else { NO_ROOM }
}
