//! What a C program calls.
ghost use Rattle.std.specs.Prelude.{◌≡◌};
ghost use types.Logic.{sem};
ghost use denote.RawPtr.{room_at};
ghost use Rattle.poincare_c.specs.contracts.slot.Slot.{the_row as the_session_row};
ghost use Rattle.poincare_c.specs.contracts.stopper_slot.StopperSlot.{the_row as the_stopper_row};
ghost use Rattle.poincare_c.specs.Owned.{holds_both, holds_session, holds_stopper, leaves_both, leaves_session, leaves_stopper};
ghost use Rattle.poincare_c.specs.Slots.{AnswersIn, AnswersWithinIn, ClosesStopper, Closes, Draws, IsNew, IsNewStopper, Opens, OpensStopper, PoolIn, Stops, TextIn};
ghost use Rattle.poincare_c.specs.Texts.{IsAnsweredText};

use crate::codes::{code_of_len, code_of_open};
use crate::slot::Slot;
use crate::stopper_slot::StopperSlot;
use poincare_held::answers;
use std::alloc::Global;

/// The slot of a session, of which a C program knows nothing.
#[repr(C)]
#[derive(Drop)]
pub struct PoincareSession {
    _opaque: u8,
}

/// The slot of a stopper.
#[repr(C)]
#[derive(Drop)]
pub struct PoincareStopper {
    _opaque: u8,
}

/// Opens a session with a pool of so many bytes.
#[unsafe(no_mangle)]
pub unsafe extern "C" fn poincare_open(
    session: *mut PoincareSession,
    alloc: Global,
    pool: u32,
) -> u32
    ghost before: { Slot }
    requires* slot { sem 𝓛 (holds_session session before) }
    ensures* opens { sem 𝓛 (leaves_session session (λ after. Opens before pool result after)) }
{
    let slot = session as *mut Slot;
    Slot::open(&mut *slot, alloc, pool)
}

/// Gives the memory of the session back.
#[unsafe(no_mangle)]
pub unsafe extern "C" fn poincare_close(session: *mut PoincareSession) -> u32
    ghost before: { Slot }
    requires* slot { sem 𝓛 (holds_session session before) }
    ensures* closes { sem 𝓛 (leaves_session session (λ after. Closes before result after)) }
{
    let slot = session as *mut Slot;
    Slot::close(&mut *slot)
}

/// Answers a line.
#[unsafe(no_mangle)]
pub unsafe extern "C" fn poincare_line(session: *mut PoincareSession, line: &[u8]) -> u32
    ghost before: { Slot }
    requires* slot { sem 𝓛 (holds_session session before) }
    ensures* answers { sem 𝓛 (leaves_session session (λ after. AnswersIn before line.now result after)) }
{
    let slot = session as *mut Slot;
    Slot::line(&mut *slot, line)
}

/// Answers a line, which is interrupted behind so many checks.
#[unsafe(no_mangle)]
pub unsafe extern "C" fn poincare_line_within(
    session: *mut PoincareSession,
    line: &[u8],
    checks: u64,
) -> u32
    ghost before: { Slot }
    requires* slot { sem 𝓛 (holds_session session before) }
    ensures* answers { sem 𝓛 (leaves_session session (λ after. AnswersWithinIn before line.now checks result after)) }
{
    let slot = session as *mut Slot;
    Slot::line_within(&mut *slot, line, checks)
}

/// Copies the text of the last line, as far as there is room, and tells how many bytes it has.
#[unsafe(no_mangle)]
pub unsafe extern "C" fn poincare_text(
    session: *mut PoincareSession,
    out: &mut [u8],
    count: &mut usize,
) -> u32
    ghost before: { Slot }
    requires* slot { sem 𝓛 (holds_session session before) }
    ensures* tells { sem 𝓛 (leaves_session session (λ after. TextIn before out.old count.old result out.new count.new after)) }
{
    let slot = session as *mut Slot;
    Slot::text(&mut *slot, out, count)
}

/// Draws the last answer, as far as there is room, and tells how many bytes the picture has.
#[unsafe(no_mangle)]
pub unsafe extern "C" fn poincare_draw(
    session: *mut PoincareSession,
    out: &mut [u8],
    count: &mut usize,
) -> u32
    ghost before: { Slot }
    requires* slot { sem 𝓛 (holds_session session before) }
    ensures* draws { sem 𝓛 (leaves_session session (λ after. Draws before out.old count.old result out.new count.new after)) }
{
    let slot = session as *mut Slot;
    Slot::draw(&mut *slot, out, count)
}

/// Tells how many bytes of the pool are in use, and how many are not.
#[unsafe(no_mangle)]
pub unsafe extern "C" fn poincare_pool(
    session: *mut PoincareSession,
    used: &mut u32,
    left: &mut u32,
) -> u32
    ghost before: { Slot }
    requires* slot { sem 𝓛 (holds_session session before) }
    ensures* tells { sem 𝓛 (leaves_session session (λ after. PoolIn before used.old left.old result used.new left.new after)) }
{
    let slot = session as *mut Slot;
    Slot::pool(&mut *slot, used, left)
}

/// Asks the session to interrupt its line, or the next one.
#[unsafe(no_mangle)]
pub unsafe extern "C" fn poincare_stop(stopper: *mut PoincareStopper) -> u32
    ghost before: { StopperSlot }
    requires* slot { sem 𝓛 (holds_stopper stopper before) }
    ensures* stops { sem 𝓛 (leaves_stopper stopper (λ after. Stops before result after)) }
{
    let slot = stopper as *mut StopperSlot;
    StopperSlot::stop(&mut *slot)
}

/// Takes back what was asked for and no line has met.
#[unsafe(no_mangle)]
pub unsafe extern "C" fn poincare_clear(stopper: *mut PoincareStopper) -> u32
    ghost before: { StopperSlot }
    requires* slot { sem 𝓛 (holds_stopper stopper before) }
    ensures* clears { sem 𝓛 (leaves_stopper stopper (λ after. Stops before result after)) }
{
    let slot = stopper as *mut StopperSlot;
    StopperSlot::clear(&mut *slot)
}

/// Gives the memory of the stopper back.
#[unsafe(no_mangle)]
pub unsafe extern "C" fn poincare_stopper_close(stopper: *mut PoincareStopper) -> u32
    ghost before: { StopperSlot }
    requires* slot { sem 𝓛 (holds_stopper stopper before) }
    ensures* closes { sem 𝓛 (leaves_stopper stopper (λ after. ClosesStopper before result after)) }
{
    let slot = stopper as *mut StopperSlot;
    StopperSlot::close(&mut *slot)
}

/// Opens a stopper of a session.
#[unsafe(no_mangle)]
pub unsafe extern "C" fn poincare_stopper_open(
    stopper: *mut PoincareStopper,
    session: *mut PoincareSession,
) -> u32
    ghost before: { StopperSlot × Slot }
    requires* slot { sem 𝓛 (holds_both stopper session before.0 before.1) }
    ensures* opens { sem 𝓛 (leaves_both stopper session (λ after after'. OpensStopper before.0 before.1 result after after')) }
{
    let slot = stopper as *mut StopperSlot;
    let held = session as *mut Slot;
    StopperSlot::open(&mut *slot, &mut *held)
}

/// Answers the lines of a text in a session of its own. The answers stand in `out`, as far as there is room, and `count` is
/// how many bytes they have.
#[unsafe(no_mangle)]
pub extern "C" fn poincare_answers(
    alloc: Global,
    pool: u32,
    lines: &[u8],
    out: &mut [u8],
    count: &mut usize,
) -> u32
    ensures answers { IsAnsweredText pool lines.now out.old count.old result out.new count.new }
{
    match answers(alloc, pool, lines, out) {
        Ok(bytes) => {
            *count = bytes;
            code_of_len(bytes, out.len())
        }
        Err(fault) => code_of_open(fault),
    }
}

/// Makes memory the slot of a session, in which none was opened.
#[unsafe(no_mangle)]
pub unsafe extern "C" fn poincare_session_init(session: *mut PoincareSession)
    requires* room { sem 𝓛 (room_at the_session_row session) }
    ensures* new { sem 𝓛 (leaves_session session IsNew) }
{
    let slot = Slot::new();
    std::ptr::write(session as *mut Slot, slot);
}

/// Makes memory the slot of a stopper, in which none was opened.
#[unsafe(no_mangle)]
pub unsafe extern "C" fn poincare_stopper_init(stopper: *mut PoincareStopper)
    requires* room { sem 𝓛 (room_at the_stopper_row stopper) }
    ensures* new { sem 𝓛 (leaves_stopper stopper IsNewStopper) }
{
    let slot = StopperSlot::new();
    std::ptr::write(stopper as *mut StopperSlot, slot);
}

/// How many bytes the slot of a session takes.
#[unsafe(no_mangle)]
pub extern "C" fn poincare_session_size() -> usize {
    size_of::<Slot>()
}

/// At a multiple of how many bytes it stands.
#[unsafe(no_mangle)]
pub extern "C" fn poincare_session_align() -> usize {
    align_of::<Slot>()
}

/// How many bytes the slot of a stopper takes.
#[unsafe(no_mangle)]
pub extern "C" fn poincare_stopper_size() -> usize {
    size_of::<StopperSlot>()
}

/// At a multiple of how many bytes it stands.
#[unsafe(no_mangle)]
pub extern "C" fn poincare_stopper_align() -> usize {
    align_of::<StopperSlot>()
}
