//! A session that is held.
ghost use Rattle.std.specs.Prelude.{◌≡◌, ◌↔◌, ◌++◌, ◌∷◌, ℕ, [], length, is_ok, true, Some, IfOk, IfErr};
ghost use Rattle.std.specs.Bool.{OnTrue, OnFalse};
ghost use Rattle.breakers.specs.Breakers.{TripsRose};
ghost use Rattle.breakers.specs.State.{fresh};
ghost use Rattle.calc_measures.specs.Measures.{bits, room};
ghost use Rattle.calc_session.specs.Answers.{Answers};
ghost use Rattle.calc_session.specs.Drawing.{rows_in};
ghost use Rattle.node_pool.specs.State.{IsPoolSize};
ghost use Rattle.poincare_run.specs.Steps.{picture_text};
ghost use Rattle.poincare_held.specs.Breaking.{state_of};
ghost use Rattle.poincare_held.specs.Pages.{over};
ghost use Rattle.poincare_held.specs.Sessions.{IsAnsweredWithin, IsDrawnOn, IsOpened, IsOpenedUnder, breakers_in, pool_use_in, state_in, text_in};
ghost use Rattle.poincare_held.specs.Writing.{Writes};

use crate::held_breaker::HeldBreaker;
use crate::notice::Notice;
use crate::page::{Page, copy_front};
use crate::stopper::{StopBreaker, Stopper};
use breakers::{CountBreaker, Watch};
use calc_session::{DrawFault, LineAnswer, Refusal, Session};
use deep_reduce::DeepReducer;
use std::alloc::{AllocError, Global};
use thiserror::Error;

/// Why a session is not opened.
#[derive(Clone, Copy, Debug, PartialEq, Eq, Error)]
pub enum OpenFault {
    #[error("the size of the pool is no multiple of 8 from 64 to 524,280")]
    PoolSize,
    #[error("there is no memory")]
    NoMemory,
}

/// What was drawn, and how many bytes it has, up to 2^64 - 1.
#[derive(Clone, Copy, Debug, PartialEq, Eq)]
pub enum Drawn {
    Picture { count: usize },
    /// The layout finds no room in the pool. A line that says so stands in place of the picture.
    Full { count: usize },
}

/// How many bytes of a pool are in use, and how many are not.
#[derive(Clone, Copy, Debug, PartialEq, Eq)]
pub struct PoolUse {
    pub used: u32,
    pub free: u32,
}

/// A session, the breakers that its lines are under, and a stopper of which others are made.
#[derive(Drop)]
pub struct Held {
    pub(crate) session: Session,
    pub(crate) watch: Watch<HeldBreaker>,
    notice: Notice,
    stopper: Stopper,
}

/// Whether a pool may have so many bytes.
pub fn is_pool_size(size: u32) -> bool
    ensures valid { OnTrue result (IsPoolSize size) }
    ensures invalid { OnFalse result (¬ (IsPoolSize size)) }
{
    (64..=524_280).contains(&size) && size % 8 == 0
}

impl Held {
    /// A session with a pool of so many bytes. All memory is taken here. Its lines are under two breakers: one that
    /// stoppers trip, and behind it one that counts.
    pub fn open(alloc: Global, size: u32) -> Result<Held, OpenFault>
        ensures ok { IfOk result (IsOpened size) }
        ensures size { IfErr result (λ fault. (fault ≡ OpenFault.PoolSize) ↔ (¬ (IsPoolSize size))) }
    {
        if !is_pool_size(size) {
            return Err(OpenFault::PoolSize);
        }
        match Held::build(alloc, size) {
            Ok(held) => Ok(held),
            Err(_) => Err(OpenFault::NoMemory),
        }
    }

    fn build(alloc: Global, size: u32) -> Result<Held, AllocError>
        requires { IsPoolSize size }
        ensures { IfOk result (IsOpened size) }
    {
        let stopper = Stopper::new(alloc)?;
        let stop = StopBreaker::of(&stopper)?;
        Held::under(alloc, size, HeldBreaker::Stop(stop), stopper)
    }

    /// The same under two breakers that count, as the program's session is.
    pub(crate) fn counting(alloc: Global, size: u32) -> Result<Held, AllocError>
        requires { IsPoolSize size }
        ensures { IfOk result (IsOpenedUnder (fresh true) size) }
    {
        let stopper = Stopper::new(alloc)?;
        Held::under(
            alloc,
            size,
            HeldBreaker::Count(CountBreaker::new()),
            stopper,
        )
    }

    fn under(
        alloc: Global,
        size: u32,
        first: HeldBreaker,
        stopper: Stopper,
    ) -> Result<Held, AllocError>
        requires { IsPoolSize size }
        ensures { IfOk result (IsOpenedUnder (state_of first) size) }
    {
        let count = HeldBreaker::Count(CountBreaker::new());
        let watch = Watch::new(vec![in alloc; first, count]?);
        let notice = Notice::open(alloc)?;

        // The session is opened last, so that no failure has to drop it.
        Ok(Held {
            session: Session::open(alloc, size)?,
            watch,
            notice,
            stopper,
        })
    }

    /// A stopper of this session.
    pub fn stopper(&self) -> Result<Stopper, AllocError> {
        self.stopper.another()
    }

    /// Answers a line, which comes without its newline and the carriage return before that. It is interrupted by a
    /// stopper, or by what `:after` planned.
    pub fn line(&mut self, line: &[u8]) -> LineAnswer
        ensures step { Answers (Some room) (Some bits) (state_in self.old) (breakers_in self.old) line.now result (text_in self.new) (state_in self.new) (breakers_in self.new) }
        ensures blank { result ≡ LineAnswer.Blank → text_in self.new ≡ [] }
        ensures draw { result ≡ LineAnswer.Draw → text_in self.new ≡ [] }
        ensures interrupted { (place : ℕ) → (result ≡ LineAnswer.Refused (Refusal.Interrupted place))
            ↔ TripsRose (breakers_in self.old) (breakers_in self.new) place }
    {
        self.session.line(&DeepReducer, &mut self.watch, line)
    }

    /// The same, but that at most `checks` checks pass. When the line is answered the count is over, and so is what
    /// `:after` planned before or in this line.
    pub fn line_within(&mut self, line: &[u8], checks: u64) -> LineAnswer
        ensures within { IsAnsweredWithin checks self.old line.now result self.new }
    {
        self.watch.arm_first(checks);
        let answer = self.session.line(&DeepReducer, &mut self.watch, line);
        self.watch.arm_first(u64::MAX);
        answer
    }

    /// Copies the text of the last line to the front of `out`, as far as there is room, and tells how many bytes it has.
    pub fn text(&self, out: &mut [u8]) -> usize
        ensures count { result ≡ length (text_in self.now) }
        ensures copied { out.new ≡ over (text_in self.now) out.old }
    {
        let text = self.session.text();
        copy_front(out, text);
        text.len()
    }

    /// Draws the last answer to the front of `out`, as far as there is room. The text of the last line is gone then.
    pub fn draw(&mut self, out: &mut [u8]) -> Drawn
        ensures drawn { IsDrawnOn (state_in self.old) result out.new }
        ensures state { state_in self.new ≡ state_in self.old }
        ensures text { text_in self.new ≡ [] }
        ensures breakers { breakers_in self.new ≡ breakers_in self.old }
    {
        let mut page = Page::new(out);
        let is_picture = self.draw_on(&mut page);
        let count = page.count();
        if is_picture {
            Drawn::Picture { count }
        } else {
            Drawn::Full { count }
        }
    }

    /// Draws the last answer, or says that its layout finds no room.
    pub(crate) fn draw_on(&mut self, page: &mut Page) -> bool
        ensures picture { result ≡ is_ok (rows_in (state_in self.old)) }
        ensures written { Writes page.old (picture_text (state_in self.old)) page.new }
        ensures state { state_in self.new ≡ state_in self.old }
        ensures text { text_in self.new ≡ [] }
        ensures breakers { breakers_in self.new ≡ breakers_in self.old }
    {
        match self.session.draw(page) {
            Ok(()) => true,
            Err(DrawFault::Write) => unreachable!(),
            Err(DrawFault::Full(full)) => {
                self.notice.put(full);
                page.push(self.notice.bytes());
                page.push(b"\n");
                false
            }
        }
    }

    /// How much of the pool is in use.
    pub fn pool(&self) -> PoolUse
        ensures value { result ≡ pool_use_in self.now }
    {
        let pool = self.session.pool();
        PoolUse {
            used: pool.used(),
            free: pool.free(),
        }
    }
}
