//! Why equations are not solved.
ghost use Rattle.std.specs.Prelude.{◌≡◌};
ghost use Rattle.linear_solve.specs.declared.fault.SolveFault.TheVariants as fault;

use breakers::Interrupted;
use rational128::Overflow;
use thiserror::Error;

/// An operation does not fit, or a breaker tripped.
#[derive(Clone, Copy, Debug, Error)]
pub enum SolveFault {
    #[error(transparent)]
    Overflow(Overflow),
    #[error(transparent)]
    Interrupted(Interrupted),
}

impl From<Overflow> for SolveFault {
    ghost from_gives = { λ overflow e. e ≡ fault.Overflow overflow };

    fn from(overflow: Overflow) -> SolveFault {
        SolveFault::Overflow(overflow)
    }
}

impl From<Interrupted> for SolveFault {
    ghost from_gives = { λ interrupted e. e ≡ fault.Interrupted interrupted };

    fn from(interrupted: Interrupted) -> SolveFault {
        SolveFault::Interrupted(interrupted)
    }
}
