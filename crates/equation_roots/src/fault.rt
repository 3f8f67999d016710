//! Why no roots are told.
ghost use Rattle.std.specs.Prelude.{◌≡◌};
ghost use Rattle.equation_roots.specs.declared.fault.RootFault.TheVariants as fault;

use rational128::Overflow;
use thiserror::Error;

/// Something of degree 3 or more is left that has no rational root within the bound of the trials, or an operation does not fit.
#[derive(Clone, Copy, Debug, Error)]
pub enum RootFault {
    #[error("what is left is of degree 3 or more")]
    Degree,
    #[error(transparent)]
    Overflow(Overflow),
}

impl From<Overflow> for RootFault {
    ghost from_gives = { λ overflow e. e ≡ fault.Overflow overflow };

    fn from(overflow: Overflow) -> RootFault {
        RootFault::Overflow(overflow)
    }
}
