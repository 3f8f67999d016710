//! Why a call on numbers is refused.
ghost use Rattle.std.specs.Prelude.{◌≡◌};
ghost use Rattle.tree_handles.specs.declared.fault.NumberFault.TheVariants as fault;

use node_pool::Full;
use rational128::Overflow;
use thiserror::Error;

/// A call on numbers needs more bytes than are free, or an operation does not fit.
#[derive(Clone, Copy, Debug, Error)]
pub enum NumberFault {
    #[error(transparent)]
    Full(Full),
    #[error(transparent)]
    Overflow(Overflow),
}

impl From<Full> for NumberFault {
    ghost from_gives = { λ full e. e ≡ fault.Full full };

    fn from(full: Full) -> NumberFault {
        NumberFault::Full(full)
    }
}

impl From<Overflow> for NumberFault {
    ghost from_gives = { λ overflow e. e ≡ fault.Overflow overflow };

    fn from(overflow: Overflow) -> NumberFault {
        NumberFault::Overflow(overflow)
    }
}
