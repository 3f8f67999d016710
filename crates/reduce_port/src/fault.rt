//! Why a reduction is refused.
ghost use Rattle.std.specs.Prelude.{◌≡◌};
ghost use Rattle.reduce_port.specs.declared.fault.ReduceFault.TheVariants as fault;
ghost use Rattle.reduce_port.specs.Faults.{fault_of};

use breakers::Interrupted;
use node_pool::Full;
use rational128::Overflow;
use thiserror::Error;
use tree_handles::NumberFault;

/// A reduction needs more bytes than are free, an operation in it does not fit, or a breaker tripped.
#[derive(Clone, Copy, Debug, Error)]
pub enum ReduceFault {
    #[error(transparent)]
    Full(Full),
    #[error(transparent)]
    Overflow(Overflow),
    #[error(transparent)]
    Interrupted(Interrupted),
}

impl From<Full> for ReduceFault {
    ghost from_gives = { λ full e. e ≡ fault.Full full };

    fn from(full: Full) -> ReduceFault {
        ReduceFault::Full(full)
    }
}

impl From<Overflow> for ReduceFault {
    ghost from_gives = { λ overflow e. e ≡ fault.Overflow overflow };

    fn from(overflow: Overflow) -> ReduceFault {
        ReduceFault::Overflow(overflow)
    }
}

impl From<Interrupted> for ReduceFault {
    ghost from_gives = { λ interrupted e. e ≡ fault.Interrupted interrupted };

    fn from(interrupted: Interrupted) -> ReduceFault {
        ReduceFault::Interrupted(interrupted)
    }
}

impl From<NumberFault> for ReduceFault {
    ghost from_gives = { λ number e. e ≡ fault_of number };

    fn from(number: NumberFault) -> ReduceFault {
        match number {
            NumberFault::Full(full) => ReduceFault::Full(full),
            NumberFault::Overflow(overflow) => ReduceFault::Overflow(overflow),
        }
    }
}
