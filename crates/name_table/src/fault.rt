//! Why a tree cannot be filled.
ghost use Rattle.std.specs.Prelude.{◌≡◌};
ghost use Rattle.name_table.specs.declared.fault.FillFault.TheVariants as fault;

use node_pool::Full;
use thiserror::Error;

/// A copy of a stored tree needs more bytes than are free, or the tree that it is put into becomes too deep.
#[derive(Clone, Copy, Debug, Error)]
pub enum FillFault {
    #[error(transparent)]
    Full(Full),
    #[error("the tree is over 64 deep")]
    Deep,
}

impl From<Full> for FillFault {
    ghost from_gives = { λ full e. e ≡ fault.Full full };

    fn from(full: Full) -> FillFault {
        FillFault::Full(full)
    }
}
