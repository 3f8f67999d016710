//! Why a polynomial is not made.
use rational128::Overflow;
use thiserror::Error;

/// What does not fit, so that other means have to serve.
#[derive(Clone, Copy, Debug, Error)]
pub enum Unfit {
    /// The list has no room for another term.
    #[error("the list has no room for another term")]
    Terms,
    /// A coefficient does not fit.
    #[error("a coefficient does not fit into 128 bits")]
    Coefficient(Overflow),
}
