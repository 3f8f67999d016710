//! What an operation answers whose result does not fit.
use calc_terms::Rat;
use thiserror::Error;

/// The operations that may not fit.
#[derive(Clone, Copy, Debug, PartialEq, Eq)]
pub enum Op {
    Add,
    Mul,
    Pow,
}

/// An operation that does not fit, with the operands of its call. The second operand of a power is the whole exponent.
#[derive(Clone, Copy, Debug, Error)]
#[error("an operation does not fit into 128 bits")]
pub struct Overflow {
    pub op: Op,
    pub a: Rat,
    pub b: Rat,
}
