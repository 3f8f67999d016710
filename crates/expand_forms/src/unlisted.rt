//! Why the terms of a polynomial are not listed.

/// What does not fit into a list of terms, so that other means have to serve.
#[derive(Clone, Copy)]
pub(crate) enum Unlisted {
    /// There are more names than a packed monomial has.
    Names,
    /// An exponent does not fit into eight bits.
    Exponents,
    /// The list has no room for another term.
    Terms,
}
