//! The lists in which polynomials are expanded as values.
use calc_terms::Name;
use polynomials::Term;
use std::alloc::{AllocError, Global};

/// So many names has a packed monomial.
pub(crate) const NAMES: usize = 8;

/// So many terms has the sum of which a child is a power.
pub(crate) const BASE_TERMS: usize = 2;

/// The lists in which polynomials are expanded as values, where they fit. All memory is taken at opening. What stands in them
/// between calls does not matter.
#[derive(Drop)]
pub struct TermLists {
    /// The names of a node, in their order.
    pub(crate) names: Vec<Name>,
    /// The terms of the node.
    pub(crate) answer: Vec<Term>,
    /// The terms of one of its children.
    pub(crate) child: Vec<Term>,
    /// Those of the sum of which a child is a power.
    pub(crate) base: Vec<Term>,
    /// Those that are made of both.
    pub(crate) next: Vec<Term>,
    pub(crate) spare: Vec<Term>,
}

impl TermLists {
    /// Lists that have room for so many terms each, and one for the two terms of a sum that is raised.
    pub fn open(alloc: Global, terms: u16) -> Result<TermLists, AllocError> {
        let terms = usize::from(terms);
        let names = Vec::with_capacity(alloc, NAMES)?;
        let answer = Vec::with_capacity(alloc, terms)?;
        let child = Vec::with_capacity(alloc, terms)?;
        let base = Vec::with_capacity(alloc, BASE_TERMS)?;
        let next = Vec::with_capacity(alloc, terms)?;
        let spare = Vec::with_capacity(alloc, terms)?;
        Ok(TermLists {
            names,
            answer,
            child,
            base,
            next,
            spare,
        })
    }
}
