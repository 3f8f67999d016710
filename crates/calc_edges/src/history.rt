//! Bytes that only clauses read.
ghost use Rattle.std.specs.Prelude.{◌≡◌, ℕ, List, [], ◌++◌};
ghost use Rattle.std.specs.Borrow.{ftrue};

use std::marker::Model;

/// The bytes that came or went so far. It is there for clauses alone, and takes no memory.
#[derive(Debug, Drop)]
pub struct History {
    pub ghost bytes: { List ℕ },
}

impl Model for History {
    ghost also_owns = { λ _. ftrue };
}

impl History {
    /// No bytes yet.
    pub fn new() -> History
        ensures { result.bytes ≡ [] }
    {
        History {}
    }

    /// These bytes, and more after them.
    pub fn and(&self, _more: &[u8]) -> History
        ensures { result.bytes ≡ self.now.bytes ++ _more.now }
    {
        History {}
    }
}
