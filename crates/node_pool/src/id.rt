//! Identifiers of nodes.
ghost use Rattle.std.specs.Prelude.{◌≡◌};

use std::marker::Model;

/// An identifier of a node. A node keeps its own while others are placed, moved and removed.
#[derive(Clone, Copy, Debug, Default, PartialEq, Eq)]
pub struct Id {
    value: u16,
}

impl Model for Id {
    ghost use Rattle.std.specs.Prelude.{ℕ};

    ghost Value = { ℕ };

    ghost view = { λ i. i.value };

    ghost inverse = { λ n. record { value = n } };
}

impl Id {
    pub fn of(value: u16) -> Id
        ensures { result ≡ value }
    {
        Id { value }
    }

    pub fn value(self) -> u16
        ensures { result ≡ self }
    {
        self.value
    }
}
