// The place of a task in the arrays.
ghost use Rattle.std.specs.Prelude.{◌≡◌, ◌<◌};

use std::marker::Model;

// One of the 32 places. What takes a place does not ask that it is within the arrays: its type says so.
#[derive(Clone, Copy, PartialEq, Eq, Debug)]
pub struct Place {
    index: usize,
}

impl Model for Place {
    ghost use Rattle.std.specs.Prelude.{ℕ, ◌<◌};

    ghost Value = { ℕ };

    ghost view = { λ p. p.index };

    ghost invariant = { λ p. p.index < 32 };

    ghost inverse = { λ n. record { index = n } };
}

impl Place {
    // The place with an index.
    pub fn new(index: usize) -> Place
        requires { index < 32 }
        ensures { result ≡ index }
    {
        Place { index }
    }

    // Its index, with which an array is read.
    pub fn index(self) -> usize
        ensures { (result ≡ self) × (result < 32) }
    {
        self.index
    }
}
