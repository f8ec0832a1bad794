// How many leaves a tree has: so few that the number of each fits two bytes.
ghost use Rattle.std.specs.Prelude.{◌≡◌, ◌+◌, ltb};
ghost use Rattle.sizes.specs.Sizes.{InRange, leaves};

use sizes::Sizes;
use std::marker::Model;

#[derive(Clone, Copy)]
pub struct Leaves {
    n: usize,
}

impl Model for Leaves {
    ghost use Rattle.std.specs.Prelude.{ℕ};
    ghost use Rattle.desk.specs.Together.{InSixteenBits};

    ghost Value = { ℕ };

    ghost view = { λ a. a.n };

    ghost invariant = { λ a. InSixteenBits a.n };

    ghost inverse = { λ n. record { n = n } };
}

impl Leaves {
    pub fn of(s: Sizes) -> Leaves
        requires { InRange s }
        ensures { result ≡ leaves s }
    {
        Leaves { n: s.leaves() }
    }

    // Whether there is a leaf of this number, from 0 on.
    pub fn has(self, leaf: u16) -> bool
        ensures { result ≡ ltb leaf self }
    {
        usize::from(leaf) < self.n
    }

    pub fn last(self) -> u16
        ensures { result + 1 ≡ self }
    {
        (self.n - 1) as u16
    }
}
