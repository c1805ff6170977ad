ghost use Rattle.std.specs.Prelude.{◌≡◌};
ghost use Rattle.plane_terms.specs.Point.{InReach};

use std::marker::Model;

/// A coordinate within the reach, in grid units.
#[derive(Clone, Copy)]
pub struct Coordinate {
    value: i32,
}

impl Model for Coordinate {
    ghost use Rattle.std.specs.Prelude.{ℤ};
    ghost use Rattle.plane_terms.specs.Point.{InReach};

    ghost Value = { ℤ };

    ghost view = { λ c. c.value };

    ghost invariant = { λ c. InReach c.value };

    ghost inverse = { λ z. record { value = z } };
}

impl Coordinate {
    /// The coordinate of this value.
    pub fn new(value: i32) -> Coordinate
        requires { InReach value }
        ensures { result ≡ value }
    {
        Coordinate { value }
    }

    /// The number of grid units.
    pub fn get(self) -> i32
        ensures value { result ≡ self }
        ensures bound { InReach result }
    {
        self.value
    }
}
