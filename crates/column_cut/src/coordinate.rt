ghost use Rattle.std.specs.Prelude.{◌≡◌};
ghost use Rattle.plane_terms.specs.Point.{InReach};

use std::marker::Model;

/// A coordinate of the grid: the abscissa of a wall, or an ordinate on one. In grid units.
#[derive(Clone, Copy)]
pub(crate) struct Coordinate {
    value: i32,
}

impl Model for Coordinate {
    ghost use Rattle.std.specs.Prelude.{ℤ};
    ghost use Rattle.plane_terms.specs.Point.{InReach};

    ghost Value = { ℤ };

    ghost view = { λ c. c.value };

    ghost invariant = { λ c. InReach c.value };

    ghost inverse = { λ v. record { value = v } };
}

impl Coordinate {
    pub(crate) fn of(value: i32) -> Coordinate
        requires { InReach value }
        ensures { result ≡ value }
    {
        Coordinate { value }
    }

    pub(crate) fn value(&self) -> i32
        ensures value { result ≡ self.now }
        ensures bound { InReach result }
    {
        self.value
    }
}
