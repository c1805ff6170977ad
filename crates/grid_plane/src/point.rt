ghost use Rattle.std.specs.Prelude.{◌≡◌, ◌↔◌, IsTrue, MatchOption};
ghost use Rattle.plane_terms.specs.Point.{InReach, IsInReach};

use std::marker::Model;

/// The greatest coordinate, in grid units; the least is its negative.
pub const REACH: i64 = 4_194_304;

/// A place of the grid within the reach, in grid units.
#[derive(Clone, Copy, PartialEq, Eq)]
pub struct GridPoint {
    x: i32,
    y: i32,
}

impl Model for GridPoint {
    ghost use Rattle.plane_terms.specs.Point.{Place, InReach};

    ghost Value = { Place };

    ghost view = { λ g. record { x = g.x; y = g.y } };

    ghost invariant = { λ g. InReach g.x × InReach g.y };

    ghost inverse = { λ p. record { x = p.x; y = p.y } };
}

pub(crate) fn is_in_reach(v: i64) -> bool
    ensures { IsTrue result ↔ InReach v }
{
    if v < -REACH {
        return false;
    }
    v <= REACH
}

impl GridPoint {
    /// The place with these coordinates; `None` exactly where one is beyond the reach.
    pub fn at(x: i64, y: i64) -> Option<GridPoint>
        ensures { MatchOption result (¬ (IsInReach (record { x = x; y = y }))) (λ p. IsInReach p × (p.x ≡ x) × (p.y ≡ y)) }
    {
        if -REACH <= x && x <= REACH && -REACH <= y && y <= REACH {
            Some(GridPoint {
                x: x as i32,
                y: y as i32,
            })
        } else {
            None
        }
    }

    pub fn x(&self) -> i32
        ensures value { result ≡ self.now.x }
        ensures bound { InReach result }
    {
        self.x
    }

    pub fn y(&self) -> i32
        ensures value { result ≡ self.now.y }
        ensures bound { InReach result }
    {
        self.y
    }
}
