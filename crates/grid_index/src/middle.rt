ghost use Rattle.std.specs.Prelude.{◌≡◌, ◌<◌, ◌+◌};
ghost use Rattle.grid_index.specs.Middles.{middle_of, apart, spread};
ghost use Rattle.grid_index.specs.Squares.{same_square, IsOnGrid};

use crate::placed::Placed;
use grid_plane::Rect;

// The coordinate of the western and the southern edge of the grid.
const EDGE: i32 = -4_194_304;

/// Twice the middle of a rectangle, from the western and the southern edge of the grid, in grid units.
#[derive(Clone, Copy)]
pub(crate) struct Middle {
    x: u32,
    y: u32,
}

impl Middle {
    pub(crate) fn of(r: &Rect) -> Middle
        ensures value { result ≡ middle_of r.now }
        ensures on_grid { IsOnGrid result }
    {
        Middle {
            x: r.x0().abs_diff(EDGE) + r.x1().abs_diff(EDGE),
            y: r.y0().abs_diff(EDGE) + r.y1().abs_diff(EDGE),
        }
    }

    /// The binary digits in which the two differ, along either axis.
    pub(crate) fn apart(&self, other: &Middle) -> u32
        ensures { result ≡ apart self.now other.now }
    {
        (self.x ^ other.x) | (self.y ^ other.y)
    }

    /// Whether both lie in one square whose side, doubled like them, is 2 to the power `digit`.
    pub(crate) fn is_beside(&self, other: &Middle, digit: u32) -> bool
        requires { digit < 32 }
        ensures { result ≡ same_square digit self.now other.now }
    {
        self.apart(other) >> digit == 0
    }

    /// Whether both lie in one square of twice that side.
    pub(crate) fn is_round(&self, other: &Middle, digit: u32) -> bool
        requires { digit < 32 }
        ensures { result ≡ same_square (digit + 1) self.now other.now }
    {
        self.apart(other) >> digit <= 1
    }

    /// The binary digits in which the middles of the list differ from this one.
    pub(crate) fn spread(&self, list: &[Placed]) -> u32
        ensures { result ≡ spread self.now list.now }
    {
        list.iter()
            .fold(0, |all, p| all | self.apart(&Middle::of(&p.rect)))
    }
}
