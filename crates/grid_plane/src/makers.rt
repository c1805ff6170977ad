ghost use Rattle.std.specs.Prelude.{◌≡◌, ◌≤◌, ◌<ℤ◌, ◌↔◌, pos, unsigned_abs};
ghost use Rattle.plane_terms.specs.Point.{Point};
ghost use Rattle.plane_terms.specs.HalfPlane.{Holds, x_over, x_under, y_over, y_under, x_is, y_is};
ghost use Rattle.plane_terms.specs.Segment.{cross, left_of, right_of, on_line};

use crate::half::Half;
use crate::seg::Seg;
use plane_terms::Op;

/// Left of the line through the segment, seen from its lower end.
pub fn left_of(s: &Seg) -> Half
    ensures value { result ≡ left_of s.now }
    ensures meaning { (p : Point) → Holds result p ↔ (pos 0 <ℤ cross s.now p) }
{
    Half::packed(-s.rise(), s.across(), s.constant(), Op::Over)
}

/// Right of the line through the segment, seen from its lower end.
pub fn right_of(s: &Seg) -> Half
    ensures value { result ≡ right_of s.now }
    ensures meaning { (p : Point) → Holds result p ↔ (cross s.now p <ℤ pos 0) }
{
    Half::packed(s.rise(), -s.across(), -s.constant(), Op::Over)
}

/// The line through the segment.
pub fn on_line(s: &Seg) -> Half
    ensures value { result ≡ on_line s.now }
    ensures meaning { (p : Point) → Holds result p ↔ (cross s.now p ≡ pos 0) }
{
    Half::packed(-s.rise(), s.across(), s.constant(), Op::Zero)
}

/// Right of the coordinate.
pub fn x_over(v: i32) -> Half
    requires { unsigned_abs v ≤ 4194305 }
    ensures { result ≡ x_over v }
{
    Half::packed(1, 0, -i64::from(v), Op::Over)
}

/// Left of the coordinate.
pub fn x_under(v: i32) -> Half
    requires { unsigned_abs v ≤ 4194305 }
    ensures { result ≡ x_under v }
{
    Half::packed(-1, 0, i64::from(v), Op::Over)
}

/// Above the coordinate.
pub fn y_over(v: i32) -> Half
    requires { unsigned_abs v ≤ 4194305 }
    ensures { result ≡ y_over v }
{
    Half::packed(0, 1, -i64::from(v), Op::Over)
}

/// Below the coordinate.
pub fn y_under(v: i32) -> Half
    requires { unsigned_abs v ≤ 4194305 }
    ensures { result ≡ y_under v }
{
    Half::packed(0, -1, i64::from(v), Op::Over)
}

/// The upright line at the coordinate.
pub fn x_is(v: i32) -> Half
    requires { unsigned_abs v ≤ 4194305 }
    ensures { result ≡ x_is v }
{
    Half::packed(1, 0, -i64::from(v), Op::Zero)
}

/// The level line at the coordinate.
pub fn y_is(v: i32) -> Half
    requires { unsigned_abs v ≤ 4194305 }
    ensures { result ≡ y_is v }
{
    Half::packed(0, 1, -i64::from(v), Op::Zero)
}
