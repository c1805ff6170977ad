ghost use Rattle.std.specs.Prelude.{◌↔◌, ◌≤ℤ◌, IsTrue};
ghost use Rattle.plane_terms.specs.Point.{Point, IsAt};
ghost use Rattle.plane_terms.specs.Rectangle.{RectHolds};
ghost use Rattle.plane_terms.specs.Dirt.{Covers};

use grid_plane::{GridPoint, Rect};

fn is_between(low: i32, v: i32, high: i32) -> bool
    ensures { IsTrue result ↔ (low ≤ℤ v) × (v ≤ℤ high) }
{
    low <= v && v <= high
}

/// Whether the place lies in the rectangle or on its border.
pub fn holds_place(rect: Rect, place: GridPoint) -> bool
    ensures { (p : Point) → IsAt place p → (IsTrue result ↔ RectHolds rect p) }
{
    is_between(rect.x0(), place.x(), rect.x1()) && is_between(rect.y0(), place.y(), rect.y1())
}

/// Whether the place is dirty: one of the rectangles holds it.
pub fn covers(dirt: &[Rect], place: GridPoint) -> bool
    ensures { (p : Point) → IsAt place p → (IsTrue result ↔ Covers dirt.now p) }
{
    dirt.iter().any(|r| holds_place(*r, place))
}
