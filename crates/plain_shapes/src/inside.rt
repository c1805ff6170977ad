ghost use Rattle.std.specs.Prelude.{◌≡◌, ◌↔◌, ◌≤ℤ◌, ◌<ℤ◌, IsTrue};
ghost use Rattle.plane_terms.specs.Lists.{how_many, is_odd};
ghost use Rattle.plane_terms.specs.Point.{Point, IsAt};
ghost use Rattle.plane_terms.specs.Polygon.{OnBoundary, IsInside, counts};

use grid_plane::{GridPoint, Seg};

fn is_from_to(low: i32, v: i32, high: i32) -> bool
    ensures { IsTrue result ↔ (low ≤ℤ v) × (v <ℤ high) }
{
    low <= v && v < high
}

// Whether the segment runs below the place: it begins at its abscissa or before, ends beyond, and has the place on its left.
fn counts(segment: &Seg, place: GridPoint) -> bool
    ensures { (p : Point) → IsAt place p → result ≡ counts segment.now p }
{
    is_from_to(segment.lo().x(), place.x(), segment.hi().x()) && segment.side(place) > 0
}

fn is_on_boundary(segments: &[Seg], place: GridPoint) -> bool
    ensures { (p : Point) → IsAt place p → (IsTrue result ↔ OnBoundary segments.now p) }
{
    segments.iter().any(|s| s.holds(place))
}

fn do_odd_many_count(segments: &[Seg], place: GridPoint) -> bool
    ensures { (p : Point) → IsAt place p → result ≡ is_odd (how_many (λ s. counts s p) segments.now) }
{
    segments.iter().filter(|s| counts(s, place)).count() % 2 == 1
}

/// Whether the place is inside the polygon of these segments: on none of them, and above an odd number of them.
/// In what order they come, and which way they go, does not count.
pub fn is_inside(segments: &[Seg], place: GridPoint) -> bool
    ensures { (p : Point) → IsAt place p → (IsTrue result ↔ IsInside segments.now p) }
{
    !is_on_boundary(segments, place) && do_odd_many_count(segments, place)
}
