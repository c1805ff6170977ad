ghost use Rattle.std.specs.Prelude.{◌≡◌, ◌↔◌, ◌≤ℤ◌, ◌<ℤ◌, IsTrue};
ghost use Rattle.plane_terms.specs.Lists.{how_many, is_odd};
ghost use Rattle.plane_terms.specs.Line.{holds_place};
ghost use Rattle.plane_terms.specs.Point.{same_place, point_at};
ghost use Rattle.plane_terms.specs.Polygon.{counts};
ghost use Rattle.plane_terms.specs.Shape as planes;
ghost use Rattle.topology_terms.specs.Tests as terms;
ghost use Rattle.rule_loops.specs.Views.{up_to_three};

use grid_plane::{GridPoint, Seg};
use shape::Shape;

/// Whether the place is on the segment, its ends included. Its box is tried first.
pub(crate) fn is_on(segment: &Seg, place: GridPoint) -> bool
    ensures { result ≡ holds_place segment.now place }
{
    segment.env().holds_point(place) && segment.holds(place)
}

/// Whether one of the segments holds the place.
pub(crate) fn holds_in(segments: &[Seg], place: GridPoint) -> bool
    ensures { result ≡ terms.holds_at segments.now place }
{
    segments.iter().any(|segment| is_on(segment, place))
}

/// How many of the segments hold the place.
pub(crate) fn count_in(segments: &[Seg], place: GridPoint) -> usize
    ensures { result ≡ how_many (λ t. holds_place t place) segments.now }
{
    segments
        .iter()
        .filter(|segment| is_on(segment, place))
        .count()
}

fn is_from_to(low: i32, v: i32, high: i32) -> bool
    ensures { IsTrue result ↔ (low ≤ℤ v) × (v <ℤ high) }
{
    low <= v && v < high
}

// Whether the segment runs below the place: it begins at its abscissa or before, ends beyond, and has the place on its left.
fn is_below(segment: &Seg, place: GridPoint) -> bool
    ensures { result ≡ counts segment.now (point_at place) }
{
    is_from_to(segment.lo().x(), place.x(), segment.hi().x()) && segment.side(place) > 0
}

/// Whether an odd number of the segments run below the place.
pub(crate) fn are_odd_in(segments: &[Seg], place: GridPoint) -> bool
    ensures { result ≡ is_odd (how_many (λ s. counts s (point_at place)) segments.now) }
{
    let mut odd = false;
    for segment in segments {
        if is_below(segment, place) {
            odd = !odd;
        }
    }
    odd
}

/// The count, or three where it is more: no rule asks for more than two of a place.
pub(crate) fn up_to_three(count: usize) -> usize
    ensures { result ≡ up_to_three count }
{
    if count < 3 { count } else { 3 }
}

fn is_same(place: GridPoint, other: GridPoint) -> bool
    ensures { result ≡ same_place place other }
{
    place == other
}

/// Whether the place is one of these.
pub(crate) fn is_among(places: &[GridPoint], place: GridPoint) -> bool
    ensures { result ≡ terms.has_end_at places.now place }
{
    places.iter().any(|other| is_same(place, *other))
}

/// How many of the line's ends are at the place; one that is there twice counts twice.
pub(crate) fn count_ends(line: &Shape, place: GridPoint) -> usize
    ensures { result ≡ how_many (same_place place) (planes.ends_of line.now) }
{
    let mut count = 0;
    for i in 0..line.end_count() {
        if is_same(place, line.end(i)) {
            count += 1;
        }
    }
    count
}
