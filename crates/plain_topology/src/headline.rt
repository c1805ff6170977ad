ghost use Rattle.std.specs.Prelude.{◌↔◌, IsTrue, All};
ghost use Rattle.plane_terms.specs.Point.{Point, IsAt};
ghost use Rattle.topology_terms.specs.Project.{Project};
ghost use Rattle.script_terms.specs.Headline.{Headline};
ghost use Rattle.plain_topology.specs.Plain.{features_of, entries_of, row_of, SaysAt, SaysThere, Shows};
ghost use Rattle.plain_topology.specs.declared.entries.PlainEntry.{PlainEntry};
ghost use Rattle.plain_topology.specs.declared.points.PlainPoint.{PlainPoint};

use crate::entries::do_ascend;
use crate::{PlainEntry, PlainPoint, covers, has_cells_at, is_broken_at};
use grid_plane::{GridPoint, Rect};

/// Whether the headline's sentence on points is true at this place, of the subject `a` and the partner `b`:
/// off the dirt the place is in the cell of their error exactly if `a` breaks the rule there with `b`.
pub fn says_headline_at(
    points: &[PlainPoint],
    class: u16,
    dirt: &[Rect],
    entries: &[PlainEntry],
    a: u32,
    b: u32,
    place: GridPoint,
) -> bool
    ensures { (p : Point) → IsAt place p →
        (IsTrue result ↔
        SaysAt dirt.now (entries_of entries.now) (row_of class) (features_of points.now) a b p) }
{
    covers(dirt, place)
        || has_cells_at(entries, a, b, place) == is_broken_at(points, class, a, b, place)
}

// Whether the sentence is true of each error, at its place.
fn says_at_entries(points: &[PlainPoint], class: u16, dirt: &[Rect], entries: &[PlainEntry]) -> bool
    ensures { IsTrue result ↔ All (λ (e : PlainEntry).
        SaysThere class points.now dirt.now entries.now e.subject e.other e.place) entries.now }
{
    entries.iter().all(|e| says_headline_at(
        points, class, dirt, entries, e.subject, e.other, e.place,
    ))
}

// Whether the sentence is true of the point with each other one, at its place.
fn says_at_partners(
    points: &[PlainPoint],
    class: u16,
    dirt: &[Rect],
    entries: &[PlainEntry],
    f: PlainPoint,
) -> bool
    ensures { IsTrue result ↔ All (λ (g : PlainPoint).
        SaysThere class points.now dirt.now entries.now f.handle g.handle f.place) points.now }
{
    points.iter().all(|g| says_headline_at(
        points, class, dirt, entries, f.handle, g.handle, f.place,
    ))
}

// Whether it is true of each two points, at the place of the first.
fn says_at_points(points: &[PlainPoint], class: u16, dirt: &[Rect], entries: &[PlainEntry]) -> bool
    ensures { IsTrue result ↔ All (λ (f : PlainPoint). All (λ (g : PlainPoint).
        SaysThere class points.now dirt.now entries.now f.handle g.handle f.place) points.now) points.now }
{
    points
        .iter()
        .all(|f| says_at_partners(points, class, dirt, entries, *f))
}

/// Whether the headline is true of a project with these points, dirt and errors, whose one rule is Must Be Disjoint for the
/// class: at every point of the plane, on the grid or not.
pub fn headline_holds(
    points: &[PlainPoint],
    class: u16,
    dirt: &[Rect],
    entries: &[PlainEntry],
) -> bool
    ensures { (p : Project) → Shows p class points.now dirt.now entries.now → (IsTrue result ↔ Headline p) }
{
    do_ascend(entries)
        && says_at_entries(points, class, dirt, entries)
        && says_at_points(points, class, dirt, entries)
}
