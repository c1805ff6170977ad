ghost use Rattle.std.specs.Prelude.{◌≡◌, ◌↔◌, IsTrue};
ghost use Rattle.std.specs.Option.{option_map};
ghost use Rattle.plane_terms.specs.Point.{Point, IsAt};
ghost use Rattle.topology_terms.specs.Feature.{feature_at};
ghost use Rattle.topology_terms.specs.Broken.{BrokenAt};
ghost use Rattle.plain_topology.specs.Plain.{feature_of, features_of, row_of, IsThere};

use grid_plane::GridPoint;

/// A point of a class.
#[derive(Clone, Copy)]
pub struct PlainPoint {
    pub handle: u32,
    pub class: u16,
    pub place: GridPoint,
}

// The first point of this handle.
pub(crate) fn point_of(points: &[PlainPoint], handle: u32) -> Option<PlainPoint>
    ensures { option_map feature_of result ≡ feature_at (features_of points.now) handle }
{
    points.iter().find(|p| p.handle == handle).copied()
}

pub(crate) fn is_same_place(a: GridPoint, b: GridPoint) -> bool
    ensures { IsTrue result ↔ (a ≡ b) }
{
    a.x() == b.x() && a.y() == b.y()
}

// Whether the point of this handle is of the class, and at the place.
fn is_there(points: &[PlainPoint], class: u16, handle: u32, place: GridPoint) -> bool
    ensures { (p : Point) → IsAt place p →
        (IsTrue result ↔ IsThere (features_of points.now) class handle p) }
{
    match point_of(points, handle) {
        Some(point) => point.class == class && is_same_place(point.place, place),
        None => false,
    }
}

/// Whether the point `a` breaks Must Be Disjoint for the class at this place, with the point `b`.
/// A handle stands for the first point that has it.
pub fn is_broken_at(points: &[PlainPoint], class: u16, a: u32, b: u32, place: GridPoint) -> bool
    ensures { (p : Point) → IsAt place p →
        (IsTrue result ↔ BrokenAt (row_of class) (features_of points.now) a b p) }
{
    a < b && is_there(points, class, a, place) && is_there(points, class, b, place)
}
