ghost use Rattle.std.specs.Prelude.{◌≡◌, ◌↔◌, Some, None, IsTrue, MatchOption};
ghost use Rattle.plane_terms.specs.Point.{Point, IsAt};
ghost use Rattle.topology_terms.specs.Feature.{feature_at};
ghost use Rattle.topology_terms.specs.Broken.{BrokenAt};
ghost use Rattle.plain_topology.specs.Overlaps.{overlap_row, overlap_with_row, IsInsideOf};

use grid_plane::GridPoint;
use plain_shapes::is_inside;
use shape::Feature;

// The first feature of this handle.
fn feature_of_handle(features: &[Feature], handle: u32) -> Option<&Feature>
    ensures { MatchOption result (feature_at features.now handle ≡ None) (λ f. feature_at features.now handle ≡ Some f.now) }
{
    features.iter().find(|f| f.handle() == handle)
}

// Whether the feature of this handle is of the class, and the place inside it.
fn is_inside_of(features: &[Feature], class: u16, handle: u32, place: GridPoint) -> bool
    ensures { (p : Point) → IsAt place p →
        (IsTrue result ↔ IsInsideOf features.now class handle p) }
{
    match feature_of_handle(features, handle) {
        Some(feature) => feature.class() == class && is_inside(feature.shape().segs(), place),
        None => false,
    }
}

/// Whether the polygon `a` of the class breaks Must Not Overlap With at this place, with the polygon `b` of the other class.
/// A handle stands for the first feature that has it.
#[tactic(auto, using(crate::proofs::OverlapFacts::overlap_with))]
pub fn is_overlap_with_at(
    features: &[Feature],
    class: u16,
    other_class: u16,
    a: u32,
    b: u32,
    place: GridPoint,
) -> bool
    ensures { (p : Point) → IsAt place p →
        (IsTrue result ↔ BrokenAt (overlap_with_row class other_class) features.now a b p) }
{
    is_inside_of(features, class, a, place) && is_inside_of(features, other_class, b, place)
}

/// Whether the polygon `a` breaks Must Not Overlap for the class at this place, with the polygon `b`.
/// A handle stands for the first feature that has it.
#[tactic(auto, using(crate::proofs::OverlapFacts::overlap_first))]
pub fn is_overlap_at(features: &[Feature], class: u16, a: u32, b: u32, place: GridPoint) -> bool
    ensures { (p : Point) → IsAt place p →
        (IsTrue result ↔ BrokenAt (overlap_row class) features.now a b p) }
{
    a < b && is_overlap_with_at(features, class, class, a, b, place)
}
