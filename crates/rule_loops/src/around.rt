ghost use Rattle.std.specs.Prelude.{◌≡◌, Bool, ◌&&◌};
ghost use Rattle.plane_terms.specs.Point.{Place};
ghost use Rattle.topology_terms.specs.Feature as terms;
ghost use Rattle.topology_terms.specs.Plans as plans;
ghost use Rattle.topology_terms.specs.Feature.{is_on_side};
ghost use Rattle.topology_terms.specs.Together.{of_side};

use crate::blocks_at::{holds_at, is_inside_at};
use grid_plane::GridPoint;
use rule_core::{Side, View, has_end_at};
use shape::Feature;

/// A test of a feature at a place of the grid.
pub trait AtPlace {
    ghost at: { terms.Feature → Place → Bool };

    /// Whether the feature is so at the place.
    fn is_at(feature: &Feature, place: GridPoint) -> bool
        ensures { result ≡ at feature.now place };
}

/// The place of a point.
pub struct PointThere;

impl AtPlace for PointThere {
    ghost at = { plans.is_point_at };

    fn is_at(feature: &Feature, place: GridPoint) -> bool {
        feature.shape().place() == place
    }
}

/// A segment of a line or of a boundary, its ends included.
pub struct SideThere;

impl AtPlace for SideThere {
    ghost at = { plans.has_side_at };

    fn is_at(feature: &Feature, place: GridPoint) -> bool {
        holds_at(feature.shape(), place)
    }
}

/// The inside of a polygon, without its boundary.
pub struct InsideThere;

impl AtPlace for InsideThere {
    ghost at = { plans.is_round };

    fn is_at(feature: &Feature, place: GridPoint) -> bool {
        is_inside_at(feature.shape(), place)
    }
}

/// Whether the point is inside the polygon, not on its boundary.
pub fn contains(polygon: &Feature, point: &Feature) -> bool
    ensures { result ≡ plans.is_round polygon.now (terms.place point.now) }
{
    InsideThere::is_at(polygon, point.shape().place())
}

/// An end of a line.
pub struct EndThere;

impl AtPlace for EndThere {
    ghost at = { plans.ends_there };

    fn is_at(feature: &Feature, place: GridPoint) -> bool {
        has_end_at(feature.shape(), place)
    }
}

fn is_there<T: AtPlace>(side: Side, other: &Feature, place: GridPoint) -> bool
    ensures { result ≡ (is_on_side side other.now && T.at other.now place) }
{
    side.holds(other) && T::is_at(other, place)
}

/// Whether no feature of the side that is shown passes the test at the place. Stops at the first that does.
pub fn none_there<T: AtPlace>(side: Side, view: &View<'_>, place: GridPoint) -> bool
    ensures { result ≡ plans.none_at T.at (of_side side view.now) place }
{
    for i in 0..view.len() {
        if is_there::<T>(side, view.feature(i), place) {
            return false;
        }
    }
    true
}
