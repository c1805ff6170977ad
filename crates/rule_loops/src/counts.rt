ghost use Rattle.std.specs.Prelude.{◌≡◌, ◌≤◌, ◌+◌, ◌==◌, if◌then◌else◌};
ghost use Rattle.plane_terms.specs.Lists.{how_many};
ghost use Rattle.plane_terms.specs.Line.{holds_place};
ghost use Rattle.topology_terms.specs.Feature.{sides};
ghost use Rattle.topology_terms.specs.Tests as terms;
ghost use Rattle.topology_terms.specs.Together.{of_side};
ghost use Rattle.rule_loops.specs.Views.{round_of, up_to_three};

use crate::blocks_at::count_on;
use crate::places::{count_ends, up_to_three};
use grid_plane::GridPoint;
use rule_core::{Side, View};
use shape::Feature;

fn is_round(side: Side, place: GridPoint, other: &Feature) -> bool
    ensures { result ≡ round_of side place other.now }
{
    side.holds(other) && other.shape().env().holds_point(place)
}

// The count with those segments of the feature that hold the place, where it is of the side; up to three.
#[inline(always)]
fn with_segments(count: usize, side: Side, place: GridPoint, other: &Feature) -> usize
    requires { count ≤ 3 }
    ensures { result ≡ if round_of side place other.now then up_to_three (count + up_to_three (how_many (λ t. holds_place t place) (sides other.now))) else count }
{
    if is_round(side, place, other) {
        up_to_three(count + count_on(other.shape(), place))
    } else {
        count
    }
}

/// How many segments of the features of the side that are shown hold the place, up to three. Looks no further once there are so many.
pub fn segments_at(side: Side, view: &View<'_>, place: GridPoint) -> usize
    ensures { result ≡ up_to_three (terms.segments_at (of_side side view.now) place) }
{
    let mut count = 0;
    for i in 0..view.len() {
        count = with_segments(count, side, place, view.feature(i));
        if count > 2 {
            return count;
        }
    }
    count
}

/// Whether one single segment of the features of the side that are shown holds the place. Looks no further once there are two.
pub fn is_single_at(side: Side, view: &View<'_>, place: GridPoint) -> bool
    ensures { result ≡ (terms.segments_at (of_side side view.now) place == 1) }
{
    let mut count = 0;
    for i in 0..view.len() {
        let other = view.feature(i);
        if is_round(side, place, other) {
            count = with_segments(count, side, place, other);
            if count > 1 {
                return false;
            }
        }
    }
    count == 1
}

/// How many ends of the features of the side that are shown are at the place, up to three. Looks no further once there are so many.
pub fn ends_at(side: Side, view: &View<'_>, place: GridPoint) -> usize
    ensures { result ≡ up_to_three (terms.ends_at (of_side side view.now) place) }
{
    let mut count = 0;
    for i in 0..view.len() {
        let other = view.feature(i);
        if is_round(side, place, other) {
            let more = up_to_three(count_ends(other.shape(), place));
            count = up_to_three(count + more);
            if count > 2 {
                return count;
            }
        }
    }
    count
}
