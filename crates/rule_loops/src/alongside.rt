ghost use Rattle.std.specs.Prelude.{◌≡◌, ◌<◌, [], true};
ghost use Rattle.std.specs.Bool.{OnTrue};
ghost use Rattle.plane_terms.specs.Lists.{SomeOf};
ghost use Rattle.topology_terms.specs.Feature.{sides};
ghost use Rattle.topology_terms.specs.Together.{of_side};
ghost use Rattle.rule_loops.specs.Blocks.{block_count, block_of};
ghost use Rattle.rule_loops.specs.Views.{beside, left_of_segment, IsHeldBy};

use crate::blocks::Blocks;
use crate::places::is_on;
use grid_plane::Seg;
use rule_core::{Side, View};
use shape::Feature;

// Whether both ends of the segment are on the other, and so all of it.
fn lies_on(segment: &Seg, other: &Seg) -> bool
    ensures { OnTrue result (IsHeldBy segment.now other.now) }
{
    is_on(other, segment.lo()) && is_on(other, segment.hi())
}

// Whether the segment lies on one of these.
fn lies_on_one(segment: &Seg, others: &[Seg]) -> bool
    ensures { OnTrue result (SomeOf (IsHeldBy segment.now) others.now) }
{
    for other in others {
        if lies_on(segment, other) {
            return true;
        }
    }
    false
}

// Whether the segment lies on one of the block: on none where its frame does not hold it.
fn lies_on_block(segment: &Seg, blocks: &Blocks<'_>, k: usize) -> bool
    requires { k < block_count blocks.now }
    ensures { OnTrue result (SomeOf (IsHeldBy segment.now) (block_of k blocks.now)) }
{
    blocks.frame(k).holds_rect(&segment.env()) && lies_on_one(segment, blocks.block(k))
}

// Whether the segment lies on one of the shape's.
fn lies_on_shape(segment: &Seg, blocks: &Blocks<'_>) -> bool
    ensures { OnTrue result (SomeOf (IsHeldBy segment.now) blocks.now) }
{
    for k in 0..blocks.count() {
        if lies_on_block(segment, blocks, k) {
            return true;
        }
    }
    false
}

/// Whether the feature is of the side, and its envelope meets the box of the segment.
pub(crate) fn is_beside(side: Side, segment: &Seg, other: &Feature) -> bool
    ensures { result ≡ beside side segment.now other.now }
{
    side.holds(other) && segment.env().meets(&other.shape().env())
}

fn lies_on_feature(side: Side, segment: &Seg, other: &Feature) -> bool
    ensures beside { OnTrue result (beside side segment.now other.now ≡ true) }
    ensures held { OnTrue result (SomeOf (IsHeldBy segment.now) (sides other.now)) }
{
    is_beside(side, segment, other) && lies_on_shape(segment, &Blocks::of(other.shape()))
}

/// Whether the segment is found to lie on one single segment of the features of the side that are shown: then they leave nothing
/// of it.
pub(crate) fn is_covered_at_once(side: Side, segment: &Seg, view: &View<'_>) -> bool
    ensures { OnTrue result (left_of_segment (of_side side view.now) segment.now ≡ []) }
{
    segment.lo();
    for i in 0..view.len() {
        let other = view.feature(i);
        if lies_on_feature(side, segment, other) {
            other.shape().simple_law();
            return true;
        }
    }
    false
}
