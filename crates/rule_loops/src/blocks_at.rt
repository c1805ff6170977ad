ghost use Rattle.std.specs.Prelude.{◌≡◌, ◌<◌};
ghost use Rattle.plane_terms.specs.Lists.{how_many, is_odd};
ghost use Rattle.plane_terms.specs.Line.{holds_place};
ghost use Rattle.plane_terms.specs.Polygon.{counts};
ghost use Rattle.plane_terms.specs.Shape.{segments_of};
ghost use Rattle.plane_terms.specs.Point.{point_at};
ghost use Rattle.topology_terms.specs.Tests as terms;
ghost use Rattle.rule_loops.specs.Blocks.{block_count, block_of, reaches_below};
ghost use Rattle.rule_loops.specs.Views.{up_to_three};

use crate::blocks::Blocks;
use crate::places::{are_odd_in, count_in, holds_in, up_to_three};
use grid_plane::{GridPoint, Rect};
use shape::Shape;

// Whether a segment of the block holds the place: none does where its frame does not.
fn is_held(blocks: &Blocks<'_>, k: usize, place: GridPoint) -> bool
    requires { k < block_count blocks.now }
    ensures { result ≡ terms.holds_at (block_of k blocks.now) place }
{
    blocks.frame(k).holds_point(place) && holds_in(blocks.block(k), place)
}

// Whether the place is on one of the segments.
fn is_on_one(blocks: &Blocks<'_>, place: GridPoint) -> bool
    ensures { result ≡ terms.holds_at blocks.now place }
{
    for k in 0..blocks.count() {
        if is_held(blocks, k, place) {
            return true;
        }
    }
    false
}

/// Whether one of the shape's segments holds the place.
pub(crate) fn holds_at(shape: &Shape, place: GridPoint) -> bool
    ensures { result ≡ terms.holds_at (segments_of shape.now) place }
{
    is_on_one(&Blocks::of(shape), place)
}

// How many segments of the block hold the place, up to three: none where its frame does not.
fn count_held(blocks: &Blocks<'_>, k: usize, place: GridPoint) -> usize
    requires { k < block_count blocks.now }
    ensures { result ≡ up_to_three (how_many (λ t. holds_place t place) (block_of k blocks.now)) }
{
    if blocks.frame(k).holds_point(place) {
        up_to_three(count_in(blocks.block(k), place))
    } else {
        0
    }
}

// How many of the segments hold the place, up to three.
fn count_by_block(blocks: &Blocks<'_>, place: GridPoint) -> usize
    ensures { result ≡ up_to_three (how_many (λ t. holds_place t place) blocks.now) }
{
    let mut count = 0;
    for k in 0..blocks.count() {
        count = up_to_three(count + count_held(blocks, k, place));
    }
    count
}

/// How many of the shape's segments hold the place, up to three.
pub(crate) fn count_on(shape: &Shape, place: GridPoint) -> usize
    ensures { result ≡ up_to_three (how_many (λ t. holds_place t place) (segments_of shape.now)) }
{
    if shape.frames().is_empty() {
        return up_to_three(count_in(shape.segs(), place));
    }
    count_by_block(&Blocks::of(shape), place)
}

// Whether a segment in the frame may run below the place.
fn reaches_below(frame: &Rect, place: GridPoint) -> bool
    ensures { result ≡ reaches_below frame.now place }
{
    frame.x0() <= place.x() && place.x() < frame.x1() && frame.y0() < place.y()
}

// Whether an odd number of the block's segments run below the place.
fn are_odd(blocks: &Blocks<'_>, k: usize, place: GridPoint) -> bool
    requires { k < block_count blocks.now }
    ensures { result ≡ is_odd (how_many (λ s. counts s (point_at place)) (block_of k blocks.now)) }
{
    reaches_below(&blocks.frame(k), place) && are_odd_in(blocks.block(k), place)
}

// Whether an odd number of the segments run below the place.
fn are_odd_below(blocks: &Blocks<'_>, place: GridPoint) -> bool
    ensures { result ≡ is_odd (how_many (λ s. counts s (point_at place)) blocks.now) }
{
    let mut odd = false;
    for k in 0..blocks.count() {
        if are_odd(blocks, k, place) {
            odd = !odd;
        }
    }
    odd
}

/// Whether the place is inside the polygon, not on its boundary.
pub(crate) fn is_inside_at(polygon: &Shape, place: GridPoint) -> bool
    ensures { result ≡ terms.is_inside_at (segments_of polygon.now) place }
{
    let blocks = Blocks::of(polygon);
    !is_on_one(&blocks, place) && are_odd_below(&blocks, place)
}
