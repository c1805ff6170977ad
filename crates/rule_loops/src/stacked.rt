ghost use Rattle.std.specs.Prelude.{◌≡◌, ◌<◌, pos, true, ◌||◌, int_le};
ghost use Rattle.plane_terms.specs.Share.{turn};
ghost use Rattle.std.specs.Bool.{OnTrue};
ghost use Rattle.std.specs.List.{list_all};
ghost use Rattle.plane_terms.specs.Shape.{segments_of};
ghost use Rattle.rule_loops.specs.Stacked.{highest, lowest, ends_below, ends_west, lies_left, lies_right, rises, lies_west, lies_east, no_column, no_row, is_under, is_before, frame_stands, are_ordered, AreStacked};
ghost use Rattle.rule_loops.specs.Blocks.{block_count, block_of};

use crate::blocks::Blocks;
use grid_plane::{GridPoint, Rect, Seg};
use shape::Shape;

/// For each block of the two polygons so many pairs of blocks are compared segment by segment, and no more. So the work grows with the
/// segments, and not with the product of their numbers.
const LOOKS: usize = 8;

/// How a segment stands to another, wherever both have points in one column, or in one row.
#[derive(Clone, Copy)]
pub(crate) enum Order {
    /// In no column above it.
    Under,
    /// In no row east of it.
    Before,
}

fn highest(s: &Seg) -> i32
    ensures { result ≡ highest s.now }
{
    s.lo().y().max(s.hi().y())
}

fn lowest(s: &Seg) -> i32
    ensures { result ≡ lowest s.now }
{
    s.lo().y().min(s.hi().y())
}

fn ends_below(s: &Seg, t: &Seg) -> bool
    ensures { result ≡ ends_below s.now t.now }
{
    highest(s) <= lowest(t)
}

fn ends_west(s: &Seg, t: &Seg) -> bool
    ensures { result ≡ ends_west s.now t.now }
{
    s.hi().x() <= t.lo().x()
}

// Whether the place lies left of the line, or on it.
fn is_on_left(line: &Seg, place: GridPoint) -> bool
    ensures { result ≡ int_le (pos 0) (turn line.now place) }
{
    line.side(place) >= 0
}

// Whether the place lies right of the line, or on it.
fn is_on_right(line: &Seg, place: GridPoint) -> bool
    ensures { result ≡ int_le (turn line.now place) (pos 0) }
{
    line.side(place) <= 0
}

fn lies_left(line: &Seg, s: &Seg) -> bool
    ensures { result ≡ lies_left line.now s.now }
{
    is_on_left(line, s.lo()) && is_on_left(line, s.hi())
}

fn lies_right(line: &Seg, s: &Seg) -> bool
    ensures { result ≡ lies_right line.now s.now }
{
    is_on_right(line, s.lo()) && is_on_right(line, s.hi())
}

fn rises(s: &Seg) -> bool
    ensures { result ≡ rises s.now }
{
    s.lo().y() <= s.hi().y()
}

fn lies_west(line: &Seg, s: &Seg) -> bool
    ensures { result ≡ lies_west line.now s.now }
{
    if rises(line) {
        lies_left(line, s)
    } else {
        lies_right(line, s)
    }
}

fn lies_east(line: &Seg, s: &Seg) -> bool
    ensures { result ≡ lies_east line.now s.now }
{
    if rises(line) {
        lies_right(line, s)
    } else {
        lies_left(line, s)
    }
}

// Whether a line shows that the first runs nowhere above the second.
fn lies_under(s: &Seg, t: &Seg) -> bool
    ensures { result ≡ (lies_right t.now s.now || lies_left s.now t.now) }
{
    lies_right(t, s) || lies_left(s, t)
}

// Whether a line shows that the first runs nowhere east of the second.
fn lies_before(s: &Seg, t: &Seg) -> bool
    ensures { result ≡ (lies_west t.now s.now || lies_east s.now t.now) }
{
    lies_west(t, s) || lies_east(s, t)
}

fn have_no_column(s: &Seg, t: &Seg) -> bool
    ensures { result ≡ no_column s.now t.now }
{
    ends_west(s, t) || ends_west(t, s)
}

fn have_no_row(s: &Seg, t: &Seg) -> bool
    ensures { result ≡ no_row s.now t.now }
{
    ends_below(s, t) || ends_below(t, s)
}

// Whether the first is found to run nowhere above the second, in the columns of both.
fn is_under(s: &Seg, t: &Seg) -> bool
    ensures { result ≡ is_under s.now t.now }
{
    have_no_column(s, t) || (ends_below(s, t) || lies_under(s, t))
}

// Whether the first is found to run nowhere east of the second, in the rows of both.
fn is_before(s: &Seg, t: &Seg) -> bool
    ensures { result ≡ is_before s.now t.now }
{
    have_no_row(s, t) || (ends_west(s, t) || lies_before(s, t))
}

fn is_under_each(s: &Seg, others: &[Seg]) -> bool
    ensures { result ≡ list_all (is_under s.now) others.now }
{
    others.iter().all(|t| is_under(s, t))
}

fn are_under(own: &[Seg], others: &[Seg]) -> bool
    ensures { result ≡ list_all (λ s. list_all (is_under s) others.now) own.now }
{
    own.iter().all(|s| is_under_each(s, others))
}

fn is_before_each(s: &Seg, others: &[Seg]) -> bool
    ensures { result ≡ list_all (is_before s.now) others.now }
{
    others.iter().all(|t| is_before(s, t))
}

fn are_before(own: &[Seg], others: &[Seg]) -> bool
    ensures { result ≡ list_all (λ s. list_all (is_before s) others.now) own.now }
{
    own.iter().all(|s| is_before_each(s, others))
}

fn are_ordered(order: Order, own: &[Seg], others: &[Seg]) -> bool
    ensures { result ≡ are_ordered order own.now others.now }
{
    match order {
        Order::Under => are_under(own, others),
        Order::Before => are_before(own, others),
    }
}

// Whether the frames of two blocks show that each segment of the one stands so to each of the other.
fn frame_stands(order: Order, r: &Rect, q: &Rect) -> bool
    ensures { result ≡ frame_stands order r.now q.now }
{
    match order {
        Order::Under => r.x1() <= q.x0() || q.x1() <= r.x0() || r.y1() <= q.y0(),
        Order::Before => r.y1() <= q.y0() || q.y1() <= r.y0() || r.x1() <= q.x0(),
    }
}

// Whether each segment of the one block is found to stand so to each of the other. Where the frames do not show it the segments are
// compared, as long as some of so many looks are left.
fn is_block_ordered(
    order: Order,
    one: &Blocks<'_>,
    i: usize,
    other: &Blocks<'_>,
    j: usize,
    looks: &mut usize,
) -> bool
    requires own { i < block_count one.now }
    requires others { j < block_count other.now }
    ensures { OnTrue result (are_ordered order (block_of i one.now) (block_of j other.now) ≡ true) }
{
    if frame_stands(order, &one.frame(i), &other.frame(j)) {
        return true;
    }
    if *looks == 0 {
        return false;
    }
    *looks -= 1;
    are_ordered(order, one.block(i), other.block(j))
}

// Whether each segment of the block is found to stand so to each of the other polygon.
fn is_ordered_to_all(
    order: Order,
    one: &Blocks<'_>,
    i: usize,
    other: &Blocks<'_>,
    looks: &mut usize,
) -> bool
    requires { i < block_count one.now }
    ensures { OnTrue result (are_ordered order (block_of i one.now) other.now ≡ true) }
{
    for j in 0..other.count() {
        if !is_block_ordered(order, one, i, other, j, looks) {
            return false;
        }
    }
    true
}

// So many pairs of blocks may be compared segment by segment.
fn looks_for(one: &Blocks<'_>, other: &Blocks<'_>) -> usize {
    let blocks = one.count().saturating_add(other.count());
    LOOKS.saturating_mul(blocks)
}

// Whether each segment of the one polygon is found to stand so to each of the other.
fn are_all_ordered(order: Order, one: &Blocks<'_>, other: &Blocks<'_>) -> bool
    ensures { OnTrue result (are_ordered order one.now other.now ≡ true) }
{
    let mut looks = looks_for(one, other);
    for i in 0..one.count() {
        if !is_ordered_to_all(order, one, i, other, &mut looks) {
            return false;
        }
    }
    true
}

fn are_ordered_either_way(order: Order, one: &Blocks<'_>, other: &Blocks<'_>) -> bool
    ensures { OnTrue result (AreStacked one.now other.now) }
{
    are_all_ordered(order, one, other) || are_all_ordered(order, other, one)
}

/// Whether one of two polygons is found to stand above the other or beside it: no segment of the one runs above one of the other in a
/// column, or east of one in a row. It may not be found where many blocks of segments lie near many of the other polygon.
pub(crate) fn are_stacked(one: &Shape, other: &Shape) -> bool
    ensures { OnTrue result (AreStacked (segments_of one.now) (segments_of other.now)) }
{
    let own = Blocks::of(one);
    let others = Blocks::of(other);
    are_ordered_either_way(Order::Under, &own, &others)
        || are_ordered_either_way(Order::Before, &own, &others)
}
