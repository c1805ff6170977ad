ghost use Rattle.std.specs.Prelude.{◌≡◌, not, ◌↔◌, ℕ, ℤ, pos, ◌<ℤ◌, ◌≤ℤ◌, ◌*ℤ◌, ◌+ℤ◌, ◌≤◌, ◌<◌, ◌+◌, ◌++◌, ◌^◌, unsigned_abs, length, take, All, IfSome, IfOk, OnOk};
ghost use Rattle.std.specs.Bool.{OnTrue};
ghost use Rattle.plane_terms.specs.Point.{Point};
ghost use Rattle.plane_terms.specs.HalfPlane.{Holds, value_at};
ghost use Rattle.plane_terms.specs.Cell.{meet_of};
ghost use Rattle.plane_terms.specs.Decide.{has_point};
ghost use Rattle.convex_cell.specs.Span.{IsSpan, InSpan, IsBoundsOf};
ghost use Rattle.convex_cell.specs.Needed.{FitsReach, Reaches, IsInFrame, SameCells, closed_of};

use crate::bounds::{Bounds, common_bounds, is_small, left_of, right_of};
use crate::cell::is_empty_together;
use crate::span::{Span, highest};
use crate::trials::{has_end_in_both, is_in_both, middle_of_both};
use grid_plane::{Half, NoMemory, Op};
use std::alloc::Global;

/// So many half-planes are few.
const FEW: usize = 8;

/// Two whole numbers between which something lies.
#[derive(Clone, Copy)]
pub struct Reach {
    pub from: i64,
    pub to: i64,
}

/// Whole numbers round a span, where they are small enough.
pub(crate) fn reach_of(span: Span) -> Option<Reach>
    requires { IsSpan span }
    ensures fits { IfSome result FitsReach }
    ensures sound { IfSome result (λ r. (z : ℤ) → (w : ℕ) → InSpan span z w → Reaches r z w) }
{
    let from = left_of(span.from);
    let to = right_of(span.to);
    if !is_small(from) {
        return None;
    }
    if !is_small(to) {
        return None;
    }
    Some(Reach { from, to })
}

/// What the half-plane asks about is nowhere less than this within the frame: it is least at a corner, where it is greatest turned round.
fn lowest_within(half: &Half, x: Reach, y: Reach) -> i64
    requires x { FitsReach x }
    requires y { FitsReach y }
    ensures { (p : Point) → IsInFrame x y p → (result *ℤ pos p.w) ≤ℤ value_at half.now p }
{
    let turned = half.turned(Op::Over);
    let along = highest(turned.a(), turned.c(), x.from, x.to);
    let up = highest(turned.b(), 0, y.from, y.to);
    -(along + up)
}

/// Whether the half-plane holds wherever the frame does, as its corners show.
fn holds_within(half: &Half, x: Reach, y: Reach) -> bool
    requires x { FitsReach x }
    requires y { FitsReach y }
    ensures { OnTrue result ((p : Point) → IsInFrame x y p → Holds half.now p) }
{
    let lowest = lowest_within(half, x, y);
    match half.op() {
        Op::Over => lowest > 0,
        Op::AtLeast => lowest >= 0,
        Op::Zero => false,
    }
}

/// Whether all the half-planes hold wherever the frame does.
pub(crate) fn hold_within(halves: &[Half], x: Reach, y: Reach) -> bool
    requires x { FitsReach x }
    requires y { FitsReach y }
    ensures { OnTrue result ((p : Point) → IsInFrame x y p → All (λ h. Holds h p) halves.now) }
{
    for half in halves {
        if !holds_within(half, x, y) {
            return false;
        }
    }
    true
}

/// The half-plane of these numbers, closed.
fn closed(a: i64, b: i64, c: i64) -> Half
    requires a { unsigned_abs a ≤ 1 }
    requires b { unsigned_abs b ≤ 1 }
    requires slanted { 0 < unsigned_abs a + unsigned_abs b }
    requires c { unsigned_abs c ≤ 2 ^ 23 }
    ensures { result ≡ closed_of a b c }
{
    Half::of(a, b, c, Op::AtLeast).unwrap()
}

/// The four sides of a frame: they hold exactly within it.
fn sides_of(alloc: Global, x: Reach, y: Reach) -> Result<Vec<Half>, NoMemory>
    requires x { FitsReach x }
    requires y { FitsReach y }
    ensures { IfOk result (λ sides. (p : Point) → All (λ h. Holds h p) sides.items ↔ IsInFrame x y p) }
{
    let left = closed(1, 0, -x.from);
    let right = closed(-1, 0, x.to);
    let below = closed(0, 1, -y.from);
    let above = closed(0, -1, y.to);
    Ok(Vec::from_slice(alloc, &[left, right, below, above])?)
}

/// Adds the half-plane where it says more than the frame does.
fn push_other(needed: &mut Vec<Half>, half: &Half, x: Reach, y: Reach) -> Result<(), NoMemory>
    requires x { FitsReach x }
    requires y { FitsReach y }
    requires framed { (p : Point) → All (λ h. Holds h p) needed.old.items → IsInFrame x y p }
    ensures points { OnOk result ((p : Point) → All (λ h. Holds h p) needed.new.items ↔ (All (λ h. Holds h p) needed.old.items × Holds half.now p)) }
    ensures begins { take (length needed.old.items) needed.new.items ≡ needed.old.items }
{
    if holds_within(half, x, y) {
        return Ok(());
    }
    needed.push(*half)?;
    Ok(())
}

pub(crate) fn push_others(
    needed: &mut Vec<Half>,
    halves: &[Half],
    x: Reach,
    y: Reach,
) -> Result<(), NoMemory>
    requires x { FitsReach x }
    requires y { FitsReach y }
    requires framed { (p : Point) → All (λ h. Holds h p) needed.old.items → IsInFrame x y p }
    ensures points { OnOk result ((p : Point) → All (λ h. Holds h p) needed.new.items
        ↔ (All (λ h. Holds h p) needed.old.items × All (λ h. Holds h p) halves.now)) }
    ensures begins { take (length needed.old.items) needed.new.items ≡ needed.old.items }
{
    for half in halves {
        push_other(needed, half, x, y)?;
    }
    Ok(())
}

fn framed(alloc: Global, halves: &[Half], x: Reach, y: Reach) -> Result<Vec<Half>, NoMemory>
    requires x { FitsReach x }
    requires y { FitsReach y }
    requires round { (p : Point) → All (λ h. Holds h p) halves.now → IsInFrame x y p }
    ensures { IfOk result (λ needed. SameCells needed.items halves.now) }
{
    let mut needed = sides_of(alloc, x, y)?;
    push_others(&mut needed, halves, x, y)?;
    Ok(needed)
}

/// Of many half-planes few are left: the sides of a frame round the cell, and those that say more. They hold at the same points.
/// `None` for a cell of few, and where no frame is known.
pub(crate) fn needed_of(
    alloc: Global,
    cell: &[Half],
    bounds: &Bounds,
) -> Result<Option<Vec<Half>>, NoMemory>
    requires { IsBoundsOf bounds.now cell.now }
    ensures { IfOk result (λ needed. IfSome needed (λ n. SameCells n.items cell.now)) }
{
    if cell.len() <= FEW {
        return Ok(None);
    }
    let Some(x) = reach_of(bounds.x) else {
        return Ok(None);
    };
    let Some(y) = reach_of(bounds.y) else {
        return Ok(None);
    };
    Ok(Some(framed(alloc, cell, x, y)?))
}

/// Whether no point is in both cells, where these are bounds of what is. Where half-planes with the points of the first are known,
/// they are asked in its place.
fn meet_is_empty(cell: &[Half], needed: &Option<Vec<Half>>, other: &[Half], common: &Bounds) -> bool
    requires common { IsBoundsOf common.now (cell.now ++ other.now) }
    requires needed { IfSome needed.now (λ n. SameCells n.items cell.now) }
    ensures { result ≡ not (has_point (meet_of cell.now other.now)) }
{
    match needed {
        Some(needed) => is_empty_together(needed, other, common),
        None => is_empty_together(cell, other, common),
    }
}

/// Whether a point is in both cells: the middle of what their bounds have in common is tried first, and then the ends of the first
/// cell, where it is a side. The half-planes that are needed of the first cell are found only if none is such a point, and kept for
/// the next call.
pub(crate) fn meets(
    alloc: Global,
    cell: &[Half],
    needed: &mut Option<Vec<Half>>,
    bounds: &Bounds,
    other: &[Half],
    other_bounds: &Bounds,
) -> Result<bool, NoMemory>
    requires needed { IfSome needed.old (λ n. SameCells n.items cell.now) }
    requires cell { IsBoundsOf bounds.now cell.now }
    requires other { IsBoundsOf other_bounds.now other.now }
    ensures meets { IfOk result (λ meets. meets ≡ has_point (meet_of cell.now other.now)) }
    ensures needed { IfOk result (λ _. IfSome needed.new (λ n. SameCells n.items cell.now)) }
{
    let at = middle_of_both(bounds, other_bounds);
    if is_in_both(cell, other, at) {
        return Ok(true);
    }
    if has_end_in_both(cell, other, bounds) {
        return Ok(true);
    }
    if needed.is_none() {
        *needed = needed_of(alloc, cell, bounds)?;
    }
    Ok(!meet_is_empty(cell, needed, other, &common_bounds(bounds, other_bounds)))
}
