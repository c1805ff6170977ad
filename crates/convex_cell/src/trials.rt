ghost use Rattle.std.specs.Prelude.{◌≡◌, ◌++◌, ◌↔◌, ◌+ℤ◌, ◌*ℤ◌, ◌≤◌, ◌^◌, pos, unsigned_abs, IsTrue, All};
ghost use Rattle.std.specs.Bool.{OnTrue};
ghost use Rattle.plane_terms.specs.Cell.{HasPoint};
ghost use Rattle.convex_cell.specs.Middle.{HoldsAt};

use crate::bounds::{Bounds, is_small};
use crate::middle::Middle;
use crate::opposed::says;
use crate::span::{Span, sum_at};
use grid_plane::{Half, Op};

/// So many steps from its one end lies the middle of a span that has no other.
const FAR: i64 = 1_048_576;

fn step_between(from: i64, to: i64) -> i64 {
    if !is_small(from) {
        return to.saturating_sub(FAR);
    }
    if !is_small(to) {
        return from.saturating_add(FAR);
    }
    from.saturating_add(to).div_euclid(2)
}

/// The number; 0 where it is far away.
fn near_or_zero(v: i64) -> i64
    ensures { unsigned_abs result ≤ 2 ^ 23 }
{
    if is_small(v) {
        return v;
    }
    0
}

/// The middle of what both spans have in common; 0 where that is far away.
fn middle_of(first: Span, second: Span) -> i64
    ensures { unsigned_abs result ≤ 2 ^ 23 }
{
    near_or_zero(step_between(first.from.max(second.from), first.to.min(second.to)))
}

/// The middle of what both bounds have in common. No clause says that it is: a point of both is only looked for there.
pub(crate) fn middle_of_both(first: &Bounds, second: &Bounds) -> Middle
    ensures x { unsigned_abs result.x ≤ 2 ^ 23 }
    ensures y { unsigned_abs result.y ≤ 2 ^ 23 }
{
    Middle {
        x: middle_of(first.x, second.x),
        y: middle_of(first.y, second.y),
    }
}

/// Twice what the half-plane asks about, at the point.
fn value_at(half: &Half, at: Middle) -> i64
    ensures { result ≡ half.now.a *ℤ at.x +ℤ half.now.b *ℤ at.y +ℤ half.now.c *ℤ pos 2 }
{
    sum_at(half.a(), at.x, half.c()) + sum_at(half.b(), at.y, half.c())
}

fn holds_at(half: &Half, at: Middle) -> bool
    ensures { IsTrue result ↔ HoldsAt at half.now }
{
    says(half.op(), value_at(half, at))
}

fn all_hold_at(halves: &[Half], at: Middle) -> bool
    ensures { OnTrue result (All (λ h. HoldsAt at h) halves.now) }
{
    for half in halves {
        if !holds_at(half, at) {
            return false;
        }
    }
    true
}

/// Whether the point is in the cells of both lists. The second is asked first: mostly it is the shorter one.
pub(crate) fn is_in_both(first: &[Half], second: &[Half], at: Middle) -> bool
    ensures { OnTrue result (HasPoint (first.now ++ second.now)) }
{
    if !all_hold_at(second, at) {
        return false;
    }
    all_hold_at(first, at)
}

fn corner(x: i64, y: i64) -> Middle
    ensures x { unsigned_abs result.x ≤ 2 ^ 23 }
    ensures y { unsigned_abs result.y ≤ 2 ^ 23 }
{
    Middle {
        x: near_or_zero(x),
        y: near_or_zero(y),
    }
}

/// Whether the line of the half-plane falls to the right. An upright or a level one may count as either.
fn falls(half: &Half) -> bool {
    (half.a() < 0) == (half.b() < 0)
}

/// Where the first cell is a side, whose ends are corners of its bounds: whether one of them is in both cells.
pub(crate) fn has_end_in_both(first: &[Half], second: &[Half], bounds: &Bounds) -> bool
    ensures { OnTrue result (HasPoint (first.now ++ second.now)) }
{
    let Some(line) = first.first() else {
        return false;
    };
    if line.op() != Op::Zero {
        return false;
    }
    let (left, right) = if falls(line) {
        (bounds.y.to, bounds.y.from)
    } else {
        (bounds.y.from, bounds.y.to)
    };
    if is_in_both(first, second, corner(bounds.x.from, left)) {
        return true;
    }
    is_in_both(first, second, corner(bounds.x.to, right))
}
