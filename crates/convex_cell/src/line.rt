ghost use Rattle.std.specs.Prelude.{◌≡◌, ℕ, ℤ, ◌<◌, ◌≤◌, ◌^◌, ◌-ℤ◌, ◌*ℤ◌, ◌++◌, ◌↔◌, unsigned_abs, IfSome, All};
ghost use Rattle.plane_terms.specs.Point.{Point};
ghost use Rattle.plane_terms.specs.HalfPlane.{Holds};
ghost use Rattle.plane_terms.specs.Cell.{InCell};
ghost use Rattle.plane_terms.specs.declared.op.Op.TheVariants.{Zero};
ghost use Rattle.convex_cell.specs.Range.{IsRange, InRange};
ghost use Rattle.convex_cell.specs.Seen.{seen, cell_seen};
ghost use Rattle.convex_cell.specs.Line.{IsLineAcross, SaysOn};
ghost use Rattle.convex_cell.specs.Shadow.{IsShadow};

use crate::direction::Direction;
use crate::pairs::{range_of, seen, sum_of_products};
use crate::range::Range;
use grid_plane::{Half, Op};

/// The line turned so that b is above 0; `None` where it has no b.
fn upright(line: &Half) -> Option<Half>
    requires { line.now.op ≡ Zero }
    ensures across { IfSome result IsLineAcross }
    ensures on { IfSome result (λ l. (q : Point) → Holds line.now q → Holds l q) }
{
    if line.b() > 0 {
        return Some(*line);
    }
    if line.b() < 0 {
        return Some(line.turned(Op::Zero));
    }
    None
}

/// The half-plane where it is a line that crosses the direction.
fn as_line(half: &Half, direction: Direction) -> Option<Half>
    ensures across { IfSome result IsLineAcross }
    ensures on { IfSome result (λ l. (q : Point) → Holds (seen direction half.now) q → Holds l q) }
{
    match half.op() {
        Op::Over => None,
        Op::AtLeast => None,
        Op::Zero => upright(&seen(direction, half)),
    }
}

/// A line among the half-planes, as it is seen along the direction, which it crosses: all their points are on it.
pub(crate) fn line_across(halves: &[Half], direction: Direction) -> Option<Half>
    ensures across { IfSome result IsLineAcross }
    ensures on { IfSome result (λ l. (q : Point) → InCell (cell_seen direction halves.now) q → Holds l q) }
{
    for half in halves {
        if let Some(line) = as_line(half, direction) {
            return Some(line);
        }
    }
    None
}

/// How fast the value of the half-plane grows along the line.
fn slope_on(line: &Half, half: &Half) -> i128
    ensures value { result ≡ half.now.a *ℤ line.now.b -ℤ line.now.a *ℤ half.now.b }
    ensures fits { unsigned_abs result ≤ 2 ^ 47 }
{
    sum_of_products(half.a(), line.b(), -line.a(), half.b())
}

/// The value of the half-plane where the line is at 0.
fn constant_on(line: &Half, half: &Half) -> i128
    ensures value { result ≡ half.now.c *ℤ line.now.b -ℤ line.now.c *ℤ half.now.b }
    ensures fits { unsigned_abs result ≤ 2 ^ 70 }
{
    sum_of_products(half.c(), line.b(), -line.c(), half.b())
}

fn cut_on(range: &mut Range, line: &Half, half: &Half)
    requires { IsRange range.old }
    ensures fits { IsRange range.new }
    ensures both { (t : ℤ) → (w : ℕ) → 0 < w → (InRange range.new t w ↔ (InRange range.old t w × SaysOn line.now half.now t w)) }
{
    range.cut_to(half.op(), slope_on(line, half), constant_on(line, half));
}

/// Leaves of the range what the half-planes, seen along the direction, leave of the line.
fn cut_on_line(range: &mut Range, line: &Half, halves: &[Half], direction: Direction)
    requires { IsRange range.old }
    ensures fits { IsRange range.new }
    ensures both { (t : ℤ) → (w : ℕ) → 0 < w → (InRange range.new t w
        ↔ (InRange range.old t w × All (λ h. SaysOn line.now (seen direction h) t w) halves.now)) }
{
    for half in halves {
        cut_on(range, line, &seen(direction, half));
    }
}

/// What the half-planes of both lists leave of the first coordinate on a line on which the points of the first lie.
fn range_on(line: &Half, first: &[Half], second: &[Half], direction: Direction) -> Range
    requires across { IsLineAcross line.now }
    requires on { (q : Point) → InCell (cell_seen direction first.now) q → Holds line.now q }
    ensures fits { IsRange result }
    ensures shadow { IsShadow direction (first.now ++ second.now) result }
{
    let mut range = Range::all();
    cut_on_line(&mut range, line, first, direction);
    cut_on_line(&mut range, line, second, direction);
    range
}

/// What the half-planes of both lists leave of the first coordinate along the direction, where a line of the first crosses it.
pub(crate) fn range_on_line(first: &[Half], second: &[Half], direction: Direction) -> Option<Range>
    ensures fits { IfSome result IsRange }
    ensures shadow { IfSome result (IsShadow direction (first.now ++ second.now)) }
{
    match line_across(first, direction) {
        Some(line) => Some(range_on(&line, first, second, direction)),
        None => None,
    }
}

/// What the half-planes leave of the first coordinate along the direction. On a line each of them is one bound; without a line
/// the other coordinate is eliminated from each pair.
pub(crate) fn shadow_of(halves: &[Half], direction: Direction) -> Range
    ensures fits { IsRange result }
    ensures shadow { IsShadow direction halves.now result }
{
    match range_on_line(halves, &[], direction) {
        Some(range) => range,
        None => range_of(halves, direction),
    }
}
