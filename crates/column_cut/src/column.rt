ghost use Rattle.std.specs.Prelude.{◌≡◌, pos, ◌+ℤ◌, ◌-ℤ◌, ◌*ℤ◌, ◌≤ℤ◌, ◌<ℤ◌, ◌≤◌, ◌^◌, unsigned_abs, OnOk, IsSortedBy, map};
ghost use Rattle.std.specs.Ordering.{is_lt};
ghost use Rattle.std.specs.List.Sorted.{IsStableBy};
ghost use Rattle.plane_terms.specs.Point.{InReach};
ghost use Rattle.plane_terms.specs.Columns.{column};
ghost use Rattle.column_cut.specs.Ranks.{is_under, IsRankOf, segment_of, passes};

use crate::coordinate::Coordinate;
use crate::ranked::Ranked;
use grid_plane::{NoMemory, Seg};
use std::cmp::Ordering;

fn wide_product(k: i128, m: i128) -> i128
    requires k_fits { unsigned_abs k ≤ 2 ^ 48 }
    requires m_fits { unsigned_abs m ≤ 2 ^ 23 }
    ensures value { result ≡ k *ℤ m }
{
    k * m
}

pub(crate) fn product(k: i64, m: i64) -> i128
    requires k_fits { unsigned_abs k ≤ 2 ^ 48 }
    requires m_fits { unsigned_abs m ≤ 2 ^ 23 }
    ensures { result ≡ k *ℤ m }
{
    wide_product(i128::from(k), i128::from(m))
}

fn compare(a: &Ranked, b: &Ranked) -> Ordering
    ensures { is_lt result ≡ is_under a.now b.now }
{
    product(b.level, a.width).cmp(&product(a.level, b.width))
}

/// From below; those that are equally high stay as they stood.
fn sort(ranks: &mut Vec<Ranked>) -> Result<(), NoMemory>
    ensures sorted { OnOk result (IsSortedBy is_under ranks.new.items) }
    ensures stable { IsStableBy is_under ranks.old.items ranks.new.items }
{
    ranks.sort_by(|a, b| compare(a, b))?;
    Ok(())
}

fn difference(a: i32, b: i32) -> i64
    requires a_fits { InReach a }
    requires b_fits { InReach b }
    ensures value { result ≡ a -ℤ b }
    ensures fits { unsigned_abs result ≤ 2 ^ 23 }
{
    i64::from(a) - i64::from(b)
}

fn sum(a: i32, b: i32) -> i64
    requires a_fits { InReach a }
    requires b_fits { InReach b }
    ensures value { result ≡ a +ℤ b }
    ensures fits { unsigned_abs result ≤ 2 ^ 23 }
{
    i64::from(a) + i64::from(b)
}

fn twice(v: i32) -> i64
    requires { InReach v }
    ensures value { result ≡ pos 2 *ℤ v }
    ensures fits { unsigned_abs result ≤ 2 ^ 23 }
{
    2 * i64::from(v)
}

fn across(segment: &Seg) -> i64
    ensures value { result ≡ segment.now.hi.x -ℤ segment.now.lo.x }
    ensures fits { unsigned_abs result ≤ 2 ^ 23 }
{
    difference(segment.hi().x(), segment.lo().x())
}

fn rise(segment: &Seg) -> i64
    ensures value { result ≡ segment.now.hi.y -ℤ segment.now.lo.y }
    ensures fits { unsigned_abs result ≤ 2 ^ 23 }
{
    difference(segment.hi().y(), segment.lo().y())
}

fn minus_short(a: i64, b: i64) -> i64
    requires a_fits { unsigned_abs a ≤ 2 ^ 23 }
    requires b_fits { unsigned_abs b ≤ 2 ^ 23 }
    ensures value { result ≡ a -ℤ b }
    ensures fits { unsigned_abs result ≤ 2 ^ 24 }
{
    a - b
}

/// Twice how far the lower end is right of the middle.
fn past(segment: &Seg, left: &Coordinate, right: &Coordinate) -> i64
    ensures value { result ≡ pos 2 *ℤ segment.now.lo.x -ℤ (left.now +ℤ right.now) }
    ensures fits { unsigned_abs result ≤ 2 ^ 24 }
{
    minus_short(twice(segment.lo().x()), sum(left.value(), right.value()))
}

/// Twice the height of the lower end.
fn height(segment: &Seg) -> i64
    ensures value { result ≡ pos 2 *ℤ segment.now.lo.y }
    ensures fits { unsigned_abs result ≤ 2 ^ 23 }
{
    twice(segment.lo().y())
}

fn minus(a: i64, b: i64) -> i64
    requires a_fits { unsigned_abs a ≤ 2 ^ 47 }
    requires b_fits { unsigned_abs b ≤ 2 ^ 47 }
    ensures value { result ≡ a -ℤ b }
    ensures fits { unsigned_abs result ≤ 2 ^ 48 }
{
    a - b
}

fn product_short(k: i64, m: i64) -> i64
    requires k_fits { unsigned_abs k ≤ 2 ^ 24 }
    requires m_fits { unsigned_abs m ≤ 2 ^ 23 }
    ensures value { result ≡ k *ℤ m }
    ensures fits { unsigned_abs result ≤ 2 ^ 47 }
{
    k * m
}

fn rank(segment: &Seg, left: &Coordinate, right: &Coordinate) -> Ranked
    requires apart { left.now <ℤ right.now }
    requires from { segment.now.lo.x ≤ℤ left.now }
    requires to { right.now ≤ℤ segment.now.hi.x }
    ensures { IsRankOf left.now right.now segment.now result }
{
    let width = across(segment);
    let slope = product_short(past(segment, left, right), rise(segment));
    let base = product_short(height(segment), width);
    let level = minus(slope, base);
    Ranked {
        level,
        width,
        segment: *segment,
    }
}

fn spans(segment: &Seg, left: &Coordinate, right: &Coordinate) -> bool
    ensures { result ≡ passes left.now right.now segment.now }
{
    segment.lo().x() <= left.value() && right.value() <= segment.hi().x()
}

/// Leaves in the list the segments that go all the way from left to right, from below in the middle, with their ranks there.
/// One scan of all segments and a sort.
pub(crate) fn find_column(
    found: &mut Vec<Ranked>,
    segments: &[Seg],
    left: &Coordinate,
    right: &Coordinate,
) -> Result<(), NoMemory>
    requires { left.now <ℤ right.now }
    ensures { OnOk result (map segment_of found.new.items ≡ column left.now right.now segments.now) }
{
    found.clear();
    for segment in segments {
        if spans(segment, left, right) {
            found.push(rank(segment, left, right))?;
        }
    }
    sort(found)?;
    Ok(())
}
