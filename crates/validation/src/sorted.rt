ghost use Rattle.std.specs.Prelude.{◌≡◌, ◌≤◌, ◌≤ℤ◌, pos, int_le, int_lt, true, false, length, filter, All};
ghost use Rattle.std.specs.List.{list_any};
ghost use Rattle.std.specs.List.Sorted.{IsPermutation, IsPartitionPoint, IsPartitionedBy};
ghost use Rattle.plane_terms.specs.Rectangle.{Rectangle, rects_meet};
ghost use Rattle.validation.specs.Sorted.{IsUpTo, RunsEast};

use grid_plane::Rect;
use std::marker::Model;

/// Rectangles by their least abscissas, and how wide the widest is, in grid units.
#[derive(Drop)]
pub struct SortedRects {
    rects: Vec<Rect>,
    widest: i32,
}

impl Model for SortedRects {
    ghost use Rattle.std.specs.Prelude.{List, ◌≤ℤ◌, pos, All};
    ghost use Rattle.plane_terms.specs.Rectangle.{Rectangle};
    ghost use Rattle.validation.specs.Sorted.{IsUpTo, RunsEast};

    ghost Value = { List Rectangle };

    ghost view = { λ x. x.rects.items };

    ghost invariant = { λ x. RunsEast x.rects.items × All (IsUpTo x.widest) x.rects.items × (pos 0 ≤ℤ x.widest) × (x.widest ≤ℤ pos 8388608) };
}

fn sort(rects: &mut Vec<Rect>)
    ensures sorted { RunsEast rects.new.items }
    ensures moved { IsPermutation rects.old.items rects.new.items }
{
    rects.sort_unstable_by_key(|s| s.x0());
}

// How wide the widest rectangle is.
fn widest_of(rects: &[Rect]) -> i32
    ensures enough { All (IsUpTo result) rects.now }
    ensures least { pos 0 ≤ℤ result }
    ensures greatest { result ≤ℤ pos 8388608 }
{
    let mut widest = 0;
    for s in rects {
        widest = widest.max(s.x1() - s.x0());
    }
    widest
}

// The first place from which no rectangle begins west of this abscissa.
fn first_from(rects: &[Rect], x: i32) -> usize
    requires { RunsEast rects.now }
    ensures bound { result ≤ length rects.now }
    ensures parted { IsPartitionPoint (λ (s : Rectangle). int_lt s.x0 x ≡ true) (λ (s : Rectangle). int_lt s.x0 x ≡ false) rects.now result }
{
    rects.partition_point(|s| s.x0() < x)
}

// The first place from which every rectangle begins east of this abscissa.
fn first_beyond(rects: &[Rect], x: i32) -> usize
    requires { IsPartitionedBy (λ (s : Rectangle). int_le s.x0 x) rects.now }
    ensures bound { result ≤ length rects.now }
    ensures parted { IsPartitionPoint (λ (s : Rectangle). int_le s.x0 x ≡ true) (λ (s : Rectangle). int_le s.x0 x ≡ false) rects.now result }
{
    rects.partition_point(|s| s.x0() <= x)
}

// Of rectangles by their least abscissas those that lie neither too far west nor too far east to meet this one.
fn candidates<'a>(rects: &'a [Rect], widest: i32, r: &Rect) -> &'a [Rect]
    requires sorted { RunsEast rects.now }
    requires enough { All (IsUpTo widest) rects.now }
    requires least { pos 0 ≤ℤ widest }
    requires greatest { widest ≤ℤ pos 8388608 }
    ensures { filter (rects_meet r.now) result.now ≡ filter (rects_meet r.now) rects.now }
{
    let rest = &rects[first_from(rects, r.x0() - widest)..];
    &rest[..first_beyond(rest, r.x1())]
}

fn meets_any(rects: &[Rect], r: &Rect) -> bool
    ensures { result ≡ list_any (rects_meet r.now) rects.now }
{
    rects.iter().any(|s| r.meets(s))
}

impl SortedRects {
    /// These rectangles.
    pub fn of(mut rects: Vec<Rect>) -> SortedRects
        ensures { IsPermutation rects.items result }
    {
        sort(&mut rects);
        let widest = widest_of(&rects);
        SortedRects { rects, widest }
    }

    /// The rectangles from west to east.
    pub fn rects(&self) -> &[Rect]
        ensures { result.now ≡ self.now }
    {
        &self.rects
    }

    /// Whether some rectangle meets this one; touching is meeting. Takes steps for those alone that lie neither too far west
    /// nor too far east.
    pub fn meets(&self, r: &Rect) -> bool
        ensures { result ≡ list_any (rects_meet r.now) self.now }
    {
        meets_any(candidates(&self.rects, self.widest, r), r)
    }
}
