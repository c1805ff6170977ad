ghost use Rattle.std.specs.Prelude.{◌≡◌, ℕ, ℤ, pos, ◌+ℤ◌, ◌*ℤ◌, ◌<◌, ◌≤◌, ◌^◌, length, slice_index_or, unsigned_abs};
ghost use Rattle.std.specs.Bool.{OnTrue};
ghost use Rattle.plane_terms.specs.Point.{Point};
ghost use Rattle.plane_terms.specs.HalfPlane.{Holds, x_is, y_over, y_under};
ghost use Rattle.plane_terms.specs.Cell.{InCell};
ghost use Rattle.column_cut.specs.Pieces.{all_of, above, below};
ghost use Rattle.column_cut.specs.Stretches.{AreStacked, IsApart};

use crate::coordinate::Coordinate;
use crate::intervals::Stretch;
use crate::slots::Slot;
use grid_plane::Half;

pub(crate) fn product(a: i64, v: i32) -> i64
    requires a_fits { unsigned_abs a ≤ 2 ^ 23 }
    requires v_fits { unsigned_abs v ≤ 2 ^ 23 }
    ensures value { result ≡ a *ℤ v }
    ensures fits { unsigned_abs result ≤ 2 ^ 46 }
{
    a * i64::from(v)
}

/// What the half-plane asks about, at a place.
fn value_at(half: &Half, x: &Coordinate, y: &Coordinate) -> i64
    ensures value { result ≡ half.now.a *ℤ x.now +ℤ half.now.b *ℤ y.now +ℤ half.now.c }
    ensures fits { unsigned_abs result ≤ 2 ^ 48 }
{
    product(half.a(), x.value()) + product(half.b(), y.value()) + half.c()
}

/// It holds nowhere on the upright line at x below y.
fn fails_below(half: &Half, x: &Coordinate, y: &Coordinate) -> bool
    ensures { OnTrue result ((p : Point) → Holds (x_is x.now) p → Holds (y_under y.now) p → ¬ (Holds half.now p)) }
{
    if half.b() <= 0 {
        return false;
    }
    value_at(half, x, y) <= 0
}

/// It holds nowhere on the upright line at x above y.
fn fails_above(half: &Half, x: &Coordinate, y: &Coordinate) -> bool
    ensures { OnTrue result ((p : Point) → Holds (x_is x.now) p → Holds (y_over y.now) p → ¬ (Holds half.now p)) }
{
    if half.b() >= 0 {
        return false;
    }
    value_at(half, x, y) <= 0
}

/// The stretch ends where the slot has not begun.
fn ends_below(x: &Coordinate, over: &Option<Half>, high: &Option<Coordinate>) -> bool
    ensures { OnTrue result ((p : Point) → Holds (x_is x.now) p → InCell (all_of over.now) p → ¬ (InCell (below high.now) p)) }
{
    let Some(half) = over else {
        return false;
    };
    let Some(y) = high else {
        return false;
    };
    fails_below(half, x, y)
}

/// The stretch begins where the slot has ended.
pub(crate) fn begins_above(x: &Coordinate, under: &Option<Half>, low: &Option<Coordinate>) -> bool
    ensures { OnTrue result ((p : Point) → Holds (x_is x.now) p → InCell (all_of under.now) p → ¬ (InCell (above low.now) p)) }
{
    let Some(half) = under else {
        return false;
    };
    let Some(y) = low else {
        return false;
    };
    fails_above(half, x, y)
}

/// The first place from which no stretch ends below the slot.
pub(crate) fn first_reaching(x: &Coordinate, slot: &Slot, stretches: &[Stretch]) -> usize
    requires { AreStacked stretches.now }
    ensures fits { result ≤ length stretches.now }
    ensures before { (k : ℕ) → (d : Stretch) → k < result → IsApart x.now slot.now (slice_index_or stretches.now k d) }
{
    let mut low = 0;
    let mut high = stretches.len();
    while low < high {
        let middle = low + (high - low) / 2;
        if ends_below(x, &slot.over, &stretches[middle].high) {
            low = middle + 1;
        } else {
            high = middle;
        }
    }
    low
}
