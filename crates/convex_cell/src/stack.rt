// Bounds that stand one above another between the same upright lines.
ghost use Rattle.std.specs.Prelude.{ℕ, ◌≤◌, ◌<◌, ◌⊎◌, length, slice_index_or, IfSome, IfNone};
ghost use Rattle.std.specs.Bool.{OnTrue};
ghost use Rattle.convex_cell.specs.Span.{AreApart, AreBeside, AreRisingTo};

use crate::bounds::{Bounds, are_apart};

/// Whether the two lie between the same upright lines, the other below these bounds or the first above them: then so does all that
/// stands from the first up to the other.
fn are_beside(own: &Bounds, first: &Bounds, other: &Bounds) -> bool
    ensures { OnTrue result (AreBeside own.now first.now other.now) }
{
    if first.x.from != other.x.from || first.x.to != other.x.to {
        return false;
    }
    other.y.to < own.y.from || own.y.to < first.y.from
}

/// A place behind this one, before which all are apart from these bounds, as this one is. It goes on in ever longer strides, and
/// then back in halves.
fn behind(bounds: &[Bounds], own: &Bounds, i: usize, last: usize) -> usize
    requires rising { AreRisingTo (length bounds.now) bounds.now }
    requires before { i < last }
    requires fits { last ≤ length bounds.now }
    requires apart { (d : Bounds) → AreApart own.now (slice_index_or bounds.now i d) }
    ensures further { i < result }
    ensures fits { result ≤ last }
    ensures apart { (k : ℕ) → (d : Bounds) → i ≤ k → k < result → AreApart own.now (slice_index_or bounds.now k d) }
{
    let mut low = i;
    let mut high = last;
    while low + 1 < high {
        let at = low + (low - i + 1).min((high - low) / 2);
        if are_beside(own, &bounds[i], &bounds[at]) {
            low = at;
        } else {
            high = at;
        }
    }
    low + 1
}

/// The first place from this one on, and before the last, of bounds that are not apart from these. Of those that stand one above
/// another most are passed over unseen.
pub(crate) fn next_near(
    bounds: &[Bounds],
    own: &Bounds,
    from: usize,
    last: usize,
    rising: bool,
) -> Option<usize>
    requires rising { OnTrue rising (AreRisingTo (length bounds.now) bounds.now) }
    requires fits { last ≤ length bounds.now }
    ensures none { IfNone result ((k : ℕ) → (d : Bounds) → from ≤ k → k < last → AreApart own.now (slice_index_or bounds.now k d)) }
    ensures from { IfSome result (λ i. from ≤ i) }
    ensures before { IfSome result (λ i. i < last) }
    ensures apart { IfSome result (λ i. (k : ℕ) → (d : Bounds) → from ≤ k → k < i → AreApart own.now (slice_index_or bounds.now k d)) }
{
    let mut i = from;
    while i < last {
        if !are_apart(own, &bounds[i]) {
            return Some(i);
        }
        i = if rising {
            behind(bounds, own, i, last)
        } else {
            i + 1
        };
    }
    None
}
