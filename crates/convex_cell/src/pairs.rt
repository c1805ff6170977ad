ghost use Rattle.std.specs.Prelude.{◌≡◌, ℕ, ℤ, pos, ◌<◌, ◌↔◌, ◌≤◌, ◌^◌, ◌+ℤ◌, ◌*ℤ◌, ◌++◌, unsigned_abs, IfSome, All};
ghost use Rattle.plane_terms.specs.Decide.{high_of};
ghost use Rattle.cell_laws.specs.Bounds.{either, Compatible, FlatHolds, PairsHold};
ghost use Rattle.convex_cell.specs.Range.{IsRange, InRange};
ghost use Rattle.convex_cell.specs.Seen.{seen, PairsSeen};

use crate::direction::Direction;
use crate::edge::{Edge, high_edge, low_edge};
use crate::range::Range;
use grid_plane::Half;

fn either(s: bool, r: bool) -> bool
    ensures { result ≡ either s r }
{
    s || r
}

pub(crate) fn sum_of_products(a: i64, b: i64, c: i64, d: i64) -> i128
    requires b_fits { unsigned_abs b ≤ 2 ^ 23 }
    requires d_fits { unsigned_abs d ≤ 2 ^ 23 }
    ensures { result ≡ a *ℤ b +ℤ c *ℤ d }
{
    i128::from(a) * i128::from(b) + i128::from(c) * i128::from(d)
}

/// The half-plane in the coordinates in which the direction is the way to the right.
pub(crate) fn seen(direction: Direction, half: &Half) -> Half
    ensures { result ≡ seen direction half.now }
{
    match direction {
        Direction::East => *half,
        Direction::North => half.mirrored(),
    }
}

fn cut_by_flat(range: &mut Range, half: &Half)
    requires { IsRange range.old }
    ensures fits { IsRange range.new }
    ensures both { (t : ℤ) → (w : ℕ) → 0 < w → (InRange range.new t w ↔ (InRange range.old t w × FlatHolds half.now t w)) }
{
    if half.b() != 0 {
        return;
    }
    range.cut_to(half.op(), i128::from(half.a()), i128::from(half.c()));
}

fn cut_by_pair(range: &mut Range, low: Edge, high: Edge)
    requires { IsRange range.old }
    ensures fits { IsRange range.new }
    ensures both { (t : ℤ) → (w : ℕ) → 0 < w → (InRange range.new t w ↔ (InRange range.old t w × Compatible low high t w)) }
{
    let m = sum_of_products(low.a, high.b, high.a, low.b);
    let k = sum_of_products(low.c, high.b, high.c, low.b);
    range.cut(m, k, either(low.strict, high.strict))
}

fn cut_by_high(range: &mut Range, low: Edge, half: &Half)
    requires { IsRange range.old }
    ensures fits { IsRange range.new }
    ensures both { (t : ℤ) → (w : ℕ) → 0 < w → (InRange range.new t w
        ↔ (InRange range.old t w × IfSome (high_of half.now) (λ u. Compatible low u t w))) }
{
    match high_edge(half) {
        Some(high) => cut_by_pair(range, low, high),
        None => {}
    }
}

fn cut_by_pairs(range: &mut Range, low: Edge, halves: &[Half], direction: Direction)
    requires { IsRange range.old }
    ensures fits { IsRange range.new }
    ensures both { (t : ℤ) → (w : ℕ) → 0 < w → (InRange range.new t w
        ↔ (InRange range.old t w × All (λ g. IfSome (high_of (seen direction g)) (λ u. Compatible low u t w)) halves.now)) }
{
    for half in halves {
        cut_by_high(range, low, &seen(direction, half));
    }
}

fn cut_by_half(range: &mut Range, half: &Half, halves: &[Half], direction: Direction)
    requires { IsRange range.old }
    ensures fits { IsRange range.new }
    ensures both { (t : ℤ) → (w : ℕ) → 0 < w → (InRange range.new t w
        ↔ (InRange range.old t w × (FlatHolds half.now t w × PairsSeen direction halves.now half.now t w))) }
{
    cut_by_flat(range, half);
    match low_edge(half) {
        Some(low) => cut_by_pairs(range, low, halves, direction),
        None => {}
    }
}

/// What the half-planes leave of the first coordinate along the direction.
pub fn range_of(halves: &[Half], direction: Direction) -> Range
    ensures fits { IsRange result }
    ensures both { (t : ℤ) → (w : ℕ) → 0 < w → (InRange result t w
        ↔ All (λ h. FlatHolds (seen direction h) t w × PairsSeen direction halves.now (seen direction h) t w) halves.now) }
{
    let mut range = Range::all();
    for half in halves {
        cut_by_half(&mut range, &seen(direction, half), halves, direction);
    }
    range
}

fn cut_by_half_of_both(range: &mut Range, half: &Half, first: &[Half], second: &[Half])
    requires { IsRange range.old }
    ensures fits { IsRange range.new }
    ensures both { (t : ℤ) → (w : ℕ) → 0 < w → (InRange range.new t w
        ↔ (InRange range.old t w × (FlatHolds half.now t w × PairsHold first.now half.now t w × PairsHold second.now half.now t w))) }
{
    cut_by_flat(range, half);
    match low_edge(half) {
        Some(low) => {
            cut_by_pairs(range, low, first, Direction::East);
            cut_by_pairs(range, low, second, Direction::East);
        }
        None => {}
    }
}

/// What these half-planes leave of a range, each by itself and as a bound from below with those of both lists that bound from
/// above.
fn cut_by_halves(range: &mut Range, halves: &[Half], first: &[Half], second: &[Half])
    requires { IsRange range.old }
    ensures fits { IsRange range.new }
    ensures both { (t : ℤ) → (w : ℕ) → 0 < w → (InRange range.new t w
        ↔ (InRange range.old t w × All (λ h. FlatHolds h t w × PairsHold first.now h t w × PairsHold second.now h t w) halves.now)) }
{
    for half in halves {
        cut_by_half_of_both(range, half, first, second);
    }
}

/// What the half-planes of both lists leave of x.
pub fn range_of_both(first: &[Half], second: &[Half]) -> Range
    ensures fits { IsRange result }
    ensures both { (t : ℤ) → (w : ℕ) → 0 < w → (InRange result t w
        ↔ All (λ h. FlatHolds h t w × PairsHold (first.now ++ second.now) h t w) (first.now ++ second.now)) }
{
    let mut range = Range::all();
    cut_by_halves(&mut range, first, first, second);
    cut_by_halves(&mut range, second, first, second);
    range
}
