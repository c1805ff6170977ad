ghost use Rattle.std.specs.Prelude.{◌≡◌, ◌<◌, ◌↔◌, ℕ, length, IsTrue, MatchOption};
ghost use Rattle.plane_terms.specs.ShapeFaults.{AreBad, IsPair, IsFirstPair};

use grid_plane::{Seg, Share};

// Whether two segments cross, or run along each other.
fn are_bad(s: &Seg, t: &Seg) -> bool
    ensures { IsTrue result ↔ AreBad s.now t.now }
{
    match s.shares(t) {
        Share::Nothing => false,
        Share::Along => true,
        Share::Cross => true,
        Share::Touch => false,
    }
}

fn is_bad_pair(segs: &[Seg], i: usize, j: usize) -> bool
    requires ordered { i < j }
    requires within { j < length segs.now }
    ensures { IsTrue result ↔ IsPair AreBad segs.now i j }
{
    are_bad(&segs[i], &segs[j])
}

// The first that is bad with this one, of those after it.
fn first_with(segs: &[Seg], i: usize) -> Option<usize>
    requires { i < length segs.now }
    ensures { MatchOption result ((j : ℕ) → ¬ (IsPair AreBad segs.now i j)) (λ j. IsPair AreBad segs.now i j × ((b : ℕ) → b < j → ¬ (IsPair AreBad segs.now i b))) }
{
    for j in i + 1..segs.len() {
        if is_bad_pair(segs, i, j) {
            return Some(j);
        }
    }
    None
}

/// The numbers, from 0, of the first two segments that cross or run along each other, in order of the first, then of the second;
/// `None` exactly where there are none. Looks at each pair in order.
pub fn first_bad_pair(segs: &[Seg]) -> Option<(usize, usize)>
    ensures { MatchOption result ((a b : ℕ) → ¬ (IsPair AreBad segs.now a b)) (λ p. IsFirstPair AreBad segs.now p.0 p.1) }
{
    for i in 0..segs.len() {
        if let Some(j) = first_with(segs, i) {
            return Some((i, j));
        }
    }
    None
}
