ghost use Rattle.std.specs.Prelude.{◌≡◌};
ghost use Rattle.grid_index.specs.Nodes.{IsReach, reach_with, reach_of_both, touches_side};

use crate::placed::Placed;
use grid_plane::Rect;

/// The least rectangle that holds both; the second alone where there is no first.
pub(crate) fn reach_with(reach: Option<Rect>, r: &Rect) -> Option<Rect>
    ensures { result ≡ reach_with reach r.now }
{
    match reach {
        Some(held) => Some(held.join(r)),
        None => Some(*r),
    }
}

/// The least rectangle that holds both; one alone where there is no other.
pub(crate) fn reach_of_both(first: Option<Rect>, second: Option<Rect>) -> Option<Rect>
    ensures { result ≡ reach_of_both first second }
{
    match second {
        Some(r) => reach_with(first, &r),
        None => first,
    }
}

/// The least rectangle that holds those of the list; none where the list is empty.
pub(crate) fn reach_of(list: &[Placed]) -> Option<Rect>
    ensures { IsReach result list.now }
{
    let mut reach = None;
    for placed in list {
        reach = reach_with(reach, &placed.rect);
    }
    reach
}

/// Whether the rectangle has a side in common with the reach that holds it.
pub(crate) fn touches_side(reach: &Rect, r: &Rect) -> bool
    ensures { result ≡ touches_side reach.now r.now }
{
    if reach.x0() == r.x0() || reach.y0() == r.y0() {
        return true;
    }
    reach.x1() == r.x1() || reach.y1() == r.y1()
}
