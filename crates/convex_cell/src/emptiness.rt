ghost use Rattle.std.specs.Bool.{OnTrue, OnFalse};
ghost use Rattle.plane_terms.specs.Cell.{HasPoint};
ghost use Rattle.convex_cell.specs.Span.{IsBoundsOf};

use crate::bounds::{Bounds, are_apart};
use crate::direction::Direction;
use crate::line::shadow_of;
use crate::opposed::has_opposed;
use crate::trials::{is_in_both, middle_of_both};
use grid_plane::Half;

/// Whether the middle of these bounds is in the cell.
fn is_in_middle(halves: &[Half], bounds: &Bounds) -> bool
    ensures { OnTrue result (HasPoint halves.now) }
{
    is_in_both(halves, &[], middle_of_both(bounds, bounds))
}

/// Whether no point is in the cell of these half-planes, of which these are bounds. It takes no memory.
pub(crate) fn is_empty_within(halves: &[Half], bounds: &Bounds) -> bool
    requires { IsBoundsOf bounds.now halves.now }
    ensures empty { OnTrue result (¬ (HasPoint halves.now)) }
    ensures point { OnFalse result (HasPoint halves.now) }
{
    if are_apart(bounds, bounds) {
        return true;
    }
    if is_in_middle(halves, bounds) {
        return false;
    }
    if has_opposed(halves) {
        return true;
    }
    shadow_of(halves, Direction::East).is_none()
}
