ghost use Rattle.plane_terms.specs.Cell.{HasPoint};
ghost use Rattle.convex_cell.specs.Frame.{IsOnGrid};
ghost use Rattle.plane_terms.specs.Corners.{IsCorner, IsLeastRound};

use convex_cell::Cell;
use grid_plane::Rect;
use std::alloc::Global;

/// The law of the frame: it is the least rectangle of the grid that holds all corners of the cell.
pub fn frame_of_corners(alloc: Global, cell: &Cell) -> Rect
    requires some { HasPoint cell.now }
    requires on_grid { IsOnGrid cell.now }
    ensures { IsLeastRound result (IsCorner cell.now) }
{
    cell.frame(alloc)
}
