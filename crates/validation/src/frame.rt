ghost use Rattle.std.specs.Prelude.{◌≡◌, ◌≢◌, ◌<◌, [], ◌∷◌, false, length, slice_get, Some};
ghost use Rattle.plane_terms.specs.Lists.{Every};
ghost use Rattle.plane_terms.specs.Point.{Point};
ghost use Rattle.plane_terms.specs.Rectangle.{RectHolds, whole_grid};
ghost use Rattle.plane_terms.specs.Cell.{InCell, HasPoint, HavePoints, IsLeastFrame};
ghost use Rattle.plane_terms.specs.Cell as terms;
ghost use Rattle.convex_cell.specs.Frame.{IsWidened};

use convex_cell::Cells;
use grid_plane::Rect;
use std::alloc::Global;

// The frame of the cell at this place.
fn frame_at(alloc: Global, cells: &Cells, i: usize) -> Rect
    requires short { i < length cells.now }
    requires points { HavePoints cells.now }
    requires on_grid { Every (λ (c : terms.Cell). (p : Point) → InCell c p → RectHolds whole_grid p) cells.now }
    ensures { (c : terms.Cell) → slice_get cells.now i ≡ Some c → IsLeastFrame result (c ∷ []) }
{
    cells.cell(i).frame(alloc)
}

// The frame, widened by the cell at this place.
fn widened_at(alloc: Global, cells: &Cells, i: usize, frame: &Rect) -> Rect
    requires short { i < length cells.now }
    requires points { HavePoints cells.now }
    requires on_grid { Every (λ (c : terms.Cell). (p : Point) → InCell c p → RectHolds whole_grid p) cells.now }
    ensures { (c : terms.Cell) → slice_get cells.now i ≡ Some c → IsWidened c frame.now result }
{
    cells.cell(i).widen(alloc, frame)
}

/// The least rectangle of the grid that holds every point of the cells. It is begun with the last cell: where the cells ascend along x,
/// those between it and the first then widen it along y at most.
pub fn frame_of(alloc: Global, cells: &Cells) -> Rect
    requires some { cells.now ≢ [] }
    requires points { HavePoints cells.now }
    requires on_grid { Every (λ (c : terms.Cell). (p : Point) → InCell c p → RectHolds whole_grid p) cells.now }
    ensures { IsLeastFrame result cells.now }
{
    let last = cells.len() - 1;
    let mut frame = frame_at(alloc, cells, last);
    for i in 0..last {
        frame = widened_at(alloc, cells, i, &frame);
    }
    frame
}
