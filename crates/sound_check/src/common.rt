ghost use Rattle.std.specs.Prelude.{◌≡◌, Some, slice_get, IfOk, IfSome};
ghost use Rattle.sound_check.specs.Rest.{IsLeftOver};

use convex_cell::{BorrowedCell, Cells};
use grid_plane::NoMemory;
use std::alloc::Global;

// A cell is looked for among so many of the other list. Cells of one cutting stand in one order, so one that is further on is rare; it is
// then left over, and asked for.
const LOOKED_AT: usize = 4_096;

// A place from this one on at which the cell stands in the list.
fn place_of(list: &Cells, from: usize, cell: &BorrowedCell<'_>) -> Option<usize>
    ensures { IfSome result (λ j. slice_get list.now j ≡ Some cell.now) }
{
    for j in from..list.len().min(from.saturating_add(LOOKED_AT)) {
        if list.cell(j).same(cell) {
            return Some(j);
        }
    }
    None
}

/// The cells that are not seen to stand in the other list too. Each is looked for behind the one that was found before it, so that two
/// lists in one order are walked once.
pub(crate) fn left_over(alloc: Global, cells: &Cells, others: &Cells) -> Result<Cells, NoMemory>
    ensures { IfOk result (IsLeftOver cells.now others.now) }
{
    let mut left = Cells::new(alloc);
    let mut next = 0;
    for i in 0..cells.len() {
        let cell = cells.cell(i);
        match place_of(others, next, &cell) {
            Some(j) => next = j.saturating_add(1),
            None => left.push_halves(cell.halves())?,
        }
    }
    Ok(left)
}
