ghost use Rattle.std.specs.Prelude.{◌≡◌, ◌<◌, ◌≤◌, length, slice_get, Some, IfOk, OnOk};
ghost use Rattle.std.specs.Bool.{OnTrue, OnFalse};
ghost use Rattle.plane_terms.specs.Cell.{InCell, HasPoint, HavePoints};
ghost use Rattle.sound_check.specs.Off.{HasOff, HasNoneOff, HaveOff, HaveNoneOff, IsOutsideAt};
ghost use Rattle.sound_check.specs.Rest.{IsRest};

use crate::rest::{cell_of, cells_with_points, common};
use convex_cell::{BorrowedCell, BoundedCells, Cells, Piece};
use grid_plane::NoMemory;
use std::alloc::Global;

// So many cells of a list may narrow one piece one after another. Where more of them meet it, it is carved by them.
const MOST_DEPTH: usize = 2_048;

// What is left of the cells off the other one.
fn rest_off_cell(alloc: Global, cells: &Cells, other: &BorrowedCell<'_>) -> Result<Cells, NoMemory>
    ensures { IfOk result (IsRest (λ p. ¬ (InCell other.now p)) cells.now) }
{
    let outside = other.out_of_cell(alloc)?;
    common(alloc, cells, &outside)
}

// Whether the piece has a point that is in none of the cells from this place of the list on: what they leave of it is made, one after
// another, until nothing is left.
fn is_off_by_carving(
    alloc: Global,
    piece: &Piece,
    others: &Cells,
    from: usize,
) -> Result<bool, NoMemory>
    ensures found { IfOk result (λ yes. OnTrue yes (HasOff others.now from piece.now)) }
    ensures none { IfOk result (λ yes. OnFalse yes (HasNoneOff others.now from piece.now)) }
{
    let whole = cell_of(alloc, piece.halves())?;
    let mut rest = cells_with_points(alloc, &whole)?;
    for i in from..others.len() {
        if rest.len() == 0 {
            return Ok(false);
        }
        rest = rest_off_cell(alloc, &rest, &others.cell(i))?;
    }
    Ok(rest.len() != 0)
}

// Whether the piece has a point that is in none of the cells from this place of the list on. In the end it is as it was.
#[cycle(off)]
fn is_off_cells(
    alloc: Global,
    piece: &mut Piece,
    others: &BoundedCells,
    from: usize,
    depth: usize,
) -> Result<bool, NoMemory>
    requires some { HasPoint piece.old }
    ensures found { IfOk result (λ yes. OnTrue yes (HasOff others.now from piece.old)) }
    ensures none { IfOk result (λ yes. OnFalse yes (HasNoneOff others.now from piece.old)) }
    ensures same { OnOk result (piece.new ≡ piece.old) }
{
    if depth == 0 {
        return is_off_by_carving(alloc, piece, others.cells(), from);
    }
    let window = piece.window(others);
    let mut next = from.max(window.first);
    while let Some(i) = piece.next_near(others, next, window.last) {
        next = i + 1;
        let Some(mark) = piece.narrow(others, i)? else {
            continue;
        };
        piece.widen(mark);
        return is_off_beside(alloc, piece, others, i, depth - 1);
    }
    Ok(true)
}

// The same, where the piece has a point in the cell at that place: each part that the cell leaves of it is looked at.
#[cycle(off)]
fn is_off_beside(
    alloc: Global,
    piece: &mut Piece,
    others: &BoundedCells,
    i: usize,
    depth: usize,
) -> Result<bool, NoMemory>
    requires within { i < length others.now }
    ensures found { IfOk result (λ yes. OnTrue yes (HasOff others.now i piece.old)) }
    ensures none { IfOk result (λ yes. OnFalse yes (HasNoneOff others.now i piece.old)) }
    ensures same { OnOk result (piece.new ≡ piece.old) }
{
    let cells = others.cells().cell(i).out_of_cell(alloc)?;
    is_off_parts(
        alloc,
        piece,
        others,
        i,
        &BoundedCells::of(alloc, cells)?,
        depth,
    )
}

// The same, where these are the cells of what lies outside of the one at that place.
#[cycle(off)]
fn is_off_parts(
    alloc: Global,
    piece: &mut Piece,
    others: &BoundedCells,
    i: usize,
    outside: &BoundedCells,
    depth: usize,
) -> Result<bool, NoMemory>
    requires within { i < length others.now }
    requires outside { IsOutsideAt others.now i outside.now }
    ensures found { IfOk result (λ yes. OnTrue yes (HasOff others.now i piece.old)) }
    ensures none { IfOk result (λ yes. OnFalse yes (HasNoneOff others.now i piece.old)) }
    ensures same { OnOk result (piece.new ≡ piece.old) }
{
    let _count = others.len();
    for k in 0..outside.len() {
        let Some(mark) = piece.narrow(outside, k)? else {
            continue;
        };
        let found = is_off_cells(alloc, piece, others, i + 1, depth)?;
        piece.widen(mark);
        if found {
            return Ok(true);
        }
    }
    Ok(false)
}

/// Whether one of the cells has a point that is in none of the others. It is found in depth: no cell is made but what lies outside of one
/// of the others, and the first point ends it.
pub(crate) fn have_off(
    alloc: Global,
    cells: &Cells,
    others: &BoundedCells,
) -> Result<bool, NoMemory>
    requires { HavePoints cells.now }
    ensures found { IfOk result (λ yes. OnTrue yes (HaveOff others.now cells.now)) }
    ensures none { IfOk result (λ yes. OnFalse yes (HaveNoneOff others.now cells.now)) }
{
    let mut piece = Piece::new(alloc);
    for i in 0..cells.len() {
        piece.start(alloc, &cells.cell(i))?;
        if is_off_cells(alloc, &mut piece, others, 0, MOST_DEPTH)? {
            return Ok(true);
        }
    }
    Ok(false)
}
