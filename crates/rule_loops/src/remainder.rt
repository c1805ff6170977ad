ghost use Rattle.std.specs.Prelude.{◌≡◌, ◌↔◌, ◌<◌, ◌++◌, ◌∷◌, [], Some, false, drop, get_or, length, replicate, slice_get, IfNone, IfOk, IfSome, OnOk};
ghost use Rattle.std.specs.Bool.{OnTrue};
ghost use Rattle.plane_terms.specs.Lists.{Every};
ghost use Rattle.plane_terms.specs.Point.{Point};
ghost use Rattle.plane_terms.specs.Cell.{InCell, HasPoint, HavePoints};
ghost use Rattle.topology_terms.specs.Cells.{uncovered};
ghost use Rattle.rule_loops.specs.Open.{IsInEach, IsShutAt, AreShutAt, left_of_part};
ghost use Rattle.rule_loops.specs.Rightward.{LastsRight, IsStrict, is_wall, AreOffWalls};

use crate::nearby::Nearby;
use crate::open::{is_covered, is_strict, is_wall, stays_open};
use convex_cell::{BorrowedCell, BoundedCells, Cells, IndexedCell, Piece};
use grid_plane::NoMemory;
use std::alloc::Global;

// Whether the polygons from this place of the list on are asked for, and found to cover the piece.
fn is_over(
    is_asked: bool,
    piece: &mut Piece,
    near: &[Nearby],
    from: usize,
    is_open: bool,
) -> Result<bool, NoMemory>
    requires off_walls { Every AreOffWalls near.now }
    requires is_open { OnTrue is_open (LastsRight (InCell piece.old)) }
    ensures covered { IfOk result (λ covered. OnTrue covered ((p : Point) → InCell piece.old p → ¬ (IsInEach (drop from near.now) p))) }
    ensures same { OnOk result (piece.new ≡ piece.old) }
{
    if !is_asked {
        return Ok(false);
    }
    is_covered(piece, near, from, is_open)
}

// Puts what the polygons from this place of the list on leave of the cell: the cells that it becomes, carved by the outside of each in
// turn. They are found in depth, so none is made but those that are left. Whether the others cover a part is asked of the parts that the
// first of the list leaves, and of no others. The piece is where the cell is, and both are as they were in the end.
fn push_left(
    alloc: Global,
    cell: &mut IndexedCell,
    piece: &mut Piece,
    near: &[Nearby],
    from: usize,
    left: &mut Cells,
    is_open: bool,
) -> Result<(), NoMemory>
    requires piece { (p : Point) → InCell piece.old p ↔ InCell cell.old p }
    requires off_walls { Every AreOffWalls near.now }
    requires is_open { OnTrue is_open (LastsRight (InCell piece.old)) }
    ensures left { OnOk result (left.new ≡ left.old ++ uncovered (cell.old ∷ []) (drop from near.now)) }
    ensures cell { OnOk result (cell.new ≡ cell.old) }
    ensures piece { OnOk result (piece.new ≡ piece.old) }
{
    let Some(nearby) = near.get(from) else {
        return left.push_halves(cell.halves());
    };
    let outside: &BoundedCells = &nearby.outside;
    let len = cell.len();
    let window = piece.window(outside);
    let mut next = window.first;
    while let Some(i) = piece.next_near(outside, next, window.last) {
        next = i + 1;
        let Some(mark) = piece.narrow(outside, i)? else {
            continue;
        };
        let part = outside.cells().cell(i);
        let part_open = stays_open(is_open, &part);
        if !is_over(from == 0, piece, near, from + 1, part_open)? {
            cell.narrow(&part)?;
            push_left(alloc, cell, piece, near, from + 1, left, part_open)?;
            cell.truncate(len);
        }
        piece.widen(mark);
    }
    Ok(())
}

// Whether the polygons behind the first are found to cover what the open piece has in common with this cell of the first one's outside,
// which is no wall. In the end the piece is as it was.
fn covers_part(
    piece: &mut Piece,
    near: &[Nearby],
    outside: &BoundedCells,
    i: usize,
) -> Result<bool, NoMemory>
    requires within { i < length outside.now }
    requires off_wall { is_wall (get_or outside.now i []) ≡ false }
    requires first { slice_get near.now 0 ≡ Some outside.now }
    requires off_walls { Every AreOffWalls near.now }
    requires is_open { LastsRight (InCell piece.old) }
    ensures covered { IfOk result (λ covered. OnTrue covered (IsShutAt i (drop 1 near.now) piece.old outside.now)) }
    ensures same { OnOk result (piece.new ≡ piece.old) }
{
    let Some(mark) = piece.narrow(outside, i)? else {
        return Ok(true);
    };
    let covered = is_covered(piece, near, 1, true)?;
    piece.widen(mark);
    Ok(covered)
}

// So many marks, none of which is set.
fn unset_marks(alloc: Global, count: usize) -> Result<Vec<bool>, NoMemory>
    ensures { IfOk result (λ marks. marks.items ≡ replicate count false) }
{
    Ok(Vec::from_elem(alloc, false, count)?)
}

// A mark for each cell of the first polygon's outside: set where the polygons behind it are found to cover what the cell has in common
// with the open piece. `None` where no cell off the walls is left, so that the polygons cover the piece. Cells on walls are not asked:
// a point of one that is not covered has others a little to its right, off the walls.
fn covered_parts(
    alloc: Global,
    piece: &mut Piece,
    near: &[Nearby],
    outside: &BoundedCells,
) -> Result<Option<Vec<bool>>, NoMemory>
    requires first { slice_get near.now 0 ≡ Some outside.now }
    requires off_walls { Every AreOffWalls near.now }
    requires is_open { LastsRight (InCell piece.old) }
    ensures all { IfOk result (λ covered. IfNone covered ((p : Point) → InCell piece.old p → ¬ (IsInEach near.now p))) }
    ensures long { IfOk result (λ covered. IfSome covered (λ marks. length marks.items ≡ length outside.now)) }
    ensures each { IfOk result (λ covered. IfSome covered (λ marks. AreShutAt marks.items (drop 1 near.now) piece.old outside.now)) }
    ensures same { OnOk result (piece.new ≡ piece.old) }
{
    let mut marks = unset_marks(alloc, outside.len())?;
    let mut is_all = true;
    let window = piece.window(outside);
    let mut next = window.first;
    while let Some(i) = piece.next_near(outside, next, window.last) {
        next = i + 1;
        if is_wall(&outside.cells().cell(i)) {
            continue;
        }
        if covers_part(piece, near, outside, i)? {
            marks[i] = true;
        } else {
            is_all = false;
        }
    }
    if is_all {
        return Ok(None);
    }
    Ok(Some(marks))
}

// Puts what the polygons behind the first leave of what the cell has in common with this one of the first one's outside. Only on a wall
// is it asked whether they cover it. The piece is where the cell is, and both are as they were in the end.
fn push_part(
    alloc: Global,
    cell: &mut IndexedCell,
    piece: &mut Piece,
    near: &[Nearby],
    outside: &BoundedCells,
    i: usize,
    left: &mut Cells,
) -> Result<(), NoMemory>
    requires within { i < length outside.now }
    requires piece { (p : Point) → InCell piece.old p ↔ InCell cell.old p }
    requires off_walls { Every AreOffWalls near.now }
    ensures left { OnOk result (left.new ≡ left.old ++ left_of_part cell.old (drop 1 near.now) (get_or outside.now i [])) }
    ensures cell { OnOk result (cell.new ≡ cell.old) }
    ensures piece { OnOk result (piece.new ≡ piece.old) }
{
    let len = cell.len();
    let Some(mark) = piece.narrow(outside, i)? else {
        return Ok(());
    };
    let part = outside.cells().cell(i);
    if !is_over(is_wall(&part), piece, near, 1, false)? {
        cell.narrow(&part)?;
        push_left(alloc, cell, piece, near, 1, left, false)?;
        cell.truncate(len);
    }
    piece.widen(mark);
    Ok(())
}

// Puts what the polygons leave of the open cell, where a mark tells of which parts that the first of them leaves they leave nothing.
// The piece is where the cell is.
fn push_parts(
    alloc: Global,
    cell: &mut IndexedCell,
    piece: &mut Piece,
    near: &[Nearby],
    outside: &BoundedCells,
    covered: &[bool],
    left: &mut Cells,
) -> Result<(), NoMemory>
    requires first { slice_get near.now 0 ≡ Some outside.now }
    requires piece { (p : Point) → InCell piece.old p ↔ InCell cell.old p }
    requires off_walls { Every AreOffWalls near.now }
    requires long { length covered.now ≡ length outside.now }
    requires covered { AreShutAt covered.now (drop 1 near.now) piece.old outside.now }
    ensures { OnOk result (left.new ≡ left.old ++ uncovered (cell.old ∷ []) near.now) }
{
    let window = piece.window(outside);
    let mut next = window.first;
    while let Some(i) = piece.next_near(outside, next, window.last) {
        next = i + 1;
        if !covered[i] {
            push_part(alloc, cell, piece, near, outside, i, left)?;
        }
    }
    Ok(())
}

// Puts what the polygons leave of the open cell, where this is the outside of the first. Most often they cover it, and nothing is copied.
fn push_open(
    alloc: Global,
    cell: &BorrowedCell<'_>,
    near: &[Nearby],
    outside: &BoundedCells,
    left: &mut Cells,
) -> Result<(), NoMemory>
    requires strict { IsStrict cell.now }
    requires some { HasPoint cell.now }
    requires first { slice_get near.now 0 ≡ Some outside.now }
    requires off_walls { Every AreOffWalls near.now }
    ensures { OnOk result (left.new ≡ left.old ++ uncovered (cell.now ∷ []) near.now) }
{
    let mut piece = Piece::new(alloc);
    piece.start(alloc, cell)?;
    let Some(covered) = covered_parts(alloc, &mut piece, near, outside)? else {
        return Ok(());
    };
    let mut own = IndexedCell::of(alloc, cell, near.len())?;
    push_parts(alloc, &mut own, &mut piece, near, outside, &covered, left)
}

/// What the polygons leave of the open cell, carved by the outside of each in turn.
pub(crate) fn left_of_cell(
    alloc: Global,
    cell: &BorrowedCell<'_>,
    near: &[Nearby],
) -> Result<Cells, NoMemory>
    requires strict { IsStrict cell.now }
    requires some { HasPoint cell.now }
    requires off_walls { Every AreOffWalls near.now }
    ensures { IfOk result (λ left. left ≡ uncovered (cell.now ∷ []) near.now) }
{
    let mut left = Cells::new(alloc);
    match near.get(0) {
        Some(nearby) => push_open(alloc, cell, near, &nearby.outside, &mut left)?,
        None => left.push_halves(cell.halves())?,
    }
    Ok(left)
}

// Puts what the polygons leave of the cell. Most often they cover it, and nothing is copied.
fn push_left_of(
    alloc: Global,
    cell: &BorrowedCell<'_>,
    piece: &mut Piece,
    near: &[Nearby],
    left: &mut Cells,
) -> Result<(), NoMemory>
    requires some { HasPoint cell.now }
    requires off_walls { Every AreOffWalls near.now }
    ensures { OnOk result (left.new ≡ left.old ++ uncovered (cell.now ∷ []) near.now) }
{
    piece.start(alloc, cell)?;
    let is_open = is_strict(cell);
    if is_covered(piece, near, 0, is_open)? {
        return Ok(());
    }
    let mut own = IndexedCell::of(alloc, cell, near.len())?;
    push_left(alloc, &mut own, piece, near, 0, left, is_open)
}

/// What the polygons leave of the cells, carved by the outside of each in turn.
pub(crate) fn left_of_cells(
    alloc: Global,
    cells: &Cells,
    near: &[Nearby],
) -> Result<Cells, NoMemory>
    requires some { HavePoints cells.now }
    requires off_walls { Every AreOffWalls near.now }
    ensures { IfOk result (λ left. left ≡ uncovered cells.now near.now) }
{
    let mut left = Cells::new(alloc);
    let mut piece = Piece::new(alloc);
    for i in 0..cells.len() {
        push_left_of(alloc, &cells.cell(i), &mut piece, near, &mut left)?;
    }
    Ok(left)
}
