ghost use Rattle.std.specs.Prelude.{◌≡◌, ◌≤◌, ◌^◌, ◌++◌, ◌<ℤ◌, pos, unsigned_abs, List, IfOk, OnOk};
ghost use Rattle.plane_terms.specs.Lists.{Paired};
ghost use Rattle.corner_terms.specs.CornerLists.{AreOfCell, AreOfCells};
ghost use Rattle.corner_terms.specs.declared.cell_corner.CellCorner as told;
ghost use Rattle.cell_corners.specs.Listed.{IsFit};
ghost use Rattle.cell_corners.specs.Fractions.{IsFraction, IsToldAs};

use crate::corner::Corner;
use crate::corners::Corners;
use crate::lowest::reduced;
use convex_cell::{BorrowedCell, Cells};
use corner_terms::{CellCorner, Fraction};
use grid_plane::NoMemory;
use std::alloc::Global;

/// The coordinate x / w in lowest terms.
fn in_lowest_terms(x: i128, w: i128) -> Fraction
    requires over { pos 0 <ℤ w }
    requires x_fits { unsigned_abs x ≤ 2 ^ 70 }
    requires w_fits { unsigned_abs w ≤ 2 ^ 47 }
    ensures { IsFraction x w result }
{
    let least = reduced(Corner { x, y: 0, w });
    Fraction {
        n: least.x,
        d: least.w.unsigned_abs(),
    }
}

/// The corner as one of the cell of this number, each coordinate in lowest terms.
fn told(cell: usize, corner: Corner) -> CellCorner
    requires { IsFit corner }
    ensures { IsToldAs cell corner result }
{
    let x = in_lowest_terms(corner.x, corner.w);
    let y = in_lowest_terms(corner.y, corner.w);
    CellCorner { cell, x, y }
}

/// Adds the corners, as those of the cell of this number.
fn push_told(found: &mut Vec<CellCorner>, cell: usize, corners: &Corners) -> Result<(), NoMemory>
    ensures { OnOk result ((more : List told.CellCorner) × (found.new.items ≡ found.old.items ++ more) × Paired (IsToldAs cell) corners.now more) }
{
    for i in 0..corners.len() {
        found.push(told(cell, corners.corner(i)))?;
    }
    Ok(())
}

/// Adds the corners of the cell, which has this number; none where the cell has no point.
fn push_of_cell(
    alloc: Global,
    found: &mut Vec<CellCorner>,
    number: usize,
    cell: &BorrowedCell<'_>,
) -> Result<(), NoMemory>
    ensures { OnOk result ((more : List told.CellCorner) × (found.new.items ≡ found.old.items ++ more) × AreOfCell number cell.now more) }
{
    if cell.is_empty() {
        return Ok(());
    }
    let corners = Corners::of(alloc, cell)?;
    push_told(found, number, &corners)
}

/// The corners of the cells, cell by cell, which are numbered from 1: those of each by abscissa and then by ordinate, each once,
/// and none of a cell that has no point. Each coordinate is in lowest terms, in grid units.
pub fn corners_of_cells(alloc: Global, cells: &Cells) -> Result<Vec<CellCorner>, NoMemory>
    ensures { IfOk result (λ found. AreOfCells 1 cells.now found.items) }
{
    let mut found = Vec::new(alloc);
    for i in 0..cells.len() {
        push_of_cell(alloc, &mut found, i + 1, &cells.cell(i))?;
    }
    Ok(found)
}

/// The law of listed corners: cells have one list of them.
pub fn one_list_law(cells: &Cells)
    ensures { (ks ls : List told.CellCorner) → AreOfCells 1 cells.now ks → AreOfCells 1 cells.now ls → ks ≡ ls }
{
    let _ = cells;
}
