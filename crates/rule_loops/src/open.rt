ghost use Rattle.std.specs.Prelude.{◌≡◌, ◌&&◌, not, drop, IfOk, OnOk};
ghost use Rattle.std.specs.Bool.{OnTrue};
ghost use Rattle.plane_terms.specs.Lists.{Every};
ghost use Rattle.plane_terms.specs.Point.{Point};
ghost use Rattle.plane_terms.specs.Cell.{InCell};
ghost use Rattle.rule_loops.specs.Open.{IsInEach};
ghost use Rattle.rule_loops.specs.Rightward.{LastsRight, IsStrict, is_wall, AreOffWalls};

use crate::nearby::{Nearby, next_near};
use convex_cell::{BorrowedCell, BoundedCells, Piece};
use grid_plane::{NoMemory, Op};

/// So many pieces of a cell are looked at, at most, before it is taken for open.
const MOST_STEPS: usize = 4_096;

/// Whether the cell lies on a line, as its first half-plane says.
pub(crate) fn is_wall(cell: &BorrowedCell<'_>) -> bool
    ensures { result ≡ is_wall cell.now }
{
    cell.len() > 0 && cell.half(0).op() == Op::Zero
}

/// Whether what an open piece has in common with the part of an outside is open too: where that is no wall.
pub(crate) fn stays_open(is_open: bool, part: &BorrowedCell<'_>) -> bool
    ensures { result ≡ (is_open && not (is_wall part.now)) }
{
    is_open && !is_wall(part)
}

/// Whether each half-plane of the cell is open.
pub(crate) fn is_strict(cell: &BorrowedCell<'_>) -> bool
    ensures { OnTrue result (IsStrict cell.now) }
{
    for i in 0..cell.len() {
        if cell.half(i).op() != Op::Over {
            return false;
        }
    }
    true
}

// Whether the polygons from this place of the list on are found to cover the piece: of what the first one near it leaves, each part
// is covered by those behind it. Where the piece is open, parts on walls are passed over: a point of one that is not covered has others
// a little to its right, off the walls. In the end the piece is as it was.
fn is_shut(
    piece: &mut Piece,
    near: &[Nearby],
    from: usize,
    steps: &mut usize,
    is_open: bool,
) -> Result<bool, NoMemory>
    requires off_walls { Every AreOffWalls near.now }
    requires is_open { OnTrue is_open (LastsRight (InCell piece.old)) }
    ensures shut { IfOk result (λ shut. OnTrue shut ((p : Point) → InCell piece.old p → ¬ (IsInEach (drop from near.now) p))) }
    ensures same { OnOk result (piece.new ≡ piece.old) }
{
    if *steps == 0 {
        return Ok(false);
    }
    *steps -= 1;
    let Some(k) = next_near(piece, near, from) else {
        return Ok(false);
    };
    let nearby = &near[k];
    let outside: &BoundedCells = &nearby.outside;
    let window = piece.window(outside);
    let mut next = window.first;
    while let Some(i) = piece.next_near(outside, next, window.last) {
        next = i + 1;
        if is_open && is_wall(&outside.cells().cell(i)) {
            continue;
        }
        let Some(mark) = piece.narrow(outside, i)? else {
            continue;
        };
        let shut = is_shut(piece, near, k + 1, steps, is_open)?;
        piece.widen(mark);
        if !shut {
            return Ok(false);
        }
    }
    Ok(true)
}

/// Whether the polygons from this place of the list on are found to cover the piece, which stays as it is.
pub(crate) fn is_covered(
    piece: &mut Piece,
    near: &[Nearby],
    from: usize,
    is_open: bool,
) -> Result<bool, NoMemory>
    requires off_walls { Every AreOffWalls near.now }
    requires is_open { OnTrue is_open (LastsRight (InCell piece.old)) }
    ensures covered { IfOk result (λ covered. OnTrue covered ((p : Point) → InCell piece.old p → ¬ (IsInEach (drop from near.now) p))) }
    ensures same { OnOk result (piece.new ≡ piece.old) }
{
    let mut steps = MOST_STEPS;
    is_shut(piece, near, from, &mut steps, is_open)
}
