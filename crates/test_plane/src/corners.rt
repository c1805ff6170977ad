// The corners of cells that no rule makes, found by hand.
use cell_corners::corners_of_cells;
use convex_cell::Cells;
use corner_terms::{CellCorner, Fraction};
use grid_plane::{Half, Op};
use std::alloc::Global;
use std::test::Fail;

type Row = (i64, i64, i64, Op);

const CELLS: [&[Row]; 8] = [
    &[],
    &[(1, 0, 0, Op::Over)],
    &[(1, 0, 0, Op::Over), (-1, 0, 5, Op::Over)],
    &[(1, 2, -3, Op::Zero)],
    &[(1, 0, 7, Op::Zero), (0, 3, -2, Op::Zero)],
    &[
        (1, 0, 0, Op::Over),
        (0, 1, 0, Op::Over),
        (-1, -1, -1, Op::Over),
    ],
    &[
        (0, 1, 0, Op::Zero),
        (1, 0, 1, Op::AtLeast),
        (-2, 0, 3, Op::Over),
    ],
    &[
        (3, 1, 0, Op::AtLeast),
        (-3, 2, 0, Op::AtLeast),
        (0, -1, 1, Op::AtLeast),
        (1, 1, 0, Op::AtLeast),
    ],
];

// The cell's number, and each coordinate as a numerator and a denominator. The sixth cell has no point.
const CORNERS: [(usize, i128, u128, i128, u128); 6] = [
    (5, -7, 1, 2, 3),
    (7, -1, 1, 0, 1),
    (7, 3, 2, 0, 1),
    (8, -1, 3, 1, 1),
    (8, 0, 1, 0, 1),
    (8, 2, 3, 1, 1),
];

fn push_cell(alloc: Global, cells: &mut Cells, rows: &[Row]) -> Result<(), Fail> {
    let mut halves = Vec::new(alloc);
    for (a, b, c, op) in rows {
        halves.push(Half::of(*a, *b, *c, *op).ok_or("no half-plane")?)?;
    }
    Ok(cells.push_halves(&halves)?)
}

fn corner((cell, xn, xd, yn, yd): (usize, i128, u128, i128, u128)) -> CellCorner {
    CellCorner {
        cell,
        x: Fraction { n: xn, d: xd },
        y: Fraction { n: yn, d: yd },
    }
}

#[test]
fn open_cells_lines_and_fractions(rt: HostRuntime) -> Result<(), Fail> {
    let alloc = rt.alloc();
    let mut cells = Cells::new(alloc);
    for rows in CELLS {
        push_cell(alloc, &mut cells, rows)?;
    }
    let found = corners_of_cells(alloc, &cells)?;
    assert_eq!(rt; found.len(), CORNERS.len());
    for (is, row) in found.iter().zip(CORNERS) {
        assert_eq!(rt; *is, corner(row));
    }
    Ok(())
}
