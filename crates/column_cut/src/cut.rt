ghost use Rattle.std.specs.Prelude.{◌≡◌, ◌++◌, ◌∷◌, [], ◌<ℤ◌, ◌↔◌, None, OnOk, IfOk};
ghost use Rattle.plane_terms.specs.Point.{Point};
ghost use Rattle.plane_terms.specs.Polygon.{IsSimpleList, IsInside, IsOutside};
ghost use Rattle.plane_terms.specs.Cell.{InCells};
ghost use Rattle.plane_terms.specs.HalfPlane.{x_over, x_under};
ghost use Rattle.plane_terms.specs.Carve.{kept};
ghost use Rattle.plane_terms.specs.Columns.{column, slots, wall, in_column, cells_from, last, inside_cells, outside_cells};
ghost use Rattle.column_laws.specs.Rising.{IsRising};
ghost use Rattle.column_cut.specs.Parity.{is_even};
ghost use Rattle.column_cut.specs.Strips.{strips};

use crate::column::find_column;
use crate::coordinate::Coordinate;
use crate::near::near_of;
use crate::parity::Parity;
use crate::push::{left_of, push_column, push_wall, right_of};
use crate::room::Room;
use crate::slots::find_slots;
use crate::vertices::abscissas_of;
use convex_cell::BoundedCells;
use grid_plane::{NoMemory, Seg};
use std::alloc::Global;

/// So many columns are made from one list of segments.
const FEW: usize = 8;

/// So many cells has each abscissa of the outside of a convex polygon: below and above, on the wall and in the column behind it.
const OUTSIDE: usize = 4;

/// So many cells has the inside of a convex polygon of so many abscissas: one in each column, and one on each wall between two.
fn inside_room(count: usize) -> usize {
    count.saturating_mul(2).saturating_sub(3)
}

fn push_strip(
    cells: &mut BoundedCells,
    alloc: Global,
    room: &mut Room,
    parity: Parity,
    segments: &[Seg],
    left: &Coordinate,
    right: &Coordinate,
) -> Result<(), NoMemory>
    requires { left.now <ℤ right.now }
    ensures { OnOk result (let c = column left.now right.now segments.now in cells.new ≡ cells.old ++ kept (wall (is_even parity) left.now segments.now c ++ in_column left.now right.now (slots (is_even parity) None c))) }
{
    find_column(&mut room.column, segments, left, right)?;
    find_slots(&mut room.slots, parity, &room.column)?;
    push_wall(cells, alloc, &mut room.wall, segments, left, &room.slots)?;
    push_column(
        cells,
        alloc,
        &mut room.wall.halves,
        left,
        right,
        &room.slots,
    )
}

fn push_last_wall(
    cells: &mut BoundedCells,
    alloc: Global,
    room: &mut Room,
    parity: Parity,
    segments: &[Seg],
    x: &Coordinate,
) -> Result<(), NoMemory>
    ensures { OnOk result (cells.new ≡ cells.old ++ kept (wall (is_even parity) x.now segments.now [])) }
{
    find_slots(&mut room.slots, parity, &[])?;
    push_wall(cells, alloc, &mut room.wall, segments, x, &room.slots)
}

/// Each wall from the first abscissa on, and the column to its right; not the last wall.
fn push_each(
    cells: &mut BoundedCells,
    alloc: Global,
    room: &mut Room,
    parity: Parity,
    segments: &[Seg],
    first: &Coordinate,
    rest: &[Coordinate],
) -> Result<(), NoMemory>
    requires { IsRising (first.now ∷ rest.now) }
    ensures { OnOk result (cells.new ≡ cells.old ++ kept (strips (is_even parity) segments.now first.now rest.now)) }
{
    let mut left = *first;
    for right in rest {
        push_strip(cells, alloc, room, parity, segments, &left, right)?;
        left = *right;
    }
    Ok(())
}

/// The same, half by half: each half looks only at the segments that reach all that lies between its walls.
fn push_halves(
    cells: &mut BoundedCells,
    alloc: Global,
    room: &mut Room,
    parity: Parity,
    segments: &[Seg],
    first: &Coordinate,
    rest: &[Coordinate],
) -> Result<(), NoMemory>
    requires { IsRising (first.now ∷ rest.now) }
    ensures { OnOk result (cells.new ≡ cells.old ++ kept (strips (is_even parity) segments.now first.now rest.now)) }
{
    if rest.len() <= FEW {
        return push_each(cells, alloc, room, parity, segments, first, rest);
    }
    let near = near_of(alloc, segments, first, rest.last().unwrap_or(first))?;
    let (low, high) = rest.split_at(rest.len() / 2);
    push_halves(cells, alloc, room, parity, &near, first, low)?;
    push_halves(
        cells,
        alloc,
        room,
        parity,
        &near,
        low.last().unwrap_or(first),
        high,
    )
}

/// From the first abscissa on: each wall, and the column to its right.
fn push_strips(
    cells: &mut BoundedCells,
    alloc: Global,
    parity: Parity,
    segments: &[Seg],
    first: &Coordinate,
    rest: &[Coordinate],
) -> Result<(), NoMemory>
    requires { IsRising (first.now ∷ rest.now) }
    ensures { OnOk result (cells.new ≡ cells.old ++ kept (cells_from (is_even parity) segments.now first.now rest.now)) }
{
    let mut room = Room::new(alloc);
    push_halves(cells, alloc, &mut room, parity, segments, first, rest)?;
    push_last_wall(
        cells,
        alloc,
        &mut room,
        parity,
        segments,
        rest.last().unwrap_or(first),
    )
}

fn push_right_side(
    cells: &mut BoundedCells,
    alloc: Global,
    first: &Coordinate,
    rest: &[Coordinate],
) -> Result<(), NoMemory>
    ensures { OnOk result (cells.new ≡ cells.old ++ kept ((x_over (last first.now rest.now) ∷ []) ∷ [])) }
{
    let greatest = rest.last().unwrap_or(first);
    cells.push_kept(alloc, &[right_of(greatest)])
}

fn inside_of(alloc: Global, segments: &[Seg]) -> Result<BoundedCells, NoMemory>
    ensures { IfOk result (λ cells. cells ≡ inside_cells segments.now) }
{
    let abscissas = abscissas_of(alloc, segments)?;
    let mut cells = BoundedCells::with_capacity(alloc, inside_room(abscissas.len()))?;
    if let Some((first, rest)) = abscissas.split_first() {
        push_strips(&mut cells, alloc, Parity::Odd, segments, first, rest)?;
    }
    cells.settle();
    Ok(cells)
}

fn outside_of(alloc: Global, segments: &[Seg]) -> Result<BoundedCells, NoMemory>
    ensures { IfOk result (λ cells. cells ≡ outside_cells segments.now) }
{
    let abscissas = abscissas_of(alloc, segments)?;
    let mut cells = BoundedCells::with_capacity(alloc, abscissas.len().saturating_mul(OUTSIDE))?;
    let Some((first, rest)) = abscissas.split_first() else {
        cells.push_kept(alloc, &[])?;
        return Ok(cells);
    };
    cells.push_kept(alloc, &[left_of(first)])?;
    push_strips(&mut cells, alloc, Parity::Even, segments, first, rest)?;
    push_right_side(&mut cells, alloc, first, rest)?;
    cells.settle();
    Ok(cells)
}

/// The cells of the inside of a polygon, over the list of its segments: column by column from the left, in each first its
/// wall. Of a list whose segments meet at ends alone they hold exactly the points inside. The only error is out of memory.
pub fn inside(alloc: Global, segments: &[Seg]) -> Result<BoundedCells, NoMemory>
    ensures value { IfOk result (λ cells. cells ≡ inside_cells segments.now) }
    ensures points { IfOk result (λ cells. IsSimpleList segments.now → (p : Point) → InCells cells p ↔ IsInside segments.now p) }
{
    inside_of(alloc, segments)
}

/// The cells of what is neither inside a polygon nor on its boundary: first all that is left of it, then column by column,
/// last all that is right of it. Of a list whose segments meet at ends alone they hold exactly those points.
/// The only error is out of memory.
pub fn outside(alloc: Global, segments: &[Seg]) -> Result<BoundedCells, NoMemory>
    ensures value { IfOk result (λ cells. cells ≡ outside_cells segments.now) }
    ensures points { IfOk result (λ cells. IsSimpleList segments.now → (p : Point) → InCells cells p ↔ IsOutside segments.now p) }
{
    outside_of(alloc, segments)
}
