ghost use Rattle.std.specs.Prelude.{◌≡◌, ◌++◌, ◌∷◌, [], ◌<ℤ◌, None, OnOk, map};
ghost use Rattle.plane_terms.specs.HalfPlane.{x_is, x_over, x_under};
ghost use Rattle.plane_terms.specs.Carve.{kept};
ghost use Rattle.plane_terms.specs.Columns.{at_wall, on_wall, in_column, intervals, is_covered, ordinates};
ghost use Rattle.column_cut.specs.Pieces.{all_of, above, below, slot_cell, stretch_cell};
ghost use Rattle.column_cut.specs.Stretches.{AreStacked};

use crate::coordinate::Coordinate;
use crate::heights::{begins_above, first_reaching};
use crate::intervals::{Stretch, find_intervals};
use crate::open::is_open;
use crate::room::WallRoom;
use crate::slots::Slot;
use convex_cell::BoundedCells;
use grid_plane::{Half, NoMemory, Seg, x_is, x_over, x_under, y_over, y_under};
use std::alloc::Global;

fn on(x: &Coordinate) -> Half
    ensures { result ≡ x_is x.now }
{
    x_is(x.value())
}

pub(crate) fn right_of(x: &Coordinate) -> Half
    ensures { result ≡ x_over x.now }
{
    x_over(x.value())
}

pub(crate) fn left_of(x: &Coordinate) -> Half
    ensures { result ≡ x_under x.now }
{
    x_under(x.value())
}

fn half_above(low: &Option<Coordinate>) -> Option<Half>
    ensures { all_of result ≡ above low.now }
{
    match low {
        Some(low) => Some(y_over(low.value())),
        None => None,
    }
}

fn half_below(high: &Option<Coordinate>) -> Option<Half>
    ensures { all_of result ≡ below high.now }
{
    match high {
        Some(high) => Some(y_under(high.value())),
        None => None,
    }
}

fn push_half(halves: &mut Vec<Half>, half: Option<Half>) -> Result<(), NoMemory>
    ensures { OnOk result (halves.new.items ≡ halves.old.items ++ all_of half) }
{
    if let Some(half) = half {
        halves.push(half)?;
    }
    Ok(())
}

fn push_halves(
    halves: &mut Vec<Half>,
    first: Option<Half>,
    second: Option<Half>,
) -> Result<(), NoMemory>
    ensures { OnOk result (halves.new.items ≡ halves.old.items ++ (all_of first ++ all_of second)) }
{
    push_half(halves, first)?;
    push_half(halves, second)
}

fn push_slot(halves: &mut Vec<Half>, slot: &Slot) -> Result<(), NoMemory>
    ensures { OnOk result (halves.new.items ≡ halves.old.items ++ slot_cell slot.now) }
{
    push_halves(halves, slot.over, slot.under)
}

fn push_stretch(halves: &mut Vec<Half>, stretch: &Stretch) -> Result<(), NoMemory>
    ensures { OnOk result (halves.new.items ≡ halves.old.items ++ stretch_cell stretch.now) }
{
    push_halves(halves, half_above(&stretch.low), half_below(&stretch.high))
}

/// Leaves the half-plane alone in the list.
fn begin(halves: &mut Vec<Half>, half: Half) -> Result<(), NoMemory>
    ensures { OnOk result (halves.new.items ≡ half ∷ []) }
{
    halves.clear();
    halves.push(half)?;
    Ok(())
}

/// Leaves in the list the half-planes of the cell of a slot and a stretch on the wall at x.
fn find_wall_cell(
    halves: &mut Vec<Half>,
    x: &Coordinate,
    slot: &Slot,
    stretch: &Stretch,
) -> Result<(), NoMemory>
    ensures { OnOk result (halves.new.items ≡ x_is x.now ∷ slot_cell slot.now ++ stretch_cell stretch.now) }
{
    begin(halves, on(x))?;
    push_slot(halves, slot)?;
    push_stretch(halves, stretch)
}

/// Leaves in the list the half-planes of the cell of a slot between the walls.
fn find_column_cell(
    halves: &mut Vec<Half>,
    left: &Coordinate,
    right: &Coordinate,
    slot: &Slot,
) -> Result<(), NoMemory>
    ensures { OnOk result (halves.new.items ≡ x_over left.now ∷ x_under right.now ∷ slot_cell slot.now) }
{
    begin(halves, right_of(left))?;
    halves.push(left_of(right))?;
    push_slot(halves, slot)
}

/// The cell of a slot between two segments with a stretch of the wall at x.
fn push_closed(
    cells: &mut BoundedCells,
    x: &Coordinate,
    over: &Half,
    under: &Half,
    stretch: &Stretch,
) -> Result<(), NoMemory>
    ensures { OnOk result (cells.new ≡ cells.old ++ kept ((x_is x.now ∷ over.now ∷ under.now ∷ stretch_cell stretch.now) ∷ [])) }
{
    let wall = on(x);
    match half_above(&stretch.low) {
        Some(above) => match half_below(&stretch.high) {
            Some(below) => cells.push_kept_on(x.value(), &[wall, *over, *under, above, below]),
            None => cells.push_kept_on(x.value(), &[wall, *over, *under, above]),
        },
        None => match half_below(&stretch.high) {
            Some(below) => cells.push_kept_on(x.value(), &[wall, *over, *under, below]),
            None => cells.push_kept_on(x.value(), &[wall, *over, *under]),
        },
    }
}

fn push_piece(
    cells: &mut BoundedCells,
    alloc: Global,
    halves: &mut Vec<Half>,
    x: &Coordinate,
    slot: &Slot,
    stretch: &Stretch,
) -> Result<(), NoMemory>
    ensures { OnOk result (cells.new ≡ cells.old ++ kept ((x_is x.now ∷ slot_cell slot.now ++ stretch_cell stretch.now) ∷ [])) }
{
    if let Some(over) = slot.over {
        if let Some(under) = slot.under {
            return push_closed(cells, x, &over, &under, stretch);
        }
    }
    find_wall_cell(halves, x, slot, stretch)?;
    cells.push_kept(alloc, halves)
}

/// The cells of a slot with stretches from below. It stops at the first that begins above the slot.
fn push_upward(
    cells: &mut BoundedCells,
    alloc: Global,
    halves: &mut Vec<Half>,
    x: &Coordinate,
    slot: &Slot,
    stretches: &[Stretch],
) -> Result<(), NoMemory>
    requires { AreStacked stretches.now }
    ensures { OnOk result (cells.new ≡ cells.old ++ kept (at_wall x.now (slot_cell slot.now) (map stretch_cell stretches.now))) }
{
    for stretch in stretches {
        if begins_above(x, &slot.under, &stretch.low) {
            return Ok(());
        }
        push_piece(cells, alloc, halves, x, slot, stretch)?;
    }
    Ok(())
}

/// The cells of a slot with the stretches at its height.
fn push_at_wall(
    cells: &mut BoundedCells,
    alloc: Global,
    halves: &mut Vec<Half>,
    x: &Coordinate,
    slot: &Slot,
    stretches: &[Stretch],
) -> Result<(), NoMemory>
    requires { AreStacked stretches.now }
    ensures { OnOk result (cells.new ≡ cells.old ++ kept (at_wall x.now (slot_cell slot.now) (map stretch_cell stretches.now))) }
{
    let first = first_reaching(x, slot, stretches);
    push_upward(cells, alloc, halves, x, slot, &stretches[first..])
}

fn push_on_wall(
    cells: &mut BoundedCells,
    alloc: Global,
    halves: &mut Vec<Half>,
    x: &Coordinate,
    slots: &[Slot],
    stretches: &[Stretch],
) -> Result<(), NoMemory>
    requires { AreStacked stretches.now }
    ensures { OnOk result (cells.new ≡ cells.old ++ kept (on_wall x.now (map slot_cell slots.now) (map stretch_cell stretches.now))) }
{
    for slot in slots {
        push_at_wall(cells, alloc, halves, x, slot, stretches)?;
    }
    Ok(())
}

/// The cells of a wall: each slot with each of the wall's stretches.
pub(crate) fn push_wall(
    cells: &mut BoundedCells,
    alloc: Global,
    room: &mut WallRoom,
    segments: &[Seg],
    x: &Coordinate,
    slots: &[Slot],
) -> Result<(), NoMemory>
    ensures { OnOk result (cells.new ≡ cells.old ++ kept (on_wall x.now (map slot_cell slots.now) (intervals (is_covered x.now segments.now) None (ordinates x.now segments.now)))) }
{
    if slots.is_empty() {
        return Ok(());
    }
    find_intervals(
        &mut room.stretches,
        &mut room.ordinates,
        &mut room.values,
        &mut room.upright,
        segments,
        x,
    )?;
    push_on_wall(cells, alloc, &mut room.halves, x, slots, &room.stretches)
}

/// The cell of a slot between two segments and two walls.
fn push_between(
    cells: &mut BoundedCells,
    alloc: Global,
    left: &Coordinate,
    right: &Coordinate,
    over: &Half,
    under: &Half,
) -> Result<(), NoMemory>
    requires { left.now <ℤ right.now }
    ensures { OnOk result (cells.new ≡ cells.old ++ kept ((x_over left.now ∷ x_under right.now ∷ over.now ∷ under.now ∷ []) ∷ [])) }
{
    let halves = [right_of(left), left_of(right), *over, *under];
    if is_open(left, right, over, under) {
        return cells.push_between(left.value(), right.value(), &halves);
    }
    cells.push_kept(alloc, &halves)
}

fn push_in_column(
    cells: &mut BoundedCells,
    alloc: Global,
    halves: &mut Vec<Half>,
    left: &Coordinate,
    right: &Coordinate,
    slot: &Slot,
) -> Result<(), NoMemory>
    requires { left.now <ℤ right.now }
    ensures { OnOk result (cells.new ≡ cells.old ++ kept ((x_over left.now ∷ x_under right.now ∷ slot_cell slot.now) ∷ [])) }
{
    if let Some(over) = slot.over {
        if let Some(under) = slot.under {
            return push_between(cells, alloc, left, right, &over, &under);
        }
    }
    find_column_cell(halves, left, right, slot)?;
    cells.push_kept(alloc, halves)
}

/// The cells of a column: each slot between its two walls.
pub(crate) fn push_column(
    cells: &mut BoundedCells,
    alloc: Global,
    halves: &mut Vec<Half>,
    left: &Coordinate,
    right: &Coordinate,
    slots: &[Slot],
) -> Result<(), NoMemory>
    requires { left.now <ℤ right.now }
    ensures { OnOk result (cells.new ≡ cells.old ++ kept (in_column left.now right.now (map slot_cell slots.now))) }
{
    for slot in slots {
        push_in_column(cells, alloc, halves, left, right, slot)?;
    }
    Ok(())
}
