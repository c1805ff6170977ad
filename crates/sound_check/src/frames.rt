ghost use Rattle.std.specs.Prelude.{◌≡◌, ◌↔◌, ◌≤◌, ◌+ℤ◌, ◌-ℤ◌, pos, Some, IsTrue, IfOk, unsigned_abs};
ghost use Rattle.plane_terms.specs.Point.{InReach};
ghost use Rattle.plane_terms.specs.Rectangle.{Rectangle, IsWithin};
ghost use Rattle.plane_terms.specs.Cell.{IsLeastFrame};
ghost use Rattle.sound_check.specs.Frames.{Reaches, HoldsAll, ReachesSides, Stands};

use crate::rest::common;
use convex_cell::{Cell, Cells};
use dirty_area::Dirt;
use grid_plane::{Half, NoMemory, Rect, x_over, x_under, y_over, y_under};
use std::alloc::Global;

fn one_less(v: i32) -> i32
    requires { InReach v }
    ensures value { result ≡ v -ℤ pos 1 }
    ensures fits { unsigned_abs result ≤ 4194305 }
{
    v - 1
}

fn one_more(v: i32) -> i32
    requires { InReach v }
    ensures value { result ≡ v +ℤ pos 1 }
    ensures fits { unsigned_abs result ≤ 4194305 }
{
    v + 1
}

fn reaches(alloc: Global, cells: &Cells, half: Half) -> Result<bool, NoMemory>
    ensures { IfOk result (λ yes. IsTrue yes ↔ Reaches half cells.now) }
{
    let side = Cell::of(alloc, &[half])?;
    for i in 0..cells.len() {
        let there = cells.cell(i).meet(alloc, &side.borrow())?;
        if !there.is_empty() {
            return Ok(true);
        }
    }
    Ok(false)
}

/// Whether the frame holds every point of the cells.
pub(crate) fn holds_all(alloc: Global, frame: &Rect, cells: &Cells) -> Result<bool, NoMemory>
    ensures { IfOk result (λ yes. IsTrue yes ↔ HoldsAll frame.now cells.now) }
{
    let outside = Cells::out_of_rect(alloc, frame)?;
    let there = common(alloc, cells, &outside)?;
    Ok(there.len() == 0)
}

fn reaches_sides(alloc: Global, frame: &Rect, cells: &Cells) -> Result<bool, NoMemory>
    ensures { IfOk result (λ yes. IsTrue yes ↔ ReachesSides frame.now cells.now) }
{
    if !reaches(alloc, cells, x_under(one_more(frame.x0())))? {
        return Ok(false);
    }
    if !reaches(alloc, cells, x_over(one_less(frame.x1())))? {
        return Ok(false);
    }
    if !reaches(alloc, cells, y_under(one_more(frame.y0())))? {
        return Ok(false);
    }
    reaches(alloc, cells, y_over(one_less(frame.y1())))
}

/// Whether the frame is the least rectangle of the grid that holds every point of the cells. Cells that go on for ever or beyond
/// the grid have none, nor have cells without any point. An `Err` means out of memory.
pub fn is_least_frame(alloc: Global, frame: &Rect, cells: &Cells) -> Result<bool, NoMemory>
    ensures { IfOk result (λ yes. IsTrue yes ↔ IsLeastFrame frame.now cells.now) }
{
    if !holds_all(alloc, frame, cells)? {
        return Ok(false);
    }
    reaches_sides(alloc, frame, cells)
}

fn lies_in_envelope(frame: &Rect, envelope: Option<Rect>) -> bool
    ensures { IsTrue result ↔ ((s : Rectangle) × (envelope ≡ Some s) × IsWithin frame.now s) }
{
    match envelope {
        Some(envelope) => envelope.holds_rect(frame),
        None => false,
    }
}

/// Whether a frame may stand: it meets the dirt, touching is meeting, or it lies in the envelope of its subject, which is there
/// where the subject is live. Looks at the dirt only where it does not lie in the envelope.
pub fn frame_stands(frame: &Rect, envelope: Option<Rect>, dirt: &Dirt) -> bool
    ensures { IsTrue result ↔ Stands dirt.now envelope frame.now }
{
    lies_in_envelope(frame, envelope) || dirt.meets(frame)
}
