ghost use Rattle.std.specs.Prelude.{◌≡◌, ◌↔◌, ◌⊎◌, ◌<◌, length, slice_get, Some, IfSome, IfOk, OnOk};
ghost use Rattle.std.specs.Bool.{OnTrue};
ghost use Rattle.plane_terms.specs.Lists.{Every, SomeOf};
ghost use Rattle.plane_terms.specs.HalfPlane.{IsHalfPlane};
ghost use Rattle.plane_terms.specs.declared.op.Op.TheVariants.{Zero};
ghost use Rattle.plane_terms.specs.Point.{Point};
ghost use Rattle.plane_terms.specs.Cell.{InCell, weak_of};
ghost use Rattle.plane_terms.specs.Corners.{MeetAt, IsCorner};
ghost use Rattle.cell_corners.specs.Listed.{IsFit, Stands, AreAscending, IsLowest, corner_at};
ghost use Rattle.cell_corners.specs.Held.{IsEndOn, IsLineOf};
ghost use Rattle.cell_corners.specs.Lists.{AreListed};

use crate::corner::Corner;
use crate::ends::beginning;
use crate::listing::put;
use crate::lowest::reduced;
use crate::meeting::all_hold_on;
use convex_cell::BorrowedCell;
use grid_plane::{Half, NoMemory, Op};
use std::alloc::Global;
use std::marker::Model;

/// The corners of a cell.
#[derive(Drop)]
pub struct Corners {
    corners: Vec<Corner>,
}

impl Model for Corners {
    ghost use Rattle.std.specs.Prelude.{List};
    ghost use Rattle.cell_corners.specs.Lists.{AreListed};
    ghost use Rattle.cell_corners.specs.declared.corner.Corner.{Corner};

    ghost Value = { List Corner };

    ghost view = { λ c. c.corners.items };

    ghost invariant = { λ c. AreListed c.corners.items };
}

impl Corners {
    /// The corners of the cell, by abscissa and then by ordinate, each once: where the lines of two of its half-planes meet in its
    /// closure. A cell that has no point has those of its weakened half-planes.
    pub fn of(alloc: Global, cell: &BorrowedCell<'_>) -> Result<Corners, NoMemory>
        ensures exact { IfOk result (λ found. (p : Point) → IsCorner cell.now p ↔ Stands found p) }
        ensures ascending { IfOk result AreAscending }
        ensures lowest { IfOk result (λ found. Every IsLowest found) }
    {
        Ok(Corners {
            corners: corners_of(alloc, cell.halves())?,
        })
    }

    pub fn len(&self) -> usize
        ensures { result ≡ length self.now }
    {
        self.corners.len()
    }

    /// The corner of this number, from 0.
    pub fn corner(&self, i: usize) -> Corner
        requires { i < length self.now }
        ensures value { slice_get self.now i ≡ Some result }
        ensures fits { IsFit result }
    {
        self.corners[i]
    }
}

/// Adds the place at which the closed cell begins along the line, if it does.
fn put_beginning(found: &mut Vec<Corner>, line: &Half, halves: &[Half]) -> Result<(), NoMemory>
    requires { AreListed found.old.items }
    ensures listed { AreListed found.new.items }
    ensures found { OnOk result ((p : Point) → Stands found.new.items p ↔ (Stands found.old.items p ⊎ IsEndOn line.now halves.now (corner_at p))) }
{
    let Some(corner) = beginning(line, halves) else {
        return Ok(());
    };
    if !all_hold_on(halves, corner) {
        return Ok(());
    }
    put(found, reduced(corner))
}

/// Adds the corners that lie on the line of this half-plane of the cell: where the closed cell begins and ends along it.
fn put_ends(found: &mut Vec<Corner>, half: &Half, halves: &[Half]) -> Result<(), NoMemory>
    requires { AreListed found.old.items }
    ensures listed { AreListed found.new.items }
    ensures found { OnOk result ((p : Point) → Stands found.new.items p
        ↔ (Stands found.old.items p ⊎ (InCell (weak_of halves.now) p × SomeOf (MeetAt p half.now) halves.now))) }
{
    put_beginning(found, half, halves)?;
    put_beginning(found, &half.turned(half.op()), halves)
}

fn is_line(half: &Half) -> bool
    ensures line { OnTrue result (half.now.op ≡ Zero) }
    ensures valid { IsHalfPlane half.now }
{
    half.a();
    match half.op() {
        Op::Over => false,
        Op::AtLeast => false,
        Op::Zero => true,
    }
}

/// A line among the half-planes: all points of their cell are on it.
fn line_among(halves: &[Half]) -> Option<Half>
    ensures { IfSome result (IsLineOf halves.now) }
{
    for half in halves {
        if is_line(half) {
            return Some(*half);
        }
    }
    None
}

/// The corners of a cell that lies on one of its lines: no others have to be looked at.
fn corners_on(alloc: Global, line: &Half, halves: &[Half]) -> Result<Vec<Corner>, NoMemory>
    requires { IsLineOf halves.now line.now }
    ensures exact { IfOk result (λ found. (p : Point) → IsCorner halves.now p ↔ Stands found.items p) }
    ensures listed { IfOk result (λ found. AreListed found.items) }
{
    let mut found = Vec::new(alloc);
    put_ends(&mut found, line, halves)?;
    Ok(found)
}

fn corners_by_lines(alloc: Global, halves: &[Half]) -> Result<Vec<Corner>, NoMemory>
    ensures exact { IfOk result (λ found. (p : Point) → IsCorner halves.now p ↔ Stands found.items p) }
    ensures listed { IfOk result (λ found. AreListed found.items) }
{
    let mut found = Vec::new(alloc);
    for half in halves {
        put_ends(&mut found, half, halves)?;
    }
    Ok(found)
}

fn corners_of(alloc: Global, halves: &[Half]) -> Result<Vec<Corner>, NoMemory>
    ensures exact { IfOk result (λ found. (p : Point) → IsCorner halves.now p ↔ Stands found.items p) }
    ensures listed { IfOk result (λ found. AreListed found.items) }
{
    match line_among(halves) {
        Some(line) => corners_on(alloc, &line, halves),
        None => corners_by_lines(alloc, halves),
    }
}
