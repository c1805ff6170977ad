// Cells that are made one after the other, each with its bounds.
ghost use Rattle.std.specs.Prelude.{◌≡◌, ◌++◌, ◌∷◌, [], pos, ◌*ℤ◌, ◌<ℤ◌, OnOk, OnErr};
ghost use Rattle.plane_terms.specs.Point.{Point, InReach};
ghost use Rattle.plane_terms.specs.Cell.{InCell};
ghost use Rattle.plane_terms.specs.Carve.{kept};
ghost use Rattle.convex_cell.specs.Span.{IsBoundsOf};

use crate::bounded::BoundedCells;
use crate::bounds::{Bounds, are_rising, bounds_along, bounds_of};
use crate::emptiness::is_empty_within;
use crate::span::{span_at, span_between};
use grid_plane::{Half, NoMemory};
use std::alloc::Global;

impl BoundedCells {
    fn push_within(&mut self, halves: &[Half], bounds: Bounds) -> Result<(), NoMemory>
        requires { IsBoundsOf bounds halves.now }
        ensures ok { OnOk result (self.new ≡ self.old ++ halves.now ∷ []) }
        ensures err { OnErr result (self.new ≡ self.old) }
    {
        self.rising = false;
        self.bounds.push(bounds)?;
        if let Err(full) = self.cells.push_halves(halves) {
            self.bounds.pop();
            return Err(full);
        }
        Ok(())
    }

    /// Puts the cell of these half-planes, which lies between two upright lines, at the end; where memory runs out the list stays
    /// as it was.
    pub fn push_between(&mut self, left: i32, right: i32, halves: &[Half]) -> Result<(), NoMemory>
        requires left { InReach left }
        requires right { InReach right }
        requires after { (p : Point) → InCell halves.now p → (left *ℤ pos p.w) <ℤ p.x }
        requires before { (p : Point) → InCell halves.now p → p.x <ℤ (right *ℤ pos p.w) }
        ensures ok { OnOk result (self.new ≡ self.old ++ halves.now ∷ []) }
        ensures err { OnErr result (self.new ≡ self.old) }
    {
        let bounds = bounds_along(halves, span_between(left, right));
        self.push_within(halves, bounds)
    }

    fn push_if_some(&mut self, halves: &[Half], bounds: Bounds) -> Result<(), NoMemory>
        requires { IsBoundsOf bounds halves.now }
        ensures ok { OnOk result (self.new ≡ self.old ++ kept (halves.now ∷ [])) }
        ensures err { OnErr result (self.new ≡ self.old) }
    {
        if is_empty_within(halves, &bounds) {
            return Ok(());
        }
        self.push_within(halves, bounds)
    }

    /// Puts the cell of these half-planes at the end where it has a point; no other takes memory. Where memory runs out the list
    /// stays as it was.
    pub fn push_kept(&mut self, _alloc: Global, halves: &[Half]) -> Result<(), NoMemory>
        ensures ok { OnOk result (self.new ≡ self.old ++ kept (halves.now ∷ [])) }
        ensures err { OnErr result (self.new ≡ self.old) }
    {
        self.push_if_some(halves, bounds_of(halves))
    }

    /// What `push_kept` does, of a cell that lies on an upright line.
    pub fn push_kept_on(&mut self, x: i32, halves: &[Half]) -> Result<(), NoMemory>
        requires reach { InReach x }
        requires on { (p : Point) → InCell halves.now p → p.x ≡ x *ℤ pos p.w }
        ensures ok { OnOk result (self.new ≡ self.old ++ kept (halves.now ∷ [])) }
        ensures err { OnErr result (self.new ≡ self.old) }
    {
        self.push_if_some(halves, bounds_along(halves, span_at(x)))
    }

    /// To be called when all cells are there: gives back the room that none takes, and finds whether they ascend along x, so that
    /// a carving by them looks only at those that are near.
    pub fn settle(&mut self)
        ensures { self.new ≡ self.old }
    {
        self.cells.shrink_to_fit();
        self.bounds.shrink_to_fit();
        self.rising = are_rising(&self.bounds);
    }
}
