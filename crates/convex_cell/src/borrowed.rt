ghost use Rattle.std.specs.Prelude.{◌≡◌, ◌↔◌, ◌<◌, not, length, slice_get, Some, IfOk};
ghost use Rattle.std.specs.Bool.{OnTrue, OnFalse};
ghost use Rattle.plane_terms.specs.Point.{Point};
ghost use Rattle.plane_terms.specs.Cell.{InCell, HasPoint, meet_of};
ghost use Rattle.plane_terms.specs.Decide.{has_point};

use crate::cell::{Cell, is_empty, met};
use grid_plane::{Half, NoMemory};
use std::alloc::Global;
use std::marker::Model;

/// A cell whose half-planes stand somewhere else, as in a list of cells.
#[derive(Drop)]
pub struct BorrowedCell<'a> {
    halves: &'a [Half],
}

impl<'a> Model for BorrowedCell<'a> {
    ghost use Rattle.plane_terms.specs.Cell as terms;

    ghost Value = { terms.Cell };

    ghost view = { λ c. c.halves.now };
}

impl<'a> BorrowedCell<'a> {
    /// The cell of these half-planes.
    #[inline(always)]
    pub(crate) fn of(halves: &'a [Half]) -> BorrowedCell<'a>
        ensures { result ≡ halves.now }
    {
        BorrowedCell { halves }
    }

    /// Its half-planes, in their order.
    #[inline(always)]
    pub fn halves(&self) -> &'a [Half]
        ensures { result.now ≡ self.now }
    {
        self.halves
    }

    /// The number of its half-planes.
    #[inline(always)]
    pub fn len(&self) -> usize
        ensures { result ≡ length self.now }
    {
        self.halves.len()
    }

    #[inline(always)]
    pub fn half(&self, i: usize) -> Half
        requires { i < length self.now }
        ensures { slice_get self.now i ≡ Some result }
    {
        let halves = self.halves();
        halves[i]
    }

    pub fn try_copy(&self, alloc: Global) -> Result<Cell, NoMemory>
        ensures { IfOk result (λ cell. cell ≡ self.now) }
    {
        Cell::of(alloc, self.halves)
    }

    /// The points of both: the half-planes of this cell, then those of the other that are not there yet.
    pub fn meet(&self, alloc: Global, other: &BorrowedCell<'_>) -> Result<Cell, NoMemory>
        ensures value { IfOk result (λ cell. cell ≡ meet_of self.now other.now) }
        ensures points { IfOk result (λ cell. (p : Point) → InCell cell p ↔ (InCell self.now p × InCell other.now p)) }
    {
        met(alloc, self.halves, other.halves)
    }

    /// Whether no point of the plane is in the cell, as `Cell::is_empty` tells.
    pub fn is_empty(&self) -> bool
        ensures empty { OnTrue result (¬ (HasPoint self.now)) }
        ensures point { OnFalse result (HasPoint self.now) }
        ensures decided { result ≡ not (has_point self.now) }
    {
        is_empty(self.halves)
    }
}
