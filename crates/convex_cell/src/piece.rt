ghost use Rattle.std.specs.Prelude.{◌≡◌, ℕ, ℤ, pos, ◌*ℤ◌, ◌≤ℤ◌, ◌⊎◌, ◌<◌, ◌≤◌, ◌↔◌, ◌++◌, List, [], length, take, slice_get, Some, All, IfOk, OnOk, OnErr, IfSome, IfNone};
ghost use Rattle.std.specs.Bool.{OnTrue, OnFalse};
ghost use Rattle.plane_terms.specs.Point.{Point, InReach};
ghost use Rattle.plane_terms.specs.Rectangle.{RectHolds};
ghost use Rattle.plane_terms.specs.HalfPlane.{HalfPlane, Holds};
ghost use Rattle.plane_terms.specs.Cell.{InCell, HasPoint};
ghost use Rattle.convex_cell.specs.Span.{IsSpan, InSpan, InBounds, IsBoundsOf};
ghost use Rattle.convex_cell.specs.Needed.{SameCells};
ghost use Rattle.convex_cell.specs.Piece.{IsMarkOf, IsNarrowed};

use crate::borrowed::BorrowedCell;
use crate::bounded::BoundedCells;
use crate::bounds::{Bounds, Window, are_apart, bounds_of, common_bounds};
use crate::cell::is_empty_together;
use crate::needed::{hold_within, needed_of, push_others, reach_of};
use crate::span::Span;
use crate::trials::{is_in_both, middle_of_both};
use grid_plane::{Half, NoMemory, Rect};
use std::alloc::Global;
use std::marker::Model;

/// A piece of a cell: other cells narrow it in turn, and it becomes as wide again. It keeps its memory, and roughly how far it
/// reaches.
#[derive(Drop)]
pub struct Piece {
    halves: Vec<Half>,
    bounds: Bounds,
    // Whether it is known to have a point.
    is_some: bool,
}

impl Model for Piece {
    ghost use Rattle.plane_terms.specs.Cell as terms;
    ghost use Rattle.convex_cell.specs.Piece.{IsPiece};

    ghost Value = { terms.Cell };

    ghost view = { λ p. p.halves.items };

    ghost invariant = { λ p. IsPiece p.bounds p.is_some p.halves.items };
}

/// How wide a piece was.
#[derive(Clone, Copy)]
pub struct Mark {
    len: usize,
    bounds: Bounds,
    is_some: bool,
}

/// Whether no point is both in the cell of these half-planes and in the other.
fn is_clear_of(halves: &[Half], bounds: &Bounds, other: &[Half], other_bounds: &Bounds) -> bool
    requires own { IsBoundsOf bounds.now halves.now }
    requires other { IsBoundsOf other_bounds.now other.now }
    ensures clear { OnTrue result (¬ (HasPoint (halves.now ++ other.now))) }
    ensures point { OnFalse result (HasPoint (halves.now ++ other.now)) }
{
    if is_in_both(halves, other, middle_of_both(bounds, other_bounds)) {
        return false;
    }
    is_empty_together(halves, other, &common_bounds(bounds, other_bounds))
}

/// Adds the half-planes that say more than the bounds of those that are there, or all where the bounds are far.
fn push_more(halves: &mut Vec<Half>, bounds: &Bounds, more: &[Half]) -> Result<(), NoMemory>
    requires { IsBoundsOf bounds.now halves.old.items }
    ensures points { OnOk result ((p : Point) → All (λ h. Holds h p) halves.new.items ↔ (All (λ h. Holds h p) halves.old.items × All (λ h. Holds h p) more.now)) }
    ensures begins { take (length halves.old.items) halves.new.items ≡ halves.old.items }
{
    if let Some(x) = reach_of(bounds.x) {
        if let Some(y) = reach_of(bounds.y) {
            return push_others(halves, more, x, y);
        }
    }
    halves.extend_from_slice(more)?;
    Ok(())
}

/// Whether the first bounds lie in the second. No answer rests on it, only how long an answer takes.
fn are_nested(first: &Bounds, second: &Bounds) -> bool {
    second.x.from <= first.x.from
        && first.x.to <= second.x.to
        && second.y.from <= first.y.from
        && first.y.to <= second.y.to
}

/// Whether the half-planes hold wherever the bounds reach, as the corners of a frame round them show.
fn hold_in(halves: &[Half], bounds: &Bounds) -> bool
    requires x { IsSpan bounds.now.x }
    requires y { IsSpan bounds.now.y }
    ensures { OnTrue result ((p : Point) → InBounds bounds.now p → All (λ h. Holds h p) halves.now) }
{
    match reach_of(bounds.x) {
        Some(x) => match reach_of(bounds.y) {
            Some(y) => hold_within(halves, x, y),
            None => false,
        },
        None => false,
    }
}

/// They say nothing.
fn everywhere() -> Bounds
    ensures { IsBoundsOf result [] }
{
    Bounds {
        x: Span::open(),
        y: Span::open(),
    }
}

/// Puts the half-planes of the cell into an empty list, or of many those that are needed.
fn start_with(
    alloc: Global,
    halves: &mut Vec<Half>,
    cell: &[Half],
    bounds: &Bounds,
) -> Result<(), NoMemory>
    requires empty { halves.old.items ≡ [] }
    requires bounds { IsBoundsOf bounds.now cell.now }
    ensures ok { OnOk result (SameCells halves.new.items cell.now) }
    ensures err { OnErr result (halves.new.items ≡ []) }
{
    match needed_of(alloc, cell, bounds)? {
        Some(needed) => halves.extend_from_slice(&needed)?,
        None => halves.extend_from_slice(cell)?,
    }
    Ok(())
}

/// From one whole number to another.
fn span_of(from: i32, to: i32) -> Span
    requires from { InReach from }
    requires to { InReach to }
    ensures fits { IsSpan result }
    ensures sound { (z : ℤ) → (w : ℕ) → 0 < w → (from *ℤ pos w) ≤ℤ z → z ≤ℤ (to *ℤ pos w) → InSpan result z w }
{
    Span {
        from: 2 * i64::from(from),
        to: 2 * i64::from(to),
    }
}

/// Bounds of what a rectangle holds.
fn bounds_round(r: &Rect) -> Bounds
    ensures x_fits { IsSpan result.x }
    ensures y_fits { IsSpan result.y }
    ensures sound { (p : Point) → RectHolds r.now p → InBounds result p }
{
    Bounds {
        x: span_of(r.x0(), r.x1()),
        y: span_of(r.y0(), r.y1()),
    }
}

impl Piece {
    /// The whole plane.
    pub fn new(alloc: Global) -> Piece
        ensures { result ≡ [] }
    {
        Piece {
            halves: Vec::new(alloc),
            bounds: everywhere(),
            is_some: false,
        }
    }

    /// The half-planes that hold together just where the piece is.
    pub fn halves(&self) -> &[Half]
        ensures { result.now ≡ self.now }
    {
        &self.halves
    }

    /// How wide it is.
    fn mark(&self) -> Mark
        ensures { IsMarkOf result self.now }
    {
        Mark {
            len: self.halves.len(),
            bounds: self.bounds,
            is_some: self.is_some,
        }
    }

    /// Whether it is known to have a point, and to lie in the other cell. What the bounds of that one tell is looked at first.
    fn is_within(&self, other: &[Half], other_bounds: &Bounds) -> bool
        ensures some { OnTrue result (HasPoint self.now) }
        ensures within { OnTrue result ((p : Point) → InCell self.now p → InCell other.now p) }
    {
        if !self.is_some {
            return false;
        }
        if !are_nested(&self.bounds, other_bounds) {
            return false;
        }
        hold_in(other, &self.bounds)
    }

    /// Makes it the cell; the whole plane where memory runs out.
    pub fn start(&mut self, alloc: Global, cell: &BorrowedCell<'_>) -> Result<(), NoMemory>
        ensures ok { OnOk result ((p : Point) → InCell self.new p ↔ InCell cell.now p) }
        ensures err { OnErr result (self.new ≡ []) }
    {
        self.halves.clear();
        self.bounds = everywhere();
        self.is_some = false;
        let bounds = bounds_of(cell.halves());
        start_with(alloc, &mut self.halves, cell.halves(), &bounds)?;
        self.bounds = bounds;
        Ok(())
    }

    /// The places of all cells of the list that may have a point in common with the piece.
    pub fn window(&self, by: &BoundedCells) -> Window
        ensures fits { result.last ≤ length by.now }
        ensures clear { (k : ℕ) → (d : List HalfPlane) → slice_get by.now k ≡ Some d → (k < result.first) ⊎ (result.last ≤ k) → (p : Point) → InCell self.now p → ¬ (InCell d p) }
    {
        by.window(&self.bounds)
    }

    /// The first place from this one on, and before the last, of a cell of the list that may have a point in common with the piece.
    pub fn next_near(&self, by: &BoundedCells, from: usize, last: usize) -> Option<usize>
        requires { last ≤ length by.now }
        ensures none { IfNone result ((k : ℕ) → (d : List HalfPlane) → slice_get by.now k ≡ Some d → from ≤ k → k < last → (p : Point) → InCell self.now p → ¬ (InCell d p)) }
        ensures from { IfSome result (λ i. from ≤ i) }
        ensures before { IfSome result (λ i. i < last) }
        ensures clear { IfSome result (λ i. (k : ℕ) → (d : List HalfPlane) → slice_get by.now k ≡ Some d → from ≤ k → k < i → (p : Point) → InCell self.now p → ¬ (InCell d p)) }
    {
        by.next_near(&self.bounds, from, last)
    }

    /// Leaves what is in this cell of the list too, and says how wide the piece was; `None`, and it stays, where they have no
    /// point in common. It stays where memory runs out.
    pub fn narrow(&mut self, by: &BoundedCells, i: usize) -> Result<Option<Mark>, NoMemory>
        requires { i < length by.now }
        ensures none { IfOk result (λ mark. IfNone mark (self.new ≡ self.old)) }
        ensures clear { IfOk result (λ mark. IfNone mark ((d : List HalfPlane) → slice_get by.now i ≡ Some d → (p : Point) → InCell self.old p → ¬ (InCell d p))) }
        ensures some { IfOk result (λ mark. IfSome mark (λ m. (d : List HalfPlane) → slice_get by.now i ≡ Some d → IsNarrowed m self.old d self.new)) }
        ensures err { OnErr result (self.new ≡ self.old) }
    {
        let other_bounds = by.bounds_at(i);
        if are_apart(&self.bounds, &other_bounds) {
            return Ok(None);
        }
        let other = by.cells().halves_at(i);
        let mark = self.mark();
        if self.is_within(other, &other_bounds) {
            return Ok(Some(mark));
        }
        if is_clear_of(&self.halves, &self.bounds, other, &other_bounds) {
            return Ok(None);
        }
        let len = mark.len;
        if let Err(full) = push_more(&mut self.halves, &self.bounds, other) {
            self.halves.truncate(len);
            return Err(full);
        }
        self.bounds = common_bounds(&mark.bounds, &other_bounds);
        self.is_some = true;
        Ok(Some(mark))
    }

    /// Makes it as wide again as it was.
    pub fn widen(&mut self, mark: Mark)
        requires long { mark.len ≤ length self.old }
        requires mark { IsMarkOf mark (take mark.len self.old) }
        ensures { self.new ≡ take mark.len self.old }
    {
        self.halves.truncate(mark.len);
        self.bounds = mark.bounds;
        self.is_some = mark.is_some;
    }

    /// Whether its bounds show that it has no point in the rectangle.
    pub fn is_off(&self, r: &Rect) -> bool
        ensures { OnTrue result ((p : Point) → InCell self.now p → ¬ (RectHolds r.now p)) }
    {
        are_apart(&self.bounds, &bounds_round(r))
    }
}
