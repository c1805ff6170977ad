ghost use Rattle.std.specs.Prelude.{◌≡◌, ℕ, ◌⊎◌, ◌<◌, ◌≤◌, ◌++◌, ◌∷◌, [], map, List, length, slice_get, Some, IfNone, IfOk, IfSome, OnOk, OnErr};
ghost use Rattle.std.specs.Bool.{OnTrue};
ghost use Rattle.std.specs.List.{AllZip};
ghost use Rattle.plane_terms.specs.Point.{Point};
ghost use Rattle.plane_terms.specs.HalfPlane.{HalfPlane};
ghost use Rattle.plane_terms.specs.Cell as terms;
ghost use Rattle.plane_terms.specs.Cell.{InCell, meet_of};
ghost use Rattle.plane_terms.specs.Carve.{kept, carve_of};
ghost use Rattle.convex_cell.specs.Span.{IsBoundsOf, AreApart, AreRisingTo, IsSearch};
ghost use Rattle.convex_cell.specs.Needed.{SameCells};

use crate::bounds::{Bounds, Window, are_apart, are_rising, bounds_of, common_bounds, window_of};
use crate::cells::{Cells, all_bounds};
use crate::needed::meets;
use crate::stack::next_near;
use crate::wider::widened;
use grid_plane::{Half, NoMemory};
use std::alloc::Global;
use std::marker::Model;

/// A list of cells that is carved by often, or often carved: it keeps roughly how far each cell reaches.
#[derive(Drop)]
pub struct BoundedCells {
    pub(crate) cells: Cells,
    pub(crate) bounds: Vec<Bounds>,
    pub(crate) rising: bool,
}

impl Model for BoundedCells {
    ghost use Rattle.std.specs.Prelude.{List};
    ghost use Rattle.plane_terms.specs.Cell as terms;
    ghost use Rattle.convex_cell.specs.Span.{IsBounded};

    ghost Value = { List terms.Cell };

    ghost view = { λ b. b.cells };

    ghost invariant = { λ b. IsBounded b.bounds.items b.cells b.rising };
}

/// A list of so few bounds is searched as it is, if they do not ascend.
const FEW: usize = 16;

/// Where those are looked for that may be near: in bounds round those of the cells, one each.
#[derive(Clone, Copy)]
struct Search<'a> {
    bounds: &'a [Bounds],
    // Whether they are known to ascend.
    rising: bool,
    // Whether some may be wider than those of the cells.
    is_wide: bool,
}

/// The bounds are searched as they are.
fn search_in(bounds: &[Bounds], rising: bool) -> Search<'_>
    requires { OnTrue rising (AreRisingTo (length bounds.now) bounds.now) }
    ensures { IsSearch result.bounds.now result.rising bounds.now }
{
    Search {
        bounds,
        rising,
        is_wide: false,
    }
}

/// Whether wider bounds are searched, and the cell's own are apart from these.
fn is_far(own: &Bounds, bounds: &Bounds, searched: Search<'_>) -> bool
    ensures { OnTrue result (AreApart own.now bounds.now) }
{
    searched.is_wide && are_apart(own, bounds)
}

fn carved_each(
    alloc: Global,
    cells: &Cells,
    own: &[Bounds],
    by: &Cells,
    bounds: &[Bounds],
    searched: Search<'_>,
) -> Result<BoundedCells, NoMemory>
    requires own { AllZip IsBoundsOf own.now cells.now }
    requires own_same { length own.now ≡ length cells.now }
    requires bounds { AllZip IsBoundsOf bounds.now by.now }
    requires same { length bounds.now ≡ length by.now }
    requires searched { IsSearch searched.bounds.now searched.rising bounds.now }
    ensures { IfOk result (λ made. made ≡ carve_of cells.now by.now) }
{
    let mut made = BoundedCells::with_capacity(alloc, cells.len())?;
    for i in 0..cells.len() {
        made.push_met(alloc, cells.halves_at(i), &own[i], by, bounds, searched)?;
    }
    Ok(made)
}

fn carved_by(
    alloc: Global,
    cells: &Cells,
    by: &Cells,
    bounds: &[Bounds],
    searched: Search<'_>,
) -> Result<BoundedCells, NoMemory>
    requires bounds { AllZip IsBoundsOf bounds.now by.now }
    requires same { length bounds.now ≡ length by.now }
    requires searched { IsSearch searched.bounds.now searched.rising bounds.now }
    ensures { IfOk result (λ made. made ≡ carve_of cells.now by.now) }
{
    let mut made = BoundedCells::with_capacity(alloc, cells.len())?;
    for i in 0..cells.len() {
        let cell = cells.halves_at(i);
        made.push_met(alloc, cell, &bounds_of(cell), by, bounds, searched)?;
    }
    Ok(made)
}

pub(crate) fn carved(alloc: Global, cells: &Cells, by: &Cells) -> Result<Cells, NoMemory>
    ensures { IfOk result (λ made. made ≡ carve_of cells.now by.now) }
{
    let bounds = all_bounds(alloc, by)?;
    let rising = are_rising(&bounds);
    if rising || bounds.len() <= FEW {
        let searched = search_in(&bounds, rising);
        return Ok(carved_by(alloc, cells, by, &bounds, searched)?.into_cells());
    }
    let wider = widened(alloc, &bounds)?;
    let searched = Search {
        bounds: &wider,
        rising: are_rising(&wider),
        is_wide: true,
    };
    Ok(carved_by(alloc, cells, by, &bounds, searched)?.into_cells())
}

impl BoundedCells {
    /// These cells.
    pub fn of(alloc: Global, cells: Cells) -> Result<BoundedCells, NoMemory>
        ensures { IfOk result (λ bounded. bounded ≡ cells) }
    {
        let bounds = all_bounds(alloc, &cells)?;
        let rising = are_rising(&bounds);
        Ok(BoundedCells {
            cells,
            bounds,
            rising,
        })
    }

    /// No cell yet, and room for so many.
    pub fn with_capacity(alloc: Global, count: usize) -> Result<BoundedCells, NoMemory>
        ensures { IfOk result (λ bounded. bounded ≡ []) }
    {
        Ok(BoundedCells {
            cells: Cells::with_capacity(alloc, count)?,
            bounds: Vec::with_capacity(alloc, count)?,
            rising: false,
        })
    }

    /// Puts the meet of both cells, of which these are bounds, at the end; where memory runs out the list stays as it was.
    pub(crate) fn push_both(
        &mut self,
        cell: &[Half],
        other: &[Half],
        bounds: Bounds,
    ) -> Result<(), NoMemory>
        requires { IsBoundsOf bounds (meet_of cell.now other.now) }
        ensures ok { OnOk result (self.new ≡ self.old ++ meet_of cell.now other.now ∷ []) }
        ensures err { OnErr result (self.new ≡ self.old) }
    {
        self.rising = false;
        self.bounds.push(bounds)?;
        if let Err(full) = self.cells.push_both(cell, other) {
            self.bounds.pop();
            return Err(full);
        }
        Ok(())
    }

    fn push_meet(
        &mut self,
        alloc: Global,
        cell: &[Half],
        needed: &mut Option<Vec<Half>>,
        own: &Bounds,
        other: &[Half],
        bounds: &Bounds,
    ) -> Result<(), NoMemory>
        requires needed { IfSome needed.old (λ n. SameCells n.items cell.now) }
        requires own { IsBoundsOf own.now cell.now }
        requires other { IsBoundsOf bounds.now other.now }
        ensures made { OnOk result (self.new ≡ self.old ++ kept (meet_of cell.now other.now ∷ [])) }
        ensures needed { OnOk result (IfSome needed.new (λ n. SameCells n.items cell.now)) }
    {
        if meets(alloc, cell, needed, own, other, bounds)? {
            self.push_both(cell, other, common_bounds(own, bounds))?;
        }
        Ok(())
    }

    fn push_met(
        &mut self,
        alloc: Global,
        cell: &[Half],
        own: &Bounds,
        others: &Cells,
        bounds: &[Bounds],
        searched: Search<'_>,
    ) -> Result<(), NoMemory>
        requires own { IsBoundsOf own.now cell.now }
        requires bounds { AllZip IsBoundsOf bounds.now others.now }
        requires same { length bounds.now ≡ length others.now }
        requires searched { IsSearch searched.bounds.now searched.rising bounds.now }
        ensures { OnOk result (self.new ≡ self.old ++ kept (map {A = terms.Cell} (meet_of cell.now) others.now)) }
    {
        let mut needed = None;
        let window = window_of(searched.bounds, own, searched.rising);
        let mut from = window.first;
        while let Some(i) = next_near(searched.bounds, own, from, window.last, searched.rising) {
            from = i + 1;
            if is_far(own, &bounds[i], searched) {
                continue;
            }
            let other = others.halves_at(i);
            self.push_meet(alloc, cell, &mut needed, own, other, &bounds[i])?;
        }
        Ok(())
    }

    /// The number of cells.
    pub fn len(&self) -> usize
        ensures { result ≡ length self.now }
    {
        self.cells.len()
    }

    /// The cells alone.
    pub fn into_cells(self) -> Cells
        ensures { result ≡ self }
    {
        let BoundedCells {
            cells,
            bounds: _,
            rising: _,
        } = self;
        cells
    }

    /// The cells alone.
    pub fn cells(&self) -> &Cells
        ensures { result.now ≡ self.now }
    {
        &self.cells
    }

    /// The bounds of a cell of the list.
    pub(crate) fn bounds_at(&self, i: usize) -> Bounds
        requires { i < length self.now }
        ensures { (d : List HalfPlane) → slice_get self.now i ≡ Some d → IsBoundsOf result d }
    {
        self.bounds[i]
    }

    /// The places of all cells that may have a point in common with a cell of these bounds.
    pub(crate) fn window(&self, own: &Bounds) -> Window
        ensures fits { result.last ≤ length self.now }
        ensures clear { (c : List HalfPlane) → IsBoundsOf own.now c → (k : ℕ) → (d : List HalfPlane) → slice_get self.now k ≡ Some d
            → (k < result.first) ⊎ (result.last ≤ k) → (p : Point) → InCell c p → ¬ (InCell d p) }
    {
        window_of(&self.bounds, own, self.rising)
    }

    /// The first place from this one on, and before the last, of a cell that may have a point in common with a cell of these bounds.
    pub(crate) fn next_near(&self, own: &Bounds, from: usize, last: usize) -> Option<usize>
        requires { last ≤ length self.now }
        ensures none { IfNone result ((c : List HalfPlane) → IsBoundsOf own.now c → (k : ℕ) → (d : List HalfPlane) → slice_get self.now k ≡ Some d
            → from ≤ k → k < last → (p : Point) → InCell c p → ¬ (InCell d p)) }
        ensures from { IfSome result (λ i. from ≤ i) }
        ensures before { IfSome result (λ i. i < last) }
        ensures clear { IfSome result (λ i. (c : List HalfPlane) → IsBoundsOf own.now c → (k : ℕ) → (d : List HalfPlane) → slice_get self.now k ≡ Some d
            → from ≤ k → k < i → (p : Point) → InCell c p → ¬ (InCell d p)) }
    {
        next_near(&self.bounds, own, from, last, self.rising)
    }

    /// What `Cells::carve` makes of this list and the other, with its bounds.
    pub fn carve_again(&self, alloc: Global, by: &BoundedCells) -> Result<BoundedCells, NoMemory>
        ensures { IfOk result (λ made. made ≡ carve_of self.now by.now) }
    {
        carved_each(
            alloc,
            &self.cells,
            &self.bounds,
            &by.cells,
            &by.bounds,
            search_in(&by.bounds, by.rising),
        )
    }

    /// What `Cells::carve` makes of this list and the other.
    pub fn carve(&self, alloc: Global, by: &BoundedCells) -> Result<Cells, NoMemory>
        ensures { IfOk result (λ made. made ≡ carve_of self.now by.now) }
    {
        Ok(self.carve_again(alloc, by)?.into_cells())
    }
}

impl Cells {
    /// What `carve` makes of this list and the other.
    pub fn carve_by(&self, alloc: Global, by: &BoundedCells) -> Result<Cells, NoMemory>
        ensures { IfOk result (λ made. made ≡ carve_of self.now by.now) }
    {
        let searched = search_in(&by.bounds, by.rising);
        Ok(carved_by(alloc, self, &by.cells, &by.bounds, searched)?.into_cells())
    }
}
