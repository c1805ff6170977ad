ghost use Rattle.std.specs.Prelude.{◌≡◌, ◌≢◌, ◌↔◌, IfOk, IsTrue, MatchOption};
ghost use Rattle.plane_terms.specs.declared.kind.Kind.TheVariants as kind;
ghost use Rattle.shape.specs.Form.{polygon_shape};
ghost use Rattle.rule_core.specs.Kept.{cells_of, halves_in, made_of, size_of};

use crate::region::Region;
use convex_cell::BoundedCells;
use grid_plane::{GridPoint, NoMemory};
use plane_terms::Kind;
use shape::{Shape, are_same_parts};
use std::marker::Model;
use std::rc::Rc;

/// The cells of one region of a polygon, beside the parts of the polygon.
#[derive(Drop)]
pub(crate) struct Kept {
    region: Region,
    parts: Vec<Vec<Vec<GridPoint>>>,
    cells: Rc<BoundedCells>,
    halves: usize,
}

impl Model for Kept {
    ghost use Rattle.std.specs.Prelude.{◌≡◌};
    ghost use Rattle.shape.specs.Form.{polygon_shape};
    ghost use Rattle.rule_core.specs.Kept.{KeptCells, cells_of, halves_in};

    ghost Value = { KeptCells };

    ghost view = { λ k. record { region = k.region; shape = polygon_shape k.parts.items } };

    ghost invariant = { λ k. (k.cells.value ≡ cells_of k.region (polygon_shape k.parts.items)) × (k.halves ≡ halves_in k.cells.value) };
}

fn is_polygon(shape: &Shape) -> bool
    ensures { IsTrue result ↔ (shape.now.kind ≡ kind.Polygon) }
{
    match shape.kind() {
        Kind::Point => false,
        Kind::Line => false,
        Kind::Polygon => true,
    }
}

impl Kept {
    /// Cells and the number of their half-planes, kept beside the parts of their polygon.
    pub(crate) fn of(
        region: Region,
        parts: Vec<Vec<Vec<GridPoint>>>,
        cells: Rc<BoundedCells>,
        halves: usize,
    ) -> Kept
        requires cells { cells.value ≡ cells_of region (polygon_shape parts.items) }
        requires halves { halves ≡ halves_in cells.value }
        ensures { result ≡ made_of region (polygon_shape parts.items) }
    {
        Kept {
            region,
            parts,
            cells,
            halves,
        }
    }

    /// The number of half-planes in the cells.
    pub(crate) fn halves(&self) -> usize
        ensures { result ≡ size_of self.now }
    {
        self.halves
    }

    fn is_of(&self, region: Region, shape: &Shape) -> bool
        ensures { IsTrue result ↔ (self.now ≡ made_of region shape.now) }
    {
        self.region == region && is_polygon(shape) && are_same_parts(&self.parts, shape.polygons())
    }

    /// The cells, where they are of this region of an equal polygon; out of memory where they have too many owners.
    pub(crate) fn cells(
        &self,
        region: Region,
        shape: &Shape,
    ) -> Result<Option<Rc<BoundedCells>>, NoMemory>
        ensures { IfOk result (λ found. MatchOption found (self.now ≢ made_of region shape.now) (λ cells. (self.now ≡ made_of region shape.now) × (cells.value ≡ cells_of region shape.now))) }
    {
        if !self.is_of(region, shape) {
            return Ok(None);
        }
        Ok(Some(self.cells.clone()?))
    }
}
