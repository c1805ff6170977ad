ghost use Rattle.std.specs.Prelude.{[], ◌∷◌, if◌then◌else◌};
ghost use Rattle.plane_terms.specs.Point.{same_place};
ghost use Rattle.plane_terms.specs.Cell.{at_place};
ghost use Rattle.topology_terms.specs.Feature.{place};

use convex_cell::{Cell, Cells};
use grid_plane::{GridPoint, NoMemory};
use rule_core::Work;
use rule_loops::Common;
use shape::Feature;
use std::alloc::Global;
use std::marker::Model;

/// The place of a point, which others may be at too.
#[derive(Drop)]
pub struct SamePlace {
    pub place: GridPoint,
}

impl Model for SamePlace {
    ghost use Rattle.plane_terms.specs.Point.{Place};

    ghost Value = { Place };

    ghost view = { λ s. s.place };
}

impl Common for SamePlace {
    ghost common = { λ q g. if same_place q (place g) then at_place q ∷ [] else [] };

    fn cells(&self, alloc: Global, partner: &Feature, _work: &mut Work) -> Result<Cells, NoMemory> {
        let mut cells = Cells::new(alloc);
        if self.place == partner.shape().place() {
            cells.push(Cell::at(alloc, self.place)?)?;
        }
        Ok(cells)
    }
}
