ghost use Rattle.std.specs.Prelude.{◌≡◌, [], IfOk};
ghost use Rattle.topology_terms.specs.Cells as terms;
ghost use Rattle.topology_terms.specs.Plans as plans;
ghost use Rattle.rule_loops.specs.Apart.{along_apart};

use crate::pairs::{Crossing, each_later, each_pair};
use crate::shared::push_along;
use convex_cell::Cells;
use grid_plane::{NoMemory, Seg};
use shape::Feature;
use std::alloc::Global;

// Where two segments overlap.
struct Along;

impl Crossing for Along {
    ghost crossing = { λ x s t. terms.along s t };

    fn push_cells(
        &self,
        alloc: Global,
        cells: &mut Cells,
        first: &Seg,
        second: &Seg,
    ) -> Result<(), NoMemory> {
        push_along(alloc, cells, first, second)
    }

    ghost apart = { λ x s t g h e. along_apart s t g h e };
}

/// Where segments of two lines overlap.
pub fn common_stretches(
    alloc: Global,
    subject: &Feature,
    partner: &Feature,
) -> Result<Cells, NoMemory>
    ensures { IfOk result (λ cells. cells ≡ plans.common_stretches subject.now partner.now) }
{
    each_pair(alloc, &Along, subject.shape(), partner.shape())
}

/// Where segments of a line overlap.
pub fn own_stretches(alloc: Global, subject: &Feature) -> Result<Cells, NoMemory>
    ensures { IfOk result (λ cells. cells ≡ plans.own_stretches subject.now []) }
{
    each_later(alloc, &Along, subject.shape())
}
