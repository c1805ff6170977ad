ghost use Rattle.std.specs.Prelude.{◌≡◌, IfOk};
ghost use Rattle.topology_terms.specs.Plans as plans;

use crate::off_ends::{OffEnds, Spared};
use crate::pairs::each_pair;
use convex_cell::Cells;
use grid_plane::NoMemory;
use shape::Feature;
use std::alloc::Global;

/// What two lines have in common, but for the ends of both.
pub fn common_inner(alloc: Global, subject: &Feature, partner: &Feature) -> Result<Cells, NoMemory>
    ensures { IfOk result (λ cells. cells ≡ plans.common_inner subject.now partner.now) }
{
    let off = OffEnds {
        first: subject.shape(),
        second: partner.shape(),
        spared: Spared::OfEither,
    };
    each_pair(alloc, &off, subject.shape(), partner.shape())
}

/// What two lines have in common, but for places that are ends of both.
pub fn common_but_ends(
    alloc: Global,
    subject: &Feature,
    partner: &Feature,
) -> Result<Cells, NoMemory>
    ensures { IfOk result (λ cells. cells ≡ plans.common_but_ends subject.now partner.now) }
{
    let off = OffEnds {
        first: subject.shape(),
        second: partner.shape(),
        spared: Spared::OfBoth,
    };
    each_pair(alloc, &off, subject.shape(), partner.shape())
}
