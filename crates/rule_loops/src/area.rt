ghost use Rattle.std.specs.Prelude.{◌≡◌, IfOk};
ghost use Rattle.topology_terms.specs.Plans as plans;
ghost use Rattle.topology_terms.specs.Together.{of_side};

use crate::polygon::own_inside;
use crate::uncovered::left_uncovered;
use convex_cell::Cells;
use grid_plane::NoMemory;
use rule_core::{Side, View, Work};
use shape::Feature;
use std::alloc::Global;

/// What the polygons of the side that are shown leave of the subject's inside.
pub fn area_left(
    alloc: Global,
    side: Side,
    subject: &Feature,
    view: &View<'_>,
    work: &mut Work,
) -> Result<Cells, NoMemory>
    ensures left { IfOk result (λ cells. cells ≡ plans.area_left subject.now (of_side side view.now)) }
    ensures uncounted { work.new.judged ≡ work.old.judged }
{
    let cells = own_inside(alloc, subject, work)?;
    left_uncovered(alloc, side, None, &cells, view, work)
}
