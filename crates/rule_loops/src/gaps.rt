ghost use Rattle.std.specs.Prelude.{◌≡◌, IfOk};
ghost use Rattle.topology_terms.specs.Plans as plans;
ghost use Rattle.topology_terms.specs.Together.{of_side};

use crate::nearby::{nearby_of, polygon_nearby};
use crate::polygon::boundary_of;
use crate::remainder::left_of_cell;
use crate::uncovered::left_by_turns;
use convex_cell::{Cell, Cells};
use grid_plane::NoMemory;
use rule_core::{Side, View, Work};
use shape::Feature;
use std::alloc::Global;

// What no polygon of the side that is shown covers round the subject: out of it, within a box round it.
fn open_ground(
    alloc: Global,
    side: Side,
    subject: &Feature,
    view: &View<'_>,
    work: &mut Work,
) -> Result<Cells, NoMemory>
    ensures ground { IfOk result (λ cells. cells ≡ plans.open_ground subject.now (of_side side view.now)) }
    ensures uncounted { work.new.judged ≡ work.old.judged }
{
    let except = Some(subject.handle());
    let mut own = Vec::new(alloc);
    own.push(polygon_nearby(alloc, subject, work)?)?;
    let near = nearby_of(alloc, own, side, except, view, work)?;
    let round = Cell::box_round(alloc, &subject.shape().env())?;
    let left = left_of_cell(alloc, &round.borrow(), &near.held)?;
    left_by_turns(alloc, side, except, left, near.rest, view, work)
}

/// The boundary of the subject where open ground comes near.
pub fn gap_cells(
    alloc: Global,
    side: Side,
    subject: &Feature,
    view: &View<'_>,
    work: &mut Work,
) -> Result<Cells, NoMemory>
    ensures gaps { IfOk result (λ cells. cells ≡ plans.gap_cells subject.now (of_side side view.now)) }
    ensures uncounted { work.new.judged ≡ work.old.judged }
{
    let mut ground = open_ground(alloc, side, subject, view, work)?;
    if ground.len() == 0 {
        return Ok(ground);
    }
    ground.weaken();
    boundary_of(alloc, subject)?.carve(alloc, &ground)
}
