ghost use Rattle.std.specs.Prelude.{◌≡◌, ◌++◌, drop, List, IfOk};
ghost use Rattle.plane_terms.specs.Cell.{HavePoints};
ghost use Rattle.topology_terms.specs.Cells.{uncovered};
ghost use Rattle.rule_loops.specs.Open.{outsides};

use crate::nearby::{is_chosen, nearby_of};
use crate::polygon::outside_of;
use crate::remainder::left_of_cells;
use convex_cell::{BoundedCells, Cells};
use grid_plane::NoMemory;
use rule_core::{Side, View, Work};
use std::alloc::Global;

/// What is left of the cells, carved by the outsides of the chosen polygons in turn, from this place of the view on. Stops where nothing is
/// left.
pub(crate) fn left_by_turns(
    alloc: Global,
    side: Side,
    except: Option<u32>,
    cells: Cells,
    from: usize,
    view: &View<'_>,
    work: &mut Work,
) -> Result<Cells, NoMemory>
    ensures left { IfOk result (λ left. left ≡ uncovered cells (outsides side except (drop from view.now))) }
    ensures uncounted { work.new.judged ≡ work.old.judged }
{
    if from >= view.len() {
        return Ok(cells);
    }
    let mut left = BoundedCells::of(alloc, cells)?;
    for i in from..view.len() {
        if left.len() == 0 {
            return Ok(left.into_cells());
        }
        let other = view.feature(i);
        if is_chosen(side, except, other) {
            let outside = outside_of(alloc, other, work)?;
            left = left.carve_again(alloc, &outside)?;
        }
    }
    Ok(left.into_cells())
}

/// What is left of the cells, carved by the outsides of the chosen polygons in turn.
pub(crate) fn left_uncovered(
    alloc: Global,
    side: Side,
    except: Option<u32>,
    cells: &Cells,
    view: &View<'_>,
    work: &mut Work,
) -> Result<Cells, NoMemory>
    requires { HavePoints cells.now }
    ensures left { IfOk result (λ left. left ≡ uncovered cells.now (outsides side except view.now)) }
    ensures uncounted { work.new.judged ≡ work.old.judged }
{
    let near = nearby_of(alloc, Vec::new(alloc), side, except, view, work)?;
    let left = left_of_cells(alloc, cells, &near.held)?;
    left_by_turns(alloc, side, except, left, near.rest, view, work)
}
