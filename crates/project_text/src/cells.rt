ghost use Rattle.project_terms.specs.Verdicts.{cell_of};
ghost use Rattle.project_text.specs.Reading.{left, IsCell};

use crate::fault::LineFault;
use crate::forms::half_form;
use convex_cell::Cell;
use grid_plane::Half;
use project_terms::ProjectCause;
use std::alloc::Global;

/// The cell whose half-planes are all that is left.
pub fn read_cell(alloc: Global, rest: &[u8]) -> Result<Cell, LineFault>
    ensures { IsCell (cell_of (left rest.now)) result }
{
    let mut halves = Vec::new(alloc);
    let mut within = true;
    let mut more = true;
    let mut left = rest;
    while more {
        let Some(form) = half_form(left) else {
            return Err(LineFault::Wrong(ProjectCause::Form));
        };
        match Half::of(form.a, form.b, form.c, form.op) {
            Some(half) => halves.push(half)?,
            None => within = false,
        }
        more = form.more;
        left = form.rest;
    }
    if !left.is_empty() {
        return Err(LineFault::Wrong(ProjectCause::Form));
    }
    if !within {
        return Err(LineFault::Wrong(ProjectCause::Range));
    }
    Ok(Cell::from_halves(halves))
}
