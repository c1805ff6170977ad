ghost use Rattle.std.specs.Prelude.{◌≡◌, ◌++◌, [], flat_map, if◌then◌else◌, IfOk, OnOk};
ghost use Rattle.plane_terms.specs.Segment.{overlap};
ghost use Rattle.plane_terms.specs.Shape.{path};
ghost use Rattle.shape.specs.Given.{rings_in};
ghost use Rattle.topology_terms.specs.Cells as terms;

use crate::off_ends::OffEnds;
use crate::pairs::{Crossing, push_row};
use crate::shared::is_overlap;
use convex_cell::Cells;
use grid_plane::{GridPoint, NoMemory, Seg};
use std::alloc::Global;

/// Puts last what a segment gives with the next of its part: nothing where they do not overlap.
pub(crate) fn push_with_next(
    alloc: Global,
    off: &OffEnds<'_>,
    cells: &mut Cells,
    segment: &Seg,
    next: &Seg,
) -> Result<(), NoMemory>
    ensures { OnOk result (cells.new ≡ cells.old ++ (if overlap segment.now next.now then terms.off_places off.now segment.now next.now else [])) }
{
    if is_overlap(segment, next) {
        return off.push_cells(alloc, cells, segment, next);
    }
    Ok(())
}

// Puts last what a segment gives with those that come after it in its part.
fn push_with_own(
    alloc: Global,
    off: &OffEnds<'_>,
    cells: &mut Cells,
    segment: &Seg,
    rest: &[Seg],
) -> Result<(), NoMemory>
    ensures { OnOk result (cells.new ≡ cells.old ++ terms.crossings_of off.now segment.now rest.now []) }
{
    match rest {
        [] => Ok(()),
        [next, others @ ..] => {
            push_with_next(alloc, off, cells, segment, next)?;
            push_row(alloc, off, cells, segment, others)
        }
    }
}

// Puts last what a segment gives with those that come after it in its part, and with those of later parts.
fn push_crossings(
    alloc: Global,
    off: &OffEnds<'_>,
    cells: &mut Cells,
    segment: &Seg,
    rest: &[Seg],
    later: &[Seg],
) -> Result<(), NoMemory>
    ensures { OnOk result (cells.new ≡ cells.old ++ terms.crossings_of off.now segment.now rest.now later.now) }
{
    push_with_own(alloc, off, cells, segment, rest)?;
    push_row(alloc, off, cells, segment, later)
}

// Puts last what the segments of a part give with later ones.
fn push_part(
    alloc: Global,
    off: &OffEnds<'_>,
    cells: &mut Cells,
    part: &[Seg],
    later: &[Seg],
) -> Result<(), NoMemory>
    ensures { OnOk result (cells.new ≡ cells.old ++ terms.in_part off.now part.now later.now) }
{
    for i in 0..part.len() {
        push_crossings(alloc, off, cells, &part[i], &part[i + 1..], later)?;
    }
    Ok(())
}

// Part by part, what the segments give with later ones.
pub(crate) fn later_crossings(
    alloc: Global,
    off: &OffEnds<'_>,
    parts: &[Vec<GridPoint>],
    segments: &[Seg],
) -> Result<Cells, NoMemory>
    requires { segments.now ≡ flat_map path (rings_in parts.now) }
    ensures { IfOk result (λ cells. cells ≡ terms.later_crossings off.now (rings_in parts.now)) }
{
    let mut cells = Cells::new(alloc);
    let mut rest = segments;
    for part in parts {
        let (own, later) = rest.split_at(part.len().saturating_sub(1));
        push_part(alloc, off, &mut cells, own, later)?;
        rest = later;
    }
    Ok(cells)
}
