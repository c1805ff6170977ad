ghost use Rattle.std.specs.Prelude.{◌≡◌, IfOk};
ghost use Rattle.topology_terms.specs.Cells.{uncovered, out_of_segments};
ghost use Rattle.topology_terms.specs.Plans as plans;
ghost use Rattle.topology_terms.specs.Together.{of_side};
ghost use Rattle.rule_loops.specs.Views.{left_of_segment};

use crate::alongside::{is_beside, is_covered_at_once};
use crate::blocks::Blocks;
use convex_cell::{Cell, Cells};
use grid_plane::{NoMemory, Seg};
use rule_core::{Side, View};
use shape::Feature;
use std::alloc::Global;

// What these segments leave of the cells of a segment. Stops where nothing is left.
fn off_segments(
    alloc: Global,
    cells: Cells,
    segment: &Seg,
    others: &[Seg],
) -> Result<Cells, NoMemory>
    ensures { IfOk result (λ left. left ≡ uncovered cells (out_of_segments segment.now others.now)) }
{
    let mut left = cells;
    for other in others {
        if left.len() == 0 {
            return Ok(left);
        }
        if segment.env().meets(&other.env()) {
            left = left.carve(alloc, &Cells::out_of_seg(alloc, other)?)?;
        }
    }
    Ok(left)
}

// What a shape leaves of the cells of a segment. Blocks that do not come near are passed over.
fn off_shape(
    alloc: Global,
    cells: Cells,
    segment: &Seg,
    blocks: &Blocks<'_>,
) -> Result<Cells, NoMemory>
    ensures { IfOk result (λ left. left ≡ uncovered cells (out_of_segments segment.now blocks.now)) }
{
    let mut left = cells;
    let own = segment.env();
    for k in 0..blocks.count() {
        if own.meets(&blocks.frame(k)) {
            left = off_segments(alloc, left, segment, blocks.block(k))?;
        }
    }
    Ok(left)
}

// The cell of a segment, carved by the features of the side that are shown. Stops where nothing is left.
fn carved_segment(
    alloc: Global,
    side: Side,
    segment: &Seg,
    view: &View<'_>,
) -> Result<Cells, NoMemory>
    ensures { IfOk result (λ left. left ≡ left_of_segment (of_side side view.now) segment.now) }
{
    let mut left = Cells::new(alloc);
    left.push(Cell::on_seg(alloc, segment)?)?;
    for i in 0..view.len() {
        if left.len() == 0 {
            return Ok(left);
        }
        let other = view.feature(i);
        if is_beside(side, segment, other) {
            left = off_shape(alloc, left, segment, &Blocks::of(other.shape()))?;
        }
    }
    Ok(left)
}

// What the features of the side that are shown leave of a segment.
fn segment_left(
    alloc: Global,
    side: Side,
    segment: &Seg,
    view: &View<'_>,
) -> Result<Cells, NoMemory>
    ensures { IfOk result (λ left. left ≡ left_of_segment (of_side side view.now) segment.now) }
{
    if is_covered_at_once(side, segment, view) {
        return Ok(Cells::new(alloc));
    }
    carved_segment(alloc, side, segment, view)
}

/// What the features of the side that are shown leave of the subject's segments.
pub fn sides_left(
    alloc: Global,
    side: Side,
    subject: &Feature,
    view: &View<'_>,
) -> Result<Cells, NoMemory>
    ensures { IfOk result (λ cells. cells ≡ plans.sides_left subject.now (of_side side view.now)) }
{
    let mut cells = Cells::new(alloc);
    for segment in subject.shape().segs() {
        cells.append(segment_left(alloc, side, segment, view)?)?;
    }
    Ok(cells)
}
