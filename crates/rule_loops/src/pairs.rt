ghost use Rattle.std.specs.Prelude.{◌≡◌, ◌≤◌, ◌++◌, false, [], List, drop, length, flat_map, IfOk, OnOk};
ghost use Rattle.plane_terms.specs.Cell as planes;
ghost use Rattle.plane_terms.specs.Segment.{Segment, IsSegment};
ghost use Rattle.plane_terms.specs.Shape.{segments_of};
ghost use Rattle.topology_terms.specs.Cells as terms;
ghost use Rattle.rule_loops.specs.Ahead.{AreAhead, IsOff};
ghost use Rattle.rule_loops.specs.Blocks.{left_from};

use crate::ahead::{ahead_of, near_end};
use crate::blocks::{Blocks, first_of};
use crate::shared::segment_law;
use convex_cell::Cells;
use grid_plane::{NoMemory, Rect, Seg};
use shape::Shape;
use std::alloc::Global;

/// What two segments give, as one rule takes it: nothing where their boxes do not meet.
pub trait Crossing {
    ghost crossing: { Self → Segment → Segment → List planes.Cell };

    /// Puts the cells that the two segments give last.
    fn push_cells(
        &self,
        alloc: Global,
        cells: &mut Cells,
        first: &Seg,
        second: &Seg,
    ) -> Result<(), NoMemory>
        ensures { OnOk result (cells.new ≡ cells.old ++ crossing self.now first.now second.now) };

    ghost apart: { (x : Self) (s t : Segment) → IsSegment s → IsSegment t → terms.box_meets s t ≡ false → crossing x s t ≡ [] };
}

// Puts last what a segment gives with each of these. Those whose box does not meet its own are passed over.
pub(crate) fn push_row<C: Crossing>(
    alloc: Global,
    crossing: &C,
    cells: &mut Cells,
    segment: &Seg,
    others: &[Seg],
) -> Result<(), NoMemory>
    ensures { OnOk result (cells.new ≡ cells.old ++ flat_map (C.crossing crossing.now segment.now) others.now) }
{
    let own = segment.env();
    for other in others {
        if own.meets(&other.env()) {
            crossing.push_cells(alloc, cells, segment, other)?;
        }
    }
    Ok(())
}

// Puts last what a segment gives with those from this block on, of which none from the number `end` on comes near.
// Blocks that do not come near are passed over.
fn push_blocks<C: Crossing>(
    alloc: Global,
    crossing: &C,
    cells: &mut Cells,
    segment: &Seg,
    blocks: &Blocks<'_>,
    first: usize,
    end: usize,
) -> Result<(), NoMemory>
    requires { IsOff segment.now (drop end blocks.now) }
    ensures { OnOk result (cells.new ≡ cells.old ++ flat_map (C.crossing crossing.now segment.now) (left_from first blocks.now)) }
{
    let own = segment.env();
    for k in first..blocks.count_before(end) {
        if own.meets(&blocks.frame(k)) {
            push_row(alloc, crossing, cells, segment, blocks.block(k))?;
        }
    }
    Ok(())
}

// Puts last what a segment gives with each of these.
fn push_with_all<C: Crossing>(
    alloc: Global,
    crossing: &C,
    cells: &mut Cells,
    segment: &Seg,
    blocks: &Blocks<'_>,
) -> Result<(), NoMemory>
    ensures { OnOk result (cells.new ≡ cells.old ++ flat_map (C.crossing crossing.now segment.now) blocks.now) }
{
    push_blocks(alloc, crossing, cells, segment, blocks, 0, blocks.len())
}

// Puts last what a segment gives with those from this number on: those of the block begun, and block by block.
// Looks no further than what is ahead comes near.
pub(crate) fn push_later<C: Crossing>(
    alloc: Global,
    crossing: &C,
    cells: &mut Cells,
    segment: &Seg,
    blocks: &Blocks<'_>,
    ahead: &[Rect],
    from: usize,
) -> Result<(), NoMemory>
    requires round { AreAhead ahead.now blocks.now }
    requires within { from ≤ length blocks.now }
    ensures { OnOk result (cells.new ≡ cells.old ++ flat_map (C.crossing crossing.now segment.now) (drop from blocks.now)) }
{
    segment_law(segment);
    let end = near_end(segment, blocks.segments(), ahead, from);
    let (rest, next) = blocks.rest_from(from);
    push_row(alloc, crossing, cells, segment, first_of(rest, end - from))?;
    push_blocks(alloc, crossing, cells, segment, blocks, next, end)
}

// Puts last what each of these segments gives with each of the others.
fn push_rows<C: Crossing>(
    alloc: Global,
    crossing: &C,
    cells: &mut Cells,
    segments: &[Seg],
    others: &Blocks<'_>,
) -> Result<(), NoMemory>
    ensures { OnOk result (cells.new ≡ cells.old ++ terms.each_pair (C.crossing crossing.now) segments.now others.now) }
{
    for segment in segments {
        push_with_all(alloc, crossing, cells, segment, others)?;
    }
    Ok(())
}

/// What each segment of a shape gives with each of another. Blocks that do not come near the other are passed over.
pub fn each_pair<C: Crossing>(
    alloc: Global,
    crossing: &C,
    shape: &Shape,
    other: &Shape,
) -> Result<Cells, NoMemory>
    ensures { IfOk result (λ cells. cells ≡ terms.each_pair (C.crossing crossing.now) (segments_of shape.now) (segments_of other.now)) }
{
    let mut cells = Cells::new(alloc);
    let blocks = Blocks::of(shape);
    let others = Blocks::of(other);
    let whole = others.whole();
    for k in 0..blocks.count() {
        if blocks.frame(k).meets(&whole) {
            push_rows(alloc, crossing, &mut cells, blocks.block(k), &others)?;
        }
    }
    Ok(cells)
}

/// What each segment of a shape gives with each later one of it.
pub fn each_later<C: Crossing>(
    alloc: Global,
    crossing: &C,
    shape: &Shape,
) -> Result<Cells, NoMemory>
    ensures { IfOk result (λ cells. cells ≡ terms.each_later (C.crossing crossing.now) (segments_of shape.now)) }
{
    let mut cells = Cells::new(alloc);
    let blocks = Blocks::of(shape);
    let segments = blocks.segments();
    let ahead = ahead_of(alloc, segments)?;
    for i in 0..segments.len() {
        push_later(
            alloc,
            crossing,
            &mut cells,
            &segments[i],
            &blocks,
            &ahead,
            i + 1,
        )?;
    }
    Ok(cells)
}
