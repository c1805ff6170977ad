ghost use Rattle.std.specs.Prelude.{◌≡◌, ◌++◌, IfOk, OnOk};
ghost use Rattle.std.specs.Bool.{OnTrue};
ghost use Rattle.plane_terms.specs.Segment.{IsSegment, SharePoint};
ghost use Rattle.plane_terms.specs.Segment as segment;
ghost use Rattle.topology_terms.specs.Cells as terms;

use crate::places::is_on;
use convex_cell::{Cell, Cells};
use grid_plane::{GridPoint, NoMemory, Seg, Share};
use std::alloc::Global;

/// The law of a segment: its lower end comes before its upper one.
pub(crate) fn segment_law(segment: &Seg)
    ensures { IsSegment segment.now }
{
    segment.lo();
}

/// Whether the place is on both segments.
pub(crate) fn is_on_both(first: &Seg, second: &Seg, place: GridPoint) -> bool
    ensures { result ≡ terms.on_both first.now second.now place }
{
    is_on(first, place) && is_on(second, place)
}

/// Whether two segments have more than one point in common.
pub(crate) fn is_overlap(first: &Seg, second: &Seg) -> bool
    ensures value { result ≡ segment.overlap first.now second.now }
    ensures shared { OnTrue result (SharePoint first.now second.now) }
{
    segment_law(first);
    segment_law(second);
    match first.shares(second) {
        Share::Nothing => false,
        Share::Along => true,
        Share::Cross => false,
        Share::Touch => false,
    }
}

/// Puts last the one cell of what two segments have in common, where they share a point.
pub(crate) fn push_common(
    alloc: Global,
    cells: &mut Cells,
    first: &Seg,
    second: &Seg,
) -> Result<(), NoMemory>
    requires { SharePoint first.now second.now }
    ensures { OnOk result (cells.new ≡ cells.old ++ terms.in_common first.now second.now) }
{
    segment_law(first);
    segment_law(second);
    let cell = Cell::on_seg(alloc, first)?.meet(alloc, &Cell::on_seg(alloc, second)?)?;
    cells.push(cell)
}

/// Puts last what two segments have in common, where they overlap.
pub(crate) fn push_along(
    alloc: Global,
    cells: &mut Cells,
    first: &Seg,
    second: &Seg,
) -> Result<(), NoMemory>
    ensures { OnOk result (cells.new ≡ cells.old ++ terms.along first.now second.now) }
{
    if is_overlap(first, second) {
        return push_common(alloc, cells, first, second);
    }
    Ok(())
}

/// What two segments have in common, but for these places. Stops where nothing is left.
pub(crate) fn off_places(
    alloc: Global,
    places: &[GridPoint],
    first: &Seg,
    second: &Seg,
) -> Result<Cells, NoMemory>
    requires { SharePoint first.now second.now }
    ensures { IfOk result (λ cells. cells ≡ terms.off_places places.now first.now second.now) }
{
    let mut left = Cells::new(alloc);
    push_common(alloc, &mut left, first, second)?;
    for place in places {
        if left.len() == 0 {
            return Ok(left);
        }
        if is_on_both(first, second, *place) {
            left = left.carve(alloc, &Cells::out_of_point(alloc, *place)?)?;
        }
    }
    Ok(left)
}
