ghost use Rattle.std.specs.Prelude.{◌≡◌, ◌≤◌, ◌++◌, drop, length, flat_map, IfOk, OnOk};
ghost use Rattle.plane_terms.specs.Shape.{path};
ghost use Rattle.shape.specs.Given.{rings_in};
ghost use Rattle.topology_terms.specs.Cells as terms;
ghost use Rattle.rule_loops.specs.Ahead.{AreAhead};
ghost use Rattle.rule_loops.specs.Blocks.{between};

use crate::ahead::ahead_of;
use crate::blocks::Blocks;
use crate::crossings::push_with_next;
use crate::off_ends::OffEnds;
use crate::pairs::push_later;
use convex_cell::Cells;
use grid_plane::{GridPoint, NoMemory, Rect, Seg};
use std::alloc::Global;

// Puts last what a segment gives with those of the line from this number on; its part ends before the number `end`.
fn push_crossings(
    alloc: Global,
    off: &OffEnds<'_>,
    cells: &mut Cells,
    segment: &Seg,
    line: &Blocks<'_>,
    ahead: &[Rect],
    from: usize,
    end: usize,
) -> Result<(), NoMemory>
    requires round { AreAhead ahead.now line.now }
    requires begun { from ≤ end }
    requires ended { end ≤ length line.now }
    ensures { OnOk result (cells.new ≡ cells.old ++ terms.crossings_of off.now segment.now (between from end line.now) (drop end line.now)) }
{
    if from == end {
        return push_later(alloc, off, cells, segment, line, ahead, from);
    }
    push_with_next(alloc, off, cells, segment, &line.segments()[from])?;
    push_later(alloc, off, cells, segment, line, ahead, from + 1)
}

// Puts last what the segments of a part, from the number `from` to before `end`, give with later ones.
fn push_part(
    alloc: Global,
    off: &OffEnds<'_>,
    cells: &mut Cells,
    line: &Blocks<'_>,
    ahead: &[Rect],
    from: usize,
    end: usize,
) -> Result<(), NoMemory>
    requires round { AreAhead ahead.now line.now }
    requires begun { from ≤ end }
    requires ended { end ≤ length line.now }
    ensures { OnOk result (cells.new ≡ cells.old ++ terms.in_part off.now (between from end line.now) (drop end line.now)) }
{
    let segments = line.segments();
    for i in from..end {
        push_crossings(alloc, off, cells, &segments[i], line, ahead, i + 1, end)?;
    }
    Ok(())
}

/// Part by part, what the segments of a line give with later ones. Blocks that do not come near are passed over.
pub(crate) fn crossings_by_block(
    alloc: Global,
    off: &OffEnds<'_>,
    parts: &[Vec<GridPoint>],
    line: &Blocks<'_>,
) -> Result<Cells, NoMemory>
    requires { line.now ≡ flat_map path (rings_in parts.now) }
    ensures { IfOk result (λ cells. cells ≡ terms.later_crossings off.now (rings_in parts.now)) }
{
    let mut cells = Cells::new(alloc);
    let ahead = ahead_of(alloc, line.segments())?;
    let mut from = 0;
    // No sum below is past the number of segments, which is a `usize`.
    line.len();
    for part in parts {
        let end = from + part.len().saturating_sub(1);
        push_part(alloc, off, &mut cells, line, &ahead, from, end)?;
        from = end;
    }
    Ok(cells)
}
