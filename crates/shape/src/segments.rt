ghost use Rattle.std.specs.Prelude.{◌≡◌, ◌++◌, ◌∷◌, [], flat_map, IfOk, OnOk};
ghost use Rattle.plane_terms.specs.Lists.{Every};
ghost use Rattle.plane_terms.specs.Segment.{segment_between, IsSegment};
ghost use Rattle.plane_terms.specs.Shape.{AreUnlike, NextDiffer, path, closed_path};
ghost use Rattle.shape.specs.Given.{rings_in, polygons_in, all_rings};
ghost use Rattle.shape.specs.Kept.{IsClosing};

use grid_plane::{GridPoint, NoMemory, Seg};
use std::alloc::Global;

/// No segment, with room for so many.
pub(crate) fn room_for(alloc: Global, count: usize) -> Result<Vec<Seg>, NoMemory>
    ensures { IfOk result (λ segs. segs.items ≡ []) }
{
    Ok(Vec::with_capacity(alloc, count)?)
}

fn push_segment(segs: &mut Vec<Seg>, from: GridPoint, to: GridPoint) -> Result<(), NoMemory>
    requires { AreUnlike from to }
    ensures { OnOk result (segs.new.items ≡ segs.old.items ++ segment_between from to ∷ []) }
{
    if let Some(seg) = Seg::of(from, to) {
        segs.push(seg)?;
    }
    Ok(())
}

fn push_path(segs: &mut Vec<Seg>, first: GridPoint, rest: &[GridPoint]) -> Result<(), NoMemory>
    requires { NextDiffer (first ∷ rest.now) }
    ensures { OnOk result (segs.new.items ≡ segs.old.items ++ path (first ∷ rest.now)) }
{
    let mut from = first;
    for to in rest {
        push_segment(segs, from, *to)?;
        from = *to;
    }
    Ok(())
}

fn push_ring(segs: &mut Vec<Seg>, first: GridPoint, rest: &[GridPoint]) -> Result<(), NoMemory>
    requires { NextDiffer (first ∷ rest.now ++ first ∷ []) }
    ensures { OnOk result (segs.new.items ≡ segs.old.items ++ closed_path (first ∷ rest.now)) }
{
    let mut from = first;
    for to in rest {
        push_segment(segs, from, *to)?;
        from = *to;
    }
    push_segment(segs, from, first)
}

/// The segments of the parts of a line come last.
pub(crate) fn push_paths(segs: &mut Vec<Seg>, parts: &[Vec<GridPoint>]) -> Result<(), NoMemory>
    requires { Every NextDiffer (rings_in parts.now) }
    ensures { OnOk result (segs.new.items ≡ segs.old.items ++ flat_map path (rings_in parts.now)) }
{
    for part in parts {
        if let [first, rest @ ..] = part.as_slice() {
            push_path(segs, *first, rest)?;
        }
    }
    Ok(())
}

fn push_rings(segs: &mut Vec<Seg>, rings: &[Vec<GridPoint>]) -> Result<(), NoMemory>
    requires { Every IsClosing (rings_in rings.now) }
    ensures { OnOk result (segs.new.items ≡ segs.old.items ++ flat_map closed_path (rings_in rings.now)) }
{
    for ring in rings {
        if let [first, rest @ ..] = ring.as_slice() {
            push_ring(segs, *first, rest)?;
        }
    }
    Ok(())
}

/// The segments of the parts of a polygon come last.
pub(crate) fn push_polygons(
    segs: &mut Vec<Seg>,
    parts: &[Vec<Vec<GridPoint>>],
) -> Result<(), NoMemory>
    requires { Every (Every IsClosing) (polygons_in parts.now) }
    ensures { OnOk result (segs.new.items ≡ segs.old.items ++ flat_map closed_path (all_rings (polygons_in parts.now))) }
{
    for part in parts {
        push_rings(segs, part)?;
    }
    Ok(())
}

/// The law of the segments of a list: the lower end of each comes before its upper end.
pub(crate) fn segments_law(segs: &[Seg])
    ensures { Every IsSegment segs.now }
{
    for seg in segs {
        seg.lo();
    }
}
