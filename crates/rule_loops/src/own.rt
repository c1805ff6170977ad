ghost use Rattle.std.specs.Prelude.{◌≡◌, ◌++◌, [], flat_map, IfOk, OnOk};
ghost use Rattle.plane_terms.specs.Shape.{path, closed_path, rings_of};
ghost use Rattle.plane_terms.specs.declared.kind.Kind.TheVariants as kind;
ghost use Rattle.shape.specs.Given.{rings_in, polygons_in, all_rings};
ghost use Rattle.topology_terms.specs.Cells as terms;
ghost use Rattle.topology_terms.specs.Plans as plans;

use crate::ahead::FEWEST;
use crate::blocks::Blocks;
use crate::crossings::later_crossings;
use crate::off_ends::{OffEnds, Spared};
use crate::own_line::crossings_by_block;
use convex_cell::Cells;
use grid_plane::{GridPoint, NoMemory, Seg};
use plane_terms::Kind;
use shape::{Feature, Shape};
use std::alloc::Global;

// A point has no segments.
fn point_crossings(alloc: Global, off: &OffEnds<'_>, point: &Shape) -> Result<Cells, NoMemory>
    requires { point.now.kind ≡ kind.Point }
    ensures { IfOk result (λ cells. cells ≡ terms.later_crossings off.now (rings_of point.now)) }
{
    point.place();
    Ok(Cells::new(alloc))
}

fn line_crossings(alloc: Global, off: &OffEnds<'_>, line: &Shape) -> Result<Cells, NoMemory>
    requires { line.now.kind ≡ kind.Line }
    ensures { IfOk result (λ cells. cells ≡ terms.later_crossings off.now (rings_of line.now)) }
{
    if line.seg_count() < FEWEST {
        return later_crossings(alloc, off, line.lines(), line.segs());
    }
    crossings_by_block(alloc, off, line.lines(), &Blocks::of(line))
}

fn push_rings(
    alloc: Global,
    rings: &mut Vec<Vec<GridPoint>>,
    more: &[Vec<GridPoint>],
) -> Result<(), NoMemory>
    ensures { OnOk result (rings_in rings.new.items ≡ rings_in rings.old.items ++ rings_in more.now) }
{
    for ring in more {
        rings.push(Vec::from_slice(alloc, ring)?)?;
    }
    Ok(())
}

// The rings of a polygon, part by part.
fn rings_of_parts(
    alloc: Global,
    parts: &[Vec<Vec<GridPoint>>],
) -> Result<Vec<Vec<GridPoint>>, NoMemory>
    ensures { IfOk result (λ rings. rings_in rings.items ≡ all_rings (polygons_in parts.now)) }
{
    let mut rings = Vec::new(alloc);
    for part in parts {
        push_rings(alloc, &mut rings, part)?;
    }
    Ok(rings)
}

fn push_segments(segments: &mut Vec<Seg>, more: &[Seg]) -> Result<(), NoMemory>
    ensures { OnOk result (segments.new.items ≡ segments.old.items ++ more.now) }
{
    for segment in more {
        segments.push(*segment)?;
    }
    Ok(())
}

// Of the segments of closed rings all but those that go back to the first vertex of a ring.
fn open_paths(
    alloc: Global,
    rings: &[Vec<GridPoint>],
    segments: &[Seg],
) -> Result<Vec<Seg>, NoMemory>
    requires { segments.now ≡ flat_map closed_path (rings_in rings.now) }
    ensures { IfOk result (λ opened. opened.items ≡ flat_map path (rings_in rings.now)) }
{
    let mut opened = Vec::new(alloc);
    let mut rest = segments;
    for ring in rings {
        let (own, later) = rest.split_at(ring.len());
        let (path, _) = own.split_at(ring.len().saturating_sub(1));
        push_segments(&mut opened, path)?;
        rest = later;
    }
    Ok(opened)
}

// Of the rings of a polygon as if each were a part of a line, from its first vertex to its last.
fn polygon_crossings(alloc: Global, off: &OffEnds<'_>, polygon: &Shape) -> Result<Cells, NoMemory>
    requires { polygon.now.kind ≡ kind.Polygon }
    ensures { IfOk result (λ cells. cells ≡ terms.later_crossings off.now (rings_of polygon.now)) }
{
    let rings = rings_of_parts(alloc, polygon.polygons())?;
    let segments = open_paths(alloc, &rings, polygon.segs())?;
    later_crossings(alloc, off, &rings, &segments)
}

fn shape_crossings(alloc: Global, off: &OffEnds<'_>, shape: &Shape) -> Result<Cells, NoMemory>
    ensures { IfOk result (λ cells. cells ≡ terms.later_crossings off.now (rings_of shape.now)) }
{
    match shape.kind() {
        Kind::Point => point_crossings(alloc, off, shape),
        Kind::Line => line_crossings(alloc, off, shape),
        Kind::Polygon => polygon_crossings(alloc, off, shape),
    }
}

/// Where segments of a line meet, but for its ends; neighbours of a part count where they overlap.
pub fn own_crossings(alloc: Global, subject: &Feature) -> Result<Cells, NoMemory>
    ensures { IfOk result (λ cells. cells ≡ plans.own_crossings subject.now []) }
{
    let shape = subject.shape();
    let off = OffEnds {
        first: shape,
        second: shape,
        spared: Spared::OfFirst,
    };
    shape_crossings(alloc, &off, shape)
}
