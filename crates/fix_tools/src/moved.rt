ghost use Rattle.std.specs.Prelude.{◌≡◌, map, IfOk, IfErr};
ghost use Rattle.plane_terms.specs.Point.{same_place};
ghost use Rattle.plane_terms.specs.ShapeFaults.{IsFault, IsFlawless};
ghost use Rattle.shape.specs.Given.{rings_in, polygons_in};
ghost use Rattle.fix_terms.specs.Move.{moved_place, moved_rings, moved_parts, moved_shape};

use grid_plane::{GridPoint, NoMemory};
use plane_terms::{Kind, ShapeFault};
use shape::Shape;
use std::alloc::Global;

/// Whether the vertex is at the place.
pub(crate) fn is_at(vertex: GridPoint, place: GridPoint) -> bool
    ensures { result ≡ same_place vertex place }
{
    vertex.x() == place.x() && vertex.y() == place.y()
}

fn place_moved(vertex: GridPoint, from: GridPoint, to: GridPoint) -> GridPoint
    ensures { result ≡ moved_place from to vertex }
{
    if is_at(vertex, from) { to } else { vertex }
}

fn ring_moved(
    alloc: Global,
    ring: &[GridPoint],
    from: GridPoint,
    to: GridPoint,
) -> Result<Vec<GridPoint>, NoMemory>
    ensures { IfOk result (λ moved. moved.items ≡ map (moved_place from to) ring.now) }
{
    let mut moved = Vec::with_capacity(alloc, ring.len())?;
    for vertex in ring {
        moved.push(place_moved(*vertex, from, to))?;
    }
    Ok(moved)
}

fn rings_moved(
    alloc: Global,
    rings: &[Vec<GridPoint>],
    from: GridPoint,
    to: GridPoint,
) -> Result<Vec<Vec<GridPoint>>, NoMemory>
    ensures { IfOk result (λ moved. rings_in moved.items ≡ moved_rings from to (rings_in rings.now)) }
{
    let mut moved = Vec::with_capacity(alloc, rings.len())?;
    for ring in rings {
        moved.push(ring_moved(alloc, ring, from, to)?)?;
    }
    Ok(moved)
}

fn parts_moved(
    alloc: Global,
    parts: &[Vec<Vec<GridPoint>>],
    from: GridPoint,
    to: GridPoint,
) -> Result<Vec<Vec<Vec<GridPoint>>>, NoMemory>
    ensures { IfOk result (λ moved. polygons_in moved.items ≡ moved_parts from to (polygons_in parts.now)) }
{
    let mut moved = Vec::with_capacity(alloc, parts.len())?;
    for part in parts {
        moved.push(rings_moved(alloc, part, from, to)?)?;
    }
    Ok(moved)
}

/// The shape with each vertex at one place moved to another, made anew. Refused by the first fault that applies to it.
pub(crate) fn shape_moved(
    alloc: Global,
    shape: &Shape,
    from: GridPoint,
    to: GridPoint,
) -> Result<Shape, ShapeFault>
    ensures made { IfOk result (λ s. s ≡ moved_shape from to shape.now) }
    ensures flawless { IfOk result (λ _. IsFlawless (moved_shape from to shape.now)) }
    ensures refused { IfErr result (λ fault. IsFault (moved_shape from to shape.now) fault) }
{
    match shape.kind() {
        Kind::Point => Ok(Shape::point(place_moved(shape.place(), from, to))),
        Kind::Line => Shape::line(alloc, rings_moved(alloc, shape.lines(), from, to)?),
        Kind::Polygon => Shape::polygon(alloc, parts_moved(alloc, shape.polygons(), from, to)?),
    }
}
