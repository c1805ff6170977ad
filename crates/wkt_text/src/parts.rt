ghost use Rattle.std.specs.Prelude.{◌≡◌, [], ◌∷◌, MatchResult};
ghost use Rattle.shape.specs.Given.{rings_in as lists_of};
ghost use Rattle.plane_terms.specs.Shape.{shape_of, IsShape};
ghost use Rattle.plane_terms.specs.declared.kind.Kind.TheVariants as kind;
ghost use Rattle.shape.specs.Given.{lines_in, polygons_in, IsCountable};
ghost use Rattle.wkt_terms.specs.Shapes.{parts_in, shape_in, AreClosed};
ghost use Rattle.wkt_text.specs.States.{geometry_of};
ghost use Rattle.wkt_text.specs.Faults.{closed_rings, polygon_by, IsShapeFault, IsPolygonFault, IsWholeFault};

use crate::closing::first_open;
use crate::fault::shape_fault;
use crate::geometry::Geometry;
use grid_plane::GridPoint;
use shape::Shape;
use std::alloc::Global;
use wkt_terms::WktFault;

fn line_of(alloc: Global, parts: Vec<Vec<GridPoint>>) -> Result<Shape, WktFault>
    requires { IsCountable (lines_in parts.items) }
    ensures { MatchResult result
        (λ s. (s ≡ shape_of kind.Line (lines_in parts.items)) × IsShape s)
        (λ e. IsShapeFault (shape_of kind.Line (lines_in parts.items)) e) }
{
    match Shape::line(alloc, parts) {
        Ok(shape) => Ok(shape),
        Err(fault) => Err(shape_fault(fault)),
    }
}

// The polygon of these parts; it drops the last position of each ring, which is its first again.
fn closed_polygon(alloc: Global, parts: Vec<Vec<Vec<GridPoint>>>) -> Result<Shape, WktFault>
    requires { IsCountable (polygons_in parts.items) }
    ensures { MatchResult result
        (λ s. (s ≡ shape_of kind.Polygon (polygons_in parts.items)) × IsShape s)
        (λ e. IsShapeFault (shape_of kind.Polygon (polygons_in parts.items)) e) }
{
    match Shape::polygon(alloc, parts) {
        Ok(shape) => Ok(shape),
        Err(fault) => Err(shape_fault(fault)),
    }
}

fn polygon_of(alloc: Global, parts: Vec<Vec<Vec<GridPoint>>>) -> Result<Shape, WktFault>
    requires { IsCountable (polygons_in parts.items) }
    ensures { MatchResult result
        (λ s. closed_rings (polygons_in parts.items) × (s ≡ polygon_by (polygons_in parts.items)) × IsShape s)
        (λ e. IsPolygonFault (polygons_in parts.items) e) }
{
    if let Some(ring) = first_open(&parts) {
        return Err(WktFault::NotClosed { ring });
    }
    closed_polygon(alloc, parts)
}

// One part alone.
fn one_line(alloc: Global, places: Vec<GridPoint>) -> Result<Vec<Vec<GridPoint>>, WktFault>
    ensures { MatchResult result (λ parts. parts.items ≡ places ∷ []) (λ e. e ≡ WktFault.NoMemory) }
{
    let Ok(mut parts) = Vec::with_capacity(alloc, 1) else {
        return Err(WktFault::NoMemory);
    };
    match parts.push(places) {
        Ok(()) => Ok(parts),
        Err(_) => Err(WktFault::NoMemory),
    }
}

fn one_polygon(
    alloc: Global,
    rings: Vec<Vec<GridPoint>>,
) -> Result<Vec<Vec<Vec<GridPoint>>>, WktFault>
    ensures { MatchResult result (λ parts. parts.items ≡ rings ∷ []) (λ e. e ≡ WktFault.NoMemory) }
{
    let Ok(mut parts) = Vec::with_capacity(alloc, 1) else {
        return Err(WktFault::NoMemory);
    };
    match parts.push(rings) {
        Ok(()) => Ok(parts),
        Err(_) => Err(WktFault::NoMemory),
    }
}

fn line_of_one(alloc: Global, places: Vec<GridPoint>) -> Result<Shape, WktFault>
    requires { IsCountable ((places.items ∷ []) ∷ []) }
    ensures { MatchResult result
        (λ s. (s ≡ shape_of kind.Line ((places.items ∷ []) ∷ [])) × IsShape s)
        (λ e. IsShapeFault (shape_of kind.Line ((places.items ∷ []) ∷ [])) e) }
{
    match one_line(alloc, places) {
        Ok(parts) => line_of(alloc, parts),
        Err(fault) => Err(fault),
    }
}

fn polygon_of_one(alloc: Global, rings: Vec<Vec<GridPoint>>) -> Result<Shape, WktFault>
    requires { IsCountable (lists_of rings.items ∷ []) }
    ensures { MatchResult result
        (λ s. closed_rings (lists_of rings.items ∷ []) × (s ≡ polygon_by (lists_of rings.items ∷ [])) × IsShape s)
        (λ e. IsPolygonFault (lists_of rings.items ∷ []) e) }
{
    match one_polygon(alloc, rings) {
        Ok(parts) => polygon_of(alloc, parts),
        Err(fault) => Err(fault),
    }
}

/// The shape of what a text spells.
pub fn shape_of(alloc: Global, geometry: Geometry) -> Result<Shape, WktFault>
    requires { IsCountable (parts_in (geometry_of geometry)) }
    ensures { MatchResult result
        (λ s. AreClosed (geometry_of geometry) × (s ≡ shape_in (geometry_of geometry)) × IsShape s)
        (λ e. IsWholeFault (geometry_of geometry) e) }
{
    match geometry {
        Geometry::Point(place) => Ok(Shape::point(place)),
        Geometry::Line(places) => line_of_one(alloc, places),
        Geometry::Lines(lists) => line_of(alloc, lists),
        Geometry::Polygon(rings) => polygon_of_one(alloc, rings),
        Geometry::Polygons(parts) => polygon_of(alloc, parts),
    }
}
