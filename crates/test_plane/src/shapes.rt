// Shapes by the numbers of their places: what is refused, and for which of their parts and segments.
ghost use Rattle.std.specs.Prelude.{◌≡◌, ◌∷◌, [], IfOk};
ghost use Rattle.shape.specs.Given.{polygons_in};

use crate::given::place;
use grid_plane::{GridPoint, NoMemory};
use shape::{Feature, Kind, Shape, ShapeFault};
use std::alloc::Global;
use std::test::Fail;

fn one_ring(alloc: Global, ring: Vec<GridPoint>) -> Result<Vec<Vec<Vec<GridPoint>>>, NoMemory>
    ensures { IfOk result (λ v. polygons_in v.items ≡ (ring.items ∷ []) ∷ []) }
{
    let mut rings = Vec::new(alloc);
    rings.push(ring)?;
    let mut parts = Vec::new(alloc);
    parts.push(rings)?;
    Ok(parts)
}

fn polygon(alloc: Global, ring: Vec<GridPoint>) -> Result<Shape, ShapeFault> {
    if ring.len() > 9 {
        return Err(ShapeFault::NoMemory);
    }
    let parts = one_ring(alloc, ring)?;
    Shape::polygon(alloc, parts)
}

fn made_of(alloc: Global, vertices: &[(i64, i64)]) -> Result<Result<Shape, ShapeFault>, Fail> {
    let mut ring = Vec::new(alloc);
    for (x, y) in vertices {
        ring.push(place(*x, *y)?)?;
    }
    Ok(polygon(alloc, ring))
}

#[test]
fn the_first_fault_is_named(rt: HostRuntime) -> Result<(), Fail> {
    let alloc = rt.alloc();
    let bow = made_of(alloc, &[(0, 0), (10, 10), (10, 0), (0, 10)])?.err();
    assert_eq!(rt; bow, Some(ShapeFault::Cross { i: 0, j: 2 }));
    let spike = made_of(alloc, &[(0, 0), (10, 0), (5, 0), (5, 5)])?.err();
    assert_eq!(rt; spike, Some(ShapeFault::Along { i: 0, j: 1 }));
    let two = made_of(alloc, &[(0, 0), (1, 1), (0, 0)])?.err();
    assert_eq!(rt; two, Some(ShapeFault::TooFew { part: 0 }));
    let touching = [(0, 0), (4, 0), (2, 2), (4, 4), (0, 4), (2, 2)];
    assert!(rt; made_of(alloc, &touching)?.is_ok());
    Ok(())
}

#[test]
fn a_feature_is_copied(rt: HostRuntime) -> Result<(), Fail> {
    let alloc = rt.alloc();
    let square = made_of(
        alloc,
        &[(0, 0), (10, 0), (10, 0), (10, 10), (0, 10), (0, 0)],
    )??;
    let feature = Feature::new(7, 1, square);
    let copy = feature.try_copy(alloc)?;
    assert!(rt; copy.shape().same(feature.shape()));
    assert_eq!(rt; copy.shape().kind(), Kind::Polygon);
    assert_eq!(rt; copy.shape().seg_count(), 4);
    Ok(())
}
