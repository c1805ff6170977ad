// The definitions as plain programs, on points and squares that were worked out by hand.
ghost use Rattle.std.specs.Prelude.{◌≡◌, ◌∷◌, [], IfOk};
ghost use Rattle.shape.specs.Given.{polygons_in};

use grid_plane::{GridPoint, NoMemory, Rect};
use plain_topology::{
    PlainEntry, PlainPoint, broken_pairs, headline_holds, is_overlap_at, is_overlap_with_at,
};
use shape::{Feature, Shape, ShapeFault};
use std::alloc::Global;
use std::test::Fail;

fn place(x: i64, y: i64) -> Result<GridPoint, Fail> {
    Ok(GridPoint::at(x, y).ok_or("beyond the reach")?)
}

// Points of one class at one place, with the handles from 1 on.
fn wells(alloc: Global, count: u32) -> Result<Vec<PlainPoint>, Fail> {
    let mut wells = Vec::new(alloc);
    for handle in 1..=count {
        wells.push(PlainPoint {
            handle,
            class: 1,
            place: place(3, 4)?,
        })?;
    }
    Ok(wells)
}

#[test]
fn the_headline_of_points_at_one_place(rt: HostRuntime) -> Result<(), Fail> {
    let alloc = rt.alloc();
    let here = place(3, 4)?;
    let pair = |subject, other| PlainEntry {
        subject,
        other,
        place: here,
    };
    let three = wells(alloc, 3)?;
    let all = [pair(1, 2), pair(1, 3), pair(2, 3)];
    assert!(rt; headline_holds(&three, 1, &[], &all));
    assert!(rt; headline_holds(&three, 1, &[Rect::round(here)], &[pair(1, 2)]));
    assert!(rt; !headline_holds(&three, 1, &[Rect::round(place(3, 5)?)], &[pair(1, 2)]));
    assert!(rt; !headline_holds(&three, 1, &[], &[pair(1, 3), pair(1, 2), pair(2, 3)]));
    assert!(rt; !headline_holds(&wells(alloc, 2)?, 1, &[], &[pair(1, 2), pair(1, 3)]));
    let pairs = broken_pairs(alloc, &three, 1)?;
    assert_eq!(rt; pairs.as_slice(), [(1, 2), (1, 3), (2, 3)].as_slice());
    Ok(())
}

fn one_ring(alloc: Global, ring: Vec<GridPoint>) -> Result<Vec<Vec<Vec<GridPoint>>>, NoMemory>
    ensures { IfOk result (λ v. polygons_in v.items ≡ (ring.items ∷ []) ∷ []) }
{
    let mut rings = Vec::new(alloc);
    rings.push(ring)?;
    let mut parts = Vec::new(alloc);
    parts.push(rings)?;
    Ok(parts)
}

fn polygon(alloc: Global, ring: Vec<GridPoint>) -> Result<Shape, ShapeFault> {
    if ring.len() > 4 {
        return Err(ShapeFault::NoMemory);
    }
    let parts = one_ring(alloc, ring)?;
    Shape::polygon(alloc, parts)
}

// A square of side 10, from its least corner.
pub(crate) fn square(
    alloc: Global,
    handle: u32,
    class: u16,
    x: i16,
    y: i16,
) -> Result<Feature, Fail>
    ensures { IfOk result (λ f. (f.handle ≡ handle) × (f.class ≡ class)) }
{
    let (left, low) = (i64::from(x), i64::from(y));
    let mut ring = Vec::new(alloc);
    ring.push(place(left, low)?)?;
    ring.push(place(left + 10, low)?)?;
    ring.push(place(left + 10, low + 10)?)?;
    ring.push(place(left, low + 10)?)?;
    Ok(Feature::new(handle, class, polygon(alloc, ring)?))
}

#[test]
fn squares_overlap_inside_alone(rt: HostRuntime) -> Result<(), Fail> {
    let alloc = rt.alloc();
    let mut lots = Vec::new(alloc);
    lots.push(square(alloc, 1, 1, 0, 0)?)?;
    lots.push(square(alloc, 2, 1, 5, 5)?)?;
    lots.push(square(alloc, 3, 2, 10, 0)?)?;
    assert!(rt; is_overlap_at(&lots, 1, 1, 2, place(7, 7)?));
    assert!(rt; !is_overlap_at(&lots, 1, 2, 1, place(7, 7)?));
    for (x, y) in [(10, 7), (5, 7), (7, 10), (5, 5), (3, 3), (12, 12)] {
        assert!(rt; !is_overlap_at(&lots, 1, 1, 2, place(x, y)?), "{x} {y}");
    }
    for y in [0, 5, 10] {
        assert!(rt;
            !is_overlap_with_at(&lots, 1, 2, 1, 3, place(10, y)?),
            "{y}"
        );
    }
    assert!(rt; is_overlap_with_at(&lots, 2, 1, 3, 2, place(12, 7)?));
    Ok(())
}
