// Cells inside and outside of polygons that were counted by hand.
use crate::given::place;
use column_cut::{inside, outside};
use grid_plane::Seg;
use plain_shapes::is_inside;
use std::alloc::Global;
use std::test::Fail;

// The segments from each vertex to the next, and from the last to the first.
fn ring(alloc: Global, vertices: &[(i64, i64)]) -> Result<Vec<Seg>, Fail> {
    let mut segments = Vec::new(alloc);
    let nexts = vertices.iter().skip(1).chain(vertices.iter().take(1));
    for ((x, y), (u, v)) in vertices.iter().zip(nexts) {
        let segment = Seg::of(place(*x, *y)?, place(*u, *v)?).ok_or("one place")?;
        segments.push(segment)?;
    }
    Ok(segments)
}

// One cell inside, which is the whole column; outside two sides, two slots in the column and two stretches on each wall.
#[test]
fn a_square(rt: HostRuntime) -> Result<(), Fail> {
    let alloc = rt.alloc();
    let segments = ring(alloc, &[(0, 0), (10, 0), (10, 10), (0, 10)])?;
    assert_eq!(rt; inside(alloc, &segments)?.len(), 1);
    assert_eq!(rt; outside(alloc, &segments)?.len(), 8);
    Ok(())
}

// The polygon that docs/columns.md draws: two columns inside, and between them the stretch of the wall below its notch.
#[test]
fn a_notched_polygon(rt: HostRuntime) -> Result<(), Fail> {
    let alloc = rt.alloc();
    let segments = ring(alloc, &[(0, 0), (8, 0), (8, 6), (4, 6), (4, 2), (0, 2)])?;
    assert_eq!(rt; inside(alloc, &segments)?.len(), 3);
    assert_eq!(rt; outside(alloc, &segments)?.len(), 12);
    Ok(())
}

// By the definition as a plain program: between a square and its hole, on neither.
#[test]
fn a_square_with_a_hole(rt: HostRuntime) -> Result<(), Fail> {
    let alloc = rt.alloc();
    let mut segments = ring(alloc, &[(0, 0), (10, 0), (10, 10), (0, 10)])?;
    for segment in ring(alloc, &[(3, 3), (3, 7), (7, 7), (7, 3)])? {
        segments.push(segment)?;
    }
    for (x, y) in [(1, 5), (5, 1), (3, 1), (8, 8)] {
        assert!(rt; is_inside(&segments, place(x, y)?), "{x} {y}");
    }
    for (x, y) in [(5, 5), (11, 5), (5, -1), (0, 5), (10, 10), (3, 3), (5, 7)] {
        assert!(rt; !is_inside(&segments, place(x, y)?), "{x} {y}");
    }
    Ok(())
}

// A comb of ten teeth, whose inside and outside have no point in common.
#[test]
fn no_cell_inside_a_comb_is_outside(rt: HostRuntime) -> Result<(), Fail> {
    let alloc = rt.alloc();
    let mut vertices = vec![in alloc; (0, 0)]?;
    for tooth in 0..10u8 {
        let k = i64::from(tooth);
        let y = i64::from(tooth) * 4;
        vertices.push((100 + k, y))?;
        vertices.push((100 + k, y + 1))?;
        vertices.push((k + 1, y + 2))?;
        vertices.push((k + 1, y + 3))?;
    }
    vertices.push((0, 40))?;
    let comb = ring(alloc, &vertices)?;
    let cells = inside(alloc, &comb)?;
    assert!(rt; cells.len() > 10);
    assert_eq!(rt; cells.carve(alloc, &outside(alloc, &comb)?)?.len(), 0);
    Ok(())
}
