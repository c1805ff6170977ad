ghost use Rattle.std.specs.Prelude.{◌≡◌, map};
ghost use Rattle.plane_terms.specs.Shape.{without_repeats, opened, ring_by};
ghost use Rattle.plane_terms.specs.declared.kind.Kind.TheVariants as kind;
ghost use Rattle.shape.specs.Given.{rings_in, lines_in, polygons_in};
ghost use Rattle.shape.specs.Kept.{parts_by, rings_by};

use grid_plane::GridPoint;

/// Of equal neighbours one is kept.
fn keep(vertices: &mut Vec<GridPoint>)
    ensures { vertices.new.items ≡ without_repeats vertices.old.items }
{
    vertices.dedup();
}

/// Last vertices that are equal to the first are dropped.
fn open(ring: &mut Vec<GridPoint>)
    ensures { ring.new.items ≡ opened ring.old.items }
{
    while ring.len() > 1 && ring[ring.len() - 1] == ring[0] {
        ring.pop();
    }
}

/// The vertices of a ring that are kept.
fn close(ring: &mut Vec<GridPoint>)
    ensures { ring.new.items ≡ opened (without_repeats ring.old.items) }
{
    keep(ring);
    open(ring);
}

fn keep_parts(parts: &mut [Vec<GridPoint>])
    ensures { rings_in parts.new ≡ rings_by kind.Line (rings_in parts.old) }
{
    for part in parts.iter_mut() {
        keep(part);
    }
}

fn close_rings(rings: &mut [Vec<GridPoint>])
    ensures { rings_in rings.new ≡ rings_by kind.Polygon (rings_in rings.old) }
{
    for ring in rings.iter_mut() {
        close(ring);
    }
}

fn close_parts(parts: &mut [Vec<Vec<GridPoint>>])
    ensures { polygons_in parts.new ≡ parts_by kind.Polygon (polygons_in parts.old) }
{
    for part in parts.iter_mut() {
        close_rings(part);
    }
}

/// The vertices of a line that are kept.
pub(crate) fn kept_parts(parts: Vec<Vec<GridPoint>>) -> Vec<Vec<GridPoint>>
    ensures { rings_in result.items ≡ rings_by kind.Line (rings_in parts.items) }
{
    let mut kept = parts;
    keep_parts(&mut kept);
    kept
}

/// The vertices of a polygon that are kept.
pub(crate) fn closed_parts(parts: Vec<Vec<Vec<GridPoint>>>) -> Vec<Vec<Vec<GridPoint>>>
    ensures { polygons_in result.items ≡ parts_by kind.Polygon (polygons_in parts.items) }
{
    let mut closed = parts;
    close_parts(&mut closed);
    closed
}
