ghost use Rattle.std.specs.Prelude.{◌≡◌, ◌<◌, ◌+◌, ◌^◌, length, OnOk, IfErr};
ghost use Rattle.shape.specs.Given.{rings_in, lines_in, polygons_in, all_rings, all_vertices, IsCountable};
ghost use Rattle.shape.specs.Counts.{first_short, has_bare_part, IsFull};
ghost use Rattle.plane_terms.specs.ShapeFaults.{IsFault};
ghost use Rattle.shape.specs.Form.{line_shape, polygon_shape};

use grid_plane::GridPoint;
use plane_terms::ShapeFault;

/// The most vertices that a shape may have.
const MOST: u32 = 2000;

/// The number of the first ring with fewer vertices than `least`, where they are numbered from `from` on.
fn first_short(rings: &[Vec<GridPoint>], least: usize, from: u32) -> Option<u32>
    requires { from + length rings.now < 2 ^ 32 }
    ensures { result ≡ first_short least from (rings_in rings.now) }
{
    let mut number = from;
    for ring in rings {
        if ring.len() < least {
            return Some(number);
        }
        number += 1;
    }
    None
}

fn first_short_ring(parts: &[Vec<Vec<GridPoint>>]) -> Option<u32>
    requires { length (all_rings (polygons_in parts.now)) < 2 ^ 32 }
    ensures { result ≡ first_short 3 0 (all_rings (polygons_in parts.now)) }
{
    let mut from = 0;
    for part in parts {
        let short = first_short(part, 3, from);
        if short.is_some() {
            return short;
        }
        from += part.len() as u32;
    }
    None
}

/// Whether some part has no ring.
fn has_bare_part(parts: &[Vec<Vec<GridPoint>>]) -> bool
    ensures { result ≡ has_bare_part (polygons_in parts.now) }
{
    for part in parts {
        if part.is_empty() {
            return true;
        }
    }
    false
}

/// How many vertices there are after so many.
pub(crate) fn count_vertices(rings: &[Vec<GridPoint>], before: u32) -> u32
    requires { before + length (all_vertices (rings_in rings.now)) < 2 ^ 32 }
    ensures { result ≡ before + length (all_vertices (rings_in rings.now)) }
{
    let mut count = before;
    for ring in rings {
        count += ring.len() as u32;
    }
    count
}

/// How many vertices the rings have.
pub(crate) fn count_in_parts(parts: &[Vec<Vec<GridPoint>>]) -> u32
    requires { length (all_vertices (all_rings (polygons_in parts.now))) < 2 ^ 32 }
    ensures { result ≡ length (all_vertices (all_rings (polygons_in parts.now))) }
{
    let mut count = 0;
    for part in parts {
        count = count_vertices(part, count);
    }
    count
}

/// The faults of a line.
pub(crate) fn check_line(parts: &[Vec<GridPoint>]) -> Result<(), ShapeFault>
    requires { IsCountable (lines_in parts.now) }
    ensures full { OnOk result (IsFull (line_shape parts.now)) }
    ensures refused { IfErr result (λ fault. IsFault (line_shape parts.now) fault) }
{
    if parts.is_empty() {
        return Err(ShapeFault::TooFew { part: 0 });
    }
    if let Some(part) = first_short(parts, 2, 0) {
        return Err(ShapeFault::TooFew { part });
    }
    let count = count_vertices(parts, 0);
    if count > MOST {
        return Err(ShapeFault::TooMany { count });
    }
    Ok(())
}

/// The faults of a polygon but those of its segments.
pub(crate) fn check_polygon(parts: &[Vec<Vec<GridPoint>>]) -> Result<(), ShapeFault>
    requires { IsCountable (polygons_in parts.now) }
    ensures full { OnOk result (IsFull (polygon_shape parts.now)) }
    ensures refused { IfErr result (λ fault. IsFault (polygon_shape parts.now) fault) }
{
    if parts.is_empty() {
        return Err(ShapeFault::TooFew { part: 0 });
    }
    if has_bare_part(parts) {
        return Err(ShapeFault::TooFew { part: 0 });
    }
    if let Some(part) = first_short_ring(parts) {
        return Err(ShapeFault::TooFew { part });
    }
    let count = count_in_parts(parts);
    if count > MOST {
        return Err(ShapeFault::TooMany { count });
    }
    Ok(())
}
