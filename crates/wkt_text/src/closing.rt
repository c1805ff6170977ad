ghost use Rattle.std.specs.Prelude.{◌≡◌, ◌<◌, ◌+◌, ◌^◌, length, flat_map};
ghost use Rattle.plane_terms.specs.Point.{same_place};
ghost use Rattle.wkt_terms.specs.Shapes.{is_closed};
ghost use Rattle.shape.specs.Given.{rings_in as lists_of, polygons_in as parts_of};
ghost use Rattle.shape.specs.Given.{all_rings};
ghost use Rattle.wkt_text.specs.Open.{first_open};

use grid_plane::GridPoint;

fn is_same(p: &GridPoint, q: &GridPoint) -> bool
    ensures { result ≡ same_place p.now q.now }
{
    p.x() == q.x() && p.y() == q.y()
}

// Whether a ring ends where it begins.
fn is_closed(ring: &[GridPoint]) -> bool
    ensures { result ≡ is_closed ring.now }
{
    match ring {
        [] => true,
        [first, ..] => is_same(first, &ring[ring.len() - 1]),
    }
}

// The number of the first ring that is not closed, where they are numbered from `from` on.
fn first_open_ring(rings: &[Vec<GridPoint>], from: u32) -> Option<u32>
    requires { from + length rings.now < 2 ^ 32 }
    ensures { result ≡ first_open from (lists_of rings.now) }
{
    let mut number = from;
    for ring in rings {
        if !is_closed(ring) {
            return Some(number);
        }
        number += 1;
    }
    None
}

/// The number of the first ring whose first and last positions differ, counted from 0 through all parts.
pub fn first_open(parts: &[Vec<Vec<GridPoint>>]) -> Option<u32>
    requires { length (all_rings (parts_of parts.now)) < 2 ^ 32 }
    ensures { result ≡ first_open 0 (all_rings (parts_of parts.now)) }
{
    let mut from = 0;
    for part in parts {
        let open = first_open_ring(part, from);
        if open.is_some() {
            return open;
        }
        from += part.len() as u32;
    }
    None
}
