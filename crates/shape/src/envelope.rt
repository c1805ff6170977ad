ghost use Rattle.std.specs.Prelude.{◌≡◌, ◌≢◌, [], ◌∷◌};
ghost use Rattle.plane_terms.specs.Lists.{Every};
ghost use Rattle.plane_terms.specs.Point.{IsInReach};
ghost use Rattle.plane_terms.specs.Shape.{box_from, vertices_of, envelope_of};
ghost use Rattle.shape.specs.Given.{rings_in, polygons_in, all_rings, all_vertices};
ghost use Rattle.shape.specs.Counts.{IsFull};
ghost use Rattle.shape.specs.Form.{line_shape, polygon_shape};

use grid_plane::{GridPoint, Rect};

/// The least rectangle that holds these places too.
fn widen(env: Rect, places: &[GridPoint]) -> Rect
    ensures value { result ≡ box_from env places.now }
    ensures reach { Every IsInReach places.now }
{
    let mut wide = env;
    for place in places {
        wide = wide.join(&Rect::round(*place));
    }
    wide
}

fn widen_by_rings(env: Rect, rings: &[Vec<GridPoint>]) -> Rect
    ensures value { result ≡ box_from env (all_vertices (rings_in rings.now)) }
    ensures reach { Every IsInReach (all_vertices (rings_in rings.now)) }
{
    let mut wide = env;
    for ring in rings {
        wide = widen(wide, ring);
    }
    wide
}

fn widen_by_parts(env: Rect, parts: &[Vec<Vec<GridPoint>>]) -> Rect
    ensures value { result ≡ box_from env (all_vertices (all_rings (polygons_in parts.now))) }
    ensures reach { Every IsInReach (all_vertices (all_rings (polygons_in parts.now))) }
{
    let mut wide = env;
    for part in parts {
        wide = widen_by_rings(wide, part);
    }
    wide
}

pub(crate) fn box_of_line(parts: &[Vec<GridPoint>]) -> Rect
    requires { IsFull (line_shape parts.now) }
    ensures value { result ≡ envelope_of (line_shape parts.now) }
    ensures reach { Every IsInReach (vertices_of (line_shape parts.now)) }
{
    widen_by_rings(Rect::round(parts[0][0]), parts)
}

pub(crate) fn box_of_polygon(parts: &[Vec<Vec<GridPoint>>]) -> Rect
    requires { IsFull (polygon_shape parts.now) }
    ensures value { result ≡ envelope_of (polygon_shape parts.now) }
    ensures reach { Every IsInReach (vertices_of (polygon_shape parts.now)) }
{
    widen_by_parts(Rect::round(parts[0][0][0]), parts)
}
