ghost use Rattle.std.specs.Prelude.{◌≡◌, ◌++◌, OnOk};
ghost use Rattle.plane_terms.specs.Shape.{IsShape};
ghost use Rattle.wkt_terms.specs.Shapes.{shape_text, IsShapeText};

use crate::lists::push_line;
use crate::place::push_point;
use crate::rings::push_polygon;
use grid_plane::NoMemory;
use shape::{Kind, Shape};

fn push_shape(out: &mut Vec<u8>, shape: &Shape) -> Result<(), NoMemory>
    ensures { OnOk result (out.new.items ≡ out.old.items ++ shape_text shape.now) × IsShape shape.now }
{
    match shape.kind() {
        Kind::Point => push_point(out, &shape.place()),
        Kind::Line => push_line(out, shape.lines()),
        Kind::Polygon => push_polygon(out, shape.polygons()),
    }
}

/// Appends the one written form of a shape. Reading it gives the shape again.
#[tactic(auto, using(crate::proofs::Again::again))]
pub fn write_wkt(shape: &Shape, out: &mut Vec<u8>) -> Result<(), NoMemory>
    ensures appended { OnOk result (out.new.items ≡ out.old.items ++ shape_text shape.now) }
    ensures again { IsShapeText (shape_text shape.now) shape.now }
{
    push_shape(out, shape)
}
