ghost use Rattle.std.specs.Prelude.{◌≡◌, ◌≤◌, length, MatchResult};
ghost use Rattle.plane_terms.specs.Shape as terms;
ghost use Rattle.wkt_terms.specs.Shapes.{IsShapeText};
ghost use Rattle.wkt_terms.specs.WktFaults.{IsWktFault};

use crate::parts::shape_of;
use crate::spelling::read_geometry;
use shape::Shape;
use std::alloc::Global;
use wkt_terms::WktFault;

fn read_shape(alloc: Global, text: &[u8]) -> Result<Shape, WktFault>
    requires { length text.now ≤ 1048576 }
    ensures { MatchResult result (λ s. IsShapeText text.now s) (λ e. IsWktFault text.now e) }
{
    let geometry = read_geometry(alloc, text)?;
    shape_of(alloc, geometry)
}

/// The shape that a text of at most 1,048,576 bytes writes, or the first fault.
///
/// The grammar is taken from the well-known text of OGC 06-103r4; docs/well-known-text.md says how much of it.
pub fn read_wkt(alloc: Global, text: &[u8]) -> Result<Shape, WktFault>
    requires { length text.now ≤ 1048576 }
    ensures found { MatchResult result (λ s. IsShapeText text.now s) (λ e. IsWktFault text.now e) }
    ensures only { (s : terms.Shape) → IsShapeText text.now s → MatchResult result (λ t. t ≡ s) (λ e. e ≡ WktFault.NoMemory) }
{
    read_shape(alloc, text)
}
