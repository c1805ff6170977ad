ghost use Rattle.std.specs.Prelude.{◌≡◌, IfOk};

use crate::line::Line;
use crate::polygon::Polygon;
use grid_plane::{GridPoint, NoMemory};
use std::alloc::Global;

/// What a shape keeps, by its kind. A line or a polygon stands in a box, so that a point takes little room among others.
#[derive(Drop)]
pub(crate) enum Form {
    Point(GridPoint),
    Line(Box<Line>),
    Polygon(Box<Polygon>),
}

/// The value, in a box.
pub(crate) fn boxed<T: Drop>(alloc: Global, value: T) -> Result<Box<T>, NoMemory>
    ensures { IfOk result (λ b. b.value ≡ value) }
{
    Ok(Box::new(alloc, value)?)
}
