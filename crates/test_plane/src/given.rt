// Places and rectangles by their numbers.
ghost use Rattle.std.specs.Prelude.{◌≡◌, IfOk};
ghost use Rattle.plane_terms.specs.Rectangle.{rect_of};

use grid_plane::{GridPoint, Rect};
use std::test::Fail;

/// The place of these numbers, in grid units.
pub(crate) fn place(x: i64, y: i64) -> Result<GridPoint, Fail>
    ensures { IfOk result (λ p. (p.x ≡ x) × (p.y ≡ y)) }
{
    Ok(GridPoint::at(x, y).ok_or("beyond the reach")?)
}

/// The rectangle of these sides, in grid units.
pub(crate) fn rect(x0: i64, y0: i64, x1: i64, y1: i64) -> Result<Rect, Fail>
    ensures { IfOk result (λ r. r ≡ rect_of x0 y0 x1 y1) }
{
    let Ok(rect) = Rect::of(x0, y0, x1, y1) else {
        return Err("no rectangle".into());
    };
    Ok(rect)
}
