ghost use Rattle.std.specs.Prelude.{◌≡◌};
ghost use Rattle.plane_terms.specs.Shape.{ends_of};
ghost use Rattle.topology_terms.specs.Tests as terms;

use grid_plane::GridPoint;
use shape::Shape;

/// Whether the place is an end of the line.
pub fn has_end_at(line: &Shape, place: GridPoint) -> bool
    ensures { result ≡ terms.has_end_at (ends_of line.now) place }
{
    for i in 0..line.end_count() {
        if place == line.end(i) {
            return true;
        }
    }
    false
}
