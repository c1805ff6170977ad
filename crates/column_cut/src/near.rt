ghost use Rattle.std.specs.Prelude.{◌≡◌, ◌||◌, IfOk, int_le};
ghost use Rattle.std.specs.List.{filter};
ghost use Rattle.column_cut.specs.Strips.{reaches};

use crate::coordinate::Coordinate;
use grid_plane::{NoMemory, Seg};
use std::alloc::Global;

fn begins_by(segment: &Seg, right: &Coordinate) -> bool
    ensures { result ≡ (int_le segment.now.lo.x right.now || int_le segment.now.hi.x right.now) }
{
    segment.lo().x() <= right.value() || segment.hi().x() <= right.value()
}

fn ends_from(segment: &Seg, left: &Coordinate) -> bool
    ensures { result ≡ (int_le left.now segment.now.lo.x || int_le left.now segment.now.hi.x) }
{
    left.value() <= segment.lo().x() || left.value() <= segment.hi().x()
}

fn reaches(segment: &Seg, left: &Coordinate, right: &Coordinate) -> bool
    ensures { result ≡ reaches left.now right.now segment.now }
{
    begins_by(segment, right) && ends_from(segment, left)
}

/// The segments that reach what lies from left to right, both walls included, as they stand.
pub(crate) fn near_of(
    alloc: Global,
    segments: &[Seg],
    left: &Coordinate,
    right: &Coordinate,
) -> Result<Vec<Seg>, NoMemory>
    ensures { IfOk result (λ v. v.items ≡ filter (reaches left.now right.now) segments.now) }
{
    let mut near = Vec::new(alloc);
    for segment in segments {
        if reaches(segment, left, right) {
            near.push(*segment)?;
        }
    }
    Ok(near)
}
