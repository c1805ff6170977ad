ghost use Rattle.std.specs.Prelude.{◌≡◌, ◌++◌, ◌∷◌, [], ◌&&◌, cond, map, None, Some, OnOk, int_le};
ghost use Rattle.std.specs.List.{filter};
ghost use Rattle.plane_terms.specs.Columns.{is_covered, intervals, ordinates};
ghost use Rattle.column_cut.specs.Covering.{covers, is_upright};
ghost use Rattle.column_cut.specs.Pieces.{stretch_cell};
ghost use Rattle.column_cut.specs.Stretches.{AreStacked, stretches_of};

use crate::coordinate::Coordinate;
use crate::vertices::find_ordinates;
use grid_plane::{NoMemory, Seg};

fn is_upright_at(segment: &Seg, x: &Coordinate) -> bool
    ensures { result ≡ is_upright x.now segment.now }
{
    segment.lo().x() == x.value() && segment.hi().x() == x.value()
}

/// Leaves in the list the segments that stand on the wall.
fn find_upright(upright: &mut Vec<Seg>, segments: &[Seg], x: &Coordinate) -> Result<(), NoMemory>
    ensures { OnOk result (upright.new.items ≡ filter (is_upright x.now) segments.now) }
{
    upright.clear();
    for segment in segments {
        if is_upright_at(segment, x) {
            upright.push(*segment)?;
        }
    }
    Ok(())
}

fn covers(segment: &Seg, x: &Coordinate, low: &Coordinate, high: &Coordinate) -> bool
    ensures { result ≡ covers x.now segment.now low.now high.now }
{
    is_upright_at(segment, x) && segment.lo().y() <= low.value() && high.value() <= segment.hi().y()
}

fn is_covered(segments: &[Seg], x: &Coordinate, low: &Coordinate, high: &Coordinate) -> bool
    ensures { result ≡ is_covered x.now segments.now low.now high.now }
{
    for segment in segments {
        if covers(segment, x, low, high) {
            return true;
        }
    }
    false
}

/// An open stretch of an upright line, from one ordinate to another. The lowest has no lower end, and the highest no upper one.
#[derive(Clone, Copy)]
pub(crate) struct Stretch {
    pub(crate) low: Option<Coordinate>,
    pub(crate) high: Option<Coordinate>,
}

fn push_stretch(
    stretches: &mut Vec<Stretch>,
    low: Option<Coordinate>,
    high: Option<Coordinate>,
) -> Result<(), NoMemory>
    ensures { OnOk result (stretches.new.items ≡ stretches.old.items ++ record { low = low; high = high } ∷ []) }
{
    stretches.push(Stretch { low, high })?;
    Ok(())
}

fn push_interval(
    stretches: &mut Vec<Stretch>,
    segments: &[Seg],
    x: &Coordinate,
    low: &Coordinate,
    high: &Coordinate,
) -> Result<(), NoMemory>
    ensures { OnOk result (stretches.new.items ≡ stretches.old.items
        ++ cond (is_covered x.now segments.now low.now high.now) [] (record { low = Some low.now; high = Some high.now } ∷ [])) }
{
    if is_covered(segments, x, low, high) {
        return Ok(());
    }
    push_stretch(stretches, Some(*low), Some(*high))
}

fn find_from(
    stretches: &mut Vec<Stretch>,
    segments: &[Seg],
    x: &Coordinate,
    first: &Coordinate,
    rest: &[Coordinate],
) -> Result<(), NoMemory>
    ensures { OnOk result (stretches.new.items ≡ stretches_of (is_covered x.now segments.now) None (first.now ∷ rest.now)) }
{
    stretches.clear();
    push_stretch(stretches, None, Some(*first))?;
    let mut low = *first;
    for high in rest {
        push_interval(stretches, segments, x, &low, high)?;
        low = *high;
    }
    push_stretch(stretches, Some(low), None)
}

fn whole_wall(stretches: &mut Vec<Stretch>) -> Result<(), NoMemory>
    ensures { OnOk result (stretches.new.items ≡ record { low = None; high = None } ∷ []) }
{
    stretches.clear();
    push_stretch(stretches, None, None)
}

fn find_between(
    stretches: &mut Vec<Stretch>,
    segments: &[Seg],
    x: &Coordinate,
    ordinates: &[Coordinate],
) -> Result<(), NoMemory>
    ensures { OnOk result (stretches.new.items ≡ stretches_of (is_covered x.now segments.now) None ordinates.now) }
{
    match ordinates.split_first() {
        None => whole_wall(stretches),
        Some((first, rest)) => find_from(stretches, segments, x, first, rest),
    }
}

/// Leaves in the list the open stretches of a wall between its vertices, from below, without those that an upright segment
/// covers. The other lists are for the work alone.
pub(crate) fn find_intervals(
    stretches: &mut Vec<Stretch>,
    vertices: &mut Vec<Coordinate>,
    values: &mut Vec<i32>,
    upright: &mut Vec<Seg>,
    segments: &[Seg],
    x: &Coordinate,
) -> Result<(), NoMemory>
    ensures cells { OnOk result (map stretch_cell stretches.new.items ≡ intervals (is_covered x.now segments.now) None (ordinates x.now segments.now)) }
    ensures stacked { OnOk result (AreStacked stretches.new.items) }
{
    find_ordinates(vertices, values, segments, x)?;
    if vertices.len() <= 1 {
        return find_between(stretches, &[], x, vertices);
    }
    find_upright(upright, segments, x)?;
    find_between(stretches, upright, x, vertices)
}
