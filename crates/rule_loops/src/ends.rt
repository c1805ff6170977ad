ghost use Rattle.std.specs.Prelude.{◌≡◌, ◌++◌, ◌&&◌, filter, IfOk, OnOk};
ghost use Rattle.std.specs.List.{list_any};
ghost use Rattle.plane_terms.specs.Shape.{ends_of};
ghost use Rattle.topology_terms.specs.Cells.{on_both};
ghost use Rattle.topology_terms.specs.Tests as tests;

use crate::shared::is_on_both;
use grid_plane::{GridPoint, NoMemory, Seg};
use rule_core::has_end_at;
use shape::Shape;
use std::alloc::Global;

// Puts the ends of a line last, in the order of its parts; of the other kinds there are none.
fn push_ends(places: &mut Vec<GridPoint>, shape: &Shape) -> Result<(), NoMemory>
    ensures { OnOk result (places.new.items ≡ places.old.items ++ ends_of shape.now) }
{
    for i in 0..shape.end_count() {
        places.push(shape.end(i))?;
    }
    Ok(())
}

/// The ends of a line.
pub(crate) fn ends_of_one(alloc: Global, line: &Shape) -> Result<Vec<GridPoint>, NoMemory>
    ensures { IfOk result (λ places. places.items ≡ ends_of line.now) }
{
    let mut places = Vec::new(alloc);
    push_ends(&mut places, line)?;
    Ok(places)
}

/// The ends of two lines.
pub(crate) fn ends_of_both(
    alloc: Global,
    first: &Shape,
    second: &Shape,
) -> Result<Vec<GridPoint>, NoMemory>
    ensures { IfOk result (λ places. places.items ≡ ends_of first.now ++ ends_of second.now) }
{
    let mut places = Vec::new(alloc);
    push_ends(&mut places, first)?;
    push_ends(&mut places, second)?;
    Ok(places)
}

/// The ends of the first that are ends of the second too.
pub(crate) fn shared_ends(
    alloc: Global,
    first: &Shape,
    second: &Shape,
) -> Result<Vec<GridPoint>, NoMemory>
    ensures { IfOk result (λ places. places.items ≡ filter (tests.has_end_at (ends_of second.now)) (ends_of first.now)) }
{
    let mut places = Vec::new(alloc);
    for i in 0..first.end_count() {
        let place = first.end(i);
        if has_end_at(second, place) {
            places.push(place)?;
        }
    }
    Ok(places)
}

/// Whether an end of the line is on both segments.
pub(crate) fn has_end_on(line: &Shape, first: &Seg, second: &Seg) -> bool
    ensures { result ≡ list_any (on_both first.now second.now) (ends_of line.now) }
{
    for i in 0..line.end_count() {
        if is_on_both(first, second, line.end(i)) {
            return true;
        }
    }
    false
}

fn is_end_on(other: &Shape, first: &Seg, second: &Seg, place: GridPoint) -> bool
    ensures { result ≡ (tests.has_end_at (ends_of other.now) place && on_both first.now second.now place) }
{
    if is_on_both(first, second, place) {
        return has_end_at(other, place);
    }
    false
}

/// Whether a place that is an end of both lines is on both segments.
pub(crate) fn has_shared_end_on(line: &Shape, other: &Shape, first: &Seg, second: &Seg) -> bool
    ensures { result ≡ list_any (on_both first.now second.now) (filter (tests.has_end_at (ends_of other.now)) (ends_of line.now)) }
{
    for i in 0..line.end_count() {
        if is_end_on(other, first, second, line.end(i)) {
            return true;
        }
    }
    false
}
