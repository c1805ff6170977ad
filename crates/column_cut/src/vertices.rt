ghost use Rattle.std.specs.Prelude.{◌≡◌, ◌++◌, ◌∷◌, [], ℤ, cond, List, OnOk, IfOk};
ghost use Rattle.std.specs.Bool.{OnTrue};
ghost use Rattle.plane_terms.proofs.ListLemmas.{IsAmong};
ghost use Rattle.plane_terms.specs.Lists.{Every};
ghost use Rattle.plane_terms.specs.Point.{InReach};
ghost use Rattle.plane_terms.specs.Columns.{abscissas, ordinates};
ghost use Rattle.column_cut.specs.Vertices.{ascending, xs_of, ys_at, is_at};

use crate::coordinate::Coordinate;
use grid_plane::{GridPoint, NoMemory, Seg};
use std::alloc::Global;

/// The numbers, ascending, each once.
fn distinct(values: &mut Vec<i32>) -> Result<(), NoMemory>
    ensures { OnOk result (values.new.items ≡ ascending values.old.items) }
{
    values.sort()?;
    values.dedup();
    Ok(())
}

/// Leaves these numbers in the list, and nothing else.
fn coordinates(found: &mut Vec<Coordinate>, values: &[i32]) -> Result<(), NoMemory>
    requires { Every InReach values.now }
    ensures { OnOk result (found.new.items ≡ values.now) }
{
    found.clear();
    for value in values {
        found.push(Coordinate::of(*value))?;
    }
    Ok(())
}

fn ascending(found: &mut Vec<Coordinate>, values: &mut Vec<i32>) -> Result<(), NoMemory>
    requires { Every InReach values.old.items }
    ensures { OnOk result (found.new.items ≡ ascending values.old.items) }
{
    distinct(values)?;
    coordinates(found, values)
}

fn is_same(a: i32, b: i32) -> bool
    ensures { OnTrue result (a ≡ b) }
{
    a == b
}

/// Whether this is the last number, or so many before it.
fn is_last(values: &[i32], before: usize, value: i32) -> bool
    requires { Every InReach values.now }
    ensures { OnTrue result (IsAmong value values.now) }
{
    if values.len() <= before {
        return false;
    }
    is_same(values[values.len() - 1 - before], value)
}

/// Puts the number at the end where it is none of the last two, as one is at the vertex that two segments share.
fn push_new(values: &mut Vec<i32>, value: i32) -> Result<(), NoMemory>
    requires known { Every InReach values.old.items }
    requires new { InReach value }
    ensures value { (rest : List ℤ) → OnOk result (ascending (values.new.items ++ rest) ≡ ascending (values.old.items ++ value ∷ rest)) }
    ensures reach { OnOk result (Every InReach values.new.items) }
{
    if is_last(values, 0, value) {
        return Ok(());
    }
    if is_last(values, 1, value) {
        return Ok(());
    }
    values.push(value)?;
    Ok(())
}

fn all_abscissas(alloc: Global, segments: &[Seg]) -> Result<Vec<i32>, NoMemory>
    ensures value { IfOk result (λ v. ascending v.items ≡ ascending (xs_of segments.now)) }
    ensures reach { IfOk result (λ v. Every InReach v.items) }
{
    let mut values = Vec::with_capacity(alloc, segments.len().saturating_add(1))?;
    for segment in segments {
        push_new(&mut values, segment.lo().x())?;
        push_new(&mut values, segment.hi().x())?;
    }
    Ok(values)
}

/// The abscissas of the vertices, ascending, each once.
pub(crate) fn abscissas_of(alloc: Global, segments: &[Seg]) -> Result<Vec<Coordinate>, NoMemory>
    ensures { IfOk result (λ v. v.items ≡ abscissas segments.now) }
{
    let mut values = all_abscissas(alloc, segments)?;
    let mut found = Vec::with_capacity(alloc, values.len())?;
    ascending(&mut found, &mut values)?;
    Ok(found)
}

fn is_here(place: &GridPoint, x: &Coordinate) -> bool
    ensures { result ≡ is_at place.now.x x.now }
{
    place.x() == x.value()
}

fn push_at(values: &mut Vec<i32>, place: &GridPoint, x: &Coordinate) -> Result<(), NoMemory>
    requires { Every InReach values.old.items }
    ensures value { (rest : List ℤ) → OnOk result (ascending (values.new.items ++ rest) ≡ ascending (values.old.items ++ cond (is_at place.now.x x.now) (place.now.y ∷ rest) rest)) }
    ensures reach { OnOk result (Every InReach values.new.items) }
{
    if is_here(place, x) {
        return push_new(values, place.y());
    }
    Ok(())
}

fn all_ordinates(values: &mut Vec<i32>, segments: &[Seg], x: &Coordinate) -> Result<(), NoMemory>
    ensures value { OnOk result (ascending values.new.items ≡ ascending (ys_at x.now segments.now)) }
    ensures reach { OnOk result (Every InReach values.new.items) }
{
    values.clear();
    for segment in segments {
        push_at(values, &segment.hi(), x)?;
        push_at(values, &segment.lo(), x)?;
    }
    Ok(())
}

/// Leaves the ordinates of the vertices on the wall in the list, ascending, each once. The other list is for the work alone.
pub(crate) fn find_ordinates(
    found: &mut Vec<Coordinate>,
    values: &mut Vec<i32>,
    segments: &[Seg],
    x: &Coordinate,
) -> Result<(), NoMemory>
    ensures { OnOk result (found.new.items ≡ ordinates x.now segments.now) }
{
    all_ordinates(values, segments, x)?;
    ascending(found, values)
}
