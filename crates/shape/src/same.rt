ghost use Rattle.std.specs.Prelude.{◌≡◌, ◌↔◌, length, IsTrue, IfOk};
ghost use Rattle.shape.specs.Given.{rings_in, polygons_in};

use grid_plane::{GridPoint, NoMemory};
use std::alloc::Global;

/// The number of vertices that are compared before a difference ends the comparison.
const BLOCK: usize = 64;

// Compares all vertices, with no early end, so that several are compared at once.
fn is_same_block(block: &[GridPoint], other: &[GridPoint]) -> bool
    requires { length block.now ≡ length other.now }
    ensures { IsTrue result ↔ (block.now ≡ other.now) }
{
    let mut is_same = true;
    for i in 0..block.len() {
        let (vertex, at_other) = (block[i], other[i]);
        is_same &= (vertex.x() == at_other.x()) & (vertex.y() == at_other.y());
    }
    is_same
}

fn are_same_vertices(ring: &[GridPoint], other: &[GridPoint]) -> bool
    ensures { IsTrue result ↔ (ring.now ≡ other.now) }
{
    if ring.len() != other.len() {
        return false;
    }
    let mut start = 0;
    while start < ring.len() {
        let end = start + BLOCK.min(ring.len() - start);
        if !is_same_block(&ring[start..end], &other[start..end]) {
            return false;
        }
        start = end;
    }
    true
}

pub(crate) fn are_same_rings(rings: &[Vec<GridPoint>], others: &[Vec<GridPoint>]) -> bool
    ensures { IsTrue result ↔ (rings_in rings.now ≡ rings_in others.now) }
{
    if rings.len() != others.len() {
        return false;
    }
    for i in 0..rings.len() {
        if !are_same_vertices(&rings[i], &others[i]) {
            return false;
        }
    }
    true
}

/// Whether the parts of two polygons are equal: the same vertices in the same rings.
pub fn are_same_parts(parts: &[Vec<Vec<GridPoint>>], others: &[Vec<Vec<GridPoint>>]) -> bool
    ensures { IsTrue result ↔ (polygons_in parts.now ≡ polygons_in others.now) }
{
    if parts.len() != others.len() {
        return false;
    }
    for i in 0..parts.len() {
        if !are_same_rings(&parts[i], &others[i]) {
            return false;
        }
    }
    true
}

pub(crate) fn copy_of_rings(
    alloc: Global,
    rings: &[Vec<GridPoint>],
) -> Result<Vec<Vec<GridPoint>>, NoMemory>
    ensures { IfOk result (λ v. rings_in v.items ≡ rings_in rings.now) }
{
    let mut copy = Vec::with_capacity(alloc, rings.len())?;
    for ring in rings {
        copy.push(Vec::from_slice(alloc, ring)?)?;
    }
    Ok(copy)
}

/// The parts of a polygon, once more.
pub fn copy_of_parts(
    alloc: Global,
    parts: &[Vec<Vec<GridPoint>>],
) -> Result<Vec<Vec<Vec<GridPoint>>>, NoMemory>
    ensures { IfOk result (λ v. polygons_in v.items ≡ polygons_in parts.now) }
{
    let mut copy = Vec::with_capacity(alloc, parts.len())?;
    for part in parts {
        copy.push(copy_of_rings(alloc, part)?)?;
    }
    Ok(copy)
}
