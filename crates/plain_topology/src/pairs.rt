ghost use Rattle.std.specs.Prelude.{◌≡◌, ◌↔◌, ℕ, ◌++◌, map, OnOk, IfOk, Contains};
ghost use Rattle.plane_terms.specs.Point.{Point, IsAt};
ghost use Rattle.topology_terms.specs.Feature.{IsAscending};
ghost use Rattle.topology_terms.specs.Broken.{BrokenAt};
ghost use Rattle.plain_topology.specs.Plain.{features_of, row_of, Breaks, AreRising, AreAscending};

use crate::points::point_of;
use crate::{PlainPoint, is_broken_at};
use grid_plane::GridPoint;
use std::alloc::{AllocError, Global};

// The handles with which the point `a` breaks the rule at this place.
fn partners_at(
    alloc: Global,
    points: &[PlainPoint],
    class: u16,
    a: u32,
    place: GridPoint,
) -> Result<Vec<u32>, AllocError>
    ensures exact { IfOk result (λ v. (p : Point) → IsAt place p → (b : ℕ) →
        Contains v.items b ↔ BrokenAt (row_of class) (features_of points.now) a b p) }
    ensures ordered { IfOk result (λ v. IsAscending (features_of points.now) → AreRising v.items) }
{
    let mut partners = Vec::new(alloc);
    for b in points {
        if is_broken_at(points, class, a, b.handle, place) {
            partners.push(b.handle)?;
        }
    }
    Ok(partners)
}

/// The handles with which the point `a` breaks Must Be Disjoint for the class, somewhere in the plane; they ascend where
/// those of the points do.
pub fn partners_of(
    alloc: Global,
    points: &[PlainPoint],
    class: u16,
    a: u32,
) -> Result<Vec<u32>, AllocError>
    ensures exact { IfOk result (λ v. (b : ℕ) →
        Contains v.items b ↔ Breaks (row_of class) (features_of points.now) a b) }
    ensures ordered { IfOk result (λ v. IsAscending (features_of points.now) → AreRising v.items) }
{
    match point_of(points, a) {
        Some(subject) => partners_at(alloc, points, class, a, subject.place),
        None => Ok(Vec::new(alloc)),
    }
}

// The pairs of `a` with each of these.
fn push_pairs(pairs: &mut Vec<(u32, u32)>, a: u32, partners: &[u32]) -> Result<(), AllocError>
    ensures { OnOk result (pairs.new.items ≡ pairs.old.items ++ map (λ b. (a, b)) partners.now) }
{
    for b in partners {
        pairs.push((a, *b))?;
    }
    Ok(())
}

/// The pairs of handles of which the first breaks Must Be Disjoint for the class with the second, somewhere in the plane;
/// they ascend by both where the handles of the points do.
pub fn broken_pairs(
    alloc: Global,
    points: &[PlainPoint],
    class: u16,
) -> Result<Vec<(u32, u32)>, AllocError>
    ensures exact { IfOk result (λ v. (a b : ℕ) →
        Contains v.items (a, b) ↔ Breaks (row_of class) (features_of points.now) a b) }
    ensures ordered { IfOk result (λ v. IsAscending (features_of points.now) → AreAscending v.items) }
{
    let mut pairs = Vec::new(alloc);
    for a in points {
        let partners = partners_of(alloc, points, class, a.handle)?;
        push_pairs(&mut pairs, a.handle, &partners)?;
    }
    Ok(pairs)
}
