ghost use Rattle.std.specs.Prelude.{◌≡◌, ◌<◌, ◌≤◌, ◌*◌, ◌%◌, ◌++◌, length, IfOk, IfErr, OnOk};
ghost use Rattle.plane_terms.specs.Lists.{Every};
ghost use Rattle.plane_terms.specs.Shape.{ends_of, IsShape};
ghost use Rattle.plane_terms.specs.ShapeFaults.{IsFault, IsFlawless};
ghost use Rattle.plane_terms.specs.declared.kind.Kind.TheVariants as kind;
ghost use Rattle.shape.specs.Given.{rings_in};
ghost use Rattle.fix_terms.specs.Snap.{with_first, with_last, with_end, snapped_shape};

use grid_plane::{GridPoint, NoMemory};
use plane_terms::ShapeFault;
use shape::Shape;
use std::alloc::Global;

fn with_first(alloc: Global, part: &[GridPoint], to: GridPoint) -> Result<Vec<GridPoint>, NoMemory>
    requires { 1 ≤ length part.now }
    ensures { IfOk result (λ made. made.items ≡ with_first to part.now) }
{
    let mut made = Vec::with_capacity(alloc, part.len())?;
    made.push(to)?;
    made.extend_from_slice(&part[1..])?;
    Ok(made)
}

fn with_last(alloc: Global, part: &[GridPoint], to: GridPoint) -> Result<Vec<GridPoint>, NoMemory>
    requires { 1 ≤ length part.now }
    ensures { IfOk result (λ made. made.items ≡ with_last to part.now) }
{
    let mut made = Vec::with_capacity(alloc, part.len())?;
    made.extend_from_slice(&part[..part.len() - 1])?;
    made.push(to)?;
    Ok(made)
}

// Puts copies of these parts last.
fn push_copies(
    alloc: Global,
    made: &mut Vec<Vec<GridPoint>>,
    parts: &[Vec<GridPoint>],
) -> Result<(), NoMemory>
    ensures { OnOk result (rings_in made.new.items ≡ rings_in made.old.items ++ rings_in parts.now) }
{
    for part in parts {
        made.push(Vec::from_slice(alloc, part)?)?;
    }
    Ok(())
}

// The part with the first or the last of its vertices at the place, by an even or an odd number.
fn part_with_end(
    alloc: Global,
    part: &[GridPoint],
    end: usize,
    to: GridPoint,
) -> Result<Vec<GridPoint>, NoMemory>
    requires { 1 ≤ length part.now }
    ensures even { end % 2 ≡ 0 → IfOk result (λ made. made.items ≡ with_first to part.now) }
    ensures odd { end % 2 ≡ 1 → IfOk result (λ made. made.items ≡ with_last to part.now) }
{
    if end % 2 == 0 {
        with_first(alloc, part, to)
    } else {
        with_last(alloc, part, to)
    }
}

fn parts_with_end(
    alloc: Global,
    parts: &[Vec<GridPoint>],
    end: usize,
    to: GridPoint,
) -> Result<Vec<Vec<GridPoint>>, NoMemory>
    requires long { Every (λ part. 1 ≤ length part) (rings_in parts.now) }
    requires within { end < 2 * length parts.now }
    ensures { IfOk result (λ made. rings_in made.items ≡ with_end end to (rings_in parts.now)) }
{
    let at = end / 2;
    let mut made = Vec::with_capacity(alloc, parts.len())?;
    push_copies(alloc, &mut made, &parts[..at])?;
    made.push(part_with_end(alloc, &parts[at], end, to)?)?;
    push_copies(alloc, &mut made, &parts[at + 1..])?;
    Ok(made)
}

/// The line with its end of this number at the place, made anew. Refused by the first fault that applies to it.
pub(crate) fn shape_with_end(
    alloc: Global,
    line: &Shape,
    end: usize,
    to: GridPoint,
) -> Result<Shape, ShapeFault>
    requires line { line.now.kind ≡ kind.Line }
    requires within { end < length (ends_of line.now) }
    ensures given { IsShape line.now }
    ensures made { IfOk result (λ s. s ≡ snapped_shape end to line.now) }
    ensures valid { IfOk result (λ _. IsShape (snapped_shape end to line.now)) }
    ensures flawless { IfOk result (λ _. IsFlawless (snapped_shape end to line.now)) }
    ensures refused { IfErr result (λ fault. IsFault (snapped_shape end to line.now) fault) }
{
    line.kind();
    Shape::line(alloc, parts_with_end(alloc, line.lines(), end, to)?)
}
