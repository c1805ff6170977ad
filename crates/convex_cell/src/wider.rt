// Bounds round others, so wide that they ascend.
ghost use Rattle.std.specs.Prelude.{IfOk};
ghost use Rattle.convex_cell.specs.Span.{Covers, Encloses, AreRound};

use crate::bounds::Bounds;
use crate::span::Span;
use grid_plane::NoMemory;
use std::alloc::Global;

/// The span, ending no sooner than the one before it.
fn ending_after(span: Span, before: Span) -> Span
    ensures { Covers result span }
{
    Span {
        from: span.from,
        to: span.to.max(before.to),
    }
}

/// The span, beginning no later than the next one.
fn beginning_before(span: Span, next: Span) -> Span
    ensures { Covers result span }
{
    Span {
        from: span.from.min(next.from),
        to: span.to,
    }
}

/// Whether both have the same ends. No answer rests on it, only how wide the bounds become.
fn have_same_ends(first: Span, second: Span) -> bool {
    first.from == second.from && first.to == second.to
}

/// The bounds, beginning along x no later than the next ones.
fn stretched_left(bounds: &Bounds, next: &Bounds) -> Bounds
    ensures { Encloses result bounds.now }
{
    Bounds {
        x: beginning_before(bounds.x, next.x),
        y: bounds.y,
    }
}

/// The bounds, ending along x no sooner than those before them, and where both then have the same ends there, no sooner along y.
fn stretched_on(bounds: &Bounds, before: &Bounds) -> Bounds
    ensures { Encloses result bounds.now }
{
    let x = ending_after(bounds.x, before.x);
    if have_same_ends(x, before.x) {
        return Bounds {
            x,
            y: ending_after(bounds.y, before.y),
        };
    }
    Bounds { x, y: bounds.y }
}

/// The bounds, beginning along y no later than the next ones, where both have the same ends along x.
fn stretched_down(bounds: &Bounds, next: &Bounds) -> Bounds
    ensures { Encloses result bounds.now }
{
    if have_same_ends(bounds.x, next.x) {
        return Bounds {
            x: bounds.x,
            y: beginning_before(bounds.y, next.y),
        };
    }
    *bounds
}

/// From the last to the first: each begins along x no later than those behind it.
fn stretch_left(wider: &mut [Bounds])
    ensures { AreRound wider.new wider.old }
{
    for done in 1..wider.len() {
        let i = wider.len() - done;
        wider[i - 1] = stretched_left(&wider[i - 1], &wider[i]);
    }
}

/// From the first to the last: each ends no sooner than those before it.
fn stretch_on(wider: &mut [Bounds])
    ensures { AreRound wider.new wider.old }
{
    for i in 1..wider.len() {
        wider[i] = stretched_on(&wider[i], &wider[i - 1]);
    }
}

/// From the last to the first: each begins along y no later than those behind it.
fn stretch_down(wider: &mut [Bounds])
    ensures { AreRound wider.new wider.old }
{
    for done in 1..wider.len() {
        let i = wider.len() - done;
        wider[i - 1] = stretched_down(&wider[i - 1], &wider[i]);
    }
}

/// Makes them wider, till each follows those before it: along x, and along y where both have the same ends along x.
fn stretch(wider: &mut [Bounds])
    ensures { AreRound wider.new wider.old }
{
    stretch_left(wider);
    stretch_on(wider);
    stretch_down(wider);
}

/// Bounds round these, one each, so wide that they ascend.
pub(crate) fn widened(alloc: Global, bounds: &[Bounds]) -> Result<Vec<Bounds>, NoMemory>
    ensures { IfOk result (λ wider. AreRound wider.items bounds.now) }
{
    let mut wider = Vec::from_slice(alloc, bounds)?;
    stretch(&mut wider);
    Ok(wider)
}
