ghost use Rattle.std.specs.Prelude.{◌≡◌, ◌≤◌, drop, length, IfOk};
ghost use Rattle.rule_loops.specs.Ahead.{AreAhead, IsOff};

use grid_plane::{NoMemory, Rect, Seg};
use std::alloc::Global;

/// Of fewer segments each is compared with all later ones.
pub(crate) const FEWEST: usize = 24;

// For each segment a rectangle round it and all later ones.
fn rounds_ahead(alloc: Global, segments: &[Seg]) -> Result<Vec<Rect>, NoMemory>
    ensures { IfOk result (λ ahead. AreAhead ahead.items segments.now) }
{
    let mut ahead = Vec::with_capacity(alloc, segments.len())?;
    let Some(last) = segments.last() else {
        return Ok(ahead);
    };
    let mut round = last.env();
    for i in (0..segments.len()).rev() {
        round = round.join(&segments[i].env());
        ahead.push(round)?;
    }
    ahead.reverse();
    Ok(ahead)
}

/// For each segment a rectangle round it and all later ones; none where the segments are few.
pub(crate) fn ahead_of(alloc: Global, segments: &[Seg]) -> Result<Vec<Rect>, NoMemory>
    ensures { IfOk result (λ ahead. AreAhead ahead.items segments.now) }
{
    if segments.len() < FEWEST {
        return Ok(Vec::new(alloc));
    }
    rounds_ahead(alloc, segments)
}

/// Where a segment need look no further: none from this number on comes near it. Looks in steps that grow.
pub(crate) fn near_end(segment: &Seg, segments: &[Seg], ahead: &[Rect], from: usize) -> usize
    requires round { AreAhead ahead.now segments.now }
    requires within { from ≤ length segments.now }
    ensures begun { from ≤ result }
    ensures clear { IsOff segment.now (drop result segments.now) }
{
    let own = segment.env();
    let mut end = from;
    let mut step = 1;
    while end < ahead.len() {
        if !own.meets(&ahead[end]) {
            return end;
        }
        end = end.saturating_add(step);
        step = step.saturating_mul(4);
    }
    segments.len()
}
