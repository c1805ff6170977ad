ghost use Rattle.std.specs.Prelude.{◌≡◌, ◌<◌, take, drop, length, IfOk};
ghost use Rattle.shape.specs.Frames.{IsRound, AreFrames};

use grid_plane::{NoMemory, Rect, Seg};
use std::alloc::Global;

/// How many segments a block has; the last of a list may have fewer.
pub(crate) const BLOCK: usize = 32;

/// So many segments, or fewer, are gone through without frames.
pub(crate) const MOST_UNFRAMED: usize = 64;

// The first block, and what comes after it.
fn split_block(segments: &[Seg]) -> (&[Seg], &[Seg])
    ensures block { result.0.now ≡ take 32 segments.now }
    ensures later { result.1.now ≡ drop 32 segments.now }
{
    if segments.len() < BLOCK {
        return (segments, &[]);
    }
    segments.split_at(BLOCK)
}

// A rectangle round these segments.
fn frame_of(segments: &[Seg]) -> Rect
    requires { 0 < length segments.now }
    ensures { IsRound result segments.now }
{
    let mut frame = segments[0].env();
    for segment in segments {
        frame = frame.join(&segment.env());
    }
    frame
}

/// A rectangle round each block of these segments, where they are many.
pub(crate) fn frames_of(alloc: Global, segments: &[Seg]) -> Result<Vec<Rect>, NoMemory>
    ensures { IfOk result (λ frames. AreFrames frames.items segments.now) }
{
    let mut frames = Vec::new(alloc);
    if segments.len() <= MOST_UNFRAMED {
        return Ok(frames);
    }
    let mut rest = segments;
    while rest.len() > 0 {
        let (block, later) = split_block(rest);
        frames.push(frame_of(block))?;
        rest = later;
    }
    Ok(frames)
}
