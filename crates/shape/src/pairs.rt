ghost use Rattle.std.specs.Prelude.{◌≡◌, ◌↔◌, ◌<◌, ◌≤◌, ◌+◌, ◌*◌, ◌^◌, ℕ, min, length, IsTrue, OnOk, IfErr};
ghost use Rattle.plane_terms.specs.Lists.{EveryPair};
ghost use Rattle.plane_terms.specs.Segment.{IsSegment, box_of};
ghost use Rattle.plane_terms.specs.Shape.{AreSimple};
ghost use Rattle.plane_terms.specs.ShapeFaults.{IsPair, AreBad};
ghost use Rattle.shape.specs.Frames.{AreFrames};
ghost use Rattle.shape.specs.Pairs.{IsFirstFrom, IsFirstWithin, IsFirstBad, IsFrameOf, IsPairFault, sooner_than};

use crate::frames::{BLOCK, MOST_UNFRAMED};
use crate::segments::segments_law;
use grid_plane::{Rect, Seg, Share};
use plane_terms::ShapeFault;

/// The numbers `i < j` of two segments.
#[derive(Clone, Copy)]
pub(crate) struct Pair {
    pub(crate) i: usize,
    pub(crate) j: usize,
}

/// The numbers of segments from `from` on and below `to`.
#[derive(Clone, Copy)]
pub(crate) struct Run {
    pub(crate) from: usize,
    pub(crate) to: usize,
}

/// Whether they cross or run along each other; `env` is the envelope of `s`, which most often tells that they do not.
fn are_bad(s: &Seg, env: &Rect, t: &Seg) -> bool
    requires proper { IsSegment s.now }
    requires round { env.now ≡ box_of s.now }
    ensures { IsTrue result ↔ AreBad s.now t.now }
{
    if !env.meets(&t.env()) {
        return false;
    }
    s.cuts(t)
}

/// The number of the first segment of the run that is bad with the segment `i`.
fn first_from(segs: &[Seg], i: usize, run: Run) -> Option<usize>
    requires later { i < run.from }
    requires within { run.to ≤ length segs.now }
    requires known { i < length segs.now }
    ensures { IsFirstFrom segs.now i run.from run.to result }
{
    let s = &segs[i];
    let env = s.env();
    for j in run.from..run.to {
        if are_bad(s, &env, &segs[j]) {
            return Some(j);
        }
    }
    None
}

/// The same of the segments of the run that come after the segment `i`; `frame` is round all of the run.
fn first_after(segs: &[Seg], i: usize, run: Run, frame: &Rect) -> Option<usize>
    requires within { run.to ≤ length segs.now }
    requires known { i < length segs.now }
    requires framed { IsFrameOf frame.now segs.now run.from run.to }
    ensures { IsFirstFrom segs.now i run.from run.to result }
{
    if !segs[i].env().meets(frame) {
        return None;
    }
    let later = Run {
        from: run.from.max(i + 1),
        to: run.to,
    };
    first_from(segs, i, later)
}

/// The first bad pair of a segment of `block` and a later one of `other`, round which `frame` is.
fn first_between(segs: &[Seg], block: Run, other: Run, frame: &Rect) -> Option<Pair>
    requires block { block.to ≤ length segs.now }
    requires other { other.to ≤ length segs.now }
    requires framed { IsFrameOf frame.now segs.now other.from other.to }
    ensures { IsFirstWithin segs.now block.from block.to other.from other.to result }
{
    for i in block.from..block.to {
        if let Some(j) = first_after(segs, i, other, frame) {
            return Some(Pair { i, j });
        }
    }
    None
}

/// The block of this number, of so many segments.
fn block_at(number: usize, count: usize) -> Run
    requires { 32 * number + 32 < 2 ^ 64 }
    ensures from { result.from ≡ 32 * number }
    ensures to { result.to ≡ min count (32 * number + 32) }
{
    let from = BLOCK * number;
    Run {
        from,
        to: count.min(from + BLOCK),
    }
}

/// Those of the run with which a pair sooner than the best so far may begin.
fn sooner_than(run: Run, best: Option<Pair>) -> Run
    ensures from { result.from ≡ run.from }
    ensures to { result.to ≡ sooner_than run.to best }
{
    match best {
        None => run,
        Some(pair) => Run {
            from: run.from,
            to: pair.i,
        },
    }
}

/// The first pair once the block `a` was set against the block `b`: where their frames are apart there is none between them.
fn first_with(segs: &[Seg], frames: &[Rect], a: usize, b: usize, best: Option<Pair>) -> Option<Pair>
    requires few { length segs.now < 2 ^ 32 }
    requires framed { AreFrames frames.now segs.now }
    requires ordered { a ≤ b }
    requires within { b < length frames.now }
    requires known { IsFirstWithin segs.now (32 * a) (32 * a + 32) (32 * a) (32 * b) best }
    ensures { IsFirstWithin segs.now (32 * a) (32 * a + 32) (32 * a) (32 * b + 32) result }
{
    let frame = frames[b];
    if !frames[a].meets(&frame) {
        return best;
    }
    let block = sooner_than(block_at(a, segs.len()), best);
    let found = first_between(segs, block, block_at(b, segs.len()), &frame);
    found.or(best)
}

/// The first bad pair that begins in the block `a`.
fn first_in_block(segs: &[Seg], frames: &[Rect], a: usize) -> Option<Pair>
    requires few { length segs.now < 2 ^ 32 }
    requires framed { AreFrames frames.now segs.now }
    requires within { a < length frames.now }
    ensures { IsFirstWithin segs.now (32 * a) (32 * a + 32) (32 * a) (32 * length frames.now) result }
{
    let mut best = None;
    for b in a..frames.len() {
        best = first_with(segs, frames, a, b, best);
    }
    best
}

/// The first bad pair, block by block.
fn first_of_blocks(segs: &[Seg], frames: &[Rect]) -> Option<Pair>
    requires few { length segs.now < 2 ^ 32 }
    requires many { 64 < length segs.now }
    requires framed { AreFrames frames.now segs.now }
    ensures { IsFirstBad segs.now result }
{
    for a in 0..frames.len() {
        if let Some(pair) = first_in_block(segs, frames, a) {
            return Some(pair);
        }
    }
    None
}

/// The first bad pair, each segment set against each later one.
fn first_of_few(segs: &[Seg]) -> Option<Pair>
    ensures { IsFirstBad segs.now result }
{
    for i in 0..segs.len() {
        let later = Run {
            from: i + 1,
            to: segs.len(),
        };
        if let Some(j) = first_from(segs, i, later) {
            return Some(Pair { i, j });
        }
    }
    None
}

/// The first pair of segments, in order of the first number, then of the second, that cross or run along each other.
fn first_bad_pair(segs: &[Seg], frames: &[Rect]) -> Option<Pair>
    requires few { length segs.now < 2 ^ 32 }
    requires framed { AreFrames frames.now segs.now }
    ensures { IsFirstBad segs.now result }
{
    if segs.len() <= MOST_UNFRAMED {
        return first_of_few(segs);
    }
    first_of_blocks(segs, frames)
}

/// The faults of a polygon's segments.
pub(crate) fn check_pairs(segs: &[Seg], frames: &[Rect]) -> Result<(), ShapeFault>
    requires few { length segs.now < 2 ^ 32 }
    requires framed { AreFrames frames.now segs.now }
    ensures simple { OnOk result (EveryPair AreSimple segs.now) }
    ensures none { OnOk result ((i j : ℕ) → ¬ (IsPair AreBad segs.now i j)) }
    ensures refused { IfErr result (λ fault. IsPairFault segs.now fault) }
{
    let Some(Pair { i, j }) = first_bad_pair(segs, frames) else {
        segments_law(segs);
        return Ok(());
    };
    let share = segs[i].shares(&segs[j]);
    let (i, j) = (i as u32, j as u32);
    match share {
        Share::Along => Err(ShapeFault::Along { i, j }),
        _ => Err(ShapeFault::Cross { i, j }),
    }
}
