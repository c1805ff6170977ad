ghost use Rattle.std.specs.Prelude.{◌≡◌, ◌<◌, ◌≤◌, ◌*◌, ◌++◌, min, take, drop, length};
ghost use Rattle.plane_terms.specs.Shape.{segments_of};
ghost use Rattle.shape.specs.Frames.{IsRound};
ghost use Rattle.rule_loops.specs.Blocks.{block_size, block_count, block_of, left_from};

use grid_plane::{Rect, Seg};
use shape::Shape;
use std::marker::Model;

// How many segments a block of a shape with frames has; the last may have fewer.
const BLOCK: usize = 32;

/// The segments of a shape in blocks, with a rectangle round each block.
#[derive(Drop)]
pub(crate) struct Blocks<'a> {
    segments: &'a [Seg],
    // None where all segments stand in one block.
    frames: &'a [Rect],
    // Round all segments.
    whole: Rect,
}

impl<'a> Model for Blocks<'a> {
    ghost use Rattle.std.specs.Prelude.{List};
    ghost use Rattle.plane_terms.specs.Segment.{Segment};
    ghost use Rattle.shape.specs.Frames.{IsRound, AreFrames};

    ghost Value = { List Segment };

    ghost view = { λ b. b.segments.now };

    ghost invariant = { λ b. AreFrames b.frames.now b.segments.now × IsRound b.whole b.segments.now };
}

impl<'a> Blocks<'a> {
    /// The blocks of a shape.
    #[inline(always)]
    pub(crate) fn of(shape: &'a Shape) -> Blocks<'a>
        ensures { result ≡ segments_of shape.now }
    {
        Blocks {
            segments: shape.segs(),
            frames: shape.frames(),
            whole: shape.env(),
        }
    }

    /// The segments of all blocks.
    #[inline(always)]
    pub(crate) fn segments(&self) -> &'a [Seg]
        ensures { result.now ≡ self.now }
    {
        self.segments
    }

    /// How many segments there are.
    #[inline(always)]
    pub(crate) fn len(&self) -> usize
        ensures { result ≡ length self.now }
    {
        self.segments.len()
    }

    /// A rectangle round all segments.
    #[inline(always)]
    pub(crate) fn whole(&self) -> Rect
        ensures { IsRound result self.now }
    {
        self.whole
    }

    /// How many blocks there are, one at least.
    #[inline(always)]
    pub(crate) fn count(&self) -> usize
        ensures { result ≡ block_count self.now }
    {
        self.frames.len().max(1)
    }

    /// How many blocks a walk up to before the segment of this number goes through: what stands behind them begins no earlier.
    #[inline(always)]
    pub(crate) fn count_before(&self, end: usize) -> usize
        ensures within { result ≤ block_count self.now }
        ensures enough { min end (length self.now) ≤ block_size self.now * result }
    {
        self.count().min(end.div_ceil(BLOCK))
    }

    /// The segments of the block of this number.
    pub(crate) fn block(&self, k: usize) -> &'a [Seg]
        requires { k < block_count self.now }
        ensures { result.now ≡ block_of k self.now }
    {
        if self.frames.is_empty() {
            return self.segments;
        }
        let (_, rest) = self.segments.split_at(BLOCK * k);
        first_of(rest, BLOCK)
    }

    /// A rectangle round the block of this number.
    #[inline(always)]
    pub(crate) fn frame(&self, k: usize) -> Rect
        requires { k < block_count self.now }
        ensures { IsRound result (block_of k self.now) }
    {
        if self.frames.is_empty() {
            return self.whole;
        }
        self.frames[k]
    }

    /// The segments from this number on that stand in its block, and the number of the next block.
    pub(crate) fn rest_from(&self, from: usize) -> (&'a [Seg], usize)
        requires { from ≤ length self.now }
        ensures { drop from self.now ≡ result.0.now ++ left_from result.1 self.now }
    {
        let (_, rest) = self.segments.split_at(from);
        if self.frames.is_empty() {
            return (rest, 1);
        }
        (first_of(rest, BLOCK - from % BLOCK), from / BLOCK + 1)
    }
}

/// The first so many of these segments, or all where they are fewer.
pub(crate) fn first_of(segments: &[Seg], count: usize) -> &[Seg]
    ensures { result.now ≡ take count segments.now }
{
    if segments.len() < count {
        return segments;
    }
    &segments[..count]
}
