ghost use Rattle.std.specs.Prelude.{◌≡◌, ◌↔◌, Contains, IsTrue, IfOk};
ghost use Rattle.grid_index.specs.declared.placed.Placed as placed;
ghost use Rattle.error_store.specs.FrameSets.{key_at, HasPlace};

use grid_index::Placed;
use grid_plane::NoMemory;
use std::alloc::Global;
use std::collections::BTreeSet;

/// A handle and the sides of a rectangle, in grid units. Frames stand in this order.
#[derive(Clone, Copy, PartialEq, Eq, PartialOrd, Ord)]
pub(crate) struct FrameKey {
    handle: u32,
    x0: i32,
    y0: i32,
    x1: i32,
    y1: i32,
}

/// Frames of errors, each under the handle of its subject.
#[derive(Drop)]
pub(crate) struct FrameSet {
    keys: BTreeSet<FrameKey>,
}

fn key_at(place: &Placed) -> FrameKey
    ensures { result ≡ key_at place.now }
{
    FrameKey {
        handle: place.handle,
        x0: place.rect.x0(),
        y0: place.rect.y0(),
        x1: place.rect.x1(),
        y1: place.rect.y1(),
    }
}

/// Whether both are one frame of one handle.
pub(crate) fn is_same(p: &Placed, q: &Placed) -> bool
    ensures { IsTrue result ↔ (p.now ≡ q.now) }
{
    key_at(p) == key_at(q)
}

impl FrameSet {
    /// These frames. Takes steps by the logarithm of their number for each.
    pub(crate) fn of(alloc: Global, frames: &[Placed]) -> Result<FrameSet, NoMemory>
        ensures { IfOk result (λ set. (q : placed.Placed) → HasPlace set q ↔ Contains frames.now q) }
    {
        let mut keys = BTreeSet::new(alloc);
        for frame in frames {
            keys.insert(key_at(frame))?;
        }
        Ok(FrameSet { keys })
    }

    /// These frames, to be asked about those others alone. Where there are none of those, none of these is noted.
    pub(crate) fn of_asked(
        alloc: Global,
        frames: &[Placed],
        asked: &[Placed],
    ) -> Result<FrameSet, NoMemory>
        ensures { IfOk result (λ set. (q : placed.Placed) → Contains asked.now q → HasPlace set q ↔ Contains frames.now q) }
    {
        if asked.is_empty() {
            return FrameSet::of(alloc, &[]);
        }
        FrameSet::of(alloc, frames)
    }

    /// Whether it has this frame. Takes steps by the logarithm of their number.
    pub(crate) fn has(&self, place: &Placed) -> bool
        ensures { IsTrue result ↔ HasPlace self.now place.now }
    {
        self.keys.contains(&key_at(place))
    }
}
