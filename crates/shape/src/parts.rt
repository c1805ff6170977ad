ghost use Rattle.std.specs.Prelude.{◌≡◌, IfOk};
ghost use Rattle.shape.specs.Parts.{parts_in, frames_in};

use crate::form::boxed;
use grid_plane::{NoMemory, Rect};
use std::alloc::Global;

/// The parts of a line or a polygon, and the frames of its segments. One part without frames stands in place: most shapes are
/// such, and take no block of the heap for a list of one.
#[derive(Drop)]
pub(crate) enum Parts<T> {
    One([T; 1]),
    Framed(Box<Framed<T>>),
}

/// Any number of parts, and of frames.
#[derive(Drop)]
pub(crate) struct Framed<T> {
    pub(crate) parts: Vec<T>,
    pub(crate) frames: Vec<Rect>,
}

impl<T: Drop> Parts<T> {
    /// These parts, with these frames.
    pub(crate) fn of(alloc: Global, parts: Vec<T>, frames: Vec<Rect>) -> Result<Parts<T>, NoMemory>
        ensures parts { IfOk result (λ p. parts_in p ≡ parts.items) }
        ensures frames { IfOk result (λ p. frames_in p ≡ frames.items) }
    {
        let mut parts = parts;
        if parts.len() == 1 && frames.is_empty() {
            if let Some(part) = parts.pop() {
                return Ok(Parts::One([part]));
            }
        }
        Ok(Parts::Framed(boxed(alloc, Framed { parts, frames })?))
    }
}

impl<T> Parts<T> {
    pub(crate) fn as_slice(&self) -> &[T]
        ensures { result.now ≡ parts_in self.now }
    {
        match self {
            Parts::One(part) => part,
            Parts::Framed(framed) => &framed.parts,
        }
    }

    pub(crate) fn frames(&self) -> &[Rect]
        ensures { result.now ≡ frames_in self.now }
    {
        match self {
            Parts::One(_) => &[],
            Parts::Framed(framed) => &framed.frames,
        }
    }
}
