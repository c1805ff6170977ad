ghost use Rattle.std.specs.Prelude.{◌≡◌, ◌<◌, ◌≤◌, length, flat_map, slice_get, Some, IfOk, IfErr};
ghost use Rattle.plane_terms.specs.Lists.{Every};
ghost use Rattle.plane_terms.specs.Shape.{shape_of, two_ends, NextDiffer};
ghost use Rattle.plane_terms.specs.declared.kind.Kind.TheVariants as kind;
ghost use Rattle.shape.specs.Given.{rings_in, lines_in, IsCountable};
ghost use Rattle.plane_terms.specs.ShapeFaults.{IsFault, IsFlawless};
ghost use Rattle.shape.specs.Form.{line_shape, IsDrawn};
ghost use Rattle.shape.specs.Parts.{parts_in, frames_in};

use crate::counts::{check_line, count_vertices};
use crate::envelope::box_of_line;
use crate::frames::frames_of;
use crate::parts::Parts;
use crate::same::copy_of_rings;
use crate::segments::{push_paths, room_for, segments_law};
use crate::vertices::kept_parts;
use grid_plane::{GridPoint, NoMemory, Rect, Seg};
use plane_terms::ShapeFault;
use std::alloc::Global;
use std::mem::size_of;

/// The parts of a line, each from its first vertex to its last, and what follows from them.
#[derive(Drop)]
pub(crate) struct Line {
    pub(crate) parts: Parts<Vec<GridPoint>>,
    pub(crate) segs: Vec<Seg>,
    pub(crate) env: Rect,
}

// With the 8 bytes that the heap adds it fills a block of 80 bytes; the next has 96.
const _: () = prove!(size_of::<Line>() <= 72);

/// The line of parts of which the vertices are those that are kept.
fn line_of(alloc: Global, parts: Vec<Vec<GridPoint>>) -> Result<Line, ShapeFault>
    requires countable { IsCountable (lines_in parts.items) }
    requires differ { Every NextDiffer (rings_in parts.items) }
    ensures parts { IfOk result (λ l. parts_in l.parts ≡ parts.items) }
    ensures drawn { IfOk result (λ l. IsDrawn (line_shape parts.items) l.segs.items l.env (frames_in l.parts)) }
    ensures flawless { IfOk result (λ _. IsFlawless (line_shape parts.items)) }
    ensures refused { IfErr result (λ fault. IsFault (line_shape parts.items) fault) }
{
    check_line(&parts)?;
    let count = count_vertices(&parts, 0) as usize;
    let mut segs = room_for(alloc, count.saturating_sub(parts.len()))?;
    push_paths(&mut segs, &parts)?;
    segments_law(&segs);
    let frames = frames_of(alloc, &segs)?;
    let env = box_of_line(&parts);
    Ok(Line {
        parts: Parts::of(alloc, parts, frames)?,
        segs,
        env,
    })
}

/// The end of this number: of each part the first vertex, then the last.
pub(crate) fn end_of(parts: &[Vec<GridPoint>], i: usize) -> GridPoint
    requires long { Every (λ part. 1 ≤ length part) (rings_in parts.now) }
    requires within { i < length (flat_map two_ends (rings_in parts.now)) }
    ensures { slice_get (flat_map two_ends (rings_in parts.now)) i ≡ Some result }
{
    let part = &parts[i / 2];
    if i % 2 == 0 {
        part[0]
    } else {
        part[part.len() - 1]
    }
}

impl Line {
    pub(crate) fn of(alloc: Global, parts: Vec<Vec<GridPoint>>) -> Result<Line, ShapeFault>
        requires { IsCountable (lines_in parts.items) }
        ensures made { IfOk result (λ l. line_shape (parts_in l.parts) ≡ shape_of kind.Line (lines_in parts.items)) }
        ensures drawn { IfOk result (λ l. IsDrawn (line_shape (parts_in l.parts)) l.segs.items l.env (frames_in l.parts)) }
        ensures flawless { IfOk result (λ _. IsFlawless (shape_of kind.Line (lines_in parts.items))) }
        ensures refused { IfErr result (λ fault. IsFault (shape_of kind.Line (lines_in parts.items)) fault) }
    {
        line_of(alloc, kept_parts(parts))
    }

    pub(crate) fn try_copy(&self, alloc: Global) -> Result<Line, NoMemory>
        ensures parts { IfOk result (λ l. line_shape (parts_in l.parts) ≡ line_shape (parts_in self.now.parts)) }
        ensures segs { IfOk result (λ l. l.segs.items ≡ self.now.segs.items) }
        ensures env { IfOk result (λ l. l.env ≡ self.now.env) }
        ensures frames { IfOk result (λ l. frames_in l.parts ≡ frames_in self.now.parts) }
    {
        let parts = copy_of_rings(alloc, self.parts.as_slice())?;
        let frames = Vec::from_slice(alloc, self.parts.frames())?;
        Ok(Line {
            parts: Parts::of(alloc, parts, frames)?,
            segs: Vec::from_slice(alloc, &self.segs)?,
            env: self.env,
        })
    }
}
