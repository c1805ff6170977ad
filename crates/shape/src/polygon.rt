ghost use Rattle.std.specs.Prelude.{◌≡◌, IfOk, IfErr};
ghost use Rattle.plane_terms.specs.Lists.{Every};
ghost use Rattle.plane_terms.specs.Shape.{shape_of};
ghost use Rattle.plane_terms.specs.declared.kind.Kind.TheVariants as kind;
ghost use Rattle.shape.specs.Given.{polygons_in, all_rings, IsCountable};
ghost use Rattle.shape.specs.Kept.{IsClosing};
ghost use Rattle.shape.specs.Counts.{IsFull};
ghost use Rattle.plane_terms.specs.ShapeFaults.{IsFault, IsFlawless};
ghost use Rattle.shape.specs.Form.{polygon_shape, IsDrawn};
ghost use Rattle.shape.specs.Parts.{parts_in, frames_in};

use crate::counts::{check_polygon, count_in_parts};
use crate::envelope::box_of_polygon;
use crate::frames::frames_of;
use crate::pairs::check_pairs;
use crate::parts::Parts;
use crate::same::copy_of_parts;
use crate::segments::{push_polygons, room_for, segments_law};
use crate::vertices::closed_parts;
use grid_plane::{GridPoint, NoMemory, Rect, Seg};
use plane_terms::ShapeFault;
use std::alloc::Global;
use std::mem::size_of;

/// The parts of a polygon, each a list of rings, a ring without its first vertex again; and what follows from them.
#[derive(Drop)]
pub(crate) struct Polygon {
    pub(crate) parts: Parts<Vec<Vec<GridPoint>>>,
    pub(crate) segs: Vec<Seg>,
    pub(crate) env: Rect,
}

// With the 8 bytes that the heap adds it fills a block of 80 bytes; the next has 96.
const _: () = prove!(size_of::<Polygon>() <= 72);

/// The polygon of parts of which the vertices are those that are kept.
fn polygon_of(alloc: Global, parts: Vec<Vec<Vec<GridPoint>>>) -> Result<Polygon, ShapeFault>
    requires countable { IsCountable (polygons_in parts.items) }
    requires closing { IsFull (polygon_shape parts.items) → Every IsClosing (all_rings (polygons_in parts.items)) }
    ensures parts { IfOk result (λ g. parts_in g.parts ≡ parts.items) }
    ensures drawn { IfOk result (λ g. IsDrawn (polygon_shape parts.items) g.segs.items g.env (frames_in g.parts)) }
    ensures flawless { IfOk result (λ _. IsFlawless (polygon_shape parts.items)) }
    ensures refused { IfErr result (λ fault. IsFault (polygon_shape parts.items) fault) }
{
    check_polygon(&parts)?;
    let mut segs = room_for(alloc, count_in_parts(&parts) as usize)?;
    push_polygons(&mut segs, &parts)?;
    let frames = frames_of(alloc, &segs)?;
    check_pairs(&segs, &frames)?;
    segments_law(&segs);
    let env = box_of_polygon(&parts);
    Ok(Polygon {
        parts: Parts::of(alloc, parts, frames)?,
        segs,
        env,
    })
}

impl Polygon {
    pub(crate) fn of(alloc: Global, parts: Vec<Vec<Vec<GridPoint>>>) -> Result<Polygon, ShapeFault>
        requires { IsCountable (polygons_in parts.items) }
        ensures made { IfOk result (λ g. polygon_shape (parts_in g.parts) ≡ shape_of kind.Polygon (polygons_in parts.items)) }
        ensures drawn { IfOk result (λ g. IsDrawn (polygon_shape (parts_in g.parts)) g.segs.items g.env (frames_in g.parts)) }
        ensures flawless { IfOk result (λ _. IsFlawless (shape_of kind.Polygon (polygons_in parts.items))) }
        ensures refused { IfErr result (λ fault. IsFault (shape_of kind.Polygon (polygons_in parts.items)) fault) }
    {
        polygon_of(alloc, closed_parts(parts))
    }

    pub(crate) fn try_copy(&self, alloc: Global) -> Result<Polygon, NoMemory>
        ensures parts { IfOk result (λ g. polygon_shape (parts_in g.parts) ≡ polygon_shape (parts_in self.now.parts)) }
        ensures segs { IfOk result (λ g. g.segs.items ≡ self.now.segs.items) }
        ensures env { IfOk result (λ g. g.env ≡ self.now.env) }
        ensures frames { IfOk result (λ g. frames_in g.parts ≡ frames_in self.now.parts) }
    {
        let parts = copy_of_parts(alloc, self.parts.as_slice())?;
        let frames = Vec::from_slice(alloc, self.parts.frames())?;
        Ok(Polygon {
            parts: Parts::of(alloc, parts, frames)?,
            segs: Vec::from_slice(alloc, &self.segs)?,
            env: self.env,
        })
    }
}
