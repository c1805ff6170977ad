ghost use Rattle.std.specs.Prelude.{◌≡◌, ◌↔◌, ◌≤◌, ◌+◌, ◌-ℤ◌, unsigned_abs, ℕ, [], IsTrue, IfOk, IfSome, MatchOption};
ghost use Rattle.std.specs.List.Sorted.{IsPermutation};
ghost use Rattle.plane_terms.specs.Lists.{Every};
ghost use Rattle.plane_terms.specs.Point.{Point};
ghost use Rattle.plane_terms.specs.Rectangle.{IsRectangle, RectHolds};
ghost use Rattle.plane_terms.specs.Dirt.{Covers, MeetsDirt};
ghost use Rattle.validation.specs.Asked.{IsRound, IsClose, IsAskedOf, dirty_parts, places_of, asked_steps};
ghost use Rattle.validation.specs.Asked as terms;
ghost use Rattle.validation.specs.Placed.{HasNear};

use crate::lists::put_behind;
use crate::sorted::SortedRects;
use grid_index::{Index, Meter};
use grid_plane::{NoMemory, Rect};
use std::alloc::Global;
use std::marker::Model;

// The most parts for which an index is asked one by one.
const PART_LIMIT: usize = 64;

/// What is dirty of a window: the parts of the dirty rectangles that lie in it, from west to east.
#[derive(Drop)]
pub struct DirtyParts {
    parts: SortedRects,
}

impl Model for DirtyParts {
    ghost use Rattle.std.specs.Prelude.{List};
    ghost use Rattle.plane_terms.specs.Lists.{Every};
    ghost use Rattle.plane_terms.specs.Rectangle.{Rectangle, IsRectangle};

    ghost Value = { List Rectangle };

    ghost view = { λ x. x.parts };

    ghost invariant = { λ x. Every IsRectangle x.parts };
}

// What the window and each rectangle have in common, of those that meet it.
fn parts_of(alloc: Global, rects: &[Rect], window: &Rect) -> Result<Vec<Rect>, NoMemory>
    ensures covers { IfOk result (λ v. (p : Point) → Covers v.items p ↔ (Covers rects.now p × RectHolds window.now p)) }
    ensures on_grid { IfOk result (λ v. Every IsRectangle v.items) }
    ensures parts { IfOk result (λ v. v.items ≡ dirty_parts rects.now window.now) }
{
    window.corner_law();
    let mut parts = Vec::new(alloc);
    for r in rects {
        r.corner_law();
        if let Some(part) = r.part(window) {
            part.corner_law();
            parts.push(part)?;
        }
    }
    Ok(parts)
}

// The least rectangle that holds them all; none where there are none.
fn join_of_all(rects: &[Rect]) -> Option<Rect>
    ensures { MatchOption result (rects.now ≡ []) (λ j. IsRound j rects.now) }
{
    let mut joined = *rects.first()?;
    for r in rects {
        joined = joined.join(r);
    }
    Some(joined)
}

/// How many places lie along the southern side of the rectangle.
pub(crate) fn places_across(r: &Rect) -> u64
    ensures { result ≡ unsigned_abs (r.now.x1 -ℤ r.now.x0) + 1 }
{
    u64::from(r.x1().abs_diff(r.x0())) + 1
}

/// How many places lie along its western side.
pub(crate) fn places_up(r: &Rect) -> u64
    ensures { result ≡ unsigned_abs (r.now.y1 -ℤ r.now.y0) + 1 }
{
    u64::from(r.y1().abs_diff(r.y0())) + 1
}

// How many places lie in the rectangle.
fn places_in(r: &Rect) -> u64
    ensures { result ≡ places_of r.now }
{
    r.corner_law();
    places_across(r).saturating_mul(places_up(r))
}

// How many places lie in these; one that lies in several counts as often.
fn places_in_all(rects: &[Rect]) -> u64
    ensures { result ≤ terms.places_in rects.now }
{
    let mut count: u64 = 0;
    for r in rects {
        count = count.saturating_add(places_in(r));
    }
    count
}

// The least rectangle that holds them all, where they fill half of it or are more than an index is asked for one by one.
fn close_join(rects: &[Rect]) -> Option<Rect>
    ensures { IfSome result (λ j. IsRound j rects.now × IsClose j rects.now) }
{
    let joined = join_of_all(rects)?;
    if rects.len() > PART_LIMIT || places_in(&joined) / 2 <= places_in_all(rects) {
        Some(joined)
    } else {
        None
    }
}

// The handles of the placed rectangles that meet one of these, one after another: a handle may come twice.
fn near_each<M: Meter>(
    alloc: Global,
    index: &Index<M>,
    rects: &[Rect],
    meter: &mut M,
) -> Result<Vec<u32>, NoMemory>
    ensures near { IfOk result (λ v. HasNear v.items index.now rects.now) }
    ensures steps { (s : ℕ) → M.taken meter.new ≤ M.taken meter.old + asked_steps s rects.now index.now }
    ensures rises { M.taken meter.old ≤ M.taken meter.new }
{
    let mut found = Vec::new(alloc);
    for r in rects {
        let near = index.query(alloc, r, meter)?;
        put_behind(&mut found, near)?;
    }
    Ok(found)
}

impl DirtyParts {
    /// What is dirty of the window, of these dirty rectangles.
    pub fn of(alloc: Global, dirt: &[Rect], window: &Rect) -> Result<DirtyParts, NoMemory>
        ensures covers { IfOk result (λ x. (p : Point) → Covers x p ↔ (Covers dirt.now p × RectHolds window.now p)) }
        ensures parts { IfOk result (λ x. IsPermutation (dirty_parts dirt.now window.now) x) }
    {
        let parts = SortedRects::of(parts_of(alloc, dirt, window)?);
        Ok(DirtyParts { parts })
    }

    /// Whether some point of the rectangle is dirty and in the window; touching is meeting.
    pub fn meets(&self, r: &Rect) -> bool
        ensures { IsTrue result ↔ MeetsDirt self.now r.now }
    {
        r.corner_law();
        self.parts.meets(r)
    }

    /// The handles of the placed rectangles that meet a part, and it may be of others; a handle may come twice. Asks the
    /// index once, for the least rectangle that holds all parts, where they fill half of it or are more than 64, else for each.
    pub fn near<M: Meter>(
        &self,
        alloc: Global,
        index: &Index<M>,
        meter: &mut M,
    ) -> Result<Vec<u32>, NoMemory>
        ensures near { IfOk result (λ v. HasNear v.items index.now self.now) }
        ensures asked { IsAskedOf self.now index.now (M.taken meter.old) (M.taken meter.new) }
        ensures rises { M.taken meter.old ≤ M.taken meter.new }
    {
        let parts = self.parts.rects();
        match close_join(parts) {
            Some(joined) => index.query(alloc, &joined, meter),
            None => near_each(alloc, index, parts, meter),
        }
    }
}
