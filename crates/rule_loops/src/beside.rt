ghost use Rattle.std.specs.Prelude.{◌≡◌, [], IfOk};
ghost use Rattle.std.specs.Bool.{OnTrue};
ghost use Rattle.topology_terms.specs.Plans as plans;
ghost use Rattle.rule_loops.specs.Beside.{AreBeside};

use crate::polygon::{are_polygons, inside_of};
use crate::stacked::are_stacked;
use convex_cell::Cells;
use grid_plane::{NoMemory, Rect};
use rule_core::Work;
use shape::Feature;
use std::alloc::Global;

// Whether the rectangles have at most a side or a corner in common.
fn are_beside(r: &Rect, s: &Rect) -> bool
    ensures { OnTrue result (AreBeside r.now s.now) }
{
    if r.x1() <= s.x0() {
        return true;
    }
    if s.x1() <= r.x0() {
        return true;
    }
    if r.y1() <= s.y0() {
        return true;
    }
    s.y1() <= r.y0()
}

// Whether the envelopes show that they have no inside point in common, or that one stands above the other or beside it.
fn are_clear(subject: &Feature, partner: &Feature) -> bool
    ensures { OnTrue result (plans.overlap_cells subject.now partner.now ≡ []) }
{
    if are_polygons(subject, partner) {
        let (own, other) = (subject.shape(), partner.shape());
        return are_beside(&own.env(), &other.env()) || are_stacked(own, other);
    }
    false
}

/// The cells of what two polygons have inside in common. None are made of polygons whose envelopes only touch, and none of small
/// polygons one of which stands above the other or beside it.
pub fn common_inside(
    alloc: Global,
    subject: &Feature,
    partner: &Feature,
    work: &mut Work,
) -> Result<Cells, NoMemory>
    ensures cells { IfOk result (λ cells. cells ≡ plans.overlap_cells subject.now partner.now) }
    ensures uncounted { work.new.judged ≡ work.old.judged }
{
    if are_clear(subject, partner) {
        return Ok(Cells::new(alloc));
    }
    let own = inside_of(alloc, subject, work)?;
    let other = inside_of(alloc, partner, work)?;
    own.carve(alloc, &other)
}
