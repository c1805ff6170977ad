ghost use Rattle.std.specs.Prelude.{◌≡◌, false, map, IfOk};
ghost use Rattle.std.specs.Bool.{OnTrue};
ghost use Rattle.std.specs.List.{list_any};
ghost use Rattle.plane_terms.specs.Cell.{on_segment};
ghost use Rattle.plane_terms.specs.Segment.{Segment};
ghost use Rattle.plane_terms.specs.declared.kind.Kind.TheVariants as kind;
ghost use Rattle.topology_terms.specs.Feature.{sides};
ghost use Rattle.topology_terms.specs.Cells as terms;
ghost use Rattle.topology_terms.specs.Tests as tests;
ghost use Rattle.rule_core.specs.Kept.{cells_of};
ghost use Rattle.rule_laws.proofs.Families.{IsFit};
ghost use Rattle.rule_loops.specs.Views.{is_out};

use column_cut::{inside, outside};
use convex_cell::{BoundedCells, Cell, Cells};
use grid_plane::{NoMemory, Rect, Seg};
use plane_terms::Kind;
use rule_core::{Region, Work};
use shape::Feature;
use std::alloc::Global;
use std::rc::Rc;

fn made_anew(alloc: Global, region: Region, polygon: &Feature) -> Result<BoundedCells, NoMemory>
    ensures { IfOk result (λ cells. cells ≡ cells_of region polygon.now.shape) }
{
    match region {
        Region::Inside => inside(alloc, polygon.shape().segs()),
        Region::Outside => outside(alloc, polygon.shape().segs()),
    }
}

// The cells that the work keeps, or else cells made anew, which it then keeps if there is memory for it.
fn kept_or_made(
    alloc: Global,
    region: Region,
    polygon: &Feature,
    work: &mut Work,
) -> Result<Rc<BoundedCells>, NoMemory>
    ensures cells { IfOk result (λ cells. cells.value ≡ cells_of region polygon.now.shape) }
    ensures uncounted { work.new.judged ≡ work.old.judged }
{
    if let Some(cells) = work.look(region, polygon)? {
        return Ok(cells);
    }
    let cells = Rc::new(alloc, made_anew(alloc, region, polygon)?)?;
    let _ = work.keep(alloc, region, polygon, &cells);
    Ok(cells)
}

/// The cells of a polygon's inside. The work keeps them for the next call.
pub fn inside_of(
    alloc: Global,
    polygon: &Feature,
    work: &mut Work,
) -> Result<Rc<BoundedCells>, NoMemory>
    ensures cells { IfOk result (λ cells. cells.value ≡ terms.inside polygon.now) }
    ensures uncounted { work.new.judged ≡ work.old.judged }
{
    kept_or_made(alloc, Region::Inside, polygon, work)
}

/// The cells of what is closed out of a polygon. The work keeps them for the next call.
pub fn outside_of(
    alloc: Global,
    polygon: &Feature,
    work: &mut Work,
) -> Result<Rc<BoundedCells>, NoMemory>
    ensures cells { IfOk result (λ cells. cells.value ≡ terms.outside polygon.now) }
    ensures uncounted { work.new.judged ≡ work.old.judged }
{
    kept_or_made(alloc, Region::Outside, polygon, work)
}

/// The cells of a polygon's inside, in a list of its own: a copy of what the work keeps, or made anew.
pub fn own_inside(alloc: Global, polygon: &Feature, work: &mut Work) -> Result<Cells, NoMemory>
    ensures cells { IfOk result (λ cells. cells ≡ terms.inside polygon.now) }
    ensures uncounted { work.new.judged ≡ work.old.judged }
{
    match work.look(Region::Inside, polygon)? {
        Some(cells) => cells.cells().try_copy(alloc),
        None => Ok(made_anew(alloc, Region::Inside, polygon)?.into_cells()),
    }
}

// The cells of these segments.
fn on_segments(alloc: Global, segments: &[Seg]) -> Result<Cells, NoMemory>
    ensures { IfOk result (λ cells. cells ≡ map {A = Segment} on_segment segments.now) }
{
    let mut cells = Cells::new(alloc);
    for segment in segments {
        cells.push(Cell::on_seg(alloc, segment)?)?;
    }
    Ok(cells)
}

/// The cells of a polygon's boundary, a segment each.
pub fn boundary_of(alloc: Global, polygon: &Feature) -> Result<Cells, NoMemory>
    ensures { IfOk result (λ cells. cells ≡ map {A = Segment} on_segment (sides polygon.now)) }
{
    on_segments(alloc, polygon.shape().segs())
}

/// The cells of a polygon's inside, then those of its boundary.
pub fn closed_cells(alloc: Global, polygon: &Feature, work: &mut Work) -> Result<Cells, NoMemory>
    ensures cells { IfOk result (λ cells. cells ≡ tests.closed_cells polygon.now) }
    ensures uncounted { work.new.judged ≡ work.old.judged }
{
    let mut cells = own_inside(alloc, polygon, work)?;
    cells.append(boundary_of(alloc, polygon)?)?;
    Ok(cells)
}

// Whether a vertex of these segments is out of the rectangle.
fn sticks_out(segments: &[Seg], frame: &Rect) -> bool
    ensures { result ≡ list_any (is_out frame.now) segments.now }
{
    segments
        .iter()
        .any(|segment| !frame.holds_point(segment.lo()))
}

fn is_polygon(feature: &Feature) -> bool
    ensures { OnTrue result (IsFit kind.Polygon feature.now) }
{
    let shape = feature.shape();
    shape.simple_law();
    shape.kind() == Kind::Polygon
}

pub(crate) fn are_polygons(subject: &Feature, polygon: &Feature) -> bool
    ensures subject { OnTrue result (IsFit kind.Polygon subject.now) }
    ensures polygon { OnTrue result (IsFit kind.Polygon polygon.now) }
{
    is_polygon(subject) && is_polygon(polygon)
}

// Whether a vertex of the subject is out of the polygon's envelope.
fn is_beyond(subject: &Feature, polygon: &Feature) -> bool
    ensures { OnTrue result (tests.covers subject.now polygon.now ≡ false) }
{
    let frame = polygon.shape().env();
    are_polygons(subject, polygon) && sticks_out(subject.shape().segs(), &frame)
}

/// Whether the polygon covers the subject, of which these are the closed cells. A polygon whose envelope does not hold the
/// subject's vertices is passed over.
pub fn covers(
    alloc: Global,
    polygon: &Feature,
    subject: &Feature,
    cells: &Cells,
    work: &mut Work,
) -> Result<bool, NoMemory>
    requires { cells.now ≡ tests.closed_cells subject.now }
    ensures covers { IfOk result (λ covered. covered ≡ tests.covers subject.now polygon.now) }
    ensures uncounted { work.new.judged ≡ work.old.judged }
{
    if is_beyond(subject, polygon) {
        return Ok(false);
    }
    let outside = outside_of(alloc, polygon, work)?;
    let left = cells.carve_by(alloc, &outside)?;
    Ok(left.len() == 0)
}
