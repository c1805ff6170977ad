ghost use Rattle.std.specs.Prelude.{◌≡◌, List, Bool, IfOk, map, filter};
ghost use Rattle.plane_terms.specs.Point.{Place};
ghost use Rattle.plane_terms.specs.Cell.{at_place};
ghost use Rattle.plane_terms.specs.Shape as planes;
ghost use Rattle.topology_terms.specs.Feature as terms;
ghost use Rattle.topology_terms.specs.Tests.{in_order_once};
ghost use Rattle.topology_terms.specs.Plans as plans;
ghost use Rattle.topology_terms.specs.Together.{of_side};

use crate::around::{AtPlace, none_there};
use crate::counts::{ends_at, is_single_at, segments_at};
use crate::places::is_among;
use convex_cell::{Cell, Cells};
use grid_plane::{GridPoint, NoMemory};
use rule_core::{Side, View};
use shape::{Feature, Shape};
use std::alloc::Global;
use std::marker::PhantomData;

/// What makes a place of the subject bad, by the features around it.
pub trait Bad {
    ghost bad: { List terms.Feature → Place → Bool };

    /// Whether the place is bad among the features of the side that are shown.
    fn is_bad(side: Side, view: &View<'_>, place: GridPoint) -> bool
        ensures { result ≡ bad (of_side side view.now) place };
}

/// None of the features passes the test at the place.
pub struct NoneThere<T: AtPlace> {
    test: PhantomData<T>,
}

impl<T: AtPlace> Bad for NoneThere<T> {
    ghost bad = { plans.none_at T.at };

    fn is_bad(side: Side, view: &View<'_>, place: GridPoint) -> bool {
        none_there::<T>(side, view, place)
    }
}

/// A dangle: one single segment of the lines is there.
pub struct Dangle;

impl Bad for Dangle {
    ghost bad = { plans.is_dangle };

    fn is_bad(side: Side, view: &View<'_>, place: GridPoint) -> bool {
        is_single_at(side, view, place)
    }
}

/// A pseudo node: two ends of the lines are there, and no segment but those of the two.
pub struct PseudoNode;

impl Bad for PseudoNode {
    ghost bad = { plans.is_pseudo };

    fn is_bad(side: Side, view: &View<'_>, place: GridPoint) -> bool {
        ends_at(side, view, place) == 2 && segments_at(side, view, place) == 2
    }
}

// The cells of those of the places that are bad.
fn bad_among<B: Bad>(
    alloc: Global,
    places: &[GridPoint],
    side: Side,
    view: &View<'_>,
) -> Result<Cells, NoMemory>
    ensures { IfOk result (λ cells. cells ≡ map {A = Place} at_place (filter (B.bad (of_side side view.now)) places.now)) }
{
    let mut cells = Cells::new(alloc);
    for place in places {
        if B::is_bad(side, view, *place) {
            cells.push(Cell::at(alloc, *place)?)?;
        }
    }
    Ok(cells)
}

// The ends of a line, each place once, at its first.
fn ends_once(alloc: Global, line: &Shape) -> Result<Vec<GridPoint>, NoMemory>
    ensures { IfOk result (λ ends. ends.items ≡ in_order_once (planes.ends_of line.now)) }
{
    let mut ends = Vec::new(alloc);
    for i in 0..line.end_count() {
        let end = line.end(i);
        if !is_among(&ends, end) {
            ends.push(end)?;
        }
    }
    Ok(ends)
}

/// The cells of those ends of the subject that are bad among the features of the side that are shown, each place once.
pub fn bad_ends<B: Bad>(
    alloc: Global,
    side: Side,
    subject: &Feature,
    view: &View<'_>,
) -> Result<Cells, NoMemory>
    ensures { IfOk result (λ cells. cells ≡ plans.bad_places plans.own_ends B.bad subject.now (of_side side view.now)) }
{
    let ends = ends_once(alloc, subject.shape())?;
    bad_among::<B>(alloc, &ends, side, view)
}

/// The cell of the subject's place, where it is bad among the features of the side that are shown.
pub fn bad_place<B: Bad>(
    alloc: Global,
    side: Side,
    subject: &Feature,
    view: &View<'_>,
) -> Result<Cells, NoMemory>
    ensures { IfOk result (λ cells. cells ≡ plans.bad_places plans.own_place B.bad subject.now (of_side side view.now)) }
{
    bad_among::<B>(alloc, &[subject.shape().place()], side, view)
}
