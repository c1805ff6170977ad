ghost use Rattle.std.specs.Prelude.{◌≡◌, ◌<◌, ◌≤◌, ◌++◌, drop, length, IfSome, IfOk};
ghost use Rattle.topology_terms.specs.Cells.{outside};
ghost use Rattle.rule_loops.specs.Open.{chosen, outsides};

use crate::polygon::outside_of;
use convex_cell::{BoundedCells, Piece};
use grid_plane::{Half, NoMemory, Op, Rect};
use rule_core::{Side, View, Work};
use shape::Feature;
use std::alloc::Global;
use std::marker::Model;
use std::rc::Rc;

/// Polygons of so many cells are held at once, at most: some 120 bytes each.
const MOST_CELLS: usize = 262_144;

/// And so many polygons, since each may take a call in the call for the one before it: some 400 bytes of the stack.
const MOST_POLYGONS: usize = 8_192;

/// A polygon round the subject: a box round it, and the cells of what is closed out of it.
#[derive(Drop)]
pub(crate) struct Nearby {
    env: Rect,
    pub(crate) outside: Rc<BoundedCells>,
}

impl Model for Nearby {
    ghost use Rattle.std.specs.Prelude.{List};
    ghost use Rattle.plane_terms.specs.Cell as planes;

    ghost Value = { List planes.Cell };

    ghost view = { λ n. n.outside.value };
}

/// Whether the feature is of the side, and is not the one of this handle, where one is given.
pub(crate) fn is_chosen(side: Side, except: Option<u32>, other: &Feature) -> bool
    ensures { result ≡ chosen side except other.now }
{
    side.holds(other)
        && match except {
            Some(handle) => other.handle() != handle,
            None => true,
        }
}

/// A polygon with the cells of what is closed out of it.
pub(crate) fn polygon_nearby(
    alloc: Global,
    polygon: &Feature,
    work: &mut Work,
) -> Result<Nearby, NoMemory>
    ensures outside { IfOk result (λ n. n ≡ outside polygon.now) }
    ensures uncounted { work.new.judged ≡ work.old.judged }
{
    let outside = outside_of(alloc, polygon, work)?;
    let env = polygon.shape().env();
    Ok(Nearby { env, outside })
}

/// Polygons that are held at once, and the place in the view from which on they are not.
#[derive(Drop)]
pub(crate) struct NearPolygons {
    pub(crate) held: Vec<Nearby>,
    pub(crate) rest: usize,
}

/// Behind these polygons those that are chosen, or the first of them where they are too many or have too many cells.
pub(crate) fn nearby_of(
    alloc: Global,
    first: Vec<Nearby>,
    side: Side,
    except: Option<u32>,
    view: &View<'_>,
    work: &mut Work,
) -> Result<NearPolygons, NoMemory>
    ensures all { IfOk result (λ near. near.held.items ++ outsides side except (drop near.rest view.now) ≡ first.items ++ outsides side except view.now) }
    ensures uncounted { work.new.judged ≡ work.old.judged }
{
    let mut held = first;
    let mut room = MOST_CELLS;
    for i in 0..view.len() {
        let other = view.feature(i);
        if is_chosen(side, except, other) {
            let near = polygon_nearby(alloc, other, work)?;
            let count = near.outside.cells().len();
            if count > room || held.len() >= MOST_POLYGONS {
                return Ok(NearPolygons { held, rest: i });
            }
            room -= count;
            held.push(near)?;
        }
    }
    Ok(NearPolygons {
        held,
        rest: view.len(),
    })
}

// The greatest product of the factor and a number from low to high.
fn greatest(factor: i64, low: i32, high: i32) -> i64 {
    if factor < 0 {
        return factor.saturating_mul(i64::from(low));
    }
    factor.saturating_mul(i64::from(high))
}

// The greatest value of the half-plane in the box.
fn highest(half: &Half, env: &Rect) -> i64 {
    greatest(half.a(), env.x0(), env.x1())
        .saturating_add(greatest(half.b(), env.y0(), env.y1()))
        .saturating_add(half.c())
}

// Whether the half-plane leaves out the box. An upright or a level one is passed over: the bounds of the piece tell as much.
fn is_off(half: &Half, env: &Rect) -> bool {
    if half.a() == 0 || half.b() == 0 {
        return false;
    }
    match half.op() {
        Op::Over => highest(half, env) <= 0,
        Op::AtLeast => highest(half, env) < 0,
        Op::Zero => highest(half, env) < 0 || highest(&half.turned(Op::Zero), env) < 0,
    }
}

// Whether neither the bounds of the piece nor one of its half-planes leaves out the box. No answer rests on it, only how long an
// answer takes.
fn is_near(piece: &Piece, env: &Rect) -> bool {
    !piece.is_off(env) && !piece.halves().iter().any(|half| is_off(half, env))
}

/// The first of the polygons near the piece, from this place of the list on.
pub(crate) fn next_near(piece: &Piece, near: &[Nearby], from: usize) -> Option<usize>
    ensures later { IfSome result (λ k. from ≤ k) }
    ensures within { IfSome result (λ k. k < length near.now) }
{
    for k in from..near.len() {
        let nearby = &near[k];
        if is_near(piece, &nearby.env) {
            return Some(k);
        }
    }
    None
}
