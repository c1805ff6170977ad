ghost use Rattle.std.specs.Prelude.{◌≡◌, ◌<◌, length, false, slice_get, Some, is_some, IfSome};
ghost use Rattle.std.specs.Option.{option_map_or};
ghost use Rattle.plane_terms.specs.Point.{Place};
ghost use Rattle.plane_terms.specs.Rectangle.{rect_at, is_within};
ghost use Rattle.plane_terms.specs.Shape.{ends_of, envelope_of};
ghost use Rattle.validation_laws.specs.Views.{holds_any, open_ends};
ghost use Rattle.rule_laws.proofs.Ends.{open_wider, open_inside};

use grid_index::Aim;
use grid_plane::{GridPoint, Rect};
use shape::Shape;
use std::marker::Model;

/// The ends of a line, as what an index is asked about; of a line of two ends, those that are open. These are at hand.
#[derive(Drop)]
pub(crate) struct LineEnds<'a> {
    line: &'a Shape,
    first: Option<GridPoint>,
    last: Option<GridPoint>,
}

impl<'a> Model for LineEnds<'a> {
    ghost use Rattle.std.specs.Prelude.{◌≡◌, ◌-◌, length, slice_get, Some, is_some, IfSome};
    ghost use Rattle.plane_terms.specs.Shape as terms;
    ghost use Rattle.validation_laws.specs.Views.{OpenEnds};

    ghost Value = { OpenEnds };

    ghost view = { λ e. record { line = e.line.now; first = is_some e.first; last = is_some e.last } };

    ghost invariant = { λ e. IfSome e.first (λ q. slice_get (terms.ends_of e.line.now) 0 ≡ Some q)
        × IfSome e.last (λ q. slice_get (terms.ends_of e.line.now) 1 ≡ Some q) };
}

// Whether an end of the line lies in the rectangle.
fn has_end_in(line: &Shape, r: &Rect) -> bool
    ensures { result ≡ holds_any (ends_of line.now) r.now }
{
    for i in 0..line.end_count() {
        if r.holds_point(line.end(i)) {
            return true;
        }
    }
    false
}

// Whether the end, if it is at hand, lies in the rectangle.
fn is_in(end: Option<GridPoint>, r: &Rect) -> bool
    ensures { result ≡ option_map_or (λ (q : Place). is_within (rect_at q) r.now) end false }
{
    match end {
        Some(q) => r.holds_point(q),
        None => false,
    }
}

// The end of this number, if it is open and the line has two.
fn end_if(line: &Shape, i: usize, is_open: bool) -> Option<GridPoint>
    ensures there { length (ends_of line.now) ≡ 2 → i < 2 → is_some result ≡ is_open }
    ensures end { IfSome result (λ q. slice_get (ends_of line.now) i ≡ Some q) }
{
    if is_open && i < line.end_count() {
        return Some(line.end(i));
    }
    None
}

impl<'a> LineEnds<'a> {
    /// The ends of this line.
    pub(crate) fn of(line: &'a Shape) -> LineEnds<'a>
        ensures ends { open_ends result ≡ ends_of line.now }
        ensures line { result.line ≡ line.now }
    {
        LineEnds::with_open(line, true, true)
    }

    /// The ends of this line; where it has two, the first and the last if these say so.
    pub(crate) fn with_open(line: &'a Shape, first: bool, last: bool) -> LineEnds<'a>
        ensures ends { open_ends result ≡ open_ends (record { line = line.now; first = first; last = last }) }
        ensures line { result.line ≡ line.now }
    {
        LineEnds {
            line,
            first: end_if(line, 0, first),
            last: end_if(line, 1, last),
        }
    }
}

impl<'a> Aim for LineEnds<'a> {
    ghost window = { λ e. envelope_of e.line };

    ghost touching = { λ e. holds_any (open_ends e) };

    fn touches(&self, r: &Rect) -> bool {
        if self.line.end_count() != 2 {
            return has_end_in(self.line, r);
        }
        is_in(self.first, r) || is_in(self.last, r)
    }

    fn window_law(&self) {
        self.line.env().corner_law();
    }

    ghost wider = { open_wider };

    ghost inside = { open_inside };
}
