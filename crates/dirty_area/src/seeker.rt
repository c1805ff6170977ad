ghost use Rattle.std.specs.Prelude.{◌≡◌};
ghost use Rattle.std.specs.List.{list_any, position};
ghost use Rattle.dirty_area.specs.Indexed.{is_same};

use grid_plane::Rect;
use std::marker::Model;

/// A list in which rectangles are looked for: each first at the place behind the one that was found before it. Where two lists have
/// most in common and in one order, so is most of the one found in the other at once.
#[derive(Drop)]
pub(crate) struct Seeker<'a> {
    rects: &'a [Rect],
    next: usize,
}

impl<'a> Model for Seeker<'a> {
    ghost use Rattle.std.specs.Prelude.{List};
    ghost use Rattle.plane_terms.specs.Rectangle.{Rectangle};

    ghost Value = { List Rectangle };

    ghost view = { λ s. s.rects.now };
}

// Whether both are one rectangle.
fn is_same(s: &Rect, t: &Rect) -> bool
    ensures { result ≡ is_same s.now t.now }
{
    if s.x0() != t.x0() {
        return false;
    }
    if s.y0() != t.y0() {
        return false;
    }
    if s.x1() != t.x1() {
        return false;
    }
    s.y1() == t.y1()
}

// The first place of the rectangle in a list.
fn place_in(rects: &[Rect], s: &Rect) -> Option<usize>
    ensures { result ≡ position (λ t. is_same t s.now) rects.now }
{
    rects.iter().position(|t| is_same(t, s))
}

impl<'a> Seeker<'a> {
    /// Nothing has been looked for in the list.
    pub(crate) fn new(rects: &'a [Rect]) -> Seeker<'a>
        ensures { result ≡ rects.now }
    {
        Seeker { rects, next: 0 }
    }

    /// Whether the list has the rectangle.
    pub(crate) fn has(&mut self, s: &Rect) -> bool
        ensures value { result ≡ list_any (λ t. is_same t s.now) self.old }
        ensures same { self.new ≡ self.old }
    {
        if self.next < self.rects.len() && is_same(&self.rects[self.next], s) {
            self.next += 1;
            return true;
        }
        match place_in(self.rects, s) {
            Some(i) => {
                self.next = i + 1;
                true
            }
            None => false,
        }
    }
}
