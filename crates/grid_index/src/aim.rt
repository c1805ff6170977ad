ghost use Rattle.std.specs.Prelude.{◌≡◌, Bool, true};
ghost use Rattle.plane_terms.specs.Rectangle.{Rectangle, IsRectangle, IsWithin, rects_meet};
ghost use Rattle.sound_laws.proofs.Meetings.{meets_wider};

use grid_plane::Rect;

/// What an index is asked about: a part of a rectangle, its window.
pub trait Aim {
    ghost window: { Self → Rectangle };

    ghost touching: { Self → Rectangle → Bool };

    /// Whether some of it lies in the rectangle.
    fn touches(&self, r: &Rect) -> bool
        ensures { result ≡ touching self.now r.now };

    /// The law that its window is a rectangle of the grid.
    fn window_law(&self)
        ensures { IsRectangle (window self.now) };

    ghost wider: { (a : Self) → (r s : Rectangle) → IsWithin r s → touching a r ≡ true → touching a s ≡ true };

    ghost inside: { (a : Self) → (r : Rectangle) → touching a r ≡ true → rects_meet (window a) r ≡ true };
}

/// The whole of a rectangle; touching is meeting.
impl Aim for Rect {
    ghost window = { λ r. r };

    ghost touching = { rects_meet };

    fn touches(&self, r: &Rect) -> bool {
        self.meets(r)
    }

    fn window_law(&self) {
        self.corner_law();
    }

    ghost wider = { meets_wider };

    ghost inside = { λ a r t. t };
}
