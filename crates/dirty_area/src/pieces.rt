ghost use Rattle.std.specs.Prelude.{◌≡◌, int_lt, true};
ghost use Rattle.std.specs.Option.{option_to_list};
ghost use Rattle.plane_terms.specs.Point.{Point};
ghost use Rattle.plane_terms.specs.Rectangle.{RectHolds, RectsMeet, rect_of};
ghost use Rattle.plane_terms.specs.Dirt.{Covers, piece_if, pieces};
ghost use Rattle.dirty_area.specs.Parts.{IsCommon};

use grid_plane::Rect;

/// The law of pieces: every point of the rectangle outside the window is held by a piece, and every piece lies in the rectangle.
pub fn pieces_law(r: &Rect, window: &Rect)
    ensures hold { (p : Point) → RectHolds r.now p → ¬ (RectHolds window.now p) → Covers (pieces r.now window.now) p }
    ensures within { (p : Point) → Covers (pieces r.now window.now) p → RectHolds r.now p }
{
    let _ = r;
    let _ = window;
}

/// The piece left of the window.
pub fn left(r: &Rect, w: &Rect) -> Option<Rect>
    requires { RectsMeet r.now w.now }
    ensures { option_to_list result ≡ piece_if (int_lt r.now.x0 w.now.x0) (rect_of r.now.x0 r.now.y0 w.now.x0 r.now.y1) }
{
    r.corner_law();
    w.corner_law();
    if r.x0() < w.x0() {
        Some(Rect::of_sides(r.x0(), r.y0(), w.x0(), r.y1()))
    } else {
        None
    }
}

/// The piece right of the window.
pub fn right(r: &Rect, w: &Rect) -> Option<Rect>
    requires { RectsMeet r.now w.now }
    ensures { option_to_list result ≡ piece_if (int_lt w.now.x1 r.now.x1) (rect_of w.now.x1 r.now.y0 r.now.x1 r.now.y1) }
{
    r.corner_law();
    w.corner_law();
    if w.x1() < r.x1() {
        Some(Rect::of_sides(w.x1(), r.y0(), r.x1(), r.y1()))
    } else {
        None
    }
}

/// The piece below the window, as wide as what both have in common.
pub fn below(r: &Rect, w: &Rect, common: &Rect) -> Option<Rect>
    requires { IsCommon common.now r.now w.now }
    ensures { option_to_list result ≡ piece_if (int_lt r.now.y0 w.now.y0) (rect_of common.now.x0 r.now.y0 common.now.x1 w.now.y0) }
{
    r.corner_law();
    w.corner_law();
    if r.y0() < w.y0() {
        Some(Rect::of_sides(common.x0(), r.y0(), common.x1(), w.y0()))
    } else {
        None
    }
}

/// The piece above the window, as wide as what both have in common.
pub fn above(r: &Rect, w: &Rect, common: &Rect) -> Option<Rect>
    requires { IsCommon common.now r.now w.now }
    ensures { option_to_list result ≡ piece_if (int_lt w.now.y1 r.now.y1) (rect_of common.now.x0 w.now.y1 common.now.x1 r.now.y1) }
{
    r.corner_law();
    w.corner_law();
    if w.y1() < r.y1() {
        Some(Rect::of_sides(common.x0(), w.y1(), common.x1(), r.y1()))
    } else {
        None
    }
}
