ghost use Rattle.std.specs.Prelude.{◌≡◌};
ghost use Rattle.grid_index.specs.Relations.{stands};

use grid_plane::Rect;

/// How a rectangle of an index stands to one that is asked about.
#[derive(Clone, Copy)]
pub enum Relation {
    /// They meet; touching is meeting.
    Meets,
    /// It holds the other.
    Holds,
    /// It holds the other or lies in it.
    IsNested,
}

impl Relation {
    /// Whether the first rectangle stands so to the second.
    pub fn is_between(self, s: &Rect, r: &Rect) -> bool
        ensures { result ≡ stands self s.now r.now }
    {
        match self {
            Relation::Meets => s.meets(r),
            Relation::Holds => s.holds_rect(r),
            Relation::IsNested => s.holds_rect(r) || r.holds_rect(s),
        }
    }
}
