//! What the columns of a polygon rest on, and what its inside means, as laws of their own. The functions do nothing: their clauses
//! are the laws.
ghost use Rattle.std.specs.Prelude.{◌≡◌, ◌↔◌};
ghost use Rattle.plane_terms.specs.Point.{Place, Point, IsAt};
ghost use Rattle.plane_terms.specs.Segment.{OnSegment, segment_between};
ghost use Rattle.plane_terms.specs.Shape.{Shape, segments_of};
ghost use Rattle.plane_terms.specs.Polygon.{IsInside};
ghost use Rattle.plane_terms.specs.Between.{LiesBetween, IsClearBetween};
ghost use Rattle.plane_terms.specs.declared.kind.Kind.TheVariants as kind;
ghost use Rattle.column_laws.specs.Slots.{ColumnsHaveOneOrder, SlotsAreClear, SlotsCount, SlotsAreEnough, NoneCountsBeside};

/// The segments of a column stand in one order over the whole strip between its walls, both walls included.
pub fn columns_have_one_order()
    ensures { ColumnsHaveOneOrder }
{}

/// No point of a slot's cell, in a column or on a wall, is on the boundary, and as many segments run below it as the slot's
/// parity says.
pub fn slots_are_clear()
    ensures { SlotsAreClear }
{}

/// Each point that is not on the boundary lies in a cell of some slot, or left or right of everything, where no segment counts.
pub fn slots_are_enough()
    ensures enough { SlotsAreEnough }
    ensures beside { NoneCountsBeside }
{}

/// Exactly j segments run below a point of the slot j of a column, counted from 0 below, its left wall included.
pub fn slots_count()
    ensures { SlotsCount }
{}

/// Two points between which a polygon's boundary has no point are both inside the polygon or both not: a traveller who meets no side
/// stays inside or stays out. It holds for every polygon, valid or not, and for any two points of the plane, on the grid or not. So the
/// odd count of the definition is what one means by an inside.
pub fn segment_law()
    ensures { (s : Shape) → s.kind ≡ kind.Polygon → (p q : Point) → IsClearBetween (segments_of s) p q
        → (IsInside (segments_of s) p ↔ IsInside (segments_of s) q) }
{}

/// Between two places of the grid lie exactly the points of the segment that joins them.
pub fn between_law()
    ensures { (a b : Place) (p q r : Point) → IsAt a p → IsAt b q → (LiesBetween p q r ↔ OnSegment (segment_between a b) r) }
{}
