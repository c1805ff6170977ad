ghost use Rattle.rule_words.specs.declared.rule_kind.RuleKind.TheVariants as kind;

use crate::rule_body::RuleBody;
use grid_plane::NoMemory;
use rule_core::{Findings, RuleRow, View, Work};
use rule_loops::{found, sides_left};
use rule_words::RuleKind;
use shape::Feature;
use std::alloc::Global;

/// Area Boundary Must Be Covered By Boundary Of: each point of the boundary of a polygon of the side is on the boundary of
/// some polygon of the second side.
pub struct PolygonAreaBoundaryMustBeCoveredByBoundaryOf;

impl RuleBody for PolygonAreaBoundaryMustBeCoveredByBoundaryOf {
    ghost kind = { kind.PolygonAreaBoundaryMustBeCoveredByBoundaryOf };

    fn kind() -> RuleKind {
        RuleKind::PolygonAreaBoundaryMustBeCoveredByBoundaryOf
    }

    fn cut(
        alloc: Global,
        row: &RuleRow,
        subject: &Feature,
        view: &View<'_>,
        _work: &mut Work,
    ) -> Result<Findings, NoMemory> {
        found(alloc, sides_left(alloc, row.dest_side(), subject, view)?)
    }
}
