ghost use Rattle.rule_words.specs.declared.rule_kind.RuleKind.TheVariants as kind;

use crate::rule_body::RuleBody;
use grid_plane::NoMemory;
use rule_core::{Findings, RuleRow, View, Work};
use rule_loops::{found, sides_left};
use rule_words::RuleKind;
use shape::Feature;
use std::alloc::Global;

/// Boundary Must Be Covered By: each point of the boundary of a polygon of the side is on some line of the second side.
pub struct PolygonBoundaryMustBeCoveredBy;

impl RuleBody for PolygonBoundaryMustBeCoveredBy {
    ghost kind = { kind.PolygonBoundaryMustBeCoveredBy };

    fn kind() -> RuleKind {
        RuleKind::PolygonBoundaryMustBeCoveredBy
    }

    fn cut(
        alloc: Global,
        row: &RuleRow,
        subject: &Feature,
        view: &View<'_>,
        _work: &mut Work,
    ) -> Result<Findings, NoMemory> {
        found(alloc, sides_left(alloc, row.dest_side(), subject, view)?)
    }
}
