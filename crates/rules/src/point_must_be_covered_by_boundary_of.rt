ghost use Rattle.rule_words.specs.declared.rule_kind.RuleKind.TheVariants as kind;

use crate::rule_body::RuleBody;
use grid_plane::NoMemory;
use rule_core::{Findings, RuleRow, View, Work};
use rule_loops::{NoneThere, SideThere, bad_place, found};
use rule_words::RuleKind;
use shape::Feature;
use std::alloc::Global;

/// Must Be Covered By Boundary Of: each point of the side is on the boundary of some polygon of the second side.
pub struct PointMustBeCoveredByBoundaryOf;

impl RuleBody for PointMustBeCoveredByBoundaryOf {
    ghost kind = { kind.PointMustBeCoveredByBoundaryOf };

    fn kind() -> RuleKind {
        RuleKind::PointMustBeCoveredByBoundaryOf
    }

    fn cut(
        alloc: Global,
        row: &RuleRow,
        subject: &Feature,
        view: &View<'_>,
        _work: &mut Work,
    ) -> Result<Findings, NoMemory> {
        found(
            alloc,
            bad_place::<NoneThere<SideThere>>(alloc, row.dest_side(), subject, view)?,
        )
    }
}
