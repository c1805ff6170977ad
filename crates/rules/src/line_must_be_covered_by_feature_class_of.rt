ghost use Rattle.rule_words.specs.declared.rule_kind.RuleKind.TheVariants as kind;

use crate::rule_body::RuleBody;
use grid_plane::NoMemory;
use rule_core::{Findings, RuleRow, View, Work};
use rule_loops::{found, sides_left};
use rule_words::RuleKind;
use shape::Feature;
use std::alloc::Global;

/// Must Be Covered By Feature Class Of, for lines: each point of a line of the side is on some line of the second side.
pub struct LineMustBeCoveredByFeatureClassOf;

impl RuleBody for LineMustBeCoveredByFeatureClassOf {
    ghost kind = { kind.LineMustBeCoveredByFeatureClassOf };

    fn kind() -> RuleKind {
        RuleKind::LineMustBeCoveredByFeatureClassOf
    }

    fn cut(
        alloc: Global,
        row: &RuleRow,
        subject: &Feature,
        view: &View<'_>,
        _work: &mut Work,
    ) -> Result<Findings, NoMemory> {
        found(alloc, sides_left(alloc, row.dest_side(), subject, view)?)
    }
}
