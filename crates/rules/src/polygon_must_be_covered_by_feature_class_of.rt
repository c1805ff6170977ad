ghost use Rattle.rule_words.specs.declared.rule_kind.RuleKind.TheVariants as kind;

use crate::rule_body::RuleBody;
use grid_plane::NoMemory;
use rule_core::{Findings, RuleRow, View, Work};
use rule_loops::{area_left, found};
use rule_words::RuleKind;
use shape::Feature;
use std::alloc::Global;

/// Must Be Covered By Feature Class Of, for polygons: each inside point of a polygon of the side is inside or on the
/// boundary of some polygon of the second side, not always the same one.
pub struct PolygonMustBeCoveredByFeatureClassOf;

impl RuleBody for PolygonMustBeCoveredByFeatureClassOf {
    ghost kind = { kind.PolygonMustBeCoveredByFeatureClassOf };

    fn kind() -> RuleKind {
        RuleKind::PolygonMustBeCoveredByFeatureClassOf
    }

    fn cut(
        alloc: Global,
        row: &RuleRow,
        subject: &Feature,
        view: &View<'_>,
        work: &mut Work,
    ) -> Result<Findings, NoMemory> {
        found(
            alloc,
            area_left(alloc, row.dest_side(), subject, view, work)?,
        )
    }
}
