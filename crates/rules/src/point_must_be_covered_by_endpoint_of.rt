ghost use Rattle.rule_words.specs.declared.rule_kind.RuleKind.TheVariants as kind;

use crate::rule_body::RuleBody;
use grid_plane::NoMemory;
use rule_core::{Findings, RuleRow, View, Work};
use rule_loops::{EndThere, NoneThere, bad_place, found};
use rule_words::RuleKind;
use shape::Feature;
use std::alloc::Global;

/// Must Be Covered By Endpoint Of: each point of the side is at an end of some line of the second side.
pub struct PointMustBeCoveredByEndpointOf;

impl RuleBody for PointMustBeCoveredByEndpointOf {
    ghost kind = { kind.PointMustBeCoveredByEndpointOf };

    fn kind() -> RuleKind {
        RuleKind::PointMustBeCoveredByEndpointOf
    }

    fn cut(
        alloc: Global,
        row: &RuleRow,
        subject: &Feature,
        view: &View<'_>,
        _work: &mut Work,
    ) -> Result<Findings, NoMemory> {
        found(
            alloc,
            bad_place::<NoneThere<EndThere>>(alloc, row.dest_side(), subject, view)?,
        )
    }
}
