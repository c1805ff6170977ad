ghost use Rattle.rule_words.specs.declared.rule_kind.RuleKind.TheVariants as kind;

use crate::rule_body::RuleBody;
use grid_plane::NoMemory;
use rule_core::{Findings, RuleRow, View, Work};
use rule_loops::{NoneThere, PointThere, bad_ends, found};
use rule_words::RuleKind;
use shape::Feature;
use std::alloc::Global;

/// Endpoint Must Be Covered By: at each end of a line of the side is some point of the second side.
pub struct LineEndpointMustBeCoveredBy;

impl RuleBody for LineEndpointMustBeCoveredBy {
    ghost kind = { kind.LineEndpointMustBeCoveredBy };

    fn kind() -> RuleKind {
        RuleKind::LineEndpointMustBeCoveredBy
    }

    fn cut(
        alloc: Global,
        row: &RuleRow,
        subject: &Feature,
        view: &View<'_>,
        _work: &mut Work,
    ) -> Result<Findings, NoMemory> {
        found(
            alloc,
            bad_ends::<NoneThere<PointThere>>(alloc, row.dest_side(), subject, view)?,
        )
    }
}
