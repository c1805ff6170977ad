ghost use Rattle.rule_words.specs.declared.rule_kind.RuleKind.TheVariants as kind;

use crate::rule_body::RuleBody;
use grid_plane::NoMemory;
use rule_core::{Findings, RuleRow, View, Work};
use rule_loops::{NoneThere, SideThere, bad_place, found};
use rule_words::RuleKind;
use shape::Feature;
use std::alloc::Global;

/// Must Be Covered By Line: each point of the side is on some line of the second side, its ends included.
pub struct PointMustBeCoveredByLine;

impl RuleBody for PointMustBeCoveredByLine {
    ghost kind = { kind.PointMustBeCoveredByLine };

    fn kind() -> RuleKind {
        RuleKind::PointMustBeCoveredByLine
    }

    fn cut(
        alloc: Global,
        row: &RuleRow,
        subject: &Feature,
        view: &View<'_>,
        _work: &mut Work,
    ) -> Result<Findings, NoMemory> {
        found(
            alloc,
            bad_place::<NoneThere<SideThere>>(alloc, row.dest_side(), subject, view)?,
        )
    }
}
