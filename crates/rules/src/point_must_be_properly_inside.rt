ghost use Rattle.rule_words.specs.declared.rule_kind.RuleKind.TheVariants as kind;

use crate::rule_body::RuleBody;
use grid_plane::NoMemory;
use rule_core::{Findings, RuleRow, View, Work};
use rule_loops::{InsideThere, NoneThere, bad_place, found};
use rule_words::RuleKind;
use shape::Feature;
use std::alloc::Global;

/// Must Be Properly Inside: each point of the side is inside some polygon of the second side. On a boundary is not inside.
pub struct PointMustBeProperlyInside;

impl RuleBody for PointMustBeProperlyInside {
    ghost kind = { kind.PointMustBeProperlyInside };

    fn kind() -> RuleKind {
        RuleKind::PointMustBeProperlyInside
    }

    fn cut(
        alloc: Global,
        row: &RuleRow,
        subject: &Feature,
        view: &View<'_>,
        _work: &mut Work,
    ) -> Result<Findings, NoMemory> {
        found(
            alloc,
            bad_place::<NoneThere<InsideThere>>(alloc, row.dest_side(), subject, view)?,
        )
    }
}
